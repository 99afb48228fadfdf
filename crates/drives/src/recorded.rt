ghost use Rattle.std.specs.Prelude.{◌≡◌, map, take, drop};
ghost use Rattle.drive.specs.declared.place.Place.TheVariants.{Standing};
ghost use Rattle.drives.specs.Recordings.{recorded_places, recorded_sent, recorded_reports, next_answer};

use crate::fleet::Fleet;
use drive::interface::Drive;
use drive::place::{Answer, Place};
use fault::kinds::DriveFault;
use std::marker::Model;

/// A drive that answers as a list of bytes says, one byte for each report on a carrier that goes:
/// 0 is "not yet", and any other byte, or the list's end, is "there".
#[derive(Drop)]
pub struct Recorded<'a> {
    fleet: Fleet,
    /// the bytes that are left
    bytes: &'a [u8],
}

// Named `'a` as in the struct: a model's impl must repeat its parameters.
impl<'a> Model for Recorded<'a> {
    ghost use Rattle.drives.specs.Recordings.{Recording};

    ghost Value = { Recording };

    ghost view = { λ d. record { fleet = d.fleet; bytes = d.bytes.now } };
}

impl<'a> Recorded<'a> {
    /// Carriers that stand in the first 16 of the cells, or in all of them if they are fewer.
    pub fn new(cells: &[u16], bytes: &'a [u8]) -> Recorded<'a>
        ensures stand { result.fleet.places ≡ map Standing (take 16 cells.now) }
        ensures bytes { result.bytes ≡ bytes.now }
    {
        Recorded {
            fleet: Fleet::new(cells),
            bytes,
        }
    }

    /// Takes the next byte.
    fn take(&mut self) -> Answer
        ensures answer { result ≡ next_answer self.old.bytes }
        ensures after { self.new ≡ record self.old { bytes = drop 1 self.old.bytes } }
    {
        self.bytes
            .split_off_first()
            .map_or(Answer::There, |&byte| byte.into())
    }
}

impl Drive for Recorded<'_> {
    ghost meaning = { recorded_places };

    ghost sent = { recorded_sent };

    ghost reports = { recorded_reports };

    fn count(&self) -> u8 {
        self.fleet.count()
    }

    fn place(&self, carrier: u8) -> Result<Place, DriveFault> {
        self.fleet.place(carrier)
    }

    fn send(&mut self, carrier: u8, to: u16) -> Result<(), DriveFault> {
        self.fleet.send(carrier, to)
    }

    fn report(&mut self, carrier: u8) -> Result<(), DriveFault> {
        self.fleet.destination(carrier)?;
        let answer = self.take();
        self.fleet.answer(carrier, answer)
    }
}
