ghost use Rattle.std.specs.Prelude.{◌≡◌, map, take};
ghost use Rattle.std.specs.List.{slice_get};
ghost use Rattle.drive.specs.declared.place.Place.TheVariants.{Standing};
ghost use Rattle.drive.specs.Refusals.{destination};
ghost use Rattle.drives.specs.Fleets.{with_place, gone, fleet_reports, Answered};

use drive::interface::Drive;
use drive::place::{Answer, MAX_CARRIERS, Place};
use fault::kinds::DriveFault;
use fixed::list::Bounded;
use std::marker::Model;

/// Where the carriers of a drive are, for a drive that keeps this itself. As a drive it answers
/// "there" to every report. It is not `Copy`, nor is any drive, so that no drive is in two hands.
#[derive(Drop)]
pub struct Fleet {
    places: Bounded<Place, MAX_CARRIERS>,
}

// Clauses see the carriers' places, and that they are at most 16.
impl Model for Fleet {
    ghost use Rattle.drives.specs.Fleets.{Carriers};

    ghost Value = { Carriers };

    ghost use Rattle.fixed.specs.Items.{items};
    ghost use Rattle.fixed.proofs.Held.{items_few};

    ghost view = { λ f. record { places = items f.places; few = items_few f.places } };
}

impl Fleet {
    /// Carriers that stand in the first 16 of the cells, or in all of them if they are fewer.
    pub fn new(cells: &[u16]) -> Fleet
        ensures { result.places ≡ map Standing (take 16 cells.now) }
    {
        let mut places = Bounded::new(Place::Standing(0));
        for &cell in cells.iter().take(MAX_CARRIERS) {
            places.push(Place::Standing(cell)).unwrap();
        }
        Fleet { places }
    }

    /// The cell to which a carrier goes.
    pub fn destination(&self, carrier: u8) -> Result<u16, DriveFault>
        ensures { result ≡ destination (slice_get self.now.places carrier) carrier }
    {
        self.place(carrier)?.destination(carrier)
    }

    /// A report on a carrier with a given answer: if the carrier is there, it stands there now.
    pub fn answer(&mut self, carrier: u8, answer: Answer) -> Result<(), DriveFault>
        ensures { Answered self.old carrier answer result self.new }
    {
        let to = self.destination(carrier)?;
        if answer == Answer::There {
            self.put(carrier, Place::Standing(to));
        }
        answer.told(carrier)
    }

    /// A carrier is in another place.
    fn put(&mut self, carrier: u8, place: Place)
        ensures { self.new ≡ with_place self.old carrier place }
    {
        self.places.set(usize::from(carrier), place);
    }
}

impl Drive for Fleet {
    ghost meaning = { λ f. f.places };

    ghost sent = { gone };

    ghost reports = { fleet_reports };

    fn count(&self) -> u8 {
        self.places.as_slice().len() as u8
    }

    fn place(&self, carrier: u8) -> Result<Place, DriveFault> {
        self.places
            .as_slice()
            .get(usize::from(carrier))
            .copied()
            .ok_or(DriveFault::NoCarrier(carrier))
    }

    fn send(&mut self, carrier: u8, to: u16) -> Result<(), DriveFault> {
        let from = self.place(carrier)?.departure(carrier, to)?;
        self.put(carrier, Place::Going(from, to));
        Ok(())
    }

    fn report(&mut self, carrier: u8) -> Result<(), DriveFault> {
        self.answer(carrier, Answer::There)
    }
}
