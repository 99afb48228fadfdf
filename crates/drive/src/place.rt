ghost use Rattle.std.specs.Prelude.{◌≡◌, ◌↔◌, IsTrue};
ghost use Rattle.drive.specs.Places.{Holds};
ghost use Rattle.drive.specs.Calls.{answer_of, told};

use fault::kinds::DriveFault;

/// The most carriers that a drive has.
// It stands in `record` too, which no drive knows: a crate below both for it would be no plainer.
pub const MAX_CARRIERS: usize = 16;

/// Where a carrier is: the cell in which it stands, or the two cells between which it goes.
#[derive(Clone, Copy, PartialEq, Eq, Debug)]
pub enum Place {
    Standing(u16),
    Going(u16, u16),
}

/// What a drive can answer to a report on a carrier that goes.
#[derive(Clone, Copy, PartialEq, Eq, Debug)]
pub enum Answer {
    There,
    NotYet,
}

impl Place {
    /// Whether a carrier in this place holds the cell.
    pub fn holds(self, cell: u16) -> bool
        ensures { IsTrue result ↔ (Holds self cell) }
    {
        match self {
            Place::Standing(at) => cell == at,
            Place::Going(from, to) => cell == from || cell == to,
        }
    }
}

/// A byte as an answer: 0 is "not yet", and any other is "there".
impl From<u8> for Answer {
    ghost from_gives = { λ byte answer. answer ≡ answer_of byte };

    fn from(byte: u8) -> Answer {
        match byte {
            0 => Answer::NotYet,
            _ => Answer::There,
        }
    }
}

impl Answer {
    /// The result of a report with this answer: "not yet" is a fault of the carrier.
    pub fn told(self, carrier: u8) -> Result<(), DriveFault>
        ensures { result ≡ told carrier self }
    {
        match self {
            Answer::There => Ok(()),
            Answer::NotYet => Err(DriveFault::NotThere(carrier)),
        }
    }
}
