ghost use Rattle.std.specs.Prelude.{◌≡◌};
ghost use Rattle.std.specs.Option.{ok_or};
ghost use Rattle.fault.specs.declared.kinds.DriveFault.TheVariants.{NoCarrier};
ghost use Rattle.drive.specs.Refusals.{departure, destination, departure_from, destination_of};

use crate::place::Place;
use fault::kinds::DriveFault;

/// How many cells the largest floor has, 64 by 64.
// The side stands in `record`, which no drive knows: a crate below both for it would be no plainer.
pub const MAX_CELLS: u16 = 4096;

impl Place {
    /// The cell that a carrier in this place leaves when it is sent to another, or why it is not
    /// sent.
    pub fn departure(self, carrier: u8, to: u16) -> Result<u16, DriveFault>
        ensures { result ≡ departure_from self carrier to }
    {
        if to >= MAX_CELLS {
            return Err(DriveFault::NoCell(to));
        }
        match self {
            Place::Going(_, _) => Err(DriveFault::AlreadyGoing(carrier)),
            Place::Standing(from) => Ok(from),
        }
    }

    /// The cell to which a carrier in this place goes, or why there is no report on it.
    pub fn destination(self, carrier: u8) -> Result<u16, DriveFault>
        ensures { result ≡ destination_of self carrier }
    {
        match self {
            Place::Standing(_) => Err(DriveFault::NotGoing(carrier)),
            Place::Going(_, to) => Ok(to),
        }
    }
}

/// The place of a carrier, or why it has none.
fn known(place: Option<Place>, carrier: u8) -> Result<Place, DriveFault>
    ensures { result ≡ ok_or place (NoCarrier carrier) }
{
    place.ok_or(DriveFault::NoCarrier(carrier))
}

/// The cell that a carrier leaves when it is sent to another, or why it is not sent. Its place is
/// `None` where there is no such carrier.
pub fn departure(place: Option<Place>, carrier: u8, to: u16) -> Result<u16, DriveFault>
    ensures { result ≡ departure place carrier to }
{
    known(place, carrier)?.departure(carrier, to)
}

/// The cell to which a carrier goes, or why there is no report on it. Its place is `None` where
/// there is no such carrier.
pub fn destination(place: Option<Place>, carrier: u8) -> Result<u16, DriveFault>
    ensures { result ≡ destination place carrier }
{
    known(place, carrier)?.destination(carrier)
}
