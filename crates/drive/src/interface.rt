ghost use Rattle.std.specs.Prelude.{◌≡◌, ℕ, ◌≤◌, List, length};
ghost use Rattle.std.specs.List.{slice_get};
ghost use Rattle.std.specs.Option.{ok_or};
ghost use Rattle.fault.specs.declared.kinds.DriveFault.TheVariants.{NoCarrier};
ghost use Rattle.drive.specs.declared.place.Answer.{Answer};
ghost use Rattle.drive.specs.declared.place.Place.{Place};
ghost use Rattle.drive.specs.Calls.{Sent, Reported};

use crate::place::Place;
use fault::kinds::DriveFault;

/// Whatever moves carriers between cells.
pub trait Drive {
    /// where each carrier is
    ghost meaning: { Self → List Place };

    /// the drive after a send that it accepts
    ghost sent: { Self → ℕ → ℕ → Self };

    /// The report rule: which answers, each with the drive after it, a report on a carrier that
    /// goes may give.
    ghost reports: { Self → ℕ → Answer → Self → Type 0 };

    /// How many carriers there are.
    fn count(&self) -> u8
        ensures count { result ≡ length (meaning self.now) }
        ensures few { result ≤ 16 };

    /// Where a carrier is.
    fn place(&self, carrier: u8) -> Result<Place, DriveFault>
        ensures { result ≡ ok_or (slice_get (meaning self.now) carrier) (NoCarrier carrier) };

    /// Makes a standing carrier go to a cell.
    fn send(&mut self, carrier: u8, to: u16) -> Result<(), DriveFault>
        ensures { Sent meaning sent self.old carrier to result self.new };

    /// Whether a carrier that goes is there, as the drive chooses; if it is, it stands there now.
    fn report(&mut self, carrier: u8) -> Result<(), DriveFault>
        ensures { Reported meaning reports self.old carrier result self.new };
}
