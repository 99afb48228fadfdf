ghost use Rattle.std.specs.Prelude.{◌≡◌};
ghost use Rattle.layers.specs.Holding.{fresh};
ghost use Rattle.layers.specs.HoldingBack.{hold_back, back_places, back_sent, back_reports};

use crate::hold_ups::HoldUps;
use drive::interface::Drive;
use drive::place::{Answer, MAX_CARRIERS, Place};
use fault::kinds::DriveFault;

/// A layer that answers "not yet" to each movement of a carrier as often as is said of that
/// carrier, before it passes reports down.
#[derive(Drop)]
pub struct HoldBack<D> {
    inner: D,
    hold_ups: HoldUps,
}

impl<D: Drive> HoldBack<D> {
    /// The layer over the drive, with how often each carrier's movements are held up. A movement
    /// that is under way is held up as often as any other.
    pub fn over(inner: D, hold_ups: [u8; MAX_CARRIERS]) -> HoldBack<D>
        ensures { result ≡ hold_back inner (fresh hold_ups) }
    {
        HoldBack {
            inner,
            hold_ups: HoldUps::new(hold_ups),
        }
    }

    /// Gives the drive below back.
    // As of `Section`: a trait of layers would be longer than the line that it saves.
    pub fn into_inner(self) -> D
        ensures { result ≡ self.inner }
    {
        let HoldBack { inner, .. } = self;
        inner
    }
}

impl<D: Drive> Drive for HoldBack<D> {
    ghost meaning = { back_places D.Drive.meaning };

    ghost sent = { back_sent D.Drive.sent };

    ghost reports = { back_reports D.Drive.reports };

    fn count(&self) -> u8 {
        self.inner.count()
    }

    fn place(&self, carrier: u8) -> Result<Place, DriveFault> {
        self.inner.place(carrier)
    }

    fn send(&mut self, carrier: u8, to: u16) -> Result<(), DriveFault> {
        self.inner.send(carrier, to)?;
        self.hold_ups.restart(carrier);
        Ok(())
    }

    fn report(&mut self, carrier: u8) -> Result<(), DriveFault> {
        self.inner.place(carrier)?.destination(carrier)?;
        if self.hold_ups.hold(carrier) {
            return Answer::NotYet.told(carrier);
        }
        self.inner.report(carrier)
    }
}
