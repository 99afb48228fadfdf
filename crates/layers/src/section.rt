ghost use Rattle.std.specs.Prelude.{◌≡◌, ◌+◌, ◌<◌, ◌≤◌, ◌↔◌, length, IsOk, IfOk, IfErr};
ghost use Rattle.fault.specs.declared.kinds.DriveFault.TheVariants.{NoCarrier};
ghost use Rattle.layers.specs.Sections.{section, restated, part_places, part_sent, part_reports};

use drive::interface::Drive;
use drive::place::Place;
use fault::kinds::DriveFault;

/// A layer that shows some of a drive's carriers, numbered from 0: those from the number `first`
/// on, at most `most` of them.
#[derive(Drop)]
pub struct Section<D> {
    inner: D,
    first: u8,
    most: u8,
}

impl<D: Drive> Section<D> {
    /// A section of the drive: its carriers from the number `first` on, at most `most` of them.
    pub fn over(inner: D, first: u8, most: u8) -> Section<D>
        ensures { result ≡ section inner first most }
    {
        Section { inner, first, most }
    }

    /// Gives the drive below back.
    // As of `HoldBack`: a trait of layers would be longer than the line that it saves.
    pub fn into_inner(self) -> D
        ensures { result ≡ self.inner }
    {
        let Section { inner, .. } = self;
        inner
    }

    /// How many carriers are shown.
    fn shown(&self) -> u8
        ensures shown { result ≡ length (part_places D.meaning self.now) }
        ensures below { length (D.meaning self.now.inner) ≤ 16 }
    {
        let beyond = self.inner.count().saturating_sub(self.first);
        beyond.min(self.most)
    }

    /// The number below of a carrier that is shown.
    fn below(&self, carrier: u8) -> Result<u8, DriveFault>
        ensures shown { IsOk result ↔ (carrier < length (part_places D.meaning self.now)) }
        ensures number { IfOk result (λ k. k ≡ self.now.first + carrier) }
        ensures fault { IfErr result (λ f. f ≡ NoCarrier carrier) }
    {
        if carrier < self.shown() {
            Ok(self.first + carrier)
        } else {
            Err(DriveFault::NoCarrier(carrier))
        }
    }
}

/// What the drive below answers of a carrier, in the section's number of it.
fn restated<T>(answer: Result<T, DriveFault>, carrier: u8) -> Result<T, DriveFault>
    ensures { result ≡ restated carrier answer }
{
    answer.map_err(|fault| fault.renumbered(carrier))
}

impl<D: Drive> Drive for Section<D> {
    ghost meaning = { part_places D.Drive.meaning };

    ghost sent = { part_sent D.Drive.sent };

    ghost reports = { part_reports D.Drive.reports };

    fn count(&self) -> u8 {
        self.shown()
    }

    fn place(&self, carrier: u8) -> Result<Place, DriveFault> {
        let below = self.below(carrier)?;
        restated(self.inner.place(below), carrier)
    }

    fn send(&mut self, carrier: u8, to: u16) -> Result<(), DriveFault> {
        let below = self.below(carrier)?;
        restated(self.inner.send(below, to), carrier)
    }

    fn report(&mut self, carrier: u8) -> Result<(), DriveFault> {
        let below = self.below(carrier)?;
        restated(self.inner.report(below), carrier)
    }
}
