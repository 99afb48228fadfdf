ghost use Rattle.std.specs.Prelude.{◌≡◌, map, take};
ghost use Rattle.drive.specs.declared.place.Place.TheVariants.{Standing};
ghost use Rattle.layers.specs.Holding.{fresh};
ghost use Rattle.layers.specs.Benches.{bench_places};

use crate::hold_back::HoldBack;
use drive::place::MAX_CARRIERS;
use drives::fleet::Fleet;

/// A drive that answers "not yet" to each movement of a carrier as often as is said of that
/// carrier, and then "there".
pub type Bench = HoldBack<Fleet>;

impl HoldBack<Fleet> {
    /// Carriers that stand in the first 16 of the cells, or in all of them if they are fewer, and
    /// for each of them how often its movements are held up.
    pub fn new(cells: &[u16], hold_ups: [u8; MAX_CARRIERS]) -> Bench
        ensures stand { bench_places result ≡ map Standing (take 16 cells.now) }
        ensures held { result.hold_ups ≡ fresh hold_ups }
    {
        HoldBack::over(Fleet::new(cells), hold_ups)
    }
}
