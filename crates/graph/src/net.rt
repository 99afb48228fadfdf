ghost use Rattle.std.specs.Prelude.{length};
ghost use Rattle.fixed.specs.Items.{items};
ghost use Rattle.graph.specs.Between.{Between};

use fixed::list::Bounded;
use record::MAX_ENTRIES;
use walk::crossing::{Crossing, MAX_CROSSINGS};
use walk::visit::Visit;

mod makes;
mod reads;

/// Visits, and the crossings between them.
// A visit's number is a plain number, and a call asks that there is such a visit: a type for it
// would have to borrow the net. No model: to be `Copy` it would have to show the empty slots too.
#[derive(Clone, Copy)]
pub(crate) struct Net {
    visits: Bounded<Visit, MAX_ENTRIES>,
    crossings: Bounded<Crossing, MAX_CROSSINGS>,
    ghost between: { Between (length (items visits)) (items crossings) },
}
