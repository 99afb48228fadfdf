ghost use Rattle.std.specs.Prelude.{◌≡◌, ◌↔◌, IsTrue};
ghost use Rattle.walk.specs.declared.visit.Visit.{Visit};
ghost use Rattle.walk.specs.Values.{Operations, Laws, Idempotent};

use crate::visit::Visit;

pub mod carriers;
pub mod marks;
pub mod steps;

/// A kind of value that is carried along walks and joined where they meet.
pub trait Kind: Copy {
    ghost ops: { Operations Self };

    /// The value that stands for nothing.
    // No `Default`: the laws are about zero, and one more would have to say that it is the default.
    fn zero() -> Self
        ensures { result ≡ ops.zero };

    /// What two values are together.
    fn join(self, other: Self) -> Self
        ensures { result ≡ ops.join self other };

    /// What becomes of the value as it enters a visit.
    fn step(self, visit: Visit) -> Self
        ensures { result ≡ ops.step self visit };

    /// Whether two values are the same.
    // No `Eq`: a kind may have a `==` of its own that is coarser.
    fn same(self, other: Self) -> bool
        ensures { IsTrue result ↔ (self ≡ other) };

    ghost laws: { Laws ops };

    ghost idempotent: { Idempotent ops };
}

/// A kind whose values start on each carrier's first visit.
pub trait Starting: Kind {
    ghost starting: { Visit → Self };

    /// The value that starts on a first visit.
    fn start(visit: Visit) -> Self
        ensures { result ≡ starting visit };
}

/// Whether a visit is reached.
#[derive(Clone, Copy, PartialEq, Eq, Debug, Default)]
pub struct Mark {
    pub set: bool,
}

/// The earliest step at which a visit can come, if it is reached.
#[derive(Clone, Copy, PartialEq, Eq, PartialOrd, Ord, Debug, Default)]
pub struct Earliest {
    pub step: Option<u16>,
}

/// The carriers that have a part in reaching a visit, a bit for each.
#[derive(Clone, Copy, Default, PartialEq, Eq, Debug)]
pub struct CarrierSet {
    pub bits: u16,
}
