ghost use Rattle.walk.specs.Kinds.{marks};
ghost use Rattle.std.proofs.Common.{rules};

use super::{Kind, Mark};
use crate::visit::Visit;

impl Kind for Mark {
    ghost ops = { marks };

    ghost laws = { Prim.search rules };

    ghost idempotent = { Prim.search rules };

    fn zero() -> Mark {
        Mark::default()
    }

    fn join(self, other: Mark) -> Mark {
        Mark {
            set: self.set || other.set,
        }
    }

    fn step(self, _visit: Visit) -> Mark {
        self
    }

    fn same(self, other: Mark) -> bool {
        self == other
    }
}
