ghost use Rattle.walk.specs.Kinds.{steps, first_step};
ghost use Rattle.std.proofs.Common.{rules};

use super::{Earliest, Kind, Starting};
use crate::visit::Visit;

impl Kind for Earliest {
    ghost ops = { steps };

    ghost laws = { Prim.search rules };

    ghost idempotent = { Prim.search rules };

    fn zero() -> Earliest {
        Earliest::default()
    }

    fn join(self, other: Earliest) -> Earliest {
        self.max(other)
    }

    fn step(self, _visit: Visit) -> Earliest {
        Earliest {
            step: self.step.map(|step| step.saturating_add(1)),
        }
    }

    fn same(self, other: Earliest) -> bool {
        self == other
    }
}

impl Starting for Earliest {
    ghost starting = { first_step };

    fn start(_visit: Visit) -> Earliest {
        Earliest { step: Some(0) }
    }
}
