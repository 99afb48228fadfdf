ghost use Rattle.std.specs.Prelude.{◌≡◌};
ghost use Rattle.plan.specs.Plans.{Accepted, Refuses, told, IsVerdict};

use super::Plan;
use crate::conflicts::soonest;
use fault::kinds::{Conflict, PlanFault};
use record::paths::Paths;

/// Refuses paths for their soonest conflict of a kind.
// Entries are refused alike, with another fault: one function for both would be the longer.
fn refuse(paths: &Paths, kind: Conflict) -> Result<(), PlanFault>
    ensures { Refuses paths.now kind result }
{
    soonest(paths, kind).map_or(Ok(()), |meeting| Err(PlanFault::Conflict(kind, meeting)))
}

/// The plan of some paths, unless two carriers are in conflict; clashes come before following
/// conflicts.
fn accept(paths: Paths) -> Result<Plan, PlanFault>
    ensures { Accepted paths result }
{
    refuse(&paths, Conflict::Clash)?;
    refuse(&paths, Conflict::Following)?;
    Ok(Plan { paths })
}

/// The plan in a record's bytes, or the first fault of the record; the record has no other verdict.
impl TryFrom<&[u8]> for Plan {
    type Error = PlanFault;

    ghost try_from_gives = { λ bytes r. IsVerdict bytes.now (told r) };

    fn try_from(bytes: &[u8]) -> Result<Plan, PlanFault> {
        accept(Paths::try_from(bytes)?)
    }
}

impl Plan {
    /// The paths of the plan.
    pub fn paths(&self) -> &Paths
        ensures { result.now ≡ self.now.paths }
    {
        &self.paths
    }
}
