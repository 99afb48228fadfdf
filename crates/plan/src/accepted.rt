ghost use Rattle.record.specs.Paths.{paths_draft};
ghost use Rattle.plan.specs.Conflicts.{ConflictFree};

use record::paths::Paths;

pub mod reads;

/// An accepted plan: no two carriers are ever in conflict.
#[derive(Clone, Copy)]
pub struct Plan {
    paths: Paths,
    ghost clear: { ConflictFree (paths_draft paths) },
}
