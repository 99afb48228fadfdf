ghost use Rattle.std.specs.Prelude.{◌≡◌, ◌≤◌, length};

use record::MAX_CARRIERS;

/// The cells of a plan's carriers at a step, and at the step before it.
// Two lists and no list of pairs: each is what `Paths::cells_at` answers, which is for all sixteen
// carriers. `carriers` says how many of them the plan has.
#[derive(Clone, Copy)]
pub(crate) struct Moment {
    pub earlier: [u16; MAX_CARRIERS],
    pub later: [u16; MAX_CARRIERS],
    pub carriers: u8,
    ghost earlier_room: { length earlier ≡ 16 },
    ghost later_room: { length later ≡ 16 },
    ghost few: { carriers ≤ 16 },
}
