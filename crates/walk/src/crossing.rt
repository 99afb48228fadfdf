/// The most crossings that a graph has.
pub const MAX_CROSSINGS: usize = 1024;

/// A crossing: two visits of different carriers in one cell. In the plan the first comes earlier;
/// where the crossing is two-way, the carriers may pass in either order.
#[derive(Clone, Copy, PartialEq, Eq, Debug, Default)]
pub struct Crossing {
    pub cell: u16,
    pub first: u16,
    pub second: u16,
    pub two_way: bool,
}

/// Which of a crossing's two edges are taken: the plan edge, from the visit after its first to its
/// second; the reversed edge, from the visit after its second to its first.
#[derive(Clone, Copy, PartialEq, Eq, Debug, Default)]
pub struct Ways {
    pub plan: bool,
    pub reversed: bool,
}
