/// A visit: a carrier comes to a cell at a step of the plan, or starts in it.
#[derive(Clone, Copy, PartialEq, Eq, Debug, Default)]
pub struct Visit {
    pub carrier: u8,
    pub cell: u16,
    pub step: u16,
}

/// What stands in a list where there is no visit.
// A constant, so that a list is filled at once: from `Visit::default()` it took ten times as long.
pub const NO_VISIT: Visit = Visit {
    carrier: 0,
    cell: 0,
    step: 0,
};
