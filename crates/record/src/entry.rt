/// A carrier and its cell at a step: a carrier's entries are its steps 0, 1, 2 and so on.
#[derive(Clone, Copy, Default, PartialEq, Eq, Debug)]
pub struct Entry {
    pub carrier: u8,
    pub cell: u16,
}
