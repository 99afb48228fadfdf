ghost use Rattle.std.specs.Prelude.{◌≡◌};
ghost use Rattle.fault.specs.declared.kinds.EntryFault.TheVariants.{Record};
ghost use Rattle.fault.specs.declared.kinds.PlanFault.TheVariants.{Entry};
ghost use Rattle.fault.specs.declared.kinds.GraphFault.TheVariants.{Plan};
ghost use Rattle.fault.specs.Renumbered.{renumbered};

/// A number of the record's header.
#[derive(Clone, Copy, PartialEq, Eq, Debug)]
pub enum Field {
    Width,
    Height,
    Carriers,
    Entries,
}

/// What is wrong with the record as a string of bytes.
#[derive(Clone, Copy, PartialEq, Eq, Debug)]
pub enum RecordFault {
    /// fewer than eight bytes
    Short,
    /// the first header number that is out of range
    Header(Field),
    /// not as long as the header says
    Length,
}

/// What can be wrong with one entry.
#[derive(Clone, Copy, PartialEq, Eq, Debug)]
pub enum Flaw {
    /// the carrier number is out of turn or too high; past the last entry, the last is too low
    Carrier,
    /// the cell is not on the floor
    Cell,
    /// the cell is neither that of the carrier's entry before nor beside it
    Neighbour,
}

/// What is wrong with the entries, at the lowest index where it is.
#[derive(Clone, Copy, PartialEq, Eq, Debug)]
pub enum EntryFault {
    Record(RecordFault),
    Flawed(Flaw, u16),
}

/// How two carriers can come into conflict.
#[derive(Clone, Copy, PartialEq, Eq, Debug)]
pub enum Conflict {
    /// both in one cell at one step
    Clash,
    /// one enters the cell that the other was in a step before
    Following,
}

/// A step and two carriers in conflict at it: in a clash the lower number first, in a following
/// conflict the one that enters.
#[derive(Clone, Copy, PartialEq, Eq, Debug)]
pub struct Meeting {
    pub step: u16,
    pub first: u8,
    pub second: u8,
}

/// What is wrong with the plan.
#[derive(Clone, Copy, PartialEq, Eq, Debug)]
pub enum PlanFault {
    Entry(EntryFault),
    Conflict(Conflict, Meeting),
}

/// Why a record gives no graph.
#[derive(Clone, Copy, PartialEq, Eq, Debug)]
pub enum GraphFault {
    Plan(PlanFault),
    /// more crossings than a graph holds
    Crossings,
}

/// A list that the caller lends is too short.
#[derive(Clone, Copy, PartialEq, Eq, Debug)]
pub struct RoomFault {
    /// the length that it needs
    pub needed: u16,
}

/// Why a drive refuses a call, or what keeps a report from answering "there".
#[derive(Clone, Copy, PartialEq, Eq, Debug)]
pub enum DriveFault {
    /// the drive has no carrier of this number
    NoCarrier(u8),
    /// the carrier is sent while it goes
    AlreadyGoing(u8),
    /// a report is asked for on a carrier that stands
    NotGoing(u8),
    /// the carrier is sent to a cell that no floor has
    NoCell(u16),
    /// the report on the carrier is "not yet"
    NotThere(u8),
}

impl DriveFault {
    /// The same fault where its carrier goes by another number.
    pub fn renumbered(self, carrier: u8) -> DriveFault
        ensures { result ≡ renumbered carrier self }
    {
        match self {
            DriveFault::NoCarrier(_) => DriveFault::NoCarrier(carrier),
            DriveFault::AlreadyGoing(_) => DriveFault::AlreadyGoing(carrier),
            DriveFault::NotGoing(_) => DriveFault::NotGoing(carrier),
            DriveFault::NoCell(cell) => DriveFault::NoCell(cell),
            DriveFault::NotThere(_) => DriveFault::NotThere(carrier),
        }
    }
}

impl From<RecordFault> for EntryFault {
    ghost from_gives = { λ f r. r ≡ Record f };

    fn from(fault: RecordFault) -> EntryFault {
        EntryFault::Record(fault)
    }
}

impl From<EntryFault> for PlanFault {
    ghost from_gives = { λ f r. r ≡ Entry f };

    fn from(fault: EntryFault) -> PlanFault {
        PlanFault::Entry(fault)
    }
}

impl From<PlanFault> for GraphFault {
    ghost from_gives = { λ f r. r ≡ Plan f };

    fn from(fault: PlanFault) -> GraphFault {
        GraphFault::Plan(fault)
    }
}
