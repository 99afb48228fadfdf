ghost use Rattle.std.specs.Prelude.{◌≡◌, Some};
ghost use Rattle.fault.specs.Reports.{place_of, report_of, graph_report, room_report, drive_report, layer_text, report_text};

use crate::kinds::{
    Conflict, DriveFault, EntryFault, Field, Flaw, GraphFault, PlanFault, RecordFault, RoomFault,
};
use std::fmt;

/// The part of the work that found a fault.
#[derive(Clone, Copy, PartialEq, Eq, Debug)]
pub enum Layer {
    Record,
    Entry,
    Plan,
    Graph,
    Drive,
}

/// A fault as others are told of it: its number, its layer and three places. Places that it does
/// not use are 0.
#[derive(Clone, Copy, PartialEq, Eq, Debug)]
pub struct Report {
    // A number and no enum: it is what text and C are told.
    pub number: u8,
    pub layer: Layer,
    pub places: [u16; 3],
}

/// Which of the header's numbers it is, from 0.
impl From<Field> for u16 {
    ghost from_gives = { λ f n. n ≡ place_of f };

    fn from(field: Field) -> u16 {
        match field {
            Field::Width => 0,
            Field::Height => 1,
            Field::Carriers => 2,
            Field::Entries => 3,
        }
    }
}

impl Report {
    fn new(number: u8, layer: Layer, places: [u16; 3]) -> Report
        ensures { result ≡ record { number = number; layer = layer; places = places } }
    {
        Report {
            number,
            layer,
            places,
        }
    }
}

/// What others are told of a plan's fault.
impl From<PlanFault> for Report {
    ghost from_gives = { λ f r. r ≡ report_of f };

    fn from(fault: PlanFault) -> Report {
        match fault {
            PlanFault::Entry(EntryFault::Record(RecordFault::Short)) => {
                Report::new(1, Layer::Record, [0, 0, 0])
            }
            PlanFault::Entry(EntryFault::Record(RecordFault::Header(field))) => {
                Report::new(2, Layer::Record, [field.into(), 0, 0])
            }
            PlanFault::Entry(EntryFault::Record(RecordFault::Length)) => {
                Report::new(3, Layer::Record, [0, 0, 0])
            }
            PlanFault::Entry(EntryFault::Flawed(Flaw::Carrier, index)) => {
                Report::new(4, Layer::Entry, [index, 0, 0])
            }
            PlanFault::Entry(EntryFault::Flawed(Flaw::Cell, index)) => {
                Report::new(5, Layer::Entry, [index, 0, 0])
            }
            PlanFault::Entry(EntryFault::Flawed(Flaw::Neighbour, index)) => {
                Report::new(6, Layer::Entry, [index, 0, 0])
            }
            PlanFault::Conflict(kind, at) => {
                let places = [at.step, u16::from(at.first), u16::from(at.second)];
                match kind {
                    Conflict::Clash => Report::new(7, Layer::Plan, places),
                    Conflict::Following => Report::new(8, Layer::Plan, places),
                }
            }
        }
    }
}

/// What others are told of a graph's fault: of its plan's what they are told of that.
impl From<GraphFault> for Report {
    ghost from_gives = { λ f r. r ≡ graph_report f };

    fn from(fault: GraphFault) -> Report {
        match fault {
            GraphFault::Plan(fault) => fault.into(),
            GraphFault::Crossings => Report::new(9, Layer::Graph, [0, 0, 0]),
        }
    }
}

/// What others are told of a list that is too short.
impl From<RoomFault> for Report {
    ghost from_gives = { λ f r. r ≡ room_report f };

    fn from(fault: RoomFault) -> Report {
        Report::new(24, Layer::Graph, [fault.needed, 0, 0])
    }
}

/// What others are told of a drive's fault.
impl From<DriveFault> for Report {
    ghost from_gives = { λ f r. r ≡ drive_report f };

    fn from(fault: DriveFault) -> Report {
        let (number, place) = match fault {
            DriveFault::NotThere(carrier) => (17, u16::from(carrier)),
            DriveFault::NoCarrier(carrier) => (20, u16::from(carrier)),
            DriveFault::AlreadyGoing(carrier) => (21, u16::from(carrier)),
            DriveFault::NotGoing(carrier) => (22, u16::from(carrier)),
            DriveFault::NoCell(cell) => (23, cell),
        };
        Report::new(number, Layer::Drive, [place, 0, 0])
    }
}

impl fmt::Display for Layer {
    ghost output = { λ l. Some (layer_text l) };

    fn fmt<W: fmt::Write>(&self, f: &mut fmt::Formatter<W>) -> fmt::Result {
        f.write_str(match self {
            Layer::Record => "record",
            Layer::Entry => "entry",
            Layer::Plan => "plan",
            Layer::Graph => "graph",
            Layer::Drive => "drive",
        })
    }
}

impl fmt::Display for Report {
    ghost output = { λ r. Some (report_text r) };

    fn fmt<W: fmt::Write>(&self, f: &mut fmt::Formatter<W>) -> fmt::Result {
        let [a, b, c] = self.places;
        write!(f, "{} {} {a} {b} {c}", self.number, self.layer)
    }
}
