ghost use Rattle.std.specs.Prelude.{◌≡◌, ◌-◌, length};
ghost use Rattle.record.specs.Steps.{visits};
ghost use Rattle.graph.specs.Verdicts.{graph_draft, graph_visits, graph_crossings};
ghost use Rattle.graph.specs.Figures.{outline_of, CrossingsListed};

use super::Graph;
use fault::kinds::RoomFault;
use record::header::Header;
use walk::crossing::Crossing;
use walk::visit::Visit;

/// The numbers of a plan's record; of no plan each is 0.
// No Option of a header, whose numbers are in their ranges: without a plan callers have zeros.
#[derive(Clone, Copy, PartialEq, Eq, Debug, Default)]
pub struct Outline {
    pub width: u8,
    pub height: u8,
    pub carriers: u8,
    pub entries: u16,
}

/// The numbers that a header has.
impl From<Header> for Outline {
    ghost from_gives = { λ h outline. outline ≡ record { width = h.width; height = h.height; carriers = h.carriers; entries = h.entries } };

    fn from(header: Header) -> Outline {
        Outline {
            width: header.width,
            height: header.height,
            carriers: header.carriers,
            entries: header.entries,
        }
    }
}

impl Graph {
    /// The numbers of the plan's record.
    pub fn outline(&self) -> Outline
        ensures { result ≡ outline_of (graph_draft self.now) }
    {
        self.plan
            .as_ref()
            .map(|plan| Outline::from(plan.paths().header()))
            .unwrap_or_default()
    }

    /// The visits, by carrier and then by step.
    pub fn visits(&self) -> &[Visit]
        ensures { result.now ≡ graph_visits self.now }
    {
        self.net.visits()
    }

    /// The crossings, by first visit and then by second.
    pub fn crossings(&self) -> &[Crossing]
        ensures { result.now ≡ graph_crossings self.now }
    {
        self.net.crossings()
    }

    /// The plan's moves: its visits less its carriers.
    pub fn moves(&self) -> usize
        ensures { result ≡ length (graph_visits self.now) - (graph_draft self.now).carriers }
    {
        self.visits()
            .len()
            .saturating_sub(usize::from(self.outline().carriers))
    }

    /// How many visits a carrier makes, 0 for a carrier that the plan lacks.
    pub fn visit_count(&self, carrier: u8) -> u16
        ensures { result ≡ visits (graph_draft self.now) carrier }
    {
        self.plan
            .as_ref()
            .map_or(0, |plan| plan.paths().visits(carrier))
    }

    /// Writes the crossings to the front of a list and answers how many they are. A list that is too
    /// short is left as it was.
    pub fn list_crossings(&self, list: &mut [Crossing]) -> Result<usize, RoomFault>
        ensures { CrossingsListed (graph_crossings self.now) list.old list.new result }
    {
        let crossings = self.crossings();
        let count = crossings.len();
        let room = RoomFault {
            needed: count as u16,
        };
        let (front, _) = list.split_at_mut_checked(count).ok_or(room)?;
        front.copy_from_slice(crossings);
        Ok(count)
    }
}
