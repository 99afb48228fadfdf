ghost use Rattle.std.specs.Prelude.{◌≡◌, ◌+◌, ◌<◌, [], ◌++◌, length};
ghost use Rattle.std.specs.Option.{option_to_list};
ghost use Rattle.std.specs.List.{range_with_len, filter_map};
ghost use Rattle.fixed.specs.Items.{items};
ghost use Rattle.graph.specs.Links.{path_link, plan_link, reversed_link, links};
ghost use Rattle.graph.specs.Inputs.{ways_in};
ghost use Rattle.graph.specs.Nets.{net_visits, net_crossings};

use crate::net::Net;
use fixed::list::Bounded;
use record::MAX_ENTRIES;
use walk::crossing::{Crossing, MAX_CROSSINGS, Ways};

/// An edge: the visits that it leads from and to.
#[derive(Clone, Copy, Default)]
pub(crate) struct Link {
    pub from: u16,
    pub to: u16,
}

/// The most links: one from each visit along its path, and two at each crossing.
pub(crate) const MAX_LINKS: usize = MAX_ENTRIES + 2 * MAX_CROSSINGS;

/// A crossing's plan edge, if it is taken.
// Here and below what is asked is that one more fits a number, and not that there is such a visit.
fn plan_link(crossing: &Crossing, taken: &Ways) -> Option<Link>
    requires { crossing.now.first < 512 }
    ensures { result ≡ plan_link crossing.now taken.now }
{
    taken.plan.then_some(Link {
        from: crossing.first + 1,
        to: crossing.second,
    })
}

/// Adds a link, if there is one.
fn add(links: &mut Bounded<Link, MAX_LINKS>, link: Option<Link>)
    requires { length (items links.old) < 2560 }
    ensures { items links.new ≡ items links.old ++ option_to_list link }
{
    if let Some(link) = link {
        links.push(link).unwrap();
    }
}

impl Net {
    /// The edge from a visit along its carrier's path, if that goes on.
    fn path_link(&self, visit: u16) -> Option<Link>
        requires { visit < 512 }
        ensures { result ≡ path_link (net_visits self.now) visit }
    {
        self.has_next(visit).then_some(Link {
            from: visit,
            to: visit + 1,
        })
    }

    /// A crossing's reversed edge, if it is taken and there is a visit that it can lead from.
    fn reversed_link(&self, crossing: &Crossing, taken: &Ways) -> Option<Link>
        requires { crossing.now.second < 512 }
        ensures { result ≡ reversed_link (net_visits self.now) crossing.now taken.now }
    {
        let taken = taken.reversed && self.has_next(crossing.second);
        taken.then_some(Link {
            from: crossing.second + 1,
            to: crossing.first,
        })
    }

    /// Adds the links along all carriers' paths, where there are no links yet.
    // Not an answer: a list is large, and would be copied on the way.
    fn add_path_links(&self, links: &mut Bounded<Link, MAX_LINKS>)
        requires { items links.old ≡ [] }
        ensures { items links.new ≡ filter_map (path_link (net_visits self.now)) (range_with_len 0 (length (net_visits self.now))) }
    {
        let count = self.visits().len() as u16;
        for link in (0..count).filter_map(|visit| self.path_link(visit)) {
            links.push(link).unwrap();
        }
    }

    /// The links of the net, where `ways` says which edges of each crossing are taken.
    // A list as long as crossings can be, and no closure: a caller of `Graph::sum` hands it over.
    pub(crate) fn links(&self, ways: &[Ways; MAX_CROSSINGS]) -> Bounded<Link, MAX_LINKS>
        ensures { items result ≡ links (net_visits self.now) (net_crossings self.now) (ways_in ways.now) }
    {
        let mut links = Bounded::new(Link::default());
        self.add_path_links(&mut links);
        for (crossing, taken) in self.crossings().iter().zip(ways) {
            add(&mut links, plan_link(crossing, taken));
            add(&mut links, self.reversed_link(crossing, taken));
        }
        links
    }
}
