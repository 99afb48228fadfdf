use crate::records::record;
use fault::kinds::{GraphFault, RoomFault};
use fault::report::{Layer, Report};
use graph::graph::Graph;
use listing::list;
use std::alloc::{AllocError, Global};
use std::test::Fail;
use viqondes::viqondes_plan_fault;
use walk::crossing::{Crossing, Ways};
use walk::kinds::{Earliest, Mark};

const NONE: Crossing = Crossing {
    cell: 9,
    first: 9,
    second: 9,
    two_way: true,
};

/// The example: carrier 0 goes by cells 3, 4, 5, and carrier 1 by 1, 4, 7 after it.
const EXAMPLE: [u8; 32] = [
    3, 0, 3, 0, 2, 0, 8, 0, 0, 0, 0, 1, 1, 1, 1, 1, 3, 0, 4, 0, 5, 0, 1, 0, 1, 0, 1, 0, 4, 0, 7, 0,
];

/// A plan of two carriers that come into one cell in turn, each 32 times, and of two more that
/// cross once if `more` says so.
fn crowd(heap: Global, more: bool) -> Result<Vec<u8>, AllocError> {
    let mut carriers = Vec::new(heap);
    let mut cells = Vec::new(heap);
    for _ in 0..32 {
        carriers.extend_from_slice(&[0; 4])?;
        cells.extend_from_slice(&[1, 0, 0, 0])?;
    }
    for _ in 0..32 {
        carriers.extend_from_slice(&[1; 4])?;
        cells.extend_from_slice(&[2, 2, 1, 2])?;
    }
    let mut header = [3, 4, 2, 256];
    if more {
        header = [3, 4, 4, 263];
        carriers.extend_from_slice(&[2, 2, 2, 3, 3, 3, 3])?;
        cells.extend_from_slice(&[6, 7, 8, 10, 10, 10, 7])?;
    }
    record(heap, header, carriers.as_slice(), cells.as_slice())
}

#[test]
fn a_new_graph_has_no_carriers(rt: HostRuntime) {
    let graph = Graph::new();
    assert_eq!(rt; graph.outline().carriers, 0);
    assert_eq!(rt; graph.visits().len(), 0);
    assert_eq!(rt; graph.moves(), 0);
    assert_eq!(rt; graph.earliest(0), None);
    assert_eq!(rt; graph.relies(0), None);
}

#[test]
fn carriers_are_told_of(rt: HostRuntime) {
    let mut graph = Graph::new();
    assert_eq!(rt; graph.load(&EXAMPLE), Ok(()));
    assert_eq!(rt; graph.moves(), 4);
    assert_eq!(rt; graph.visit_count(1), 3);
    assert_eq!(rt; graph.earliest(1), Some(4));
    assert_eq!(rt; graph.relies(1), Some(1));
    assert_eq!(rt; graph.earliest(2), None);
    assert_eq!(rt; graph.relies(2), None);
    assert_eq!(rt; graph.visit_count(2), 0);
}

#[test]
fn crossings_are_listed_where_there_is_room(rt: HostRuntime) {
    let mut graph = Graph::new();
    assert_eq!(rt; graph.load(&EXAMPLE), Ok(()));
    assert_eq!(rt;
        graph.list_crossings(&mut [NONE; 0]),
        Err(RoomFault { needed: 1 })
    );
    let mut list = [NONE; 2];
    assert_eq!(rt; graph.list_crossings(&mut list), Ok(1));
    let crossing = Crossing {
        cell: 4,
        first: 1,
        second: 4,
        two_way: true,
    };
    assert_eq!(rt; list[0], crossing);
    assert_eq!(rt; list[1], NONE);
}

#[test]
fn a_refused_record_leaves_the_graph(rt: HostRuntime) -> Result<(), Fail> {
    let mut graph = Graph::new();
    assert_eq!(rt; graph.load(&EXAMPLE), Ok(()));
    assert_eq!(rt; graph.load(&[]).is_err(), true);
    assert_eq!(rt; graph.visits().len(), 6);
    let crowded = crowd(rt.alloc(), true)?;
    assert_eq!(rt; graph.load(crowded.as_slice()), Err(GraphFault::Crossings));
    assert_eq!(rt; graph.crossings().len(), 1);
    Ok(())
}

#[test]
fn crossings_end_at_1024(rt: HostRuntime) -> Result<(), Fail> {
    let mut graph = Graph::new();
    let full = crowd(rt.alloc(), false)?;
    assert_eq!(rt; graph.load(full.as_slice()), Ok(()));
    assert_eq!(rt; graph.crossings().len(), 1024);
    let mut list = [NONE; 1023];
    assert_eq!(rt;
        graph.list_crossings(&mut list),
        Err(RoomFault { needed: 1024 })
    );
    assert_eq!(rt; list[0], NONE);
    // a graph can be loaded again
    assert_eq!(rt; graph.load(&EXAMPLE), Ok(()));
    assert_eq!(rt; graph.crossings().len(), 1);
    Ok(())
}

#[test]
fn faults_of_graphs_have_their_numbers(rt: HostRuntime) {
    let crowded = Report {
        number: 9,
        layer: Layer::Graph,
        places: [0, 0, 0],
    };
    assert_eq!(rt; Report::from(GraphFault::Crossings), crowded);
    let short = Report {
        number: 24,
        layer: Layer::Graph,
        places: [7, 0, 0],
    };
    assert_eq!(rt; Report::from(RoomFault { needed: 7 }), short);
}

#[test]
fn sums_go_over_the_edges_that_are_taken(rt: HostRuntime) {
    let mut graph = Graph::new();
    assert_eq!(rt; graph.load(&EXAMPLE), Ok(()));
    let mut ways = [Ways {
        plan: false,
        reversed: false,
    }; 1024];
    let mut start = [Mark { set: false }; 7];
    start[3] = Mark { set: true };
    let mut sums = [Mark { set: true }; 7];
    let mut spare = sums;
    // carrier 1's path alone leads to none of carrier 0's visits
    assert_eq!(rt; graph.sum(&ways, &start, &mut sums, &mut spare), Ok(()));
    assert_eq!(rt; sums[1].set, false);
    assert_eq!(rt; sums[5].set, true);
    // what lies beyond the visits stays
    assert_eq!(rt; sums[6].set, true);
    // the reversed edge leads from visit 5 to visit 1
    ways[0].reversed = true;
    assert_eq!(rt; graph.sum(&ways, &start, &mut sums, &mut spare), Ok(()));
    assert_eq!(rt; sums[1].set, true);
}

#[test]
fn steps_end_at_their_bound(rt: HostRuntime) {
    let mut graph = Graph::new();
    assert_eq!(rt; graph.load(&EXAMPLE), Ok(()));
    let ways = [Ways {
        plan: true,
        reversed: false,
    }; 1024];
    let mut start = [Earliest { step: None }; 6];
    start[0] = Earliest { step: Some(65534) };
    let mut sums = start;
    let mut spare = start;
    assert_eq!(rt; graph.sum(&ways, &start, &mut sums, &mut spare), Ok(()));
    assert_eq!(rt; sums[2].step, Some(65535));
    // over the crossing's plan edge, and on
    assert_eq!(rt; sums[5].step, Some(65535));
    assert_eq!(rt; sums[3].step, None);
}

#[test]
fn sums_want_room_for_every_visit(rt: HostRuntime) {
    let mut graph = Graph::new();
    assert_eq!(rt; graph.load(&EXAMPLE), Ok(()));
    let ways = [Ways {
        plan: true,
        reversed: false,
    }; 1024];
    let start = [Earliest { step: Some(7) }; 6];
    let mut sums = [Earliest { step: Some(1) }; 5];
    let mut spare = [Earliest { step: None }; 6];
    assert_eq!(rt;
        graph.sum(&ways, &start, &mut sums, &mut spare),
        Err(RoomFault { needed: 6 })
    );
    assert_eq!(rt; sums[0].step, Some(1));
    assert_eq!(rt;
        graph.sum(&ways, &start[0..5], &mut [start[0]; 6], &mut spare),
        Err(RoomFault { needed: 6 })
    );
    assert_eq!(rt; spare[0].step, None);
}

#[test]
fn c_is_told_of_the_graph(rt: HostRuntime) -> Result<(), Fail> {
    assert_eq!(rt; viqondes_plan_fault(&EXAMPLE), 0);
    assert_eq!(rt; viqondes_plan_fault(&EXAMPLE[0..31]), 3);
    let crowded = crowd(rt.alloc(), true)?;
    assert_eq!(rt; viqondes_plan_fault(crowded.as_slice()), 9);
    assert_eq!(rt;
        list(rt.alloc(), crowded.as_slice())?.as_str(),
        "refused 9 graph 0 0 0\n"
    );
    Ok(())
}
