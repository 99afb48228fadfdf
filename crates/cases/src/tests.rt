use crate::records::record;
use fault::report::Report;
use listing::list;
use plan::accepted::Plan;
use std::alloc::{AllocError, Global};
use std::test::Fail;

/// A record, and what floorlist prints for it.
struct Case {
    about: &'static str,
    header: [u16; 4],
    carriers: &'static [u8],
    cells: &'static [u16],
    text: &'static str,
}

static CASES: [Case; 43] = [
    Case {
        about: "the example",
        header: [3, 3, 2, 8],
        carriers: &[0, 0, 0, 1, 1, 1, 1, 1],
        cells: &[3, 4, 5, 1, 1, 1, 4, 7],
        text: "plan 3 3 2 8\ncarrier 0 visits 3 earliest 2 relies 0\ncarrier 1 visits 3 earliest 4 relies 1\ncrossing 0 cell 4 first 1 second 4 twoway\n",
    },
    Case {
        about: "one carrier behind another all the way",
        header: [6, 1, 2, 9],
        carriers: &[0, 0, 0, 0, 1, 1, 1, 1, 1],
        cells: &[2, 3, 4, 5, 0, 1, 2, 3, 4],
        text: "plan 6 1 2 9\ncarrier 0 visits 4 earliest 3 relies 0\ncarrier 1 visits 5 earliest 4 relies 1\ncrossing 0 cell 2 first 0 second 6 oneway\ncrossing 1 cell 3 first 1 second 7 oneway\ncrossing 2 cell 4 first 2 second 8 oneway\n",
    },
    Case {
        about: "an earlier two-way crossing makes a later candidate one-way",
        header: [2, 2, 2, 10],
        carriers: &[0, 0, 0, 0, 0, 1, 1, 1, 1, 1],
        cells: &[0, 1, 0, 2, 0, 3, 2, 3, 1, 3],
        text: "plan 2 2 2 10\ncarrier 0 visits 5 earliest 4 relies 1\ncarrier 1 visits 5 earliest 4 relies 1\ncrossing 0 cell 1 first 1 second 8 twoway\ncrossing 1 cell 2 first 6 second 3 oneway\n",
    },
    Case {
        about: "a first visit that is its carrier's start is not to be passed",
        header: [3, 3, 2, 7],
        carriers: &[0, 0, 1, 1, 1, 1, 1],
        cells: &[4, 5, 1, 1, 1, 4, 7],
        text: "plan 3 3 2 7\ncarrier 0 visits 2 earliest 1 relies 0\ncarrier 1 visits 3 earliest 3 relies 1\ncrossing 0 cell 4 first 0 second 3 oneway\n",
    },
    Case {
        about: "a second visit that is its carrier's last is not to be left",
        header: [3, 3, 2, 7],
        carriers: &[0, 0, 0, 1, 1, 1, 1],
        cells: &[3, 4, 5, 1, 1, 1, 4],
        text: "plan 3 3 2 7\ncarrier 0 visits 3 earliest 2 relies 0\ncarrier 1 visits 2 earliest 3 relies 1\ncrossing 0 cell 4 first 1 second 4 oneway\n",
    },
    Case {
        about: "three carriers through one cell",
        header: [3, 3, 3, 15],
        carriers: &[0, 0, 0, 1, 1, 1, 1, 1, 2, 2, 2, 2, 2, 2, 2],
        cells: &[3, 4, 5, 1, 1, 1, 4, 7, 6, 6, 6, 3, 3, 4, 1],
        text: "plan 3 3 3 15\ncarrier 0 visits 3 earliest 2 relies 0\ncarrier 1 visits 3 earliest 4 relies 1\ncarrier 2 visits 4 earliest 6 relies 2\ncrossing 0 cell 3 first 0 second 7 oneway\ncrossing 1 cell 4 first 1 second 4 twoway\ncrossing 2 cell 4 first 1 second 8 oneway\ncrossing 3 cell 1 first 3 second 9 oneway\ncrossing 4 cell 4 first 4 second 8 oneway\n",
    },
    Case {
        about: "carrier 1 enters as carrier 0 leaves",
        header: [3, 3, 2, 7],
        carriers: &[0, 0, 0, 1, 1, 1, 1],
        cells: &[3, 4, 5, 1, 1, 4, 7],
        text: "refused 8 plan 2 1 0\n",
    },
    Case {
        about: "both enter at once",
        header: [3, 3, 2, 6],
        carriers: &[0, 0, 0, 1, 1, 1],
        cells: &[3, 4, 5, 1, 4, 7],
        text: "refused 7 plan 1 0 1\n",
    },
    Case {
        about: "two carriers change places",
        header: [2, 1, 2, 4],
        carriers: &[0, 0, 1, 1],
        cells: &[0, 1, 1, 0],
        text: "refused 8 plan 1 0 1\n",
    },
    Case {
        about: "a carrier rests after its last entry",
        header: [3, 1, 2, 4],
        carriers: &[0, 1, 1, 1],
        cells: &[0, 2, 1, 0],
        text: "refused 7 plan 2 0 1\n",
    },
    Case {
        about: "a clash at step 0",
        header: [2, 1, 2, 2],
        carriers: &[0, 1],
        cells: &[1, 1],
        text: "refused 7 plan 0 0 1\n",
    },
    Case {
        about: "a clash comes before an earlier following conflict",
        header: [3, 3, 3, 7],
        carriers: &[0, 0, 1, 1, 2, 2, 2],
        cells: &[0, 1, 1, 4, 8, 7, 4],
        text: "refused 7 plan 2 1 2\n",
    },
    Case {
        about: "the lowest first carrier, then the lowest second",
        header: [4, 1, 4, 4],
        carriers: &[0, 1, 2, 3],
        cells: &[3, 1, 1, 1],
        text: "refused 7 plan 0 1 2\n",
    },
    Case {
        about: "waits are no visits",
        header: [2, 2, 1, 6],
        carriers: &[0, 0, 0, 0, 0, 0],
        cells: &[0, 0, 1, 1, 0, 0],
        text: "plan 2 2 1 6\ncarrier 0 visits 3 earliest 2 relies 0\n",
    },
    Case {
        about: "a width of 0",
        header: [0, 1, 1, 1],
        carriers: &[0],
        cells: &[0],
        text: "refused 2 record 0 0 0\n",
    },
    Case {
        about: "a width of 64",
        header: [64, 1, 1, 1],
        carriers: &[0],
        cells: &[63],
        text: "plan 64 1 1 1\ncarrier 0 visits 1 earliest 0 relies 0\n",
    },
    Case {
        about: "a width of 65",
        header: [65, 1, 1, 1],
        carriers: &[0],
        cells: &[0],
        text: "refused 2 record 0 0 0\n",
    },
    Case {
        about: "a height of 0",
        header: [1, 0, 1, 1],
        carriers: &[0],
        cells: &[0],
        text: "refused 2 record 1 0 0\n",
    },
    Case {
        about: "a height of 64",
        header: [64, 64, 1, 1],
        carriers: &[0],
        cells: &[4095],
        text: "plan 64 64 1 1\ncarrier 0 visits 1 earliest 0 relies 0\n",
    },
    Case {
        about: "a height of 65",
        header: [1, 65, 1, 1],
        carriers: &[0],
        cells: &[0],
        text: "refused 2 record 1 0 0\n",
    },
    Case {
        about: "a height of 257, whose low byte is 1",
        header: [1, 257, 1, 1],
        carriers: &[0],
        cells: &[0],
        text: "refused 2 record 1 0 0\n",
    },
    Case {
        about: "no carriers",
        header: [1, 1, 0, 0],
        carriers: &[],
        cells: &[],
        text: "refused 2 record 2 0 0\n",
    },
    Case {
        about: "sixteen carriers",
        header: [4, 4, 16, 16],
        carriers: &[0, 1, 2, 3, 4, 5, 6, 7, 8, 9, 10, 11, 12, 13, 14, 15],
        cells: &[0, 1, 2, 3, 4, 5, 6, 7, 8, 9, 10, 11, 12, 13, 14, 15],
        text: "plan 4 4 16 16\ncarrier 0 visits 1 earliest 0 relies 0\ncarrier 1 visits 1 earliest 0 relies 0\ncarrier 2 visits 1 earliest 0 relies 0\ncarrier 3 visits 1 earliest 0 relies 0\ncarrier 4 visits 1 earliest 0 relies 0\ncarrier 5 visits 1 earliest 0 relies 0\ncarrier 6 visits 1 earliest 0 relies 0\ncarrier 7 visits 1 earliest 0 relies 0\ncarrier 8 visits 1 earliest 0 relies 0\ncarrier 9 visits 1 earliest 0 relies 0\ncarrier 10 visits 1 earliest 0 relies 0\ncarrier 11 visits 1 earliest 0 relies 0\ncarrier 12 visits 1 earliest 0 relies 0\ncarrier 13 visits 1 earliest 0 relies 0\ncarrier 14 visits 1 earliest 0 relies 0\ncarrier 15 visits 1 earliest 0 relies 0\n",
    },
    Case {
        about: "the last two carriers clash",
        header: [16, 1, 16, 16],
        carriers: &[0, 1, 2, 3, 4, 5, 6, 7, 8, 9, 10, 11, 12, 13, 14, 15],
        cells: &[0, 1, 2, 3, 4, 5, 6, 7, 8, 9, 10, 11, 12, 13, 14, 14],
        text: "refused 7 plan 0 14 15\n",
    },
    Case {
        about: "seventeen carriers",
        header: [17, 1, 17, 17],
        carriers: &[0, 1, 2, 3, 4, 5, 6, 7, 8, 9, 10, 11, 12, 13, 14, 15, 16],
        cells: &[0, 1, 2, 3, 4, 5, 6, 7, 8, 9, 10, 11, 12, 13, 14, 15, 16],
        text: "refused 2 record 2 0 0\n",
    },
    Case {
        about: "fewer entries than carriers",
        header: [2, 1, 2, 1],
        carriers: &[0],
        cells: &[0],
        text: "refused 2 record 3 0 0\n",
    },
    Case {
        about: "as many entries as carriers",
        header: [2, 1, 2, 2],
        carriers: &[0, 1],
        cells: &[0, 1],
        text: "plan 2 1 2 2\ncarrier 0 visits 1 earliest 0 relies 0\ncarrier 1 visits 1 earliest 0 relies 0\n",
    },
    Case {
        about: "a header alone",
        header: [1, 1, 1, 1],
        carriers: &[],
        cells: &[],
        text: "refused 3 record 0 0 0\n",
    },
    Case {
        about: "a byte too few",
        header: [1, 1, 1, 2],
        carriers: &[0, 0, 0],
        cells: &[0],
        text: "refused 3 record 0 0 0\n",
    },
    Case {
        about: "a record ends where it says",
        header: [1, 1, 1, 1],
        carriers: &[0],
        cells: &[0, 128],
        text: "plan 1 1 1 1\ncarrier 0 visits 1 earliest 0 relies 0\n",
    },
    Case {
        about: "carrier numbers that begin at 1",
        header: [2, 1, 2, 2],
        carriers: &[1, 1],
        cells: &[0, 1],
        text: "refused 4 entry 0 0 0\n",
    },
    Case {
        about: "carrier numbers that skip",
        header: [3, 1, 3, 3],
        carriers: &[0, 2, 2],
        cells: &[0, 1, 2],
        text: "refused 4 entry 1 0 0\n",
    },
    Case {
        about: "carrier numbers that fall",
        header: [3, 1, 2, 3],
        carriers: &[0, 1, 0],
        cells: &[0, 1, 2],
        text: "refused 4 entry 2 0 0\n",
    },
    Case {
        about: "a carrier number that is too high",
        header: [2, 1, 1, 2],
        carriers: &[0, 1],
        cells: &[0, 1],
        text: "refused 4 entry 1 0 0\n",
    },
    Case {
        about: "carrier numbers that end short",
        header: [2, 1, 2, 2],
        carriers: &[0, 0],
        cells: &[0, 1],
        text: "refused 4 entry 2 0 0\n",
    },
    Case {
        about: "carrier numbers come before cells",
        header: [2, 1, 2, 2],
        carriers: &[0, 0],
        cells: &[9, 1],
        text: "refused 4 entry 2 0 0\n",
    },
    Case {
        about: "the last cell of the floor",
        header: [3, 2, 1, 2],
        carriers: &[0, 0],
        cells: &[4, 5],
        text: "plan 3 2 1 2\ncarrier 0 visits 2 earliest 1 relies 0\n",
    },
    Case {
        about: "a cell past the last",
        header: [3, 2, 1, 2],
        carriers: &[0, 0],
        cells: &[5, 6],
        text: "refused 5 entry 1 0 0\n",
    },
    Case {
        about: "a cell that is not on the floor comes before a jump",
        header: [3, 3, 1, 3],
        carriers: &[0, 0, 0],
        cells: &[0, 8, 9],
        text: "refused 5 entry 2 0 0\n",
    },
    Case {
        about: "a step across a corner",
        header: [3, 3, 1, 2],
        carriers: &[0, 0],
        cells: &[0, 4],
        text: "refused 6 entry 1 0 0\n",
    },
    Case {
        about: "a step from the end of one row to the start of the next",
        header: [3, 3, 1, 3],
        carriers: &[0, 0, 0],
        cells: &[1, 2, 3],
        text: "refused 6 entry 2 0 0\n",
    },
    Case {
        about: "the next carrier may start anywhere",
        header: [3, 3, 2, 3],
        carriers: &[0, 0, 1],
        cells: &[0, 3, 8],
        text: "plan 3 3 2 3\ncarrier 0 visits 2 earliest 1 relies 0\ncarrier 1 visits 1 earliest 0 relies 0\n",
    },
    Case {
        about: "a jump comes before a clash",
        header: [3, 3, 2, 3],
        carriers: &[0, 0, 1],
        cells: &[0, 8, 0],
        text: "refused 6 entry 1 0 0\n",
    },
];

#[test]
fn records_are_listed(rt: HostRuntime) -> Result<(), Fail> {
    let heap = rt.alloc();
    for case in &CASES {
        let bytes = record(heap, case.header, case.carriers, case.cells)?;
        let text = list(heap, bytes.as_slice())?;
        assert_eq!(rt; text.as_str(), case.text, "{}", case.about);
    }
    Ok(())
}

#[test]
fn bytes_without_a_header_are_refused(rt: HostRuntime) -> Result<(), Fail> {
    assert_eq!(rt; list(rt.alloc(), &[])?.as_str(), "refused 1 record 0 0 0\n");
    assert_eq!(rt;
        list(rt.alloc(), &[3, 0, 3, 0, 2, 0, 8])?.as_str(),
        "refused 1 record 0 0 0\n"
    );
    assert_eq!(rt;
        list(rt.alloc(), &[0; 8])?.as_str(),
        "refused 2 record 0 0 0\n"
    );
    Ok(())
}

/// What floorlist prints for one carrier that waits in one cell.
fn waiting(heap: Global, entries: u16) -> Result<String, AllocError> {
    let carriers = vec![in heap; 0; usize::from(entries)]?;
    let cells = vec![in heap; 0; usize::from(entries)]?;
    let bytes = record(
        heap,
        [1, 1, 1, entries],
        carriers.as_slice(),
        cells.as_slice(),
    )?;
    list(heap, bytes.as_slice())
}

#[test]
fn entries_end_at_512(rt: HostRuntime) -> Result<(), Fail> {
    assert_eq!(rt;
        waiting(rt.alloc(), 512)?.as_str(),
        "plan 1 1 1 512\ncarrier 0 visits 1 earliest 0 relies 0\n"
    );
    assert_eq!(rt;
        waiting(rt.alloc(), 513)?.as_str(),
        "refused 2 record 3 0 0\n"
    );
    Ok(())
}

#[test]
fn a_record_alone_has_its_own_length(rt: HostRuntime) {
    let fault = Plan::try_from(&[1, 0, 1, 0, 1, 0, 1, 0, 0, 0, 0, 128][..]).err();
    assert_eq!(rt; fault.map_or(0, |fault| Report::from(fault).number), 3);
}
