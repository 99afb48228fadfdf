//! Reads a plan record and call bytes from standard input, and lists the plan or its fault.
#![tactic(auto)]

use listing::list;
use record::MAX_ENTRIES;
use record::layout::{ENTRY_LEN, HEADER_LEN};
use std::alloc::Global;
use std::io;
use std::io::Read;

#[cfg(test)]
mod tests;

/// The most call bytes that are read.
const MAX_CALLS: usize = 4096;

const MAX_INPUT: usize = HEADER_LEN + ENTRY_LEN * MAX_ENTRIES + MAX_CALLS;

/// What the reader holds, up to the longest record and the most call bytes.
fn read_input<R: Read + Drop>(heap: Global, reader: R) -> io::Result<Vec<u8>> {
    let mut input = Vec::new(heap);
    reader.take(MAX_INPUT as u64).read_to_end(&mut input)?;
    Ok(input)
}

fn main(rt: HostRuntime) -> io::Result<()> {
    let input = read_input(rt.alloc(), rt.stdin())?;
    let text = list(rt.alloc(), input.as_slice())?;
    print!(rt; "{text}")
}
