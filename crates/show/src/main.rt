// Reads a table from standard input, and writes it in words on standard output: the number of inputs, a line for each gate, then one
// for each output; or the line `refused`, number, place. One byte more than the longest table has is read: a longer input and its
// first 458,747 bytes have the same text, 2 by the sizes or else 1 by the length (`cut_listed` of the crate listing). ROOM bytes hold
// every text (`text_short`). A read or a write that fails ends it with the error, status 1. On the stack are about 3.4 MB: 458,747 bytes
// of input and 2,949,120 of text.
// Buffers have their lengths beside, since nothing is allocated.
#![tactic(auto)]

use std::io;

// Writes the text of a table, by way of the lent bytes.
fn write_listing(
    rt: &HostRuntime,
    table: &[u8],
    lines: &mut [u8; listing::ROOM],
) -> io::Result<()> {
    let long = listing::list_table(table, lines);
    rt.write_all(&lines[..long])
}

fn main(rt: HostRuntime) -> io::Result<()> {
    let mut input = [0u8; tables::LONGEST + 1];
    let read = whole_input::read_full(&mut rt.stdin(), &mut input)?;
    write_listing(&rt, &input[..read], &mut [0u8; listing::ROOM])
}
