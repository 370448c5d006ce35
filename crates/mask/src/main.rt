// Reads a byte that names the AND (0 document 01's, any other that of source document 002), an order byte and then a plain table from
// standard input, and writes the masked table on standard output; or the line `refused`, number, place on standard error, and then
// nothing on standard output. The exit status is 0 in both cases. A read or a write that fails ends it with the error, status 1. One byte
// more than these two and the longest table have is read: a longer input and its first 458,749 bytes have the same refusal, 2 by the
// sizes or else 1 by the length (`cut_masked` of the crate masking). On the stack are about 1.3 MB: 458,749 bytes of input, 458,746 of
// output, 393,216 of masking's own arrays. A masked table has at most 65,535 wires and 65,535 outputs, which the longest table's bytes
// hold.
// Buffers have their lengths beside, since nothing is allocated.
#![tactic(auto)]

use std::io;

// Writes the line of a refusal on standard error.
#[tactic(auto, using(text::proofs::Writing::refusal_long))]
fn report(rt: &HostRuntime, refusal: tables::Refusal) -> io::Result<()> {
    let mut line = [0u8; 64];
    let long = text::put_refusal(&mut line, u32::from(refusal.number()), refusal.place());
    rt.stderr().write_all(&line[..long])
}

// Writes the masked table, by way of the lent bytes, or the line of its refusal.
fn write_masked(
    rt: &HostRuntime,
    input: &[u8],
    masked: &mut [u8; tables::LONGEST],
) -> io::Result<()> {
    match masking::mask_input(input, masked) {
        Ok(long) => rt.write_all(&masked[..long as usize]),
        Err(refusal) => report(rt, refusal),
    }
}

fn main(rt: HostRuntime) -> io::Result<()> {
    let mut input = [0u8; tables::LONGEST + 3];
    let read = whole_input::read_full(&mut rt.stdin(), &mut input)?;
    write_masked(&rt, &input[..read], &mut [0u8; tables::LONGEST])
}
