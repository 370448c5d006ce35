// Reads an order byte and then a plain table from standard input, and prints one line: the shares, and the wires, tape bits, bytes and
// outputs that the masked table has, also where 8 refuses it as too large, and the largest order at which 8 does not; or the line
// `refused`, number, place by 1 to 7. One byte more than an order byte and the longest table have is read: a longer input and its first
// 458,748 bytes have the same line, 2 by the sizes or else 1 by the length (`cut_printed` of the crate sizes_line). A read or a write
// that fails ends it with the error, status 1.
// Buffers have their lengths beside, since nothing is allocated.
#![tactic(auto)]

use std::io;

fn main(rt: HostRuntime) -> io::Result<()> {
    let mut input = [0u8; tables::LONGEST + 2];
    let read = whole_input::read_full(&mut rt.stdin(), &mut input)?;
    let mut line = [0u8; 66];
    let long = sizes_line::sizes_line(&input[..read], &mut line);
    rt.write_all(&line[..long])
}
