// Reads an order byte and then a table from standard input, and prints the line of its forecast. A read or a write that fails ends it
// with the error, status 1.
// Buffers have their lengths beside, since nothing is allocated.
#![tactic(auto)]

use std::io;

fn main(rt: HostRuntime) -> io::Result<()> {
    let mut input = [0u8; 65537];
    let read = whole_input::read_full(&mut rt.stdin(), &mut input)?;
    let mut line = [0u8; 64];
    let long = forecasting::forecast_line(&input[..read], &mut line);
    rt.write_all(&line[..long])
}
