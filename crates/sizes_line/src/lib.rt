// The masked sizes of a plain table at an order, also where 8 refuses them, and the sizes program's line.
#![tactic(auto)]

ghost use Rattle.std.specs.Prelude.{◌≡◌, ◌+◌, ◌≤◌, length};
ghost use Rattle.tables.specs.Tables.{Table};
ghost use Rattle.text.specs.Text.{Puts};
ghost use Rattle.planning.specs.Plans.{Countable, TallyOf};
ghost use Rattle.sizes_line.specs.Lines.{largest_order, table_line, printed, SizesSay};
ghost use Rattle.sizes_line.specs.Inside.{SixOf, later_text, six_text, told_line};

use tables::Refusal;

// The six figures of a plain table at an order: those of its masked table, and the largest order at which 8 does not refuse it.
#[derive(Clone, Copy)]
struct Six {
    shares: u32,
    wires: u32,
    tape: u32,
    bytes: u32,
    outputs: u32,
    largest: u32,
}

// The largest order from 1 to 15 at which 8 does not refuse a table with this tally, 0 where there is none.
#[tactic(auto, using(crate::proofs::Largest::largest_laws))]
fn largest_order(tally: planning::Tally) -> u8
    requires { Countable 15 tally.inputs tally.outputs tally.counts }
    ensures { (t : Table) → TallyOf t tally → result ≡ largest_order t }
{
    for order in (1..=15).rev() {
        let masked = planning::masked_sizes(order, tally.inputs, tally.outputs, tally.counts);
        if !planning::too_large(masked) {
            return order;
        }
    }
    0
}

// The six figures at an order of a table with this tally.
#[tactic(auto, using(planning::proofs::Planning::masked_fits, crate::proofs::Largest::countable_at))]
fn six_figures(order: u8, tally: planning::Tally) -> Six
    requires { Countable order tally.inputs tally.outputs tally.counts }
    ensures { (t : Table) → TallyOf t tally → SixOf order t result }
{
    let masked = planning::masked_sizes(order, tally.inputs, tally.outputs, tally.counts);
    let bytes = planning::table_bytes(masked.gates, masked.outputs);
    let largest = largest_order(tally);
    Six {
        shares: masked.shares as u32,
        wires: masked.wires as u32,
        tape: masked.tape as u32,
        bytes: bytes as u32,
        outputs: masked.outputs as u32,
        largest: largest as u32,
    }
}

// What is told of a plain table at an order: the first of refusals 1 to 7, or the six figures.
#[tactic(auto, using(crate::proofs::Line::told_refused))]
fn tell_table(table: &[u8], order: u8) -> Result<Six, Refusal>
    ensures { told_line result ≡ table_line table.now order }
{
    let tally = planning::tally_table(table, order)?;
    Ok(six_figures(order, tally))
}

// What is told of an input: an order byte, then a table.
fn tell_input(input: &[u8]) -> Result<Six, Refusal>
    ensures { told_line result ≡ printed input.now }
{
    match input.split_first() {
        None => tell_table(input, 0),
        Some((order, table)) => tell_table(table, *order),
    }
}

// Puts the last three figures of a line, and answers its length.
fn put_later(out: &mut [u8], at: usize, six: Six) -> usize
    requires { at + length (later_text six) ≤ length out.old }
    ensures { Puts at (later_text six) out.old out.new result }
{
    let next = text::put_number(out, at, b" ", six.bytes);
    text::put_two(out, next, b" ", six.outputs, b" ", six.largest)
}

// Puts the line of the six figures, and answers its length. Not one function with the forecast's four, over a slice of numbers: its room
// would be a sum over the slice, where here it is the line's own text, which `printed` defines.
fn put_six(out: &mut [u8], six: Six) -> usize
    requires { length (six_text six) ≤ length out.old }
    ensures { Puts 0 (six_text six) out.old out.new result }
{
    let second = text::put_number(out, 0, b"", six.shares);
    let third = text::put_number(out, second, b" ", six.wires);
    let fourth = text::put_number(out, third, b" ", six.tape);
    put_later(out, fourth, six)
}

// Puts the line of what is told, and answers its length.
fn put_told(out: &mut [u8], told: Result<Six, Refusal>) -> usize
    requires { length (told_line told) ≤ length out.old }
    ensures { Puts 0 (told_line told) out.old out.new result }
{
    match told {
        Ok(six) => put_six(out, six),
        Err(refusal) => text::put_refusal(out, u32::from(refusal.number()), refusal.place()),
    }
}

// Writes the sizes program's line for an input, and answers its length; where it does not fit, writes nothing and answers 0.
// A buffer with its length beside: nothing is allocated.
#[tactic(auto, using(crate::proofs::Line::line_fits))]
pub fn sizes_line(input: &[u8], out: &mut [u8]) -> usize
    ensures { SizesSay input.now out.old out.new result }
{
    let mut line = [0u8; 66];
    let long = put_told(&mut line, tell_input(input));
    text::put_all(out, &line[..long])
}
