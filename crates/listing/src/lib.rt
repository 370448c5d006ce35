// A table in words: the number of inputs, a line for each gate, then a line for each output.
#![tactic(auto)]

ghost use Rattle.std.specs.Prelude.{◌≡◌, ◌≤◌, length};
ghost use Rattle.tables.specs.Tables.{table_of};
ghost use Rattle.tables.specs.Refusing.{fault_of};
ghost use Rattle.text.specs.Text.{refusal_line, Puts, PutsAll};
ghost use mathlib.Core.List.{flatten};
ghost use Rattle.list_lines.specs.Lines.{table_lines};
ghost use Rattle.listing.specs.Listing.{ListSays};

use list_lines::TableLines;

// Bytes that hold the text of every table: 27 a gate and 18 an output, 65,536 of each; a table has fewer, so that its first line of 13
// fits too.
pub const ROOM: usize = 2949120;

// How long the lines of a table are together.
fn lines_long(lines: &TableLines) -> usize
    ensures { result ≡ length (flatten (table_lines (table_of lines.now.table.now))) }
{
    let mut long = 0;
    for j in 0..lines.count() {
        long += lines.long(j);
    }
    long
}

// Puts the lines of a table at the front, and answers their length.
fn put_lines(out: &mut [u8], lines: &TableLines) -> usize
    requires { length (flatten (table_lines (table_of lines.now.table.now))) ≤ length out.old }
    ensures { Puts 0 (flatten (table_lines (table_of lines.now.table.now))) out.old out.new result }
{
    let mut at = 0;
    for j in 0..lines.count() {
        at = lines.put(out, at, j);
    }
    at
}

// Writes the line of a refusal at the front of the lent bytes, and answers its length; 0 where it does not fit.
// A buffer with its length beside: nothing is allocated.
fn list_refusal(found: tables::Refusal, out: &mut [u8]) -> usize
    ensures { PutsAll (refusal_line (fault_of found).number (fault_of found).place) out.old out.new result }
{
    let mut line = [0u8; 64];
    let long = text::put_refusal(&mut line, u32::from(found.number()), found.place());
    text::put_all(out, &line[..long])
}

// Writes the text of a table at the front of the lent bytes, and answers its length; where it does not fit, writes nothing and
// answers 0. ROOM bytes hold every text.
pub fn list_table(table: &[u8], out: &mut [u8]) -> usize
    ensures { ListSays table.now out.old out.new result }
{
    if let Err(found) = checking::table_fault(table) {
        return list_refusal(found, out);
    }
    let lines = TableLines { table };
    if out.len() < lines_long(&lines) {
        return 0;
    }
    put_lines(out, &lines)
}
