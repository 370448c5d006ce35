// The lines of a table in words, each by its number.
#![tactic(auto)]

ghost use Rattle.std.specs.Prelude.{◌≡◌, true, ◌∷◌, suc, ◌+◌, ◌≤◌, ◌<◌, length};
ghost use Rattle.tables.specs.Tables.{kind_of, known, table_of};
ghost use Rattle.tables.specs.Kinds.{kind_is};
ghost use Rattle.text.specs.Text.{line_of, Puts};
ghost use Rattle.list_lines.specs.Lines.{equals_word, kind_words, gate_line, output_line, table_lines};
ghost use Rattle.list_lines.specs.Listed.{Listed, line_at, stated};

use tables::Kind;

// Puts what a gate's line has after its wire, and answers the next place.
#[tactic(auto, unfolding(text::specs::Text::line_of))]
fn put_kind(out: &mut [u8], at: usize, kind: Kind, left: u32, right: u32) -> usize
    requires { at + length (32 ∷ line_of equals_word (kind_words (kind_is kind) left right)) ≤ length out.old }
    ensures { Puts at (32 ∷ line_of equals_word (kind_words (kind_is kind) left right)) out.old out.new result }
{
    match kind {
        Kind::Not => text::put_last(out, at, b" = NOT w", left),
        Kind::Xor => text::put_two(out, at, b" = XOR w", left, b" w", right),
        Kind::And => text::put_two(out, at, b" = AND w", left, b" w", right),
        Kind::Random => text::put_bytes(out, at, b" = RANDOM\n"),
        Kind::Constant => text::put_last(out, at, b" = CONSTANT ", left),
        Kind::Or => text::put_two(out, at, b" = OR w", left, b" w", right),
    }
}

// Puts the line of a gate, and answers the next place.
fn put_gate(out: &mut [u8], at: usize, wire: u32, gate: tables::GateFields) -> usize
    requires { (known (kind_of gate.kind) ≡ true) × (gate.left < 65536) × (gate.right < 65536)
        × (at + length (gate_line wire (stated gate)) ≤ length out.old) }
    ensures { Puts at (gate_line wire (stated gate)) out.old out.new result }
{
    let next = text::put_number(out, at, b"w", wire);
    put_kind(
        out,
        next,
        gate.known_kind(),
        gate.left as u32,
        gate.right as u32,
    )
}

// Puts the line of an output, and answers the next place.
#[tactic(auto, unfolding(text::specs::Text::line_of))]
fn put_output(out: &mut [u8], at: usize, position: u32, wire: u32) -> usize
    requires { at + length (output_line position wire) ≤ length out.old }
    ensures { Puts at (output_line position wire) out.old out.new result }
{
    text::put_two(out, at, b"out", position, b" = w", wire)
}

// The lines of a table, of which the first states the inputs.
#[derive(Clone, Copy)]
pub struct TableLines<'a> {
    pub table: &'a [u8],
    ghost listed: { Listed table.now },
}

impl<'a> TableLines<'a> {
    // How many there are.
    #[tactic(auto, using(tables::proofs::Accept::accepted_long, crate::proofs::Lines::lines_length))]
    pub fn count(&self) -> usize
        ensures { result ≡ length (table_lines (table_of self.now.table.now)) }
    {
        1 + fields::field(self.table, 2) + fields::field(self.table, 4)
    }

    // Puts line number j after the first, a gate's or after the gates an output's, and answers the next place.
    #[tactic(auto, using(tables::proofs::Accept::accepted_long, crate::proofs::Numbered::line_output))]
    fn put_part(&self, out: &mut [u8], at: usize, j: usize) -> usize
        requires { (suc j < length (table_lines (table_of self.now.table.now)))
            × (at + length (line_at self.now.table.now (suc j)) ≤ length out.old) }
        ensures { Puts at (line_at self.now.table.now (suc j)) out.old out.new result }
    {
        let count = fields::field(self.table, 2);
        if j < count {
            let gates = fields::Gates {
                table: self.table,
                count,
            };
            let wire = fields::field(self.table, 0) + j;
            return put_gate(out, at, wire as u32, gates.at(j));
        }
        let outputs = fields::Outputs {
            table: self.table,
            gates: count,
            count: fields::field(self.table, 4),
        };
        let position = j - count;
        put_output(out, at, position as u32, outputs.at(position) as u32)
    }

    // Puts line number j, and answers the next place.
    #[tactic(auto, using(tables::proofs::Accept::accepted_long))]
    pub fn put(&self, out: &mut [u8], at: usize, j: usize) -> usize
        requires { (j < length (table_lines (table_of self.now.table.now)))
            × (at + length (line_at self.now.table.now j) ≤ length out.old) }
        ensures { Puts at (line_at self.now.table.now j) out.old out.new result }
    {
        if j == 0 {
            let inputs = fields::field(self.table, 0);
            return text::put_last(out, at, b"inputs ", inputs as u32);
        }
        self.put_part(out, at, j - 1)
    }

    // How long line number j is.
    #[tactic(auto, using(crate::proofs::Lines::line_short))]
    pub fn long(&self, j: usize) -> usize
        requires { j < length (table_lines (table_of self.now.table.now)) }
        ensures { result ≡ length (line_at self.now.table.now j) }
    {
        let mut line = [0u8; 32];
        self.put(&mut line, 0, j)
    }
}
