// Reading and writing the bytes of a table: two-byte fields, gates, outputs, and bytes at a place.
#![tactic(auto)]

ghost use Rattle.std.specs.Prelude.{◌≡◌, ◌+◌, ◌≤◌, ◌<◌, length, get_or};
ghost use Rattle.tables.specs.Tables.{gate_of, word, two, table_of};
ghost use Rattle.tables.specs.Inside.{put_at, HasGates, HasOutputs, GateIs};

// The bytes of a table, which have all the gates that they state: so many.
#[derive(Clone, Copy)]
pub struct Gates<'a> {
    pub table: &'a [u8],
    pub count: usize,
    ghost all: { HasGates table.now count },
}

// The bytes of a table, which have all the gates and outputs that they state: so many.
#[derive(Clone, Copy)]
pub struct Outputs<'a> {
    pub table: &'a [u8],
    pub gates: usize,
    pub count: usize,
    ghost all: { HasOutputs table.now gates count },
}

// The two-byte field at a place, low byte first.
pub fn field(s: &[u8], at: usize) -> usize
    requires { at + 1 < length s.now }
    ensures { (result ≡ word s.now at) × (result < 65536) }
{
    u16::from_le_bytes([s[at], s[at + 1]]) as usize
}

// Writes a two-byte field, low byte first.
pub fn put_field(out: &mut [u8], at: usize, v: usize)
    requires { (at + 1 < length out.old) × (v < 65536) }
    ensures { out.new ≡ put_at at (two v) out.old }
{
    out[at..at + 2].copy_from_slice(&(v as u16).to_le_bytes());
}

// Writes bytes at a place, one by one: `copy_from_slice` would have the archive ask for memmove from outside, whose first call takes
// more stack than include/masks.h states.
pub fn put_bytes(out: &mut [u8], at: usize, src: &[u8])
    requires { at + length src.now ≤ length out.old }
    ensures { out.new ≡ put_at at src.now out.old }
{
    for i in 0..src.len() {
        out[at + i] = src[i];
    }
}

impl<'a> Gates<'a> {
    // Gate g, counted from 0.
    pub fn at(&self, g: usize) -> tables::GateFields
        requires { g < self.now.count }
        ensures { GateIs (gate_of (table_of self.now.table.now) g) result }
    {
        tables::GateFields {
            kind: self.table[6 + g],
            left: field(self.table, 6 + self.count + 4 * g),
            right: field(self.table, 8 + self.count + 4 * g),
        }
    }
}

impl<'a> Outputs<'a> {
    // The wire of output o, counted from 0.
    pub fn at(&self, o: usize) -> usize
        requires { o < self.now.count }
        ensures { (result ≡ get_or (table_of self.now.table.now).outputs o 0) × (result < 65536) }
    {
        field(self.table, 6 + 5 * self.gates + 2 * o)
    }
}
