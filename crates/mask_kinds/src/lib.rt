// Writing the kinds of the new wires of one masked gate.
#![tactic(auto)]

ghost use Rattle.std.specs.Prelude.{◌≡◌, ◌+◌, ◌*◌, ◌≤◌, ◌<◌, length, replicate};
ghost use Rattle.tables.specs.Inside.{put_at};
ghost use Rattle.tables.specs.Kinds.{kind_is};
ghost use Rattle.tables.specs.Tables.{AND, OR};
ghost use Rattle.construction.specs.Wires.{cost};
ghost use Rattle.layout.specs.Layout.{pieces_from};
ghost use Rattle.mask_kinds.specs.Kinds.{pair_kinds, row_kinds, new_kinds, XorsFrom};

use tables::Kind;

// Writes the kinds of m pairs.
fn write_pair_kinds(kinds: &mut [u8], at: usize, m: usize)
    requires { at + 5 * m ≤ length kinds.old }
    ensures { kinds.new ≡ put_at at (pieces_from m 0 (λ _. pair_kinds)) kinds.old }
{
    let product = Kind::And as u8;
    let sum = Kind::Xor as u8;
    let pair = [Kind::Random as u8, product, sum, product, sum];
    for c in 0..m {
        let to = at + 5 * c;
        kinds[to..to + 5].copy_from_slice(&pair);
    }
}

// Writes the kinds of m gates of one kind.
pub fn write_same_kinds(kind: u8, kinds: &mut [u8], at: usize, m: usize)
    requires { at + m ≤ length kinds.old }
    ensures { kinds.new ≡ put_at at (replicate m kind) kinds.old }
{
    kinds[at..at + m].fill(kind);
}

// Writes the kinds of all rows, each its own product and then the sums, where the kinds of XOR gates stand already.
fn write_rows_kinds(kinds: &mut [u8], at: usize, n: usize)
    requires { (at + n * n ≤ length kinds.old) × XorsFrom at kinds.old }
    ensures { kinds.new ≡ put_at at (pieces_from n 0 (λ _. row_kinds n)) kinds.old }
{
    for i in 0..n {
        kinds[at + n * i] = Kind::And as u8;
    }
}

// Writes the kinds of an AND's wires: the pairs, then the rows.
fn write_and_kinds(kinds: &mut [u8], at: usize, n: usize)
    requires { (n ≤ 31) × (at + cost AND n ≤ length kinds.old) × XorsFrom at kinds.old }
    ensures { kinds.new ≡ put_at at (new_kinds AND n) kinds.old }
{
    let m = gate_costs::pair_count(n);
    write_pair_kinds(kinds, at, m);
    write_rows_kinds(kinds, at + 5 * m, n);
}

// Writes the kinds of an OR's wires: two NOTs, the AND, a NOT.
fn write_or_kinds(kinds: &mut [u8], at: usize, n: usize)
    requires { (1 ≤ n) × (n ≤ 31) × (at + cost OR n ≤ length kinds.old) × XorsFrom at kinds.old }
    ensures { kinds.new ≡ put_at at (new_kinds OR n) kinds.old }
{
    kinds[at] = Kind::Not as u8;
    kinds[at + 1] = Kind::Not as u8;
    write_and_kinds(kinds, at + 2, n);
    kinds[at + 2 + gate_costs::and_cost(n)] = Kind::Not as u8;
}

// Writes the kinds of a plain gate's new wires, where the kinds of XOR gates stand already.
pub fn write_kinds_of(kind: Kind, n: usize, kinds: &mut [u8], at: usize)
    requires { (1 ≤ n) × (n ≤ 31) × (at + cost (kind_is kind) n ≤ length kinds.old) × XorsFrom at kinds.old }
    ensures { kinds.new ≡ put_at at (new_kinds (kind_is kind) n) kinds.old }
{
    match kind {
        // One store for both: which of the two a gate is decides no branch.
        Kind::Not | Kind::Xor => kinds[at] = kind as u8,
        Kind::And => write_and_kinds(kinds, at, n),
        Kind::Random => {}
        Kind::Constant => write_same_kinds(kind as u8, kinds, at, n),
        Kind::Or => write_or_kinds(kinds, at, n),
    }
}
