// Writing the operands of the rows of one masked AND.
#![tactic(auto)]

ghost use Rattle.std.specs.Prelude.{◌≡◌, ◌+◌, ◌*◌, ◌≤◌, ◌<◌, ℕ, suc, length};
ghost use Rattle.tables.specs.Inside.{put_at};
ghost use Rattle.tables.specs.Tables.{pair_bytes};
ghost use Rattle.construction.specs.Shares.{tri, pair_at};
ghost use Rattle.construction.specs.Gadgets.{first, gadget_of};
ghost use Rattle.construction.specs.Wires.{pair_wire};
ghost use Rattle.layout.specs.Layout.{share_wires, high_gates, low_gates, row_gates, rows_gates};

// Writes the operands of a row's last m sums, the first of which reads wire last: they add one wire each of m pairs, from
// wire z on.
fn write_low_sums(
    and: construction::And,
    ops: &mut [u8],
    at: usize,
    last: usize,
    z: usize,
    m: usize,
)
    requires { (last + m ≤ 65536) × ((c : ℕ) → c < m → pair_wire z (gadget_of and).low c < 65536) × (at + 4 * m ≤ length ops.old) }
    ensures { ops.new ≡ put_at at (pair_bytes (low_gates (gadget_of and) z last m)) ops.old }
{
    let form = ands::pair_form(and);
    for c in 0..m {
        layout::put_gate(ops, at + 4 * c, last + c, z + 5 * c + form.low);
    }
}

// Writes the operands of row i's first i sums, the first of which reads wire last: they add one wire each of the pairs (j, i),
// j rising, where the AND's first wire is w. Returns the first wire of the pair (i, i + 1), if there is one.
fn write_high_sums(
    and: construction::And,
    ops: &mut [u8],
    at: usize,
    last: usize,
    w: usize,
    n: usize,
    i: usize,
) -> usize
    requires { (i < n) × (last + n ≤ 65536) × (w + 5 * tri n ≤ 65536) × (at + 4 * i ≤ length ops.old) }
    ensures { (suc i < n → result ≡ pair_wire w first (pair_at n i (suc i)))
        × (ops.new ≡ put_at at (pair_bytes (high_gates (gadget_of and) n w last i)) ops.old) }
{
    let form = ands::pair_form(and);
    let mut z = w + 5 * i;
    for j in 0..i {
        layout::put_gate(ops, at + 4 * j, last + j, z - 5 + form.high);
        z += 5 * (n - 2 - j);
    }
    z
}

// Writes the operands of row i from wire v on, where the AND's first wire is w: its own product, then the sums.
fn write_row(
    and: construction::And,
    ops: &mut [u8],
    at: usize,
    v: usize,
    w: usize,
    i: usize,
    reads: layout::GateReads,
)
    requires { (i < reads.shares) × (v + reads.shares ≤ 65536) × (w + 5 * tri reads.shares ≤ 65536)
        × (at + 4 * reads.shares ≤ length ops.old) }
    ensures { ops.new ≡ put_at at (pair_bytes (row_gates (gadget_of and) reads.shares w v
        (share_wires reads.shares reads.operands.left) (share_wires reads.shares reads.operands.right) i)) ops.old }
{
    let n = reads.shares;
    let (ai, bi) = reads.wires(i);
    layout::put_gate(ops, at, ai, bi);
    let z = write_high_sums(and, ops, at + 4, v, w, n, i);
    write_low_sums(and, ops, at + 4 + 4 * i, v + i, z, n - 1 - i);
}

// Writes the operands of all rows from wire v on, where the AND's first wire is w.
pub fn write_rows(
    and: construction::And,
    ops: &mut [u8],
    at: usize,
    v: usize,
    w: usize,
    reads: layout::GateReads,
)
    requires { (v + reads.shares * reads.shares ≤ 65536)
        × (w + 5 * tri reads.shares ≤ 65536)
        × (at + 4 * (reads.shares * reads.shares) ≤ length ops.old) }
    ensures { ops.new ≡ put_at at (pair_bytes (rows_gates (gadget_of and) reads.shares w v
        (share_wires reads.shares reads.operands.left) (share_wires reads.shares reads.operands.right))) ops.old }
{
    let n = reads.shares;
    for i in 0..n {
        write_row(and, ops, at + 4 * (n * i), v + n * i, w, i, reads);
    }
}
