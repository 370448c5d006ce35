// Writing the operands of the new wires of one masked gate.
#![tactic(auto)]

ghost use Rattle.std.specs.Prelude.{◌≡◌, ◌+◌, ◌*◌, ◌≤◌, ◌<◌, ℕ, length};
ghost use Rattle.tables.specs.Inside.{put_at};
ghost use Rattle.tables.specs.Kinds.{kind_is};
ghost use Rattle.tables.specs.Tables.{pair_bytes, AND, OR};
ghost use Rattle.construction.specs.Gadgets.{gadget_of};
ghost use Rattle.construction.specs.Wires.{cost, new_wires};
ghost use Rattle.mask_operands.specs.OperandRoom.{OperandRoom};
ghost use Rattle.layout.specs.Layout.{share_wires, operand_bytes, pieces_from, ReadsShares, xor_gates};
ghost use Rattle.layout.specs.Layout.{constant_gates, and_gates, or_gates};
ghost use Rattle.share_places.specs.Located.{places_at, operands_at, Room};

use tables::Kind;

// Writes the operands of an XOR's wires, share by share.
fn write_xor(ops: &mut [u8], at: usize, reads: layout::GateReads)
    requires { at + 4 * reads.shares ≤ length ops.old }
    ensures { ops.new ≡ put_at at (pair_bytes (pieces_from reads.shares 0
        (xor_gates (share_wires reads.shares reads.operands.left) (share_wires reads.shares reads.operands.right)))) ops.old }
{
    for s in 0..reads.shares {
        let (left, right) = reads.wires(s);
        layout::put_gate(ops, at + 4 * s, left, right);
    }
}

// Writes the operands of a constant's shares: its value in the first, zeros in the others.
fn write_constant(ops: &mut [u8], at: usize, n: usize, value: usize)
    requires { (at + 4 * n ≤ length ops.old) × (value < 65536) }
    ensures { ops.new ≡ put_at at (pair_bytes (pieces_from n 0 (constant_gates value))) ops.old }
{
    for s in 0..n {
        let left = if s == 0 { value } else { 0 };
        layout::put_gate(ops, at + 4 * s, left, 0);
    }
}

// Writes the operands of an AND's wires, from wire w on: the pairs, then the rows.
fn write_and(and: construction::And, ops: &mut [u8], at: usize, w: usize, reads: layout::GateReads)
    requires { (w + cost AND reads.shares ≤ 65536) × (at + 4 * cost AND reads.shares ≤ length ops.old) }
    ensures { ops.new ≡ put_at at (pair_bytes (and_gates (gadget_of and) reads.shares w
        (share_wires reads.shares reads.operands.left) (share_wires reads.shares reads.operands.right))) ops.old }
{
    let v = mask_pairs::write_pairs(and, ops, at, w, reads);
    mask_rows::write_rows(and, ops, at + 4 * (v - w), v, w, reads);
}

// Writes the operands of an OR's wires, from wire w on: the NOTs of both first shares, the AND, the NOT of its first share.
fn write_or(and: construction::And, ops: &mut [u8], at: usize, w: usize, reads: layout::GateReads)
    requires { (1 ≤ reads.shares) × (w + cost OR reads.shares ≤ 65536) × (at + 4 * cost OR reads.shares ≤ length ops.old) }
    ensures { ops.new ≡ put_at at (pair_bytes (or_gates (gadget_of and) reads.shares w
        (share_wires reads.shares reads.operands.left) (share_wires reads.shares reads.operands.right))) ops.old }
{
    let n = reads.shares;
    let operands = reads.operands;
    let last = layout::and_first(n, w + 2);
    let end = at + 8 + 4 * gate_costs::and_cost(n);
    let inverted = layout::GateReads {
        shares: n,
        operands: layout::Operands {
            left: layout::first_on(w, operands.left),
            right: layout::first_on(w + 1, operands.right),
        },
    };
    layout::put_gate(ops, at, operands.left.head, 0);
    layout::put_gate(ops, at + 4, operands.right.head, 0);
    write_and(and, ops, at + 8, w + 2, inverted);
    layout::put_gate(ops, end, last, 0);
}

// What a gate of n shares reads, where an array says where its operands' shares are.
fn reads_of(
    places: &[share_places::KeptPlaces],
    left: usize,
    right: usize,
    n: usize,
) -> layout::GateReads
    requires { Room (left + 1) places.now × Room (right + 1) places.now × ReadsShares n (operands_at places.now left right) }
    ensures { (result.shares ≡ n) × (result.operands ≡ operands_at places.now left right) }
{
    layout::GateReads {
        shares: n,
        operands: share_places::operands_at(places, left, right),
    }
}

// Writes the operands of a plain gate's new wires, from wire w on, where an array says where its operands' shares are; a constant's
// left operand is its value.
pub fn write_operands_of(
    and: construction::And,
    kind: Kind,
    left: usize,
    right: usize,
    n: usize,
    w: usize,
    places: &[share_places::KeptPlaces],
    ops: &mut [u8],
    at: usize,
)
    requires { Room (left + 1) places.now × Room (right + 1) places.now
        × OperandRoom kind left n w (operands_at places.now left right) at ops.old }
    ensures { (g : ℕ) → ops.new
        ≡ put_at at (operand_bytes (new_wires (gadget_of and) (kind_is kind) left n g w
        (share_wires n (places_at places.now left)) (share_wires n (places_at places.now right)))) ops.old }
{
    match kind {
        // A NOT reads one number alone: tables of NOTs took a third more where every kind read all six.
        Kind::Not => layout::put_gate(ops, at, places[left].head as usize, 0),
        Kind::Xor => write_xor(ops, at, reads_of(places, left, right, n)),
        Kind::And => write_and(and, ops, at, w, reads_of(places, left, right, n)),
        Kind::Random => {}
        Kind::Constant => write_constant(ops, at, n, left),
        Kind::Or => write_or(and, ops, at, w, reads_of(places, left, right, n)),
    }
}
