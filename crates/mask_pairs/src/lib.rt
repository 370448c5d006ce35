// Writing the operands of the wires of an AND's pairs of shares.
#![tactic(auto)]

ghost use Rattle.std.specs.Prelude.{◌≡◌, map, ◌+◌, ◌*◌, ◌≤◌, ◌<◌, ℕ, suc, length};
ghost use Rattle.tables.specs.Inside.{put_at};
ghost use Rattle.tables.specs.Tables.{pair_bytes};
ghost use Rattle.construction.specs.Shares.{in_turn, pairs, tri};
ghost use Rattle.construction.specs.Gadgets.{all_five, gadget_of};
ghost use Rattle.mask_pairs.specs.PairRoom.{PairRoom, PairNo};
ghost use Rattle.layout.specs.Layout.{share_wires, pair_gates};

// Writes the operands of a pair's five wires, from wire w on.
fn write_pair(and: construction::And, ops: &mut [u8], at: usize, w: usize, x: layout::PairShares)
    requires { PairRoom w x at ops.old }
    ensures { ops.new
        ≡ put_at at (pair_bytes (map ((gadget_of and).gates w x.ai x.bj x.aj x.bi) all_five)) ops.old }
{
    let form = ands::pair_form(and);
    layout::put_gate(ops, at, 0, 0);
    layout::put_gate(ops, at + 4, x.ai, x.bj);
    layout::put_gate(ops, at + 8, w + form.third.left, w + form.third.right);
    layout::put_gate(ops, at + 12, x.aj, x.bi);
    layout::put_gate(ops, at + 16, w + form.fifth.left, w + form.fifth.right);
}

// The pair after a pair of n shares.
fn next_pair(p: construction::SharePair, n: usize) -> construction::SharePair
    requires { (p.lower < 65536) × (p.upper < 65536) }
    ensures { (c : ℕ) → PairNo n c p → suc c < tri n → PairNo n (suc c) result }
{
    if p.upper + 1 < n {
        return construction::SharePair {
            lower: p.lower,
            upper: p.upper + 1,
        };
    }
    construction::SharePair {
        lower: p.lower + 1,
        upper: p.lower + 2,
    }
}

// Writes the operands of all pairs, from wire w on, and returns the wire after them.
pub fn write_pairs(
    and: construction::And,
    ops: &mut [u8],
    at: usize,
    w: usize,
    reads: layout::GateReads,
) -> usize
    requires { (w + 5 * tri reads.shares ≤ 65536) × (at + 20 * tri reads.shares ≤ length ops.old) }
    ensures { (result ≡ w + 5 * tri reads.shares)
        × (ops.new ≡ put_at at (pair_bytes (in_turn 5 w (pairs reads.shares) (pair_gates (gadget_of and)
        (share_wires reads.shares reads.operands.left) (share_wires reads.shares reads.operands.right)))) ops.old) }
{
    let m = gate_costs::pair_count(reads.shares);
    let mut p = construction::SharePair { lower: 0, upper: 1 };
    for c in 0..m {
        write_pair(and, ops, at + 20 * c, w + 5 * c, reads.pair(p));
        p = next_pair(p, reads.shares);
    }
    w + 5 * m
}
