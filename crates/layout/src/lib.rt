// Where the shares of a plain wire are kept, and the operands of one gate.
#![tactic(auto)]

ghost use Rattle.std.specs.Prelude.{◌≡◌, cond, ◌+◌, ◌-◌, ◌*◌, ◌≤◌, ◌<◌, ℕ, suc, ◌++◌, length};
ghost use Rattle.construction.specs.Shares.{tri};
ghost use Rattle.construction.specs.Wires.{share, first_on, and_shares};
ghost use Rattle.layout.specs.Layout.{share_wires, ReadsShares, PairReads, LowPair};
ghost use Rattle.tables.specs.Inside.{put_at};
ghost use Rattle.tables.specs.Tables.{two};

// Where the shares of a plain wire are: share 1 on wire head, share s on wire base + (s − 2)·step.
#[derive(Clone, Copy)]
pub struct Places {
    pub head: usize,
    pub base: usize,
    pub step: usize,
}

// Where the shares of both operands of a gate are.
#[derive(Clone, Copy)]
pub struct Operands {
    pub left: Places,
    pub right: Places,
}

// The wires that the products of a pair of shares i < j read: shares i and j of the left operand, a, and of the right one, b.
#[derive(Clone, Copy)]
pub struct PairShares {
    pub ai: usize,
    pub bj: usize,
    pub aj: usize,
    pub bi: usize,
}

// What a gate of so many shares reads: its operands' shares, all on wires that a field can hold.
#[derive(Clone, Copy)]
pub struct GateReads {
    pub shares: usize,
    pub operands: Operands,
    ghost low: { ReadsShares shares operands },
}

impl GateReads {
    // The wires of share i of both operands, counted from 0.
    pub fn wires(self, i: usize) -> (usize, usize)
        requires { i < self.shares }
        ensures left { (result.0 ≡ share (share_wires self.shares self.operands.left) i) × (result.0 < 65536) }
        ensures right { (result.1 ≡ share (share_wires self.shares self.operands.right) i) × (result.1 < 65536) }
    {
        (
            share_wire(self.operands.left, i),
            share_wire(self.operands.right, i),
        )
    }

    // The wires that the products of a pair of shares read.
    pub fn pair(self, p: construction::SharePair) -> PairShares
        requires { (p.lower < p.upper) × (p.upper < self.shares) }
        ensures { LowPair result
            × PairReads (share_wires self.shares self.operands.left) (share_wires self.shares self.operands.right) p result }
    {
        let (ai, bi) = self.wires(p.lower);
        PairShares {
            ai,
            bj: later_wire(self.operands.right, p.upper),
            aj: later_wire(self.operands.left, p.upper),
            bi,
        }
    }
}

// The wire of share i, counted from 0, for a share that is not the first.
#[tactic(auto, using(crate::proofs::ShareWires::shares_later))]
pub fn later_wire(a: Places, i: usize) -> usize
    requires { (1 ≤ i) × (share (share_wires (suc i) a) i < 65536) }
    ensures { (result < 65536) × ((n : ℕ) → i < n → result ≡ share (share_wires n a) i) }
{
    a.base + (i - 1) * a.step
}

// The wire of share i, counted from 0.
pub fn share_wire(a: Places, i: usize) -> usize
    requires { share (share_wires (suc i) a) i < 65536 }
    ensures { (result < 65536) × ((n : ℕ) → i < n → result ≡ share (share_wires n a) i) }
{
    if i == 0 {
        return a.head;
    }
    later_wire(a, i)
}

// The places of shares of which the first is on wire w, the others where they were.
pub fn first_on(w: usize, a: Places) -> Places
    ensures { (n : ℕ) → share_wires n result ≡ first_on w (share_wires n a) }
{
    Places {
        head: w,
        base: a.base,
        step: a.step,
    }
}

// The wire of share 1 of the result of an AND whose first wire is w: the last wire of its first row.
#[tactic(auto, using(gate_costs::proofs::Figures::tri_small, construction::proofs::Sum::up_at))]
pub fn and_first(n: usize, w: usize) -> usize
    requires { (1 ≤ n) × (n ≤ 31) × (w ≤ 65535) }
    ensures { (result ≡ share (and_shares n w) 0) × (result ≡ w + 5 * tri n + (n - 1)) }
{
    w + 5 * gate_costs::pair_count(n) + (n - 1)
}

// Writes one gate's operands: two fields.
#[tactic(auto, using(tables::proofs::Put::put_then))]
pub fn put_gate(ops: &mut [u8], at: usize, left: usize, right: usize)
    requires { (at + 4 ≤ length ops.old) × (left < 65536) × (right < 65536) }
    ensures { ops.new ≡ put_at at (two left ++ two right) ops.old }
{
    fields::put_field(ops, at, left);
    fields::put_field(ops, at + 2, right);
}

// One of two numbers, by a test. As a call it is a choice between two values, not a branch, in loops over gates of any kinds.
pub fn either(test: bool, yes: usize, no: usize) -> usize
    ensures { result ≡ cond test yes no }
{
    if test { yes } else { no }
}
