// What a gate costs once it is masked, in wires and in random bits. The bound n ≤ 31 stays in the contracts, here and above: n is a plain
// number in every definition, and a struct for it would be taken apart in each clause.
#![tactic(auto)]

ghost use Rattle.std.specs.Prelude.{◌≡◌, ◌≤◌, ℕ, length, get_or};
ghost use Rattle.tables.specs.Tables.{kind_of};
ghost use Rattle.tables.specs.Kinds.{kind_is};
ghost use Rattle.construction.specs.Shares.{tri};
ghost use Rattle.construction.specs.Wires.{and_cost, cost};
ghost use Rattle.construction.specs.Counts.{draws};

use tables::Kind;

// How many pairs n shares have.
#[tactic(auto, using(construction::proofs::Rows::tri_closed))]
pub fn pair_count(n: usize) -> usize
    requires { n ≤ 31 }
    ensures { result ≡ tri n }
{
    (n * n - n) / 2
}

// How many masked wires an AND costs.
#[tactic(auto, using(crate::proofs::Figures::tri_small, crate::proofs::Figures::square_small))]
pub fn and_cost(n: usize) -> usize
    requires { n ≤ 31 }
    ensures { result ≡ and_cost n }
{
    5 * pair_count(n) + n * n
}

// How many masked wires a plain gate costs.
#[tactic(auto, using(crate::proofs::Figures::tri_small, crate::proofs::Figures::square_small))]
pub fn gate_cost(kind: Kind, n: usize) -> usize
    requires { n ≤ 31 }
    ensures { result ≡ cost (kind_is kind) n }
{
    match kind {
        Kind::Not => 1,
        Kind::Xor | Kind::Constant => n,
        Kind::And => and_cost(n),
        Kind::Random => 0,
        Kind::Or => and_cost(n) + 3,
    }
}

// What was noted of a kind, whatever was.
pub fn noted_cost(costs: &[u16], kind: u8) -> usize
    requires { (kind ≤ 5) × (length costs.now ≡ 6) }
    ensures { result ≡ get_or costs.now kind 0 }
{
    usize::from(costs[kind as usize])
}

// What a gate of each kind costs at so many shares, by the kind's byte, so that a loop over gates has no branch where it adds costs up.
#[derive(Clone, Copy)]
pub struct GateCosts {
    pub shares: usize,
    costs: [u16; 6],
    ghost noted: { (k : ℕ) → k ≤ 5 → get_or costs k 0 ≡ cost (kind_of k) shares },
}

impl GateCosts {
    // The costs at n shares.
    #[tactic(auto, using(crate::proofs::Figures::tri_small, crate::proofs::Figures::square_small))]
    pub fn new(n: usize) -> GateCosts
        requires { n ≤ 31 }
        ensures { result.shares ≡ n }
    {
        GateCosts {
            shares: n,
            costs: [
                gate_cost(Kind::Not, n) as u16,
                gate_cost(Kind::Xor, n) as u16,
                gate_cost(Kind::And, n) as u16,
                gate_cost(Kind::Random, n) as u16,
                gate_cost(Kind::Constant, n) as u16,
                gate_cost(Kind::Or, n) as u16,
            ],
        }
    }

    // What a gate of a kind costs.
    pub fn of(&self, kind: Kind) -> usize
        ensures { result ≡ cost (kind_is kind) self.now.shares }
    {
        noted_cost(&self.costs, kind as u8)
    }
}

// How many random bits a plain gate of a kind draws once it is masked.
pub fn kind_draws(kind: Kind, n: usize) -> usize
    requires { n ≤ 31 }
    ensures { result ≡ draws (kind_is kind) n }
{
    match kind {
        Kind::And | Kind::Or => pair_count(n),
        _ => 0,
    }
}

// The same by a kind's byte: it promises an answer for every byte, a byte of no kind too.
#[tactic(auto, using(crate::proofs::Figures::unknown_draws))]
pub fn gate_draws(kind: u8, n: usize) -> usize
    requires { n ≤ 31 }
    ensures { result ≡ draws (kind_of kind) n }
{
    match Kind::try_from(kind) {
        Ok(kind) => kind_draws(kind, n),
        Err(_) => 0,
    }
}
