// What sets the ANDs apart: the five wires of a pair of shares, which of them the rows add, and what the map flips.
#![tactic(auto)]

ghost use Rattle.std.specs.Prelude.{◌≡◌, ◌≤◌, ℕ, Some};
ghost use Rattle.construction.specs.Gadgets.{gadget_of};
ghost use Rattle.ands.specs.Forms.{upper_flipped, FormSays};

// The operands of a gate that reads two wires of its own pair, by their place among the five, from 0.
#[derive(Clone, Copy)]
pub struct PairOperands {
    pub left: usize,
    pub right: usize,
}

// What sets the pairs of one AND apart from those of another: what the third and the fifth wire read, which wires row i and row j of
// a pair (i, j) add, and 1 where the fifth wire adds both products, 0 where it adds a_j·b_i alone. That is a number, and no bool: the map
// masks by it in its inner loop, which took 6 % longer with a bool and an Option compared.
#[derive(Clone, Copy)]
pub struct PairForm {
    pub third: PairOperands,
    pub fifth: PairOperands,
    pub low: usize,
    pub high: usize,
    pub both: u8,
}

// The form of an AND's pairs.
pub fn pair_form(and: construction::And) -> PairForm
    ensures { FormSays (gadget_of and) result }
{
    match and {
        construction::And::Isw => PairForm {
            third: PairOperands { left: 0, right: 1 },
            fifth: PairOperands { left: 2, right: 3 },
            low: 0,
            high: 4,
            both: 1,
        },
        construction::And::Dom => PairForm {
            third: PairOperands { left: 1, right: 0 },
            fifth: PairOperands { left: 3, right: 0 },
            low: 2,
            high: 4,
            both: 0,
        },
    }
}

// What a pair of shares i < j flips, where k is the free share, and p and q say whether a_i·b_j and a_j·b_i differ.
pub fn pair_flip(and: construction::And, k: usize, i: usize, j: usize, p: u8, q: u8) -> u8
    requires { (p ≤ 1) × (q ≤ 1) }
    ensures { (result ≡ (gadget_of and).flip k i j p q) × (result ≤ 1) }
{
    let form = pair_form(and);
    if i == k {
        return (form.both & p) ^ q;
    }
    if form.both == 0 && j == k {
        return p;
    }
    0
}

// The share j whose pairs (i, j) may be flipped though i is not the free share k: k, or none.
pub fn upper_flipped(and: construction::And, k: usize) -> Option<usize>
    ensures { (result ≡ upper_flipped and k)
        × ((i j p q : ℕ) → q ≤ 1 → (i ≡ k → ⊥) → (result ≡ Some j → ⊥) → 0 ≡ (gadget_of and).flip k i j p q) }
{
    let form = pair_form(and);
    if form.both == 0 {
        return Some(k);
    }
    None
}
