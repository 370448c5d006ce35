// A pair of shares in both runs of the map: its five wires, and the random bit that the second run takes.
// The tape, the mapped tape and both runs are lent one by one: a struct of the four would take a lifetime for each, and each contract
// would have to say besides that its four buffers are still the same.
#![tactic(auto)]

ghost use Rattle.std.specs.Prelude.{◌≡◌, [], ◌∷◌, map, ◌+◌, ◌≤◌, ◌<◌, length, get_or, set};
ghost use Rattle.tables.specs.Runs.{xor};
ghost use Rattle.tables.specs.Packing.{unpacked};
ghost use Rattle.tables.specs.Inside.{ran_on, RunsTo};
ghost use Rattle.construction.specs.Gadgets.{all_five, gadget_of};
ghost use Rattle.secrecy.specs.Both.{BothFlip, BothReady};
ghost use Rattle.map_pair.specs.Crossing.{fifth_value, wires_differ, pair_flips, BitAt, PairBits, PairBefore};

// The fifth wire of a pair in one run, where w is the first: it adds the first, the fourth and, where both is 1, the second.
#[tactic(auto, using(crate::proofs::Five::fifth_is))]
fn run_fifth(run: &mut [u8], w: usize, both: u8)
    requires { RunsTo (w + 4) 1 run.old × (both ≤ 1) }
    ensures { run.new ≡ set run.old (w + 4) (fifth_value both w (λ p. get_or run.old p 0)) }
{
    run[w + 4] = run[w] ^ (both & run[w + 1]) ^ run[w + 3];
}

// The five wires of a pair in one run, from wire w on, with the pair's random bit. The third adds the first two, in whichever order its
// gate has them.
fn run_pair(and: construction::And, run: &mut [u8], w: usize, shares: layout::PairShares, bit: u8)
    requires { RunsTo w 5 run.old × PairBefore w shares × (bit ≤ 1) }
    ensures { run.new
        ≡ ran_on (map ((gadget_of and).gates w shares.ai shares.bj shares.aj shares.bi) all_five) (bit ∷ []) w run.old }
{
    let form = ands::pair_form(and);
    map_values::run_random(run, w, bit);
    map_values::run_and(run, w + 1, shares.ai, shares.bj);
    map_values::run_xor(run, w + 2, w, w + 1);
    map_values::run_and(run, w + 3, shares.aj, shares.bi);
    run_fifth(run, w, form.both);
}

// Whether the product of two wires differs between the runs: 1 or 0.
fn product_differs(one: &[u8], other: &[u8], left: usize, right: usize) -> u8
    requires { BitAt one.now left × BitAt one.now right × BitAt other.now left × BitAt other.now right }
    ensures { (result ≡ wires_differ one.now other.now left right) × (result ≤ 1) }
{
    (one[left] & one[right]) ^ (other[left] & other[right])
}

// Flips the bit of a pair of shares i < j in the mapped tape where the second run needs it, and answers what was flipped; k is the
// free share. Where nothing is flipped, no product is looked at.
fn flip_pair(
    and: construction::And,
    k: usize,
    i: usize,
    j: usize,
    one: &[u8],
    other: &[u8],
    shares: layout::PairShares,
    mapped: &mut [u8],
    at: usize,
) -> u8
    requires { PairBits one.now shares × PairBits other.now shares × (at < length (unpacked mapped.old)) }
    ensures { (result ≡ pair_flips (gadget_of and) k i j one.now other.now shares)
        × (result ≤ 1)
        × (unpacked mapped.new
        ≡ set (unpacked mapped.old) at (xor (get_or (unpacked mapped.old) at 0) result)) }
{
    // 0 for none, as no share j is 0, and both tests in one: the loop over pairs is slower where Options are compared.
    if (i != k) & (j != ands::upper_flipped(and, k).unwrap_or(0)) {
        return 0;
    }
    let p = product_differs(one, other, shares.ai, shares.bj);
    let q = product_differs(one, other, shares.aj, shares.bi);
    let flip = ands::pair_flip(and, k, i, j, p, q);
    bits::flip_bit(mapped, at, flip);
    flip
}

// A pair of shares i and j in both runs, from wire w on: its random bit is that of the tape at a place, and what it flips is flipped
// there in the mapped tape.
pub fn map_pair(
    and: construction::And,
    k: usize,
    i: usize,
    j: usize,
    w: usize,
    shares: layout::PairShares,
    tape: &[u8],
    at: usize,
    mapped: &mut [u8],
    one: &mut [u8],
    other: &mut [u8],
)
    requires { BothReady w 5 at 1 (unpacked tape.now) (unpacked mapped.old) one.old other.old × PairBefore w shares }
    ensures { BothFlip (map ((gadget_of and).gates w shares.ai shares.bj shares.aj shares.bi) all_five)
        (pair_flips (gadget_of and) k i j one.old other.old shares ∷ [])
        (unpacked tape.now) at w
        (unpacked mapped.old) (unpacked mapped.new) one.old
        one.new other.old other.new }
{
    let bit = bits::tape_bit(tape, at);
    let flip = flip_pair(and, k, i, j, one, other, shares, mapped, at);
    run_pair(and, one, w, shares, bit);
    run_pair(and, other, w, shares, bit ^ flip);
}
