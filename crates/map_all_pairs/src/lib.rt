// All pairs of shares in both runs of the map. The tape, the mapped tape and both runs are lent one by one, as in `map_pair`.
#![tactic(auto)]

ghost use Rattle.std.specs.Prelude.{◌+◌, ◌-◌, ◌*◌, ◌≤◌, ◌<◌, suc};
ghost use Rattle.tables.specs.Packing.{unpacked};
ghost use Rattle.construction.specs.Shares.{pairs, tri};
ghost use Rattle.construction.specs.Gadgets.{gadget_of};
ghost use Rattle.secrecy.specs.Both.{BothReady};
ghost use Rattle.map_values.specs.Driving.{SharesBefore};
ghost use Rattle.map_all_pairs.specs.Pairing.{share_pairs, PairsRan};

// The pairs of share i, counted from 0, with each later share, in both runs, from wire w and from a place of the tape on.
fn map_share(
    and: construction::And,
    k: usize,
    n: usize,
    i: usize,
    w: usize,
    operands: layout::Operands,
    tape: &[u8],
    at: usize,
    mapped: &mut [u8],
    one: &mut [u8],
    other: &mut [u8],
)
    requires { (i < n) × SharesBefore n w operands.left operands.right
        × BothReady w (5 * (n - suc i)) at (n - suc i) (unpacked tape.now) (unpacked mapped.old) one.old other.old }
    ensures { PairsRan (gadget_of and) n k operands.left operands.right (share_pairs n i) (unpacked tape.now) at w
        (unpacked mapped.old) (unpacked mapped.new) one.old
        one.new other.old other.new }
{
    let ai = layout::share_wire(operands.left, i);
    let bi = layout::share_wire(operands.right, i);
    for c in 0..n - 1 - i {
        let j = i + 1 + c;
        let aj = layout::later_wire(operands.left, j);
        let bj = layout::later_wire(operands.right, j);
        let shares = layout::PairShares { ai, bj, aj, bi };
        map_pair::map_pair(
            and,
            k,
            i + 1,
            j + 1,
            w + 5 * c,
            shares,
            tape,
            at + c,
            mapped,
            one,
            other,
        );
    }
}

// All pairs of n shares in both runs, from wire w and from a place of the tape on.
pub fn map_pairs(
    and: construction::And,
    k: usize,
    n: usize,
    w: usize,
    operands: layout::Operands,
    tape: &[u8],
    at: usize,
    mapped: &mut [u8],
    one: &mut [u8],
    other: &mut [u8],
)
    requires { SharesBefore n w operands.left operands.right × (w + 5 * tri n ≤ 65535)
        × BothReady w (5 * tri n) at (tri n) (unpacked tape.now) (unpacked mapped.old) one.old other.old }
    ensures { PairsRan (gadget_of and) n k operands.left operands.right (pairs n) (unpacked tape.now) at w
        (unpacked mapped.old) (unpacked mapped.new) one.old
        one.new other.old other.new }
{
    let mut v = w;
    let mut next = at;
    for i in 0..n {
        map_share(and, k, n, i, v, operands, tape, next, mapped, one, other);
        let later = n - 1 - i;
        v += 5 * later;
        next += later;
    }
}
