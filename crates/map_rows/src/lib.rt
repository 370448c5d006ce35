// The rows of an AND, run on in both runs of the map. The runs are lent one by one, as in `map_pair`.
#![tactic(auto)]

ghost use Rattle.std.specs.Prelude.{◌≡◌, [], ◌∷◌, ◌+◌, ◌*◌, ◌≤◌, ◌<◌, ℕ, suc, get_or};
ghost use Rattle.tables.specs.Tables.{XOR, gate};
ghost use Rattle.tables.specs.Inside.{ran_on, RunsTo};
ghost use Rattle.construction.specs.Shares.{tri, pair_at};
ghost use Rattle.construction.specs.Gadgets.{first, gadget_of};
ghost use Rattle.construction.specs.Wires.{pair_wire};
ghost use Rattle.layout.specs.Layout.{share_wires, high_gates, low_gates, row_gates, rows_gates};
ghost use Rattle.map_values.specs.Driving.{SharesBefore};

// A sum on the wire after `last`, where left is the value of wire last. Returns the sum's own value.
fn run_sum(run: &mut [u8], last: usize, left: u8, right: usize) -> u8
    requires { RunsTo (last + 1) 1 run.old × (right ≤ last) × (left ≡ get_or run.old last 0) }
    ensures { (run.new ≡ ran_on (gate XOR last right ∷ []) [] (last + 1) run.old)
        × (result ≡ get_or run.new (last + 1) 0) }
{
    let value = left ^ run[right];
    run[last + 1] = value;
    value
}

// A row's last m sums in both runs, the first of which reads wire last: they add one wire each of m pairs, from wire z on.
fn run_low_sums(
    and: construction::And,
    one: &mut [u8],
    other: &mut [u8],
    last: usize,
    z: usize,
    m: usize,
)
    requires { RunsTo (last + 1) m one.old × RunsTo (last + 1) m other.old
        × ((c : ℕ) → c < m → pair_wire z (gadget_of and).low c ≤ last) }
    ensures { (one.new ≡ ran_on (low_gates (gadget_of and) z last m) [] (last + 1) one.old)
        × (other.new ≡ ran_on (low_gates (gadget_of and) z last m) [] (last + 1) other.old) }
{
    let form = ands::pair_form(and);
    let mut x = one[last];
    let mut y = other[last];
    for c in 0..m {
        let added = z + 5 * c + form.low;
        x = run_sum(one, last + c, x, added);
        y = run_sum(other, last + c, y, added);
    }
}

// Row i's first i sums in both runs, the first of which reads wire last: they add one wire each of the pairs (j, i), j rising,
// where the AND's first wire is w. Returns the first wire of the pair (i, i + 1), if there is one.
fn run_high_sums(
    and: construction::And,
    one: &mut [u8],
    other: &mut [u8],
    last: usize,
    w: usize,
    n: usize,
    i: usize,
) -> usize
    requires { RunsTo (last + 1) i one.old × RunsTo (last + 1) i other.old
        × (i < n) × (n ≤ 31) × (w + 5 * tri n ≤ last) × (last ≤ 65536) }
    ensures { (suc i < n → result ≡ pair_wire w first (pair_at n i (suc i)))
        × (one.new ≡ ran_on (high_gates (gadget_of and) n w last i) [] (last + 1) one.old)
        × (other.new ≡ ran_on (high_gates (gadget_of and) n w last i) [] (last + 1) other.old) }
{
    let form = ands::pair_form(and);
    let mut x = one[last];
    let mut y = other[last];
    let mut z = w + 5 * i;
    for j in 0..i {
        let added = z - 5 + form.high;
        x = run_sum(one, last + j, x, added);
        y = run_sum(other, last + j, y, added);
        z += 5 * (n - 2 - j);
    }
    z
}

// Row i in both runs from wire v on, where the AND's first wire is w: its own product, then the sums.
fn run_row(
    and: construction::And,
    one: &mut [u8],
    other: &mut [u8],
    v: usize,
    w: usize,
    n: usize,
    i: usize,
    operands: layout::Operands,
)
    requires { RunsTo v n one.old × RunsTo v n other.old
        × SharesBefore n w operands.left operands.right × (i < n) × (w + 5 * tri n ≤ v) × (v + n ≤ 65536) }
    ensures { (one.new
        ≡ ran_on (row_gates (gadget_of and) n w v (share_wires n operands.left) (share_wires n operands.right) i) [] v one.old)
        × (other.new
        ≡ ran_on (row_gates (gadget_of and) n w v (share_wires n operands.left) (share_wires n operands.right) i) [] v other.old) }
{
    let ai = layout::share_wire(operands.left, i);
    let bi = layout::share_wire(operands.right, i);
    map_values::run_and(one, v, ai, bi);
    map_values::run_and(other, v, ai, bi);
    let z = run_high_sums(and, one, other, v, w, n, i);
    run_low_sums(and, one, other, v + i, z, n - 1 - i);
}

// All rows in both runs from wire v on, where the AND's first wire is w.
pub fn run_rows(
    and: construction::And,
    one: &mut [u8],
    other: &mut [u8],
    v: usize,
    w: usize,
    n: usize,
    operands: layout::Operands,
)
    requires { RunsTo v (n * n) one.old × RunsTo v (n * n) other.old
        × SharesBefore n w operands.left operands.right × (w + 5 * tri n ≤ v) × (v + n * n ≤ 65536) }
    ensures { (one.new
        ≡ ran_on (rows_gates (gadget_of and) n w v (share_wires n operands.left) (share_wires n operands.right)) [] v one.old)
        × (other.new
        ≡ ran_on (rows_gates (gadget_of and) n w v (share_wires n operands.left) (share_wires n operands.right)) [] v other.old) }
{
    for i in 0..n {
        run_row(and, one, other, v + n * i, w, n, i, operands);
    }
}
