// The steps of the map: a plain gate in both runs, and all gates in table order. The tape, the mapped tape and both runs are lent
// one by one, as in `map_pair`.
#![tactic(auto)]

ghost use Rattle.std.specs.Prelude.{◌≡◌, true, cond, [], map, ◌+◌, ◌*◌, ◌≤◌, ◌<◌, ℕ, get_or};
ghost use Rattle.tables.specs.Tables.{AND, table_of};
ghost use Rattle.tables.specs.Kinds.{kind_is};
ghost use Rattle.tables.specs.Inside.{ran_on, RunsTo};
ghost use Rattle.tables.specs.Packing.{unpacked};
ghost use Rattle.construction.specs.Shares.{pairs, tri};
ghost use Rattle.construction.specs.Gadgets.{gadget_of};
ghost use Rattle.construction.specs.Wires.{and_cost, cost};
ghost use Rattle.secrecy.specs.Maps.{gate_flips};
ghost use Rattle.secrecy.specs.Both.{wires_flip, BothFlip, BothReady};
ghost use Rattle.layout.specs.Layout.{share_wires, and_gates};
ghost use Rattle.share_places.specs.Located.{operands_at, Room, Located};
ghost use Rattle.map_values.specs.Driving.{SharesBefore};
ghost use Rattle.map_gates.specs.Steps.{product_kind, product_gates, not_gates, last_gates, StepReady, GateRan, GatesReady};
ghost use Rattle.map_gates.specs.Steps.{GatesRan};

use tables::Kind;

// An AND in both runs, from wire w and from a place of the tape on: the pairs, then the rows.
fn map_and(
    and: construction::And,
    k: usize,
    n: usize,
    w: usize,
    operands: layout::Operands,
    tape: &[u8],
    at: usize,
    mapped: &mut [u8],
    one: &mut [u8],
    other: &mut [u8],
)
    requires { SharesBefore n w operands.left operands.right × (w + cost AND n ≤ 65535)
        × BothReady w (cost AND n) at (tri n) (unpacked tape.now) (unpacked mapped.old) one.old other.old }
    ensures { BothFlip
        (and_gates (gadget_of and) n w (share_wires n operands.left) (share_wires n operands.right))
        (map
        (wires_flip (gadget_of and) k (share_wires n operands.left) (share_wires n operands.right)
        (λ p. get_or one.old p 0) (λ p. get_or other.old p 0))
        (pairs n))
        (unpacked tape.now) at w
        (unpacked mapped.old) (unpacked mapped.new) one.old
        one.new other.old other.new }
{
    let v = w + 5 * gate_costs::pair_count(n);
    map_all_pairs::map_pairs(and, k, n, w, operands, tape, at, mapped, one, other);
    map_rows::run_rows(and, one, other, v, w, n, operands);
}

// The two NOTs that an OR begins with, in both runs, on wires w and w + 1; an AND begins with none.
fn run_first_nots(or: bool, w: usize, left: usize, right: usize, one: &mut [u8], other: &mut [u8])
    requires { or ≡ true → RunsTo w 2 one.old × RunsTo w 2 other.old × (left < w) × (right < w) }
    ensures { (one.new ≡ cond or (ran_on (not_gates left right) [] w one.old) one.old)
        × (other.new ≡ cond or (ran_on (not_gates left right) [] w other.old) other.old) }
{
    if or {
        map_values::run_nots(one, w, left, right);
        map_values::run_nots(other, w, left, right);
    }
}

// The NOT that an OR ends with, in both runs, where its AND's first wire is w; an AND ends with none.
fn run_last_not(or: bool, n: usize, w: usize, one: &mut [u8], other: &mut [u8])
    requires { or ≡ true → (1 ≤ n) × (n ≤ 31) × (w + and_cost n ≤ 65535)
        × RunsTo (w + and_cost n) 1 one.old × RunsTo (w + and_cost n) 1 other.old }
    ensures { (one.new ≡ cond or (ran_on (last_gates n w) [] (w + and_cost n) one.old) one.old)
        × (other.new ≡ cond or (ran_on (last_gates n w) [] (w + and_cost n) other.old) other.old) }
{
    if or {
        let last = layout::and_first(n, w);
        let end = w + gate_costs::and_cost(n);
        map_values::run_not(one, end, last);
        map_values::run_not(other, end, last);
    }
}

// An AND or an OR in both runs, from wire w and from a place of the tape on. `map_and` is called here alone, and no branch
// stands around the call: so the compiler makes one function of both, and an AND is as fast as if there were no ORs.
fn map_product(
    and: construction::And,
    or: bool,
    k: usize,
    n: usize,
    w: usize,
    operands: layout::Operands,
    tape: &[u8],
    at: usize,
    mapped: &mut [u8],
    one: &mut [u8],
    other: &mut [u8],
)
    requires { (1 ≤ n) × SharesBefore n w operands.left operands.right × (w + cost (product_kind or) n ≤ 65535)
        × BothReady w (cost (product_kind or) n) at (tri n) (unpacked tape.now) (unpacked mapped.old) one.old other.old }
    ensures { BothFlip
        (product_gates (gadget_of and) or n w (share_wires n operands.left) (share_wires n operands.right))
        (gate_flips (gadget_of and) (product_kind or) n k (share_wires n operands.left) (share_wires n operands.right)
        (λ p. get_or one.old p 0) (λ p. get_or other.old p 0))
        (unpacked tape.now) at w
        (unpacked mapped.old) (unpacked mapped.new) one.old
        one.new other.old other.new }
{
    let a = operands.left;
    let b = operands.right;
    let read = layout::Operands {
        left: layout::first_on(layout::either(or, w, a.head), a),
        right: layout::first_on(layout::either(or, w + 1, b.head), b),
    };
    let v = layout::either(or, w + 2, w);
    run_first_nots(or, w, a.head, b.head, one, other);
    map_and(and, k, n, v, read, tape, at, mapped, one, other);
    run_last_not(or, n, v, one, other);
}

// A plain gate in both runs, from wire w and from a place of the tape on, where an array says where its operands' shares are. A NOT
// reads one number of the array.
fn map_gate(
    and: construction::And,
    gate: share_places::PlainGate,
    k: usize,
    n: usize,
    w: usize,
    places: &[share_places::KeptPlaces],
    tape: &[u8],
    at: usize,
    mapped: &mut [u8],
    one: &mut [u8],
    other: &mut [u8],
)
    requires { Room (gate.left + 1) places.now × Room (gate.right + 1) places.now
        × StepReady (kind_is gate.kind) gate.left n w (operands_at places.now gate.left gate.right)
        (unpacked tape.now) at (unpacked mapped.old) one.old other.old }
    ensures { (g : ℕ) → GateRan (gadget_of and) (kind_is gate.kind) gate.left n k g w
        (operands_at places.now gate.left gate.right)
        (unpacked tape.now) at
        (unpacked mapped.old) (unpacked mapped.new) one.old
        one.new other.old other.new }
{
    match gate.kind {
        Kind::Not => {
            let head = places[gate.left].head as usize;
            map_values::run_not(one, w, head);
            map_values::run_not(other, w, head);
        }
        Kind::Xor => {
            let operands = share_places::operands_at(places, gate.left, gate.right);
            map_values::run_xors(one, w, n, operands);
            map_values::run_xors(other, w, n, operands);
        }
        Kind::Random => {}
        Kind::Constant => {
            map_values::run_constants(one, w, n, gate.left as u8);
            map_values::run_constants(other, w, n, gate.left as u8);
        }
        Kind::And | Kind::Or => {
            let operands = share_places::operands_at(places, gate.left, gate.right);
            map_product(
                and,
                gate.kind == Kind::Or,
                k,
                n,
                w,
                operands,
                tape,
                at,
                mapped,
                one,
                other,
            );
        }
    }
}

// All gates of a plan in both runs, from a place of the tape on: both runs begin with the values of the inputs' shares, whatever
// these are.
pub fn map_gates(
    and: construction::And,
    planned: &planning::Planned,
    k: usize,
    places: &[share_places::KeptPlaces],
    tape: &[u8],
    at: usize,
    mapped: &mut [u8],
    one: &mut [u8],
    other: &mut [u8],
)
    requires { Located (table_of planned.now.table.now) planned.now.plan.shares places.now
        × GatesReady planned.now.plan.shares (table_of planned.now.table.now) (unpacked tape.now) at
        (unpacked mapped.old) one.old other.old }
    ensures { GatesRan (gadget_of and) planned.now.plan.shares k (table_of planned.now.table.now) (unpacked tape.now) at
        (unpacked mapped.old) (unpacked mapped.new) one.old
        one.new other.old other.new }
{
    let n = planned.plan.shares;
    let costs = gate_costs::GateCosts::new(n);
    let mut w = n * planned.plan.inputs;
    let mut next = at;
    for g in 0..planned.plan.gates {
        let gate = share_places::plain_gate(planned, g);
        map_gate(and, gate, k, n, w, places, tape, next, mapped, one, other);
        w += costs.of(gate.kind);
        next += gate_costs::kind_draws(gate.kind, n);
    }
}
