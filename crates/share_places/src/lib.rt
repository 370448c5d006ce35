// Where the shares of every plain wire are in the masked table.
#![tactic(auto)]

ghost use Rattle.std.specs.Prelude.{◌≡◌, false, ◌+◌, ◌*◌, ◌≤◌, ◌<◌};
ghost use Rattle.tables.specs.Kinds.{kind_is};
ghost use Rattle.tables.specs.Tables.{is_random, gate_of, table_of};
ghost use Rattle.construction.specs.Wires.{and_cost, and_shares, cost, new_shares, input_shares};
ghost use Rattle.layout.specs.Layout.{share_wires};
ghost use Rattle.share_places.specs.Located.{places_of, places_at, operands_at, PlainGateIs, Small, Room, Put, Holds};
ghost use Rattle.share_places.specs.Located.{Noted, all_shares};

use tables::Kind;

// Where the shares of a plain wire are, as an array of all wires keeps it: 6 bytes a wire.
#[derive(Clone, Copy)]
pub struct KeptPlaces {
    pub head: u16,
    pub base: u16,
    pub step: u16,
}

impl From<KeptPlaces> for layout::Places {
    ghost from_gives = { λ kept r. (r ≡ places_of kept) × Small r };

    // The same places.
    fn from(kept: KeptPlaces) -> layout::Places {
        layout::Places {
            head: kept.head as usize,
            base: kept.base as usize,
            step: kept.step as usize,
        }
    }
}

// A gate of a plain table: its kind, which is not random, and its operands.
#[derive(Clone, Copy)]
pub struct PlainGate {
    pub kind: Kind,
    pub left: usize,
    pub right: usize,
}

// Gate g of a plain table, counted from 0.
pub fn plain_gate(planned: &planning::Planned, g: usize) -> PlainGate
    requires { g < planned.now.plan.gates }
    ensures { PlainGateIs (gate_of (table_of planned.now.table.now) g) result }
{
    let gates = fields::Gates {
        table: planned.table,
        count: planned.plan.gates,
    };
    let x = gates.at(g);
    PlainGate {
        kind: x.known_kind(),
        left: x.left,
        right: x.right,
    }
}

// How many plain wires there are: a call keeps places of so many.
pub fn plain_wires(planned: &planning::Planned) -> usize
    ensures { (result ≡ planned.now.plan.inputs + planned.now.plan.gates) × (result ≤ 65535) }
{
    planned.plan.inputs + planned.plan.gates
}

// Where the shares of plain wire p are.
pub fn places_at(places: &[KeptPlaces], p: usize) -> layout::Places
    requires { Room (p + 1) places.now }
    ensures { (result ≡ places_at places.now p) × Small result }
{
    layout::Places::from(places[p])
}

// Where the shares of both operands of a gate are.
pub fn operands_at(places: &[KeptPlaces], left: usize, right: usize) -> layout::Operands
    requires { Room (left + 1) places.now × Room (right + 1) places.now }
    ensures { result ≡ operands_at places.now left right }
{
    layout::Operands {
        left: places_at(places, left),
        right: places_at(places, right),
    }
}

// Where the shares of an AND are, where its first wire is w.
fn and_places(n: usize, w: usize) -> layout::Places
    requires { (1 ≤ n) × (n ≤ 31) × (w ≤ 65535) }
    ensures { (share_wires n result ≡ and_shares n w) × (w + and_cost n ≤ 65535 → Small result) }
{
    let head = layout::and_first(n, w);
    layout::Places {
        head,
        base: head + n,
        step: n,
    }
}

// Where the shares of a plain gate's result are, where its first wire is w and its left operand's shares are at a.
fn new_places(kind: Kind, n: usize, w: usize, a: layout::Places) -> layout::Places
    requires { (is_random (kind_is kind) ≡ false) × (1 ≤ n) × (n ≤ 31) × (w + cost (kind_is kind) n ≤ 65535) × Small a }
    ensures { (share_wires n result ≡ new_shares (kind_is kind) n w (share_wires n a)) × Small result }
{
    match kind {
        Kind::Constant => layout::Places {
            head: w,
            base: w + 1,
            step: 1,
        },
        Kind::Or => {
            let product = and_places(n, w + 2);
            layout::Places {
                head: w + 2 + gate_costs::and_cost(n),
                base: product.base,
                step: product.step,
            }
        }
        // No match on the other three: kinds come in no order, and branches on them would be guessed wrong.
        _ => {
            let xor = kind == Kind::Xor;
            let not = kind == Kind::Not;
            let product = and_places(n, w);
            layout::Places {
                head: layout::either(kind == Kind::And, product.head, w),
                base: layout::either(not, a.base, layout::either(xor, w + 1, product.base)),
                step: layout::either(not, a.step, layout::either(xor, 1, product.step)),
            }
        }
    }
}

// Notes where the shares of plain wire p are.
fn put_places(places: &mut [KeptPlaces], p: usize, a: layout::Places)
    requires { Room (p + 1) places.old × Small a }
    ensures { Put p a places.old places.new }
{
    places[p] = KeptPlaces {
        head: a.head as u16,
        base: a.base as u16,
        step: a.step as u16,
    };
}

// Share s of input i is on wire n·i + s − 1.
fn place_inputs(p: planning::Plan, places: &mut [KeptPlaces])
    requires { (1 ≤ p.shares) × (p.shares * p.inputs ≤ 65535) × Room p.inputs places.old }
    ensures { Noted p.shares (input_shares p.shares p.inputs) places.old places.new }
{
    let n = p.shares;
    let mut w = 0;
    for i in 0..p.inputs {
        let a = layout::Places {
            head: w,
            base: w + 1,
            step: 1,
        };
        put_places(places, i, a);
        w += n;
    }
}

// Where the shares of every gate's result are, gate by gate, where the inputs are noted already.
fn place_gates(planned: &planning::Planned, places: &mut [KeptPlaces])
    requires { Room (planned.now.plan.inputs + planned.now.plan.gates) places.old
        × Holds planned.now.plan.shares (input_shares planned.now.plan.shares planned.now.plan.inputs) places.old }
    ensures { Noted planned.now.plan.shares (all_shares planned.now.plan.shares (table_of planned.now.table.now))
        places.old places.new }
{
    let n = planned.plan.shares;
    let inputs = planned.plan.inputs;
    let costs = gate_costs::GateCosts::new(n);
    let mut w = n * inputs;
    for g in 0..planned.plan.gates {
        let x = plain_gate(planned, g);
        let a = places_at(places, x.left);
        let r = new_places(x.kind, n, w, a);
        put_places(places, inputs + g, r);
        w += costs.of(x.kind);
    }
}

// Notes where the shares of every plain wire are, and changes nothing else in the array.
pub fn locate(planned: &planning::Planned, places: &mut [KeptPlaces])
    requires { Room (planned.now.plan.inputs + planned.now.plan.gates) places.old }
    ensures { Noted planned.now.plan.shares (all_shares planned.now.plan.shares (table_of planned.now.table.now))
        places.old places.new }
{
    place_inputs(planned.plan, places);
    place_gates(planned, places);
}
