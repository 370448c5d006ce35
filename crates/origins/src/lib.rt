// The marks of a probe on a wire: which plain gate the wire belongs to, which part of an AND it is, and the shares that it carries
// together with the pins of its gate.
#![tactic(auto)]

ghost use Rattle.std.specs.Prelude.{◌*◌, ◌≤◌, ◌<◌, IfOk};
ghost use Rattle.tables.specs.Tables.{table_of, AND, OR};
ghost use Rattle.tables.specs.Kinds.{kind_is};
ghost use Rattle.construction.specs.Shares.{tri};
ghost use Rattle.construction.specs.Wires.{cost, probe_marks};
ghost use Rattle.construction.specs.PinMarks.{with_pins};
ghost use Rattle.construction.specs.Says.{MarksSay};
ghost use Rattle.construction.specs.Told.{marks_of};
ghost use Rattle.construction.specs.Gadgets.{Gadget, gadget_of};
ghost use Rattle.origins.specs.Origins.{PairSays, Among, PartSays, CarriedSays, PartMarksSay, GateMarksSay, NewWireSays};

use construction::Carried;
use tables::{Kind, Refusal};

// A wire of a masked AND: one of the five of a pair, a row's own product, or a row's sum of some terms. Wires of a pair, shares
// and rows are counted from 0.
#[derive(Clone, Copy)]
pub enum AndPart {
    Pair { wire: u8, lower: u8, upper: u8 },
    Own { row: u8 },
    Sum { row: u8, terms: u8 },
}

// A new wire of a plain gate: the gate's number and kind, and which of its new wires, counted from 0.
#[derive(Clone, Copy)]
pub struct NewWire {
    pub gate: usize,
    pub kind: Kind,
    pub place: usize,
}

// The pair of shares that stands at place q among the pairs of n shares.
#[tactic(auto, using(crate::proofs::Finding::pair_found))]
pub fn pair_of(n: usize, q: usize) -> construction::SharePair
    requires { q < tri n }
    ensures { PairSays n q result }
{
    let mut left = q;
    for lower in 0..n {
        let after = n - 1 - lower;
        if left < after {
            return construction::SharePair {
                lower,
                upper: lower + 1 + left,
            };
        }
        left -= after;
    }
    unreachable!()
}

// The part that wire d of a masked AND of n shares is.
#[tactic(auto, using(gate_costs::proofs::Figures::tri_small, crate::proofs::Origins::own_says, crate::proofs::Origins::sum_says))]
pub fn and_part(n: usize, d: usize) -> AndPart
    requires { (n ≤ 31) × (d < cost AND n) }
    ensures { PartSays n d result }
{
    let crossed = 5 * gate_costs::pair_count(n);
    if d < crossed {
        let p = pair_of(n, d / 5);
        return AndPart::Pair {
            wire: (d % 5) as u8,
            lower: p.lower as u8,
            upper: p.upper as u8,
        };
    }
    let row = (d - crossed) / n;
    let terms = (d - crossed) % n;
    if terms == 0 {
        return AndPart::Own { row: row as u8 };
    }
    AndPart::Sum {
        row: row as u8,
        terms: terms as u8,
    }
}

// The share numbers that a probe on a part of a masked AND carries. The random gate of a pair has no pins, and carries share i alone
// where row i adds it; any other wire of a pair carries both shares, itself or by a pin.
pub fn part_marks(and: construction::And, part: AndPart) -> Carried
    requires { Among 31 part }
    ensures { PartMarksSay (with_pins (gadget_of and)) part result }
{
    match part {
        AndPart::Pair { wire, lower, upper } => {
            let form = ands::pair_form(and);
            let at = wire as usize;
            let alone = (at == 0) & (at == form.low);
            Carried {
                first: lower + 1,
                second: if alone { None } else { Some(upper + 1) },
            }
        }
        AndPart::Own { row } | AndPart::Sum { row, terms: _ } => Carried {
            first: row + 1,
            second: None,
        },
    }
}

// The share numbers that a probe on new wire d of an OR carries: its NOTs share 1, the others what those of an AND carry.
#[tactic(auto, using(crate::proofs::Carrying::or_laws))]
fn or_marks(and: construction::And, n: usize, d: usize) -> Carried
    requires { (n ≤ 31) × (d < cost OR n) }
    ensures { GateMarksSay (with_pins (gadget_of and)) OR n d result }
{
    if (d < 2) | (d == 2 + gate_costs::and_cost(n)) {
        return Carried {
            first: 1,
            second: None,
        };
    }
    part_marks(and, and_part(n, d - 2))
}

// The share numbers that a probe on new wire d of a plain gate carries.
#[tactic(auto, using(crate::proofs::Carrying::gate_laws))]
fn gate_marks(and: construction::And, kind: Kind, n: usize, d: usize) -> Carried
    requires { (n ≤ 31) × (d < cost (kind_is kind) n) }
    ensures { GateMarksSay (with_pins (gadget_of and)) (kind_is kind) n d result }
{
    match kind {
        Kind::Not => Carried {
            first: 1,
            second: None,
        },
        Kind::Xor | Kind::Constant => Carried {
            first: (d + 1) as u8,
            second: None,
        },
        Kind::And => part_marks(and, and_part(n, d)),
        Kind::Or => or_marks(and, n, d),
        Kind::Random => unreachable!(),
    }
}

// The plain gate that a wire past the input shares is a new wire of.
#[tactic(auto, using(crate::proofs::Finding::seek_start, crate::proofs::Finding::seek_turn, crate::proofs::Finding::seek_end))]
pub fn find_gate(planned: &planning::Planned, wire: usize) -> NewWire
    requires { (planned.now.plan.shares * planned.now.plan.inputs ≤ wire) × (wire < planned.now.plan.wires) }
    ensures { (G : Gadget) → NewWireSays G (table_of planned.now.table.now) planned.now.plan.order wire result }
{
    let n = planned.plan.shares;
    let gates = fields::Gates {
        table: planned.table,
        count: planned.plan.gates,
    };
    let costs = gate_costs::GateCosts::new(n);
    let mut start = n * planned.plan.inputs;
    for g in 0..gates.count {
        let kind = gates.at(g).known_kind();
        let next = start + costs.of(kind);
        if wire < next {
            return NewWire {
                gate: g,
                kind,
                place: wire - start,
            };
        }
        start = next;
    }
    unreachable!()
}

// The share numbers that a probe on a wire of the masked table carries.
pub fn marks_at(and: construction::And, planned: &planning::Planned, wire: usize) -> Carried
    requires { wire < planned.now.plan.wires }
    ensures { CarriedSays
        (probe_marks (gadget_of and) planned.now.plan.order (table_of planned.now.table.now) wire)
        result }
{
    let n = planned.plan.shares;
    if wire < n * planned.plan.inputs {
        return Carried {
            first: (wire % n + 1) as u8,
            second: None,
        };
    }
    let x = find_gate(planned, wire);
    gate_marks(and, x.kind, n, x.place)
}

// The share numbers that a probe on a wire of the masked table of a plain table carries, or the refusal.
#[tactic(auto, using(crate::proofs::Carrying::marks_refused))]
pub fn wire_marks(
    and: construction::And,
    table: &[u8],
    order: u8,
    wire: u32,
) -> Result<Carried, Refusal>
    ensures { MarksSay (gadget_of and) (probe_marks (gadget_of and)) table.now order wire (marks_of result)
        × IfOk result (λ c. CarriedSays (probe_marks (gadget_of and) order (table_of table.now) wire) c) }
{
    let planned = planning::plan_table(table, order)?;
    let w = wire as usize;
    if planned.plan.wires <= w {
        return Err(Refusal::NoWire { probe: 0 });
    }
    Ok(marks_at(and, &planned, w))
}
