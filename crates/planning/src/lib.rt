// What a plain table and an order come to: refusals 1 to 8, or the sizes of the masked table.
#![tactic(auto)]

ghost use Rattle.std.specs.Prelude.{◌≡◌, ◌*◌, ◌≤◌};
ghost use Rattle.tables.specs.Tables.{table_of, table_long, random_fault, total};
ghost use Rattle.tables.specs.Counted.{of_kind};
ghost use Rattle.tables.specs.Inside.{Refused, Outcome};
ghost use Rattle.construction.specs.declared.And as DAnd;
ghost use Rattle.construction.specs.Gadgets.{gadget_of};
ghost use Rattle.construction.specs.Says.{plain_fault};
ghost use Rattle.planning.specs.Plans.{FewGates, TotalsSay, Countable, TalliedSays, MaskedBy, too_large};
ghost use Rattle.planning.specs.Plans.{PlanReady, PlanFits, plan_bytes};

use tables::{Kind, Refusal};

// The order and the sizes of a plain table that 1 to 8 accept at it, and its masked table's wires and tape bits.
#[derive(Clone, Copy)]
pub struct Plan {
    pub order: usize,
    pub inputs: usize,
    pub gates: usize,
    pub outputs: usize,
    pub shares: usize,
    pub wires: usize,
    pub tape: usize,
}

// A plain table with its plan at an order at which 1 to 8 accept it.
#[derive(Clone, Copy)]
pub struct Planned<'a> {
    pub table: &'a [u8],
    pub plan: Plan,
    ghost ready: { PlanReady table.now plan },
    ghost fits: { PlanFits plan },
}

// The sizes of a plain table, and how many of its gates are of each kind.
#[derive(Clone, Copy)]
pub struct Tally {
    pub inputs: usize,
    pub gates: usize,
    pub outputs: usize,
    pub counts: tables::Counts,
}

// The sizes of a masked table, also of one that 8 refuses.
#[derive(Clone, Copy)]
pub struct Masked {
    pub shares: usize,
    pub gates: usize,
    pub wires: usize,
    pub outputs: usize,
    pub tape: usize,
}

// The masked wires and the random bits of a plain table's gates, in all.
#[derive(Clone, Copy)]
struct Totals {
    wires: usize,
    draws: usize,
}

// Refusal 7 at the first random gate, or no refusal, where so many gates are random.
#[tactic(auto, using(crate::proofs::Planning::search_laws))]
fn random_fault(gates: &fields::Gates, randoms: usize) -> Result<(), Refusal>
    requires { randoms ≡ total (of_kind 3) (table_of gates.now.table.now).gates }
    ensures { Refused (random_fault 0 (table_of gates.now.table.now).gates) result }
{
    if randoms == 0 {
        return Ok(());
    }
    for g in 0..gates.count {
        if gates.at(g).kind == Kind::Random as u8 {
            return Err(Refusal::Random { gate: g as u32 });
        }
    }
    Ok(())
}

// What so many gates come to, each of which costs or draws so much.
fn times(count: usize, each: usize) -> usize
    requires { (count ≤ 65535) × (each ≤ 3289) }
    ensures { (result ≡ count * each) × (result ≤ 65535 * 3289) }
{
    count * each
}

// What so many gates of each kind cost and draw at n shares.
#[tactic(auto, using(gate_costs::proofs::Figures::tri_small, gate_costs::proofs::Figures::square_small))]
fn gate_totals(counts: tables::Counts, n: usize) -> Totals
    requires { FewGates counts × (n ≤ 31) }
    ensures { TotalsSay counts n result }
{
    Totals {
        wires: times(counts.nots, gate_costs::gate_cost(Kind::Not, n))
            + times(counts.xors, gate_costs::gate_cost(Kind::Xor, n))
            + times(counts.ands, gate_costs::gate_cost(Kind::And, n))
            + times(counts.constants, gate_costs::gate_cost(Kind::Constant, n))
            + times(counts.ors, gate_costs::gate_cost(Kind::Or, n)),
        draws: times(counts.ands, gate_costs::gate_draws(Kind::And as u8, n))
            + times(counts.ors, gate_costs::gate_draws(Kind::Or as u8, n)),
    }
}

// The masked sizes by the formula: from the order, the stated sizes and the gates of each kind alone.
#[tactic(auto, using(crate::proofs::Planning::few_total_wires, crate::proofs::Planning::few_total_draws))]
pub fn masked_sizes(order: u8, inputs: usize, outputs: usize, counts: tables::Counts) -> Masked
    requires { Countable order inputs outputs counts }
    ensures { MaskedBy order inputs outputs counts result }
{
    let order = order as usize;
    let shares = 2 * order + 1;
    let all = gate_totals(counts, shares);
    Masked {
        shares,
        gates: all.wires,
        wires: shares * inputs + all.wires,
        outputs: shares * outputs,
        tape: 2 * order * inputs + all.draws,
    }
}

// Whether 8 refuses masked sizes.
pub fn too_large(masked: Masked) -> bool
    ensures { result ≡ too_large masked }
{
    (masked.wires > 65535) | (masked.outputs > 65535)
}

// The first of refusals 1 to 7 for a plain table and an order, or the table's sizes and its gates of each kind.
#[tactic(auto, using(crate::proofs::Planning::tally_laws))]
pub fn tally_table(table: &[u8], order: u8) -> Result<Tally, Refusal>
    ensures { TalliedSays table.now order result }
{
    checking::table_fault(table)?;
    orders::order_fault(order)?;
    let gates = fields::Gates {
        table,
        count: fields::field(table, 2),
    };
    let counts = counts::count_kinds(&gates);
    random_fault(&gates, counts.randoms)?;
    Ok(Tally {
        inputs: fields::field(table, 0),
        gates: gates.count,
        outputs: fields::field(table, 4),
        counts,
    })
}

// What a plain table and an order come to: the first of refusals 1 to 8, or the plan.
#[tactic(auto, using(crate::proofs::Planning::seven_refused))]
pub fn plan_table<'a>(table: &'a [u8], order: u8) -> Result<Planned<'a>, Refusal>
    ensures { (a : DAnd.And) → Outcome
        (plain_fault (gadget_of a) table.now order)
        (λ x. (x.table.now ≡ table.now) × (x.plan.order ≡ order))
        result }
{
    let tally = tally_table(table, order)?;
    let masked = masked_sizes(order, tally.inputs, tally.outputs, tally.counts);
    if too_large(masked) {
        return Err(Refusal::TooLarge);
    }
    Ok(Planned {
        table,
        plan: Plan {
            order: order as usize,
            inputs: tally.inputs,
            gates: tally.gates,
            outputs: tally.outputs,
            shares: masked.shares,
            wires: masked.wires,
            tape: masked.tape,
        },
    })
}

// How many bytes a table of so many gates and outputs has.
pub fn table_bytes(gates: usize, outputs: usize) -> usize
    requires { (gates ≤ 4294967295) × (outputs ≤ 4294967295) }
    ensures { result ≡ table_long gates outputs }
{
    6 + 5 * gates + 2 * outputs
}

// How many bytes the masked table of a plan has.
pub fn plan_bytes(p: Plan) -> usize
    requires { PlanFits p }
    ensures { result ≡ plan_bytes p }
{
    table_bytes(p.wires - p.shares * p.inputs, p.shares * p.outputs)
}
