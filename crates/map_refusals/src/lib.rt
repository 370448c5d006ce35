// The refusals of a mapping call.
#![tactic(auto)]

ghost use Rattle.std.specs.Prelude.{◌≡◌, ◌≤◌, leb, position};
ghost use Rattle.tables.specs.Inside.{Refused, Outcome};
ghost use Rattle.construction.specs.declared.And as DAnd;
ghost use Rattle.construction.specs.Gadgets.{gadget_of};
ghost use Rattle.secrecy.specs.Says.{supply_fault, probes_fault, room_fault, call_fault, map_fault};

use secrecy::Given;
use tables::Refusal;

// How long the buffers are that a mapping call is lent: for the mapped tape, and for the values of each run.
#[derive(Clone, Copy)]
pub struct Lent {
    pub mapped: usize,
    pub one: usize,
    pub other: usize,
}

// What is supplied to a plan: wrong counts, then a byte above 1 of both secrets joined, then a set unused bit of the tape.
#[tactic(auto, using(secrecy::proofs::Faults::bad_both), unfolding(secrecy::specs::Says::supply_fault))]
fn supply_fault(p: planning::Plan, given: &Given) -> Result<(), Refusal>
    requires { (p.inputs ≤ 65535) × (p.tape ≤ 65535) }
    ensures { Refused
        (supply_fault p.inputs p.tape given.now.first.now given.now.second.now given.now.tape.now)
        result }
{
    let first = given.first.len();
    let second = given.second.len();
    if first != p.inputs || second != p.inputs || given.tape.len() != bits::bytes_for(p.tape) {
        return Err(Refusal::Counts);
    }
    bits::bits_fault(given.first, 0)?;
    bits::bits_fault(given.second, first)?;
    bits::spare_fault(given.tape, p.tape, first + second)
}

// The position of the first probe that is no wire of a masked table of so many wires.
fn first_outside(wires: usize, probes: &[u32]) -> Option<usize>
    ensures { result ≡ position (λ p. leb wires p) probes.now }
{
    probes.iter().position(|probe| *probe as usize >= wires)
}

// The probes: more than the order, then one that is no wire of the masked table.
#[tactic(auto, using(crate::proofs::Faults::all_wires, crate::proofs::Faults::one_outside), unfolding(secrecy::specs::Says::probes_fault))]
fn probes_fault(order: u8, wires: usize, probes: &[u32]) -> Result<(), Refusal>
    ensures { Refused (probes_fault order wires probes.now) result }
{
    if probes.len() > order as usize {
        return Err(Refusal::TooManyProbes);
    }
    match first_outside(wires, probes) {
        None => Ok(()),
        Some(j) => Err(Refusal::NoWire { probe: j as u32 }),
    }
}

// A buffer that is shorter than what is written into it.
#[tactic(auto, unfolding(secrecy::specs::Says::room_fault))]
fn room_fault(p: planning::Plan, lent: Lent) -> Result<(), Refusal>
    ensures { Refused (room_fault p.tape p.wires lent.mapped lent.one lent.other) result }
{
    if lent.mapped < bits::bytes_for(p.tape) || lent.one < p.wires || lent.other < p.wires {
        return Err(Refusal::NoRoom);
    }
    Ok(())
}

// The refusals that follow those of the plan: 10 to 13, then 9.
fn call_fault(p: planning::Plan, order: u8, given: &Given, lent: Lent) -> Result<(), Refusal>
    requires { (p.inputs ≤ 65535) × (p.tape ≤ 65535) }
    ensures { Refused
        (call_fault order p.inputs p.tape p.wires
        given.now.first.now
        given.now.second.now
        given.now.tape.now
        given.now.probes.now
        lent.mapped
        lent.one
        lent.other)
        result }
{
    supply_fault(p, given)?;
    probes_fault(order, p.wires, given.probes)?;
    room_fault(p, lent)
}

// Whether mapping is refused: the first refusal, or the plan.
#[tactic(auto, using(crate::proofs::Faults::map_stopped, crate::proofs::Faults::map_follows))]
pub fn map_fault<'a>(
    table: &'a [u8],
    order: u8,
    given: &Given,
    lent: Lent,
) -> Result<planning::Planned<'a>, Refusal>
    ensures { (a : DAnd.And) → Outcome
        (map_fault (gadget_of a) table.now order
        given.now.first.now
        given.now.second.now
        given.now.tape.now
        given.now.probes.now
        lent.mapped
        lent.one
        lent.other)
        (λ planned. (planned.table.now ≡ table.now) × (planned.plan.order ≡ order))
        result }
{
    let planned = planning::plan_table(table, order)?;
    call_fault(planned.plan, order, given, lent)?;
    Ok(planned)
}
