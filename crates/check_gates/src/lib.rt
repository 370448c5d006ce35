// Checking the gates of a table: refusals 3 and 4.
#![tactic(auto)]

ghost use Rattle.std.specs.Prelude.{◌≡◌, true, cond, ℕ, ◌+◌, ◌≤◌, ◌<◌};
ghost use Rattle.tables.specs.Refusals.{none};
ghost use Rattle.tables.specs.Tables.{kind_of, gate, table_of, operands_of, operands_ok, gate_fault, gates_fault};
ghost use Rattle.tables.specs.Kinds.{kind_is};
ghost use Rattle.tables.specs.Inside.{Refused};

use tables::{GateFields, Kind, Refusal};

// Whether the operands of a gate that drives wire w are earlier wires, and 0 where the kind does not read them; a constant's left
// one is a bit.
fn operands_good(kind: Kind, left: usize, right: usize, w: usize) -> bool
    ensures { result ≡ operands_ok w (operands_of (kind_is kind)) left right }
{
    match kind {
        Kind::Not => (left < w) & (right == 0),
        Kind::Random => (left == 0) & (right == 0),
        Kind::Constant => (left < 2) & (right == 0),
        Kind::Xor | Kind::And | Kind::Or => (left < w) & (right < w),
    }
}

// The refusal of gate g, which drives wire w.
fn gate_fault(x: GateFields, g: usize, w: usize) -> Result<(), Refusal>
    requires { g < 65536 }
    ensures { Refused (gate_fault g w (gate (kind_of x.kind) x.left x.right)) result }
{
    let gate = g as u32;
    match Kind::try_from(x.kind) {
        Err(_) => Err(Refusal::Kind { gate }),
        Ok(kind) if operands_good(kind, x.left, x.right, w) => Ok(()),
        Ok(_) => Err(Refusal::Operands { gate }),
    }
}

// Not 0 where wire v is not before a wire: gap is 65536 less the wire.
fn late(v: u32, gap: u32) -> u32
    requires { (v < 65536) × (gap ≤ 65536) }
    ensures { result ≡ 0 → v + gap < 65536 }
{
    (v + gap) / 65536
}

// A number where a test holds, else 0.
fn only(test: bool, v: u32) -> u32
    ensures { result ≡ cond test v 0 }
{
    if test { v } else { 0 }
}

// Not 0 where an operand that a kind does not read is not 0, or a constant is no bit.
// The kind's byte is compared, since a match on a kind branches.
#[tactic(auto, using(crate::proofs::Gates::or_none, crate::proofs::Gates::unused_none))]
fn unused(kind: u8, left: u32, right: u32) -> u32
    ensures { result ≡ 0 → kind ≤ 5 → (w : ℕ) → left < w → right < w
        → operands_ok w (operands_of (kind_of kind)) left right ≡ true }
{
    let not = kind == Kind::Not as u8;
    let random = kind == Kind::Random as u8;
    let constant = kind == Kind::Constant as u8;
    only(not | random | constant, right) | only(random, left) | only(constant, left / 2)
}

// 0 only where the operands of a gate of a known kind are good: gap is 65536 less the wire that it drives. It does not branch, so
// that a loop over all gates is fast. A constant 1 that drives wire 1 is good and yet not 0 here: the gates are then looked at one
// by one.
#[tactic(auto, using(crate::proofs::Gates::or_none, crate::proofs::Gates::gate_good))]
fn gate_flaws(x: GateFields, gap: u32) -> u32
    requires { (x.left < 65536) × (x.right < 65536) × (gap ≤ 65536) }
    ensures { result ≡ 0 → x.kind ≤ 5 → (w : ℕ) → w + gap ≡ 65536
        → (i : ℕ) → gate_fault i w (gate (kind_of x.kind) x.left x.right) ≡ none }
{
    let left = x.left as u32;
    let right = x.right as u32;
    late(left, gap) | late(right, gap) | unused(x.kind, left, right)
}

// Whether no gate is faulty.
#[tactic(auto, using(crate::proofs::Gates::loop_laws))]
fn gates_good(gates: &fields::Gates, inputs: usize) -> bool
    requires { inputs + gates.now.count ≤ 65535 }
    ensures { result ≡ true → gates_fault 0 inputs (table_of gates.now.table.now).gates ≡ none }
{
    let gap = 65536 - inputs as u32;
    let mut flaws: u32 = 0;
    let mut largest: u8 = 0;
    for g in 0..gates.count {
        let x = gates.at(g);
        flaws |= gate_flaws(x, gap - g as u32);
        largest = largest.max(x.kind);
    }
    (flaws == 0) & (largest <= Kind::Or as u8)
}

// The first faulty gate: it is looked for only where there is one. The labelled break, in place of a `?`, is a form of document 01.
#[tactic(auto, using(crate::proofs::Gates::loop_laws))]
pub fn gates_fault(gates: &fields::Gates, inputs: usize) -> Result<(), Refusal>
    requires { inputs + gates.now.count ≤ 65535 }
    ensures { Refused (gates_fault 0 inputs (table_of gates.now.table.now).gates) result }
{
    if gates_good(gates, inputs) {
        return Ok(());
    }
    'gates: {
        for g in 0..gates.count {
            if let Err(refusal) = gate_fault(gates.at(g), g, inputs + g) {
                break 'gates Err(refusal);
            }
        }
        Ok(())
    }
}
