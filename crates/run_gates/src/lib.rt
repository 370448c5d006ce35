// Running the gates of a table over values that begin with its inputs.
#![tactic(auto)]

ghost use Rattle.std.specs.Prelude.{◌≡◌, take};
ghost use Rattle.tables.specs.Tables.{table_of};
ghost use Rattle.tables.specs.Runs.{run_from};
ghost use Rattle.tables.specs.Packing.{unpacked};
ghost use Rattle.tables.specs.Says.{over};
ghost use Rattle.run_gates.specs.RunGates.{GateReady, GateSays, RunReady};

use tables::{GateFields, Kind};

// A gate's value and the number of the next random bit.
#[derive(Clone, Copy)]
struct Drawn {
    value: u8,
    next: usize,
}

// The truth tables of NOT, XOR, AND and OR: bit 4·kind + 2·a + b is what a gate of this kind makes of a and b.
const TRUTH: u32 = 0xE00863;

// What a gate drives, from its operands' values. The kind's byte is compared, since a match on a kind branches on all six, and kinds
// in random order make a branch guess wrong.
fn gate_value(gate: GateFields, a: u8, b: u8, random: &[u8], at: usize) -> Drawn
    requires { GateReady gate a b (unpacked random.now) at }
    ensures { GateSays gate a b (unpacked random.now) at result }
{
    if gate.kind == Kind::Random as u8 {
        return Drawn {
            value: bits::tape_bit(random, at),
            next: at + 1,
        };
    }
    if gate.kind == Kind::Constant as u8 {
        return Drawn {
            value: (gate.left % 2) as u8,
            next: at,
        };
    }
    let row = 4 * gate.kind + 2 * a + b;
    Drawn {
        value: ((TRUTH >> row) % 2) as u8,
        next: at,
    }
}

// Runs the gates over values that begin with the inputs: gate g drives wire inputs + g.
pub fn run_gates(gates: &fields::Gates, inputs: usize, random: &[u8], values: &mut [u8])
    requires { RunReady gates.now.table.now (unpacked random.now) values.old inputs gates.now.count }
    ensures { values.new
        ≡ over
        (run_from (table_of gates.now.table.now).gates (unpacked random.now)
        (take inputs values.old))
        values.old }
{
    let mut next: usize = 0;
    for g in 0..gates.count {
        let gate = gates.at(g);
        let turn = gate_value(gate, values[gate.left], values[gate.right], random, next);
        values[inputs + g] = turn.value;
        next = turn.next;
    }
}
