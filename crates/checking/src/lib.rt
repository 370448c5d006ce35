// Checking a gate table: refusals 1 to 5 in document 01's order.
#![tactic(auto)]

ghost use Rattle.std.specs.Prelude.{◌≤◌};
ghost use Rattle.tables.specs.Tables.{table_of, outputs_fault, table_fault};
ghost use Rattle.tables.specs.Says.{CheckSays};
ghost use Rattle.tables.specs.Refusing.{answer_of};
ghost use Rattle.tables.specs.Inside.{Refused};

use fields::{Gates, Outputs};
use tables::Refusal;

// The first output that is no wire.
#[tactic(auto, using(crate::proofs::Checks::outputs_laws))]
fn outputs_fault(outputs: &Outputs, wires: usize) -> Result<(), Refusal>
    requires { outputs.now.count ≤ 65535 }
    ensures { Refused (outputs_fault 0 wires (table_of outputs.now.table.now).outputs) result }
{
    for o in 0..outputs.count {
        if outputs.at(o) >= wires {
            return Err(Refusal::Output { output: o as u32 });
        }
    }
    Ok(())
}

// The first refusal of a table: its sizes, its length, its gates one by one, its outputs.
#[tactic(auto, using(crate::proofs::Checks::table_laws))]
pub fn table_fault(table: &[u8]) -> Result<(), Refusal>
    ensures { Refused (table_fault table.now) result }
{
    if table.len() < 6 {
        return Err(Refusal::Length);
    }
    let inputs = fields::field(table, 0);
    let gates = fields::field(table, 2);
    let outputs = fields::field(table, 4);
    if inputs == 0 || outputs == 0 || inputs + gates > 65535 {
        return Err(Refusal::Sizes);
    }
    if table.len() != 6 + 5 * gates + 2 * outputs {
        return Err(Refusal::Length);
    }
    check_gates::gates_fault(
        &Gates {
            table,
            count: gates,
        },
        inputs,
    )?;
    outputs_fault(
        &Outputs {
            table,
            gates,
            count: outputs,
        },
        inputs + gates,
    )
}

// Checks a table: the number of its wires.
#[tactic(auto, using(crate::proofs::Checks::check_laws))]
pub fn check_table(table: &[u8]) -> Result<u32, Refusal>
    ensures { CheckSays table.now (answer_of result) }
{
    table_fault(table)?;
    let wires = fields::field(table, 0) + fields::field(table, 2);
    Ok(wires as u32)
}
