// Running a gate table on its inputs and random bits.
#![tactic(auto)]

ghost use Rattle.std.specs.Prelude.{◌≡◌, true, length};
ghost use Rattle.tables.specs.Refusals.{passed};
ghost use Rattle.tables.specs.Tables.{wires, table_of, table_fault};
ghost use Rattle.tables.specs.Runs.{outputs_of};
ghost use Rattle.tables.specs.Says.{over, supplied_fault, lent_fault, run_fault, RunSays};
ghost use Rattle.tables.specs.Refusing.{answer_of};
ghost use Rattle.tables.specs.Inside.{Refused};
ghost use Rattle.running.specs.Running.{OutputsReady, ran_packed};

use fields::{Gates, Outputs};
use tables::{Kind, Refusal};

// What a run is supplied with: a table, its inputs and its random bits, packed.
#[derive(Clone, Copy)]
struct Supplied<'a> {
    table: &'a [u8],
    inputs: &'a [u8],
    random: &'a [u8],
}

// Writes the values of the output wires.
fn read_outputs(outputs: &Outputs, values: &[u8], out: &mut [u8])
    requires { OutputsReady outputs.now.table.now outputs.now.count values.now out.old }
    ensures { out.new ≡ over (outputs_of (table_of outputs.now.table.now) values.now) out.old }
{
    for o in 0..outputs.count {
        out[o] = values[outputs.at(o)];
    }
}

impl<'a> Supplied<'a> {
    // The refusals of what a run of an accepted table is supplied with: wrong counts, then an input above 1 or a set unused bit.
    #[tactic(auto, using(crate::proofs::RunFault::supplied_laws))]
    fn fault(&self) -> Result<(), Refusal>
        requires { passed (table_fault self.now.table.now) ≡ true }
        ensures { Refused (supplied_fault (table_of self.now.table.now) self.now.inputs.now self.now.random.now) result }
    {
        let gates = Gates {
            table: self.table,
            count: fields::field(self.table, 2),
        };
        let draws = counts::count_three(&gates, [Kind::Random, Kind::Constant, Kind::Or]).first;
        let inputs = fields::field(self.table, 0);
        if self.inputs.len() != inputs || self.random.len() != bits::bytes_for(draws) {
            return Err(Refusal::Counts);
        }
        bits::bits_fault(self.inputs, 0)?;
        bits::spare_fault(self.random, draws, self.inputs.len())
    }

    // The refusal of buffers that are shorter than what a run of an accepted table writes.
    #[tactic(auto, using(crate::proofs::RunFault::lent_laws))]
    fn lent_fault(&self, values: usize, outputs: usize) -> Result<(), Refusal>
        requires { passed (table_fault self.now.table.now) ≡ true }
        ensures { Refused (lent_fault (table_of self.now.table.now) values outputs) result }
    {
        let wires = fields::field(self.table, 0) + fields::field(self.table, 2);
        if values < wires || outputs < fields::field(self.table, 4) {
            return Err(Refusal::NoRoom);
        }
        Ok(())
    }

    // The first refusal of a run: of the table, of what is supplied, of the buffers.
    #[tactic(auto, unfolding(tables::specs::Says::run_fault))]
    fn run_fault(&self, values: usize, outputs: usize) -> Result<(), Refusal>
        ensures { Refused (run_fault self.now.table.now self.now.inputs.now self.now.random.now values outputs) result }
    {
        checking::table_fault(self.table)?;
        self.fault()?;
        self.lent_fault(values, outputs)
    }

    // Writes a run that no check refuses: one value for each wire, and the values of the output wires; the number of wires.
    fn write_run(&self, values: &mut [u8], outputs: &mut [u8]) -> u32
        requires { passed
            (run_fault self.now.table.now self.now.inputs.now self.now.random.now (length values.old) (length outputs.old))
            ≡ true }
        ensures { (result ≡ wires (table_of self.now.table.now))
            × (values.new
            ≡ over (ran_packed (table_of self.now.table.now) self.now.inputs.now self.now.random.now) values.old)
            × (outputs.new
            ≡ over
            (outputs_of
            (table_of self.now.table.now)
            (ran_packed (table_of self.now.table.now) self.now.inputs.now self.now.random.now))
            outputs.old) }
    {
        let gates = Gates {
            table: self.table,
            count: fields::field(self.table, 2),
        };
        fields::put_bytes(values, 0, self.inputs);
        run_gates::run_gates(&gates, self.inputs.len(), self.random, values);
        let read = Outputs {
            table: self.table,
            gates: gates.count,
            count: fields::field(self.table, 4),
        };
        read_outputs(&read, values, outputs);
        (self.inputs.len() + gates.count) as u32
    }
}

// Runs a table: the number of its wires.
#[tactic(auto, using(crate::proofs::RunTable::run_refused, crate::proofs::RunTable::run_done, tables::proofs::Answers::none_passed))]
pub fn run_table(
    table: &[u8],
    inputs: &[u8],
    random: &[u8],
    values: &mut [u8],
    outputs: &mut [u8],
) -> Result<u32, Refusal>
    ensures { RunSays
        table.now
        inputs.now
        random.now
        values.old
        values.new
        outputs.old
        outputs.new
        (answer_of result) }
{
    let supplied = Supplied {
        table,
        inputs,
        random,
    };
    supplied.run_fault(values.len(), outputs.len())?;
    Ok(supplied.write_run(values, outputs))
}
