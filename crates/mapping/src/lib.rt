// Mapping a tape from one secret to another: the free share of the probes, the mapped tape and both runs.
#![tactic(auto)]

ghost use Rattle.tables.specs.Refusing.{answer_of};
ghost use Rattle.construction.specs.Gadgets.{gadget_of};
ghost use Rattle.construction.specs.Wires.{probe_marks};
ghost use Rattle.secrecy.specs.Says.{MapSays};

use construction::And;
use map_refusals::Lent;
use secrecy::Given;
use tables::Refusal;

// Maps a tape from the first secret to the second so that every probe keeps its value: the mapped tape, both runs' values, and
// the free share as the answer's value.
#[tactic(auto, using(crate::proofs::Mapping::map_refused, crate::proofs::Mapping::free_small, crate::proofs::Mapping::map_done))]
pub fn map_tape(
    and: And,
    table: &[u8],
    order: u8,
    given: &Given,
    mapped: &mut [u8],
    one: &mut [u8],
    other: &mut [u8],
) -> Result<u32, Refusal>
    ensures { MapSays (gadget_of and) (probe_marks (gadget_of and)) table.now order
        given.now.first.now
        given.now.second.now
        given.now.tape.now
        given.now.probes.now
        mapped.old
        mapped.new
        one.old
        one.new
        other.old
        other.new
        (answer_of result) }
{
    let lent = Lent {
        mapped: mapped.len(),
        one: one.len(),
        other: other.len(),
    };
    let planned = map_refusals::map_fault(table, order, given, lent)?;
    let k = probes::free_share(and, &planned, given.probes);
    map_arrays::map_work(and, &planned, k, given, mapped, one, other);
    Ok(k as u32)
}
