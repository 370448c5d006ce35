// Masking a plain table: its refusals, or the masked table's bytes.
#![tactic(auto)]

ghost use Rattle.std.specs.Prelude.{◌≡◌};
ghost use Rattle.tables.specs.Refusing.{answer_of};
ghost use Rattle.construction.specs.Gadgets.{gadget_of};
ghost use Rattle.construction.specs.Says.{MaskSays};
ghost use Rattle.masking.specs.Input.{and_of, OrderedSays, InputSays};

use construction::And;
use tables::Refusal;

// Masks a plain table at an order; the bytes written.
#[tactic(auto, using(crate::proofs::Masked::mask_refused, crate::proofs::Masked::mask_short, crate::proofs::Masked::mask_done))]
pub fn mask_table(and: And, table: &[u8], order: u8, out: &mut [u8]) -> Result<u32, Refusal>
    ensures { MaskSays (gadget_of and) table.now order out.old out.new (answer_of result) }
{
    let planned = planning::plan_table(table, order)?;
    let bytes = planning::plan_bytes(planned.plan);
    if out.len() < bytes {
        return Err(Refusal::NoRoom);
    }
    mask_arrays::mask_into(and, &planned, out);
    Ok(bytes as u32)
}

// Masks an order byte and then a plain table; the bytes written.
fn mask_ordered(and: And, input: &[u8], out: &mut [u8]) -> Result<u32, Refusal>
    ensures { OrderedSays (gadget_of and) input.now out.old out.new (answer_of result) }
{
    match input.split_first() {
        None => mask_table(and, input, 0, out),
        Some((order, table)) => mask_table(and, table, *order, out),
    }
}

// The AND that a byte names: 0 document 01's, any other that of source document 002. It is no conversion of And: only the masking
// program's input names an AND by a byte.
fn and_of(byte: u8) -> And
    ensures { result ≡ and_of byte }
{
    match byte {
        0 => And::Isw,
        _ => And::Dom,
    }
}

// Masks an input, a byte that names the AND, an order byte and then a plain table; the bytes written.
pub fn mask_input(input: &[u8], out: &mut [u8]) -> Result<u32, Refusal>
    ensures { InputSays input.now out.old out.new (answer_of result) }
{
    match input.split_first() {
        None => mask_ordered(And::Isw, input, out),
        Some((byte, ordered)) => mask_ordered(and_of(*byte), ordered, out),
    }
}
