// Encoding secrets into shares. `order ≤ 15` stays in the contracts, here and in map_inputs: an order is a plain number in every
// definition, and a struct for it would be taken apart in each clause.
#![tactic(auto)]

ghost use Rattle.std.specs.Prelude.{◌≡◌, [], ◌∷◌, ◌+◌, ◌*◌, ◌^◌, ◌≤◌, ◌<◌, length, drop};
ghost use Rattle.tables.specs.Packing.{unpacked, tape_of};
ghost use Rattle.tables.specs.Says.{over};
ghost use Rattle.tables.specs.Refusing.{answer_of};
ghost use Rattle.tables.specs.Inside.{Refused, Bits};
ghost use Rattle.construction.specs.Codes.{encode};
ghost use Rattle.construction.specs.Shares.{shares_of};
ghost use Rattle.construction.specs.Says.{encode_fault, EncodeSays};

use tables::Refusal;

// The refusal of encoding for a buffer of the given length: 6, 8, 10, 11, 9 in that order.
#[tactic(auto, unfolding(construction::specs::Says::encode_fault))]
fn encode_fault(order: u8, secrets: &[u8], tape: &[u8], room: usize) -> Result<(), Refusal>
    ensures { Refused (encode_fault order secrets.now tape.now room) result }
{
    orders::order_fault(order)?;
    let bits = 2 * order as usize;
    let count = secrets.len();
    if count > 65535 || (bits + 1) * count > 65535 {
        return Err(Refusal::TooLarge);
    }
    let due = bits * count;
    if tape.len() != bits::bytes_for(due) {
        return Err(Refusal::Counts);
    }
    bits::bits_fault(secrets, 0)?;
    bits::spare_fault(tape, due, count)?;
    if room < (bits + 1) * count {
        return Err(Refusal::NoRoom);
    }
    Ok(())
}

// Writes the shares of one secret: 2t tape bits from a place on, and their XOR with the secret.
#[tactic(auto, using(crate::proofs::Encoding::copying_end), unfolding(construction::specs::Codes::xor_all))]
fn encode_one(order: usize, secret: u8, tape: &[u8], from: usize, out: &mut [u8])
    requires { (from + 2 * order ≤ length (unpacked tape.now))
        × (from + 2 * order < 2 ^ 64)
        × (2 * order < length out.old)
        × (order ≤ 15)
        × (secret ≤ 1) }
    ensures { out.new
        ≡ over (encode order (secret ∷ []) (drop from (unpacked tape.now))) out.old }
{
    let bits = 2 * order;
    let mut last = secret;
    for s in 0..bits {
        let bit = bits::tape_bit(tape, from + s);
        out[s] = bit;
        last ^= bit;
    }
    out[bits] = last;
}

// Writes the shares of every secret, one secret's after another's, with the first bits of the tape.
#[tactic(auto, unfolding(construction::specs::Codes::encode))]
pub fn encode_all(order: usize, secrets: &[u8], tape: &[u8], out: &mut [u8])
    requires { (order ≤ 15)
        × (2 * order * length secrets.now ≤ 8 * length tape.now)
        × (shares_of order * length secrets.now ≤ length out.old)
        × Bits secrets.now }
    ensures { out.new
        ≡ over
        (encode order secrets.now (tape_of (2 * order * length secrets.now) tape.now))
        out.old }
{
    let bits = 2 * order;
    let n = bits + 1;
    for i in 0..secrets.len() {
        let at = n * i;
        encode_one(order, secrets[i], tape, bits * i, &mut out[at..at + n]);
    }
}

// Encodes secrets with 2t tape bits each, packed: n share bits a secret.
#[tactic(auto, using(crate::proofs::Encoding::encode_ready, crate::proofs::Encoding::encode_small, crate::proofs::Encoding::encode_writes))]
pub fn encode_secrets(
    order: u8,
    secrets: &[u8],
    tape: &[u8],
    out: &mut [u8],
) -> Result<u32, Refusal>
    ensures { EncodeSays
        order secrets.now tape.now out.old out.new (answer_of result) }
{
    encode_fault(order, secrets, tape, out.len())?;
    let t = order as usize;
    encode_all(t, secrets, tape, out);
    Ok(((2 * t + 1) * secrets.len()) as u32)
}
