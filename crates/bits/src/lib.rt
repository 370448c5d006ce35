// Bits: those of secrets, a byte each, and the first byte that is none; those of tapes, eight to a byte.
#![tactic(auto)]

ghost use Rattle.std.specs.Prelude.{◌≡◌, true, ◌+◌, ◌≤◌, ◌<◌, length, get_or, set, None};
ghost use Rattle.tables.specs.Refusals.{bad_bit};
ghost use Rattle.tables.specs.Runs.{xor};
ghost use Rattle.tables.specs.Packing.{bytes_for, unpacked, spare_fault};
ghost use Rattle.tables.specs.Inside.{Refused};
ghost use Rattle.bits.specs.Scan.{FirstBad};

// A bit of a secret.
pub fn secret_bit(bits: &[u8], at: usize) -> u8
    requires { at < length bits.now }
    ensures { result ≡ get_or bits.now at 0 }
{
    bits[at]
}

// A bit of a packed tape: eight to a byte, lowest first.
#[tactic(auto, using(tables::proofs::Packing::unpacked_length, tables::proofs::Packing::bit_at))]
pub fn tape_bit(tape: &[u8], at: usize) -> u8
    requires { at < length (unpacked tape.now) }
    ensures { (result ≡ get_or (unpacked tape.now) at 0) × (result ≤ 1) }
{
    (tape[at / 8] >> (at % 8)) % 2
}

// Flips a bit of a packed tape where flip is 1.
#[tactic(auto, using(tables::proofs::Packing::unpacked_length))]
pub fn flip_bit(tape: &mut [u8], at: usize, flip: u8)
    requires { (at < length (unpacked tape.old)) × (flip ≤ 1) }
    ensures { unpacked tape.new
        ≡ set (unpacked tape.old) at (xor (get_or (unpacked tape.old) at 0) flip) }
{
    let byte = at / 8;
    tape[byte] ^= flip << (at % 8);
}

// How many bytes a tape of so many bits takes.
pub fn bytes_for(bits: usize) -> usize
    ensures { result ≡ bytes_for bits }
{
    bits.div_ceil(8)
}

// The refusal of a set bit above the last of so many tape bits, where the tape follows `start` bits of the call.
#[tactic(auto, using(tables::proofs::Packing::spare_past), unfolding(tables::specs::Packing::spare_fault, tables::specs::Packing::spare))]
pub fn spare_fault(tape: &[u8], bits: usize, start: usize) -> Result<(), tables::Refusal>
    requires { (length tape.now ≡ bytes_for bits) × (start + length tape.now < 4294967296) }
    ensures { Refused (spare_fault start bits tape.now) result }
{
    let used = bits % 8;
    if used == 0 || tape[bits / 8] >> used == 0 {
        return Ok(());
    }
    let place = start + (tape.len() - 1);
    Err(tables::Refusal::NotBit {
        place: place as u32,
    })
}

// Whether no byte is above 1: one pass that does not branch on the bytes.
#[tactic(auto, using(crate::proofs::Scan::at_most_step, crate::proofs::Scan::bad_none))]
fn all_bits(bits: &[u8]) -> bool
    ensures { result ≡ true → FirstBad bits.now None }
{
    let mut all: u8 = 0;
    for bit in bits {
        all |= *bit;
    }
    all < 2
}

// The position of the first byte above 1: it is looked for only where there is one.
pub fn first_bad(bits: &[u8]) -> Option<usize>
    ensures { FirstBad bits.now result }
{
    if all_bits(bits) {
        return None;
    }
    bits.iter().position(|bit| *bit > 1)
}

// The first byte above 1, where the bits begin at a place of the call's secrets joined.
pub fn bits_fault(bits: &[u8], start: usize) -> Result<(), tables::Refusal>
    requires { start + length bits.now < 4294967296 }
    ensures { Refused (bad_bit start bits.now) result }
{
    match first_bad(bits) {
        None => Ok(()),
        Some(at) => Err(tables::Refusal::NotBit {
            place: (start + at) as u32,
        }),
    }
}
