// Decoding shares.
#![tactic(auto)]

ghost use Rattle.std.specs.Prelude.{◌≡◌, ◌+◌, ◌*◌, ◌≤◌, length, take, drop};
ghost use Rattle.tables.specs.Refusing.{answer_of};
ghost use Rattle.tables.specs.Inside.{Refused, Bits};
ghost use Rattle.tables.specs.Says.{over};
ghost use Rattle.construction.specs.Codes.{xor_all, decode_from};
ghost use Rattle.construction.specs.Says.{decode_fault, DecodeSays};

use tables::Refusal;

// The refusal of decoding for a buffer of the given length: 6, 8, 10, 11, 9 in that order.
#[tactic(auto, unfolding(construction::specs::Says::decode_fault))]
fn decode_fault(order: u8, shares: &[u8], room: usize) -> Result<(), Refusal>
    ensures { Refused (decode_fault order shares.now room) result }
{
    orders::order_fault(order)?;
    if shares.len() > 65535 {
        return Err(Refusal::TooLarge);
    }
    let n = 2 * order as usize + 1;
    if shares.len() % n != 0 {
        return Err(Refusal::Counts);
    }
    bits::bits_fault(shares, 0)?;
    if room < shares.len() / n {
        return Err(Refusal::NoRoom);
    }
    Ok(())
}

// The XOR of share bits.
#[tactic(auto, using(crate::proofs::Decoding::fold_xor))]
fn decode_one(shares: &[u8]) -> u8
    requires { Bits shares.now }
    ensures { result ≡ xor_all 0 shares.now }
{
    shares.iter().fold(0, |sum, share| sum ^ *share)
}

// Writes one bit for each n of the shares, count times.
#[tactic(auto, using(crate::proofs::Decoding::decoding_turn), unfolding(construction::specs::Codes::decode_from))]
fn decode_all(shares: &[u8], n: usize, count: usize, out: &mut [u8])
    requires { (n * count ≤ length shares.now) × (count ≤ length out.old) × Bits shares.now }
    ensures { out.new ≡ over (decode_from count n shares.now) out.old }
{
    let mut at = 0;
    for i in 0..count {
        out[i] = decode_one(&shares[at..at + n]);
        at += n;
    }
}

// Decodes share bits: one bit for each n of them.
#[tactic(auto, using(crate::proofs::Decoding::decode_ready, crate::proofs::Decoding::decode_small, crate::proofs::Decoding::decode_writes))]
pub fn decode_shares(order: u8, shares: &[u8], out: &mut [u8]) -> Result<u32, Refusal>
    ensures { DecodeSays order shares.now out.old out.new (answer_of result) }
{
    decode_fault(order, shares, out.len())?;
    let n = 2 * order as usize + 1;
    let count = shares.len() / n;
    decode_all(shares, n, count, out);
    Ok(count as u32)
}
