// The inputs' bits of the mapped tape, and both runs begun with them. The tapes and the runs are lent one by one, as in `map_pair`.
#![tactic(auto)]

ghost use Rattle.std.specs.Prelude.{◌≡◌, ◌*◌, ◌≤◌, length};
ghost use Rattle.tables.specs.Packing.{unpacked};
ghost use Rattle.secrecy.specs.Maps.{each_flip, input_flips};
ghost use Rattle.secrecy.specs.Both.{flips_at};
ghost use Rattle.map_inputs.specs.Flipping.{FlipReady, BeginReady, BegunSays};

// Flips the bits of share k in a mapped tape that is still the tape, where the secrets differ; the last share has no tape bit.
fn flip_inputs(order: usize, k: usize, first: &[u8], second: &[u8], mapped: &mut [u8])
    requires { (order ≤ 15) × FlipReady (2 * order) k first.now second.now (unpacked mapped.old) }
    ensures { unpacked mapped.new
        ≡ flips_at 0 (input_flips order k first.now second.now) (unpacked mapped.old) }
{
    let bits = 2 * order;
    if k > bits {
        return;
    }
    for i in 0..first.len() {
        let x = bits::secret_bit(first, i);
        let y = bits::secret_bit(second, i);
        let at = bits * i + (k - 1);
        bits::flip_bit(mapped, at, x ^ y);
    }
}

// Flips share k of each input, of so many shares, where the secrets differ. Not one function with `flip_inputs`: bits of a packed tape
// and bytes are written in two ways, and a closure or a trait for the two would be longer than this loop.
fn flip_shares(shares: usize, k: usize, first: &[u8], second: &[u8], run: &mut [u8])
    requires { (k ≤ shares) × FlipReady shares k first.now second.now run.old }
    ensures { run.new ≡ flips_at 0 (each_flip shares k first.now second.now) run.old }
{
    for i in 0..first.len() {
        let x = bits::secret_bit(first, i);
        let y = bits::secret_bit(second, i);
        let at = shares * i + (k - 1);
        run[at] ^= x ^ y;
    }
}

// Begins both runs: the encoding of the first secret with the tape, the tape with the inputs' bits flipped, and the encoding of the
// second secret with these, which is the first with the shares flipped.
pub fn begin_runs(
    order: usize,
    k: usize,
    given: &secrecy::Given,
    mapped: &mut [u8],
    one: &mut [u8],
    other: &mut [u8],
)
    requires { BeginReady order k given.now.first.now given.now.second.now given.now.tape.now mapped.old one.old other.old }
    ensures { BegunSays order k given.now.first.now given.now.second.now given.now.tape.now
        mapped.old
        mapped.new
        one.old
        one.new
        other.old
        other.new }
{
    let n = 2 * order + 1;
    let shares = n * given.first.len();
    encoding::encode_all(order, given.first, given.tape, one);
    fields::put_bytes(mapped, 0, given.tape);
    flip_inputs(order, k, given.first, given.second, mapped);
    fields::put_bytes(other, 0, &one[..shares]);
    flip_shares(n, k, given.first, given.second, other);
}
