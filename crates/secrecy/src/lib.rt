// Free shares, the mapped tape and the demands are definitions; here is what a mapping call is given.
#![tactic(auto)]

ghost use Rattle.std.specs.Prelude.{ℕ, ◌<◌, get_or};

// What a mapping call is given besides a table and an order: both secrets, a tape and the probes.
#[derive(Clone, Copy)]
pub struct Given<'a> {
    pub first: &'a [u8],
    pub second: &'a [u8],
    pub tape: &'a [u8],
    pub probes: &'a [u32],
    ghost bytes: { (i : ℕ) → get_or tape.now i 0 < 256 },
}
