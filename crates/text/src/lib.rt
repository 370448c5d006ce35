// Text in a lent buffer: bytes, numbers in decimal, and the line of a refusal.
#![tactic(auto)]

// A call takes a place and answers the next one. No struct of a buffer and its place, and no `write!` into it: the calls promise which
// bytes stand at which place of a lent buffer that has room for them, where those two would have to say so of themselves and could fail.

ghost use Rattle.std.specs.Prelude.{◌≡◌, [], ◌∷◌, ◌++◌, ◌+◌, ◌≤◌, length};
ghost use Rattle.text.specs.Text.{decimal, refusal_line, Puts, PutsAll};

// Puts bytes at a place, and answers the next place.
pub fn put_bytes(out: &mut [u8], at: usize, src: &[u8]) -> usize
    requires { at + length src.now ≤ length out.old }
    ensures { Puts at src.now out.old out.new result }
{
    fields::put_bytes(out, at, src);
    at + src.len()
}

// Puts bytes and then a number in decimal, and answers the next place.
pub fn put_number(out: &mut [u8], at: usize, before: &[u8], v: u32) -> usize
    requires { at + length (before.now ++ decimal v) ≤ length out.old }
    ensures { Puts at (before.now ++ decimal v) out.old out.new result }
{
    let next = put_bytes(out, at, before);
    let mut digits = itoa::Buffer::new();
    put_bytes(out, next, digits.format(v).as_bytes())
}

// Puts bytes and the number that ends their line, and answers the next place.
pub fn put_last(out: &mut [u8], at: usize, before: &[u8], v: u32) -> usize
    requires { at + length ((before.now ++ decimal v) ++ (10 ∷ [])) ≤ length out.old }
    ensures { Puts at ((before.now ++ decimal v) ++ (10 ∷ [])) out.old out.new result }
{
    let next = put_number(out, at, before, v);
    put_bytes(out, next, b"\n")
}

// Puts bytes and a number, then bytes and the number that ends their line, and answers the next place.
pub fn put_two(out: &mut [u8], at: usize, first: &[u8], x: u32, second: &[u8], y: u32) -> usize
    requires { at + length ((first.now ++ decimal x) ++ ((second.now ++ decimal y) ++ (10 ∷ []))) ≤ length out.old }
    ensures { Puts at ((first.now ++ decimal x) ++ ((second.now ++ decimal y) ++ (10 ∷ []))) out.old
        out.new result }
{
    let next = put_number(out, at, first, x);
    put_last(out, next, second, y)
}

// Puts the line of a refusal, and answers its length.
#[tactic(auto, unfolding(crate::specs::Text::line_of))]
pub fn put_refusal(out: &mut [u8], number: u32, place: u32) -> usize
    requires { length (refusal_line number place) ≤ length out.old }
    ensures { Puts 0 (refusal_line number place) out.old out.new result }
{
    put_two(out, 0, b"refused ", number, b" ", place)
}

// Puts all of the bytes at the front and answers how many; where they do not fit, puts nothing and answers 0.
// No Option: 0 where a text does not fit is what the calls promise that end with this (`forecast_line`, `sizes_line`, `list_table`).
pub fn put_all(out: &mut [u8], src: &[u8]) -> usize
    ensures { PutsAll src.now out.old out.new result }
{
    if out.len() < src.len() {
        return 0;
    }
    put_bytes(out, 0, src)
}
