// How many gates of a table are of each kind: three kinds in one pass, and the other three in another where there are any.
#![tactic(auto)]

ghost use Rattle.std.specs.Prelude.{◌≡◌, ◌+◌, ◌≤◌, ◌<◌, take};
ghost use Rattle.tables.specs.Tables.{kind_of, kind_byte, table_of};
ghost use Rattle.tables.specs.Kinds.{kind_is};
ghost use Rattle.tables.specs.Counted.{of_kind, counts_of};
ghost use Rattle.counts.specs.Three.{three_of};

use tables::Kind;

// How many gates are of each of three kinds.
#[derive(Clone, Copy)]
pub struct ThreeKinds {
    pub first: usize,
    pub second: usize,
    pub third: usize,
}

// So many gates are counted at a time: each of their counts fits in a byte, and many bytes are counted at once.
const BLOCK: usize = 224;

// 1 where a byte is a kind, else 0: a number, so that a sum over kinds needs no branch.
pub fn is_kind(byte: u8, kind: Kind) -> u8
    ensures { (result ≡ of_kind (kind_byte (kind_is kind)) (kind_of byte)) × (result ≤ 1) }
{
    u8::from(byte == kind as u8)
}

// Adds the gates of a block to the counts of those before it.
fn count_block(
    gates: &fields::Gates,
    kinds: [Kind; 3],
    from: usize,
    to: usize,
    counted: ThreeKinds,
) -> ThreeKinds
    requires { (from < to) × (to ≤ gates.now.count) × (to ≤ from + 255)
        × (counted ≡ three_of kinds (take from (table_of gates.now.table.now).gates)) }
    ensures { result ≡ three_of kinds (take to (table_of gates.now.table.now).gates) }
{
    let mut first: u8 = 0;
    let mut second: u8 = 0;
    let mut third: u8 = 0;
    for g in from..to {
        let byte = gates.at(g).kind;
        first += is_kind(byte, kinds[0]);
        second += is_kind(byte, kinds[1]);
        third += is_kind(byte, kinds[2]);
    }
    ThreeKinds {
        first: counted.first + first as usize,
        second: counted.second + second as usize,
        third: counted.third + third as usize,
    }
}

// How many gates of a table are of each of three kinds.
pub fn count_three(gates: &fields::Gates, kinds: [Kind; 3]) -> ThreeKinds
    ensures { result ≡ three_of kinds (table_of gates.now.table.now).gates }
{
    let mut counts = ThreeKinds {
        first: 0,
        second: 0,
        third: 0,
    };
    for from in (0..gates.count).step_by(BLOCK) {
        let to = from + BLOCK.min(gates.count - from);
        counts = count_block(gates, kinds, from, to, counts);
    }
    counts
}

// How many gates of a table are of each kind. The last three kinds are looked for only where the first three are not all.
pub fn count_kinds(gates: &fields::Gates) -> tables::Counts
    ensures { result ≡ counts_of (table_of gates.now.table.now).gates }
{
    let low = count_three(gates, [Kind::Not, Kind::Xor, Kind::And]);
    if low.first + low.second + low.third == gates.count {
        return tables::Counts {
            nots: low.first,
            xors: low.second,
            ands: low.third,
            randoms: 0,
            constants: 0,
            ors: 0,
        };
    }
    let high = count_three(gates, [Kind::Random, Kind::Constant, Kind::Or]);
    tables::Counts {
        nots: low.first,
        xors: low.second,
        ands: low.third,
        randoms: high.first,
        constants: high.second,
        ors: high.third,
    }
}
