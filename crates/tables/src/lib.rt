// The gate-table format: the kinds of gates, why a call is refused, what it answers, a gate as a table states it, and counts of gates.
#![tactic(auto)]

ghost use Rattle.std.specs.Prelude.{◌≡◌, ◌≤◌};
ghost use Rattle.tables.specs.Tables.{kind_of};
ghost use Rattle.tables.specs.Kinds.{kind_is, Decodes};
ghost use Rattle.tables.specs.Refusing.{fault_of, answer_of};

// The bytes of the longest table: 65,534 gates and 65,535 outputs.
pub const LONGEST: usize = 458746;

// The kinds of gates, in the order of the bytes that state them, 0 to 5.
#[derive(Clone, Copy, PartialEq, Eq)]
pub enum Kind {
    Not,
    Xor,
    And,
    Random,
    Constant,
    Or,
}

// A byte that states no kind.
#[derive(Clone, Copy)]
pub struct UnknownKind(pub u8);

impl TryFrom<u8> for Kind {
    type Error = UnknownKind;

    ghost try_from_gives = { Decodes };

    fn try_from(byte: u8) -> Result<Self, UnknownKind> {
        match byte {
            0 => Ok(Kind::Not),
            1 => Ok(Kind::Xor),
            2 => Ok(Kind::And),
            3 => Ok(Kind::Random),
            4 => Ok(Kind::Constant),
            5 => Ok(Kind::Or),
            _ => Err(UnknownKind(byte)),
        }
    }
}

// Why a call is refused, in the order of the refusals' numbers, 1 to 13; what is at fault is counted from 0.
#[derive(Clone, Copy, PartialEq, Eq)]
pub enum Refusal {
    Length,
    Sizes,
    Kind { gate: u32 },
    Operands { gate: u32 },
    Output { output: u32 },
    Order,
    Random { gate: u32 },
    TooLarge,
    NoRoom,
    Counts,
    NotBit { place: u32 },
    TooManyProbes,
    NoWire { probe: u32 },
}

impl Refusal {
    // The refusal's number.
    pub fn number(self) -> u8
        ensures { result ≡ (fault_of self).number }
    {
        match self {
            Refusal::Length => 1,
            Refusal::Sizes => 2,
            Refusal::Kind { .. } => 3,
            Refusal::Operands { .. } => 4,
            Refusal::Output { .. } => 5,
            Refusal::Order => 6,
            Refusal::Random { .. } => 7,
            Refusal::TooLarge => 8,
            Refusal::NoRoom => 9,
            Refusal::Counts => 10,
            Refusal::NotBit { .. } => 11,
            Refusal::TooManyProbes => 12,
            Refusal::NoWire { .. } => 13,
        }
    }

    // Its place: the gate, output, byte or probe at fault, and 0 where it has none.
    pub fn place(self) -> u32
        ensures { result ≡ (fault_of self).place }
    {
        match self {
            Refusal::Kind { gate } => gate,
            Refusal::Operands { gate } => gate,
            Refusal::Output { output } => output,
            Refusal::Random { gate } => gate,
            Refusal::NotBit { place } => place,
            Refusal::NoWire { probe } => probe,
            _ => 0,
        }
    }
}

// What a call answers: a refusal's number and place, or 0, 0 and the call's value. Value: wires, bytes, bits or the free share.
#[repr(C)]
#[derive(Clone, Copy)]
pub struct Answer {
    pub number: u8,
    pub place: u32,
    pub value: u32,
}

impl From<Result<u32, Refusal>> for Answer {
    ghost from_gives = { λ done answer. answer ≡ answer_of done };

    fn from(done: Result<u32, Refusal>) -> Answer {
        match done {
            Ok(value) => Answer {
                number: 0,
                place: 0,
                value,
            },
            Err(refusal) => Answer {
                number: refusal.number(),
                place: refusal.place(),
                value: 0,
            },
        }
    }
}

// A gate as a table states it: its kind's byte, since a table that is not yet checked may state a byte of no kind, and its operands.
#[derive(Clone, Copy)]
pub struct GateFields {
    pub kind: u8,
    pub left: usize,
    pub right: usize,
}

impl GateFields {
    // The kind, of a gate that has one.
    pub fn known_kind(self) -> Kind
        requires { self.kind ≤ 5 }
        ensures { kind_is result ≡ kind_of self.kind }
    {
        match self.kind {
            0 => Kind::Not,
            1 => Kind::Xor,
            2 => Kind::And,
            3 => Kind::Random,
            4 => Kind::Constant,
            5 => Kind::Or,
            _ => unreachable!(),
        }
    }
}

// How many gates there are of each kind.
#[derive(Clone, Copy)]
pub struct Counts {
    pub nots: usize,
    pub xors: usize,
    pub ands: usize,
    pub randoms: usize,
    pub constants: usize,
    pub ors: usize,
}
