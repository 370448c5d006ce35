// The masking construction: what forecasting and the marks call answer, the ANDs that there are, and a pair of shares.
#![tactic(auto)]

ghost use Rattle.std.specs.Prelude.{◌≡◌};
ghost use Rattle.construction.specs.Told.{sizes_of, marks_of};

use tables::Refusal;

// The four figures of a masked table.
#[derive(Clone, Copy)]
pub struct Figures {
    pub shares: u32,
    pub wires: u32,
    pub tape: u32,
    pub bytes: u32,
}

// What forecasting answers: a refusal's number and place, or 0, 0 and the masked table's four figures.
#[repr(C)]
#[derive(Clone, Copy)]
pub struct Sizes {
    pub number: u8,
    pub place: u32,
    pub shares: u32,
    pub wires: u32,
    pub tape: u32,
    pub bytes: u32,
}

impl From<Result<Figures, Refusal>> for Sizes {
    ghost from_gives = { λ done sizes. sizes ≡ sizes_of done };

    fn from(done: Result<Figures, Refusal>) -> Sizes {
        match done {
            Ok(figures) => Sizes {
                number: 0,
                place: 0,
                shares: figures.shares,
                wires: figures.wires,
                tape: figures.tape,
                bytes: figures.bytes,
            },
            Err(refusal) => Sizes {
                number: refusal.number(),
                place: refusal.place(),
                shares: 0,
                wires: 0,
                tape: 0,
                bytes: 0,
            },
        }
    }
}

// The share numbers that a probe carries, ascending: one, or two.
#[derive(Clone, Copy)]
pub struct Carried {
    pub first: u8,
    pub second: Option<u8>,
}

// What the marks call answers: a refusal's number and place, or 0, 0 and the share numbers, ascending, 0 for none.
#[repr(C)]
#[derive(Clone, Copy)]
pub struct Marks {
    pub number: u8,
    pub place: u32,
    pub first: u8,
    pub second: u8,
}

impl From<Result<Carried, Refusal>> for Marks {
    ghost from_gives = { λ done marks. marks ≡ marks_of done };

    fn from(done: Result<Carried, Refusal>) -> Marks {
        match done {
            Ok(carried) => Marks {
                number: 0,
                place: 0,
                first: carried.first,
                second: carried.second.unwrap_or(0),
            },
            Err(refusal) => Marks {
                number: refusal.number(),
                place: refusal.place(),
                first: 0,
                second: 0,
            },
        }
    }
}

// The ANDs that there are: document 01's, and that of source document 002.
#[derive(Clone, Copy, PartialEq, Eq)]
pub enum And {
    Isw,
    Dom,
}

// A pair of shares, counted from 0.
#[derive(Clone, Copy)]
pub struct SharePair {
    pub lower: usize,
    pub upper: usize,
}
