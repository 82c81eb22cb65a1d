// Why a call is refused, and the numbers that stand for it outside.

#![tactic(auto)]

ghost use Rattle.std.specs.Prelude.{◌≡◌, ◌<◌};
ghost use Rattle.refusal.specs.Refusal.{refusal_number};

use std::fmt;

// include/gantry.h has the exact condition of each.
#[derive(Clone, Copy, PartialEq, Eq, Debug)]
pub enum Refusal {
    Short,
    Box,
    NoMesh,
    Outside,
    Taken,
    PointsFull,
    Unheld,
    CellsFull,
    Trailer,
    NoPlace,
    FlatCell,
    OutOfRange,
    NoPoint,
    OtherMarks,
    UnequalSides,
}

impl Refusal {
    pub fn number(self) -> u8
        ensures { result ≡ refusal_number self }
    {
        match self {
            Refusal::Short => 1,
            Refusal::Box => 2,
            Refusal::NoMesh => 3,
            Refusal::Outside => 4,
            Refusal::Taken => 5,
            Refusal::PointsFull => 6,
            Refusal::Unheld => 7,
            Refusal::CellsFull => 8,
            Refusal::Trailer => 9,
            Refusal::NoPlace => 10,
            Refusal::FlatCell => 11,
            Refusal::OutOfRange => 12,
            Refusal::NoPoint => 13,
            Refusal::OtherMarks => 14,
            Refusal::UnequalSides => 19,
        }
    }
}

impl fmt::Display for Refusal {
    fn fmt<W: fmt::Write>(&self, f: &mut fmt::Formatter<W>) -> fmt::Result {
        write!(f, "refused {}", self.number())
    }
}
