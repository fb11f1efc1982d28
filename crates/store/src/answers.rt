// What a call answers: a refusal by the first question that is answered no, or how the call ended.
ghost use Rattle.std.specs.Prelude.{◌≡◌};
ghost use Rattle.store.specs.Answer.{question};

use std::error::Error;
use std::fmt;

// Why a call was refused. Each refusal has the number of its question. Number 15 is retired, and no other number has moved.
#[derive(Clone, Copy, PartialEq, Eq, Debug)]
pub enum Refusal {
    Lengths = 1,
    NoStore = 2,
    Pending = 3,
    Corrupt = 4,
    NoSuchDomain = 5,
    NotInnermost = 6,
    KindOrLabel = 7,
    Range = 8,
    TooManyDomains = 9,
    NoHandleLeft = 10,
    ParentLacksCell = 11,
    MemoryDiffers = 12,
    NotHeld = 13,
    ChildRelies = 14,
    NoFreeEntry = 16,
    NoFreeBody = 17,
    PatternDiffers = 18,
    ParentHoldsByRule = 19,
    NumberOfRanges = 20,
}

impl Refusal {
    // The number of the question that was answered no.
    pub fn number(self) -> u32
        ensures { result ≡ question self }
    {
        self as u32
    }
}

impl fmt::Display for Refusal {
    fn fmt<W: fmt::Write>(&self, f: &mut fmt::Formatter<W>) -> fmt::Result {
        f.write_str(match self {
            Refusal::Lengths => "a buffer's length is not allowed",
            Refusal::NoStore => "the table is no store's for buffers of these lengths",
            Refusal::Pending => "what a stopped call changes is still pending",
            Refusal::Corrupt => "the table is corrupt",
            Refusal::NoSuchDomain => "the handle names no live domain",
            Refusal::NotInnermost => "the domain is not the innermost",
            Refusal::KindOrLabel => "there is no such kind or label",
            Refusal::Range => "the range of cells is empty or ends past memory",
            Refusal::TooManyDomains => "eight domains live already",
            Refusal::NoHandleLeft => "every handle has been given out",
            Refusal::ParentLacksCell => "the parent does not hold a newly held cell",
            Refusal::MemoryDiffers => "memory differs from the parent's value in a newly held cell",
            Refusal::NotHeld => "the domain does not hold a cell that is to be deleted",
            Refusal::ChildRelies => "the next domain in holds a cell of these via this one",
            Refusal::NoFreeEntry => "there are too few free entries",
            Refusal::NoFreeBody => "there are too few free bodies",
            Refusal::PatternDiffers => {
                "there is no such rule, or memory differs from it in a newly held cell"
            }
            Refusal::ParentHoldsByRule => "the parent holds a newly held cell by a rule",
            Refusal::NumberOfRanges => "the list has no range, or more than 64",
        })
    }
}

impl Error for Refusal {}

// How a call ended that no question refused: done, with its steps and, from create, the new handle; or stopped by its budget, with that many
// steps made.
#[derive(Clone, Copy, PartialEq, Eq, Debug)]
pub enum Ended {
    Done { steps: usize, handle: u32 },
    Stopped(usize),
}

pub type Answer = Result<Ended, Refusal>;

// What list gives: how many domains are live, and their handles, outermost first, with zeros after them.
#[derive(Clone, Copy, PartialEq, Eq, Debug)]
pub struct Listing {
    pub count: u32,
    pub handles: [u32; 8],
}
