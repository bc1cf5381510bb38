// A refusal carries the number of the first question that fails, and the place where it fails.
ghost use Rattle.std.specs.Prelude.{◌≡◌, Some};
ghost use Rattle.area.specs.Fault.{number_of, refuse, refusal_text};

use std::fmt;

// The questions, by what a `no` means, each with the number by which the format's description names it. docs/REFUSALS.md
// has each with its place.
#[derive(Clone, Copy, PartialEq, Eq, Debug)]
pub enum Refusal {
    ByteLength = 1,
    NoWord = 2,
    FirstWord = 3,
    IndexCut = 4,
    SliceCount = 5,
    EndOutside = 6,
    EndBeforeStart = 7,
    SliceSize = 8,
    SliceContent = 9,
    OutOfRange = 10,
    BitCount = 11,
    NotTaken = 12,
    NotTyped = 13,
    NoRoom = 14,
    ImageTooLong = 15,
    WindowOutside = 16,
    UnknownRecord = 17,
}

// What every refused call answers.
#[derive(Clone, Copy, PartialEq, Eq, Debug)]
pub struct Fault {
    pub refusal: Refusal,
    pub place: usize,
}

impl Refusal {
    // The number by which the format's description names this refusal; `number` says which, and a `From` would not.
    pub fn number(self) -> u32
        ensures { result ≡ number_of self }
    {
        self as u32
    }
}

impl Fault {
    // A refusal whose place is 0; a name says more here than a conversion.
    pub fn at_start(refusal: Refusal) -> Fault
        ensures { result ≡ refuse refusal 0 }
    {
        Fault { refusal, place: 0 }
    }

    pub fn at(refusal: Refusal, place: usize) -> Fault
        ensures { result ≡ refuse refusal place }
    {
        Fault { refusal, place }
    }
}

// The number of the refusal and the place, as the programs print them.
impl fmt::Display for Fault {
    ghost output = { λ f. Some (refusal_text f) };

    fn fmt<W: fmt::Write>(&self, f: &mut fmt::Formatter<W>) -> fmt::Result {
        write!(f, "refused {} {}", self.refusal.number(), self.place)
    }
}

impl std::error::Error for Fault {}
