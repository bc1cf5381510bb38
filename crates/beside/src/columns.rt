// The columns that are compared.
ghost use Rattle.std.specs.Prelude.{◌≡◌};
ghost use Rattle.beside.specs.Beside.{column_numbered};

use area::fault::{Fault, Refusal};
use boolean::bools::Bools;
use column::run::Run;
use offsets::strides::Strides;

pub type WordRun<'a> = Run<'a, u64>;

pub type ByteRun<'a> = Run<'a, u8>;

// Marks over words as they are, and over words as strides.
pub type WordMarks<'a> = Bools<Run<'a, u64>>;

pub type StrideMarks<'a> = Bools<Strides<'a>>;

// The columns by name, with their numbers.
#[derive(Clone, Copy, PartialEq, Eq, Debug)]
pub enum Compared {
    WordRun = 1,
    ByteRun = 2,
    Strides = 3,
    WordMarks = 4,
    StrideMarks = 5,
    Empties = 6,
}

impl TryFrom<u32> for Compared {
    type Error = Fault;

    ghost try_from_gives = { λ number column. column ≡ column_numbered number };

    // 17 for a number of no column. The numbers stand again, since the language converts no number back to a discriminant.
    fn try_from(number: u32) -> Result<Compared, Fault> {
        match number {
            1 => Ok(Compared::WordRun),
            2 => Ok(Compared::ByteRun),
            3 => Ok(Compared::Strides),
            4 => Ok(Compared::WordMarks),
            5 => Ok(Compared::StrideMarks),
            6 => Ok(Compared::Empties),
            _ => Err(Fault::at_start(Refusal::UnknownRecord)),
        }
    }
}
