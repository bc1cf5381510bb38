// The kinds of the card.
ghost use Rattle.std.specs.Prelude.{◌≡◌};
ghost use Rattle.kinds.specs.Kinds.{kind_numbered};

use area::fault::{Fault, Refusal};
use boolean::bools::Bools;
use offsets::strides::Strides;
use tuple::empties::Empties;

// Block ends, bad marks and wear classes.
pub use card::block::BlockTable;

// One mark a block.
pub type EraseMap<'a> = Bools<Strides<'a>>;

// How many spare blocks there are.
pub type SpareCount = Empties;

// The kinds by name, with their numbers.
#[derive(Clone, Copy, PartialEq, Eq, Debug)]
pub enum CardKind {
    BlockTable = 1,
    EraseMap = 2,
    SpareCount = 3,
}

impl TryFrom<u32> for CardKind {
    type Error = Fault;

    ghost try_from_gives = { λ number kind. kind ≡ kind_numbered number };

    // 17 for a number of no kind. The numbers stand again, since the language converts no number back to a discriminant.
    fn try_from(number: u32) -> Result<CardKind, Fault> {
        match number {
            1 => Ok(CardKind::BlockTable),
            2 => Ok(CardKind::EraseMap),
            3 => Ok(CardKind::SpareCount),
            _ => Err(Fault::at_start(Refusal::UnknownRecord)),
        }
    }
}
