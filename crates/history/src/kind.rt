// The kinds of the card, as a script speaks of their columns and elements.
use crate::pool::Pool;
use boolean::bools::*;
use boolean::form::*;
use card::block::{BlockTable, block_table};
use column::element::*;
use column::kind::*;
use column::run::*;
use kinds::kinds::{EraseMap, SpareCount};
use offsets::form::*;
use offsets::strides::*;
use read::form::FromBytes;
use read::run::*;
use std::alloc::{AllocError, Global};
use tuple::empties::*;
use tuple::form::*;
use tuple::pair::*;

pub(crate) trait Scripted<'a>: Column + FromBytes + Drop {
    // An empty column in areas of these sizes; none where they are not those of the kind, or the pool has no such areas.
    fn ready(pool: &mut Pool<'a>, sizes: &[u64]) -> Option<Self>;

    // The element that numbers stand for.
    fn element(numbers: &[u64]) -> Option<Self::Elem>;

    // An element as it is printed.
    fn text(heap: Global, x: Self::Elem) -> Result<String, AllocError>;
}

// The mark that a number stands for.
fn mark(number: u64) -> Option<bool> {
    match number {
        0 => Some(false),
        1 => Some(true),
        _ => None,
    }
}

impl<'a> Scripted<'a> for BlockTable<'a> {
    fn ready(pool: &mut Pool<'a>, sizes: &[u64]) -> Option<BlockTable<'a>> {
        let &[ends, bad, wear] = sizes else {
            return None;
        };
        Some(block_table(
            pool.words(ends as usize)?,
            pool.words(bad as usize)?,
            pool.bytes(wear as usize)?,
        ))
    }

    fn element(numbers: &[u64]) -> Option<(u64, (bool, u8))> {
        let &[end, bad, wear] = numbers else {
            return None;
        };
        Some((end, (mark(bad)?, u8::try_from(wear).ok()?)))
    }

    fn text(heap: Global, x: (u64, (bool, u8))) -> Result<String, AllocError> {
        format!(in heap; "({}, {}, {})", x.0, u8::from(x.1.0), x.1.1)
    }
}

impl<'a> Scripted<'a> for EraseMap<'a> {
    fn ready(pool: &mut Pool<'a>, sizes: &[u64]) -> Option<EraseMap<'a>> {
        let &[bounds] = sizes else {
            return None;
        };
        Some(Bools::new(Strides::new(Run::new(pool.words(bounds as usize)?))))
    }

    fn element(numbers: &[u64]) -> Option<bool> {
        let &[bit] = numbers else {
            return None;
        };
        mark(bit)
    }

    fn text(heap: Global, x: bool) -> Result<String, AllocError> {
        format!(in heap; "{}", u8::from(x))
    }
}

impl<'a> Scripted<'a> for SpareCount {
    fn ready(_pool: &mut Pool<'a>, sizes: &[u64]) -> Option<SpareCount> {
        if !sizes.is_empty() {
            return None;
        }
        Some(Empties::new())
    }

    fn element(numbers: &[u64]) -> Option<()> {
        if !numbers.is_empty() {
            return None;
        }
        Some(())
    }

    fn text(heap: Global, _x: ()) -> Result<String, AllocError> {
        format!(in heap; "()")
    }
}
