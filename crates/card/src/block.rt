// The block table: ends as strides, bad marks as bools over a run of words, wear classes as a run of bytes.
ghost use Rattle.std.specs.Prelude.{◌≡◌, [], length};
ghost use Rattle.column.specs.Column.{cells as area_of, beside};
ghost use Rattle.card.specs.Block.{block_format, block_takes};
ghost use Rattle.card.specs.Examples.{ExamplesHold};

use boolean::bools::Bools;
use column::element::{Element, Value};
use column::kind::{AsBytes, Column, Index, Kind};
use column::run::Run;
use offsets::strides::Strides;
use tuple::pair::Pair;

pub type BlockTable<'a> = Pair<Strides<'a>, Pair<Bools<Run<'a, u64>>, Run<'a, u8>>>;

// An empty block table over three lent areas: bounds, words of bad marks, wear classes.
pub fn block_table<'a>(
    ends: &'a mut [u64],
    bad: &'a mut [u64],
    wear: &'a mut [u8],
) -> BlockTable<'a>
    ensures after { ⟦<BlockTable<'a> as Index>⟧.list result ≡ [] }
    ensures same { ⟦<BlockTable<'a> as Column>⟧.areas result ≡ beside (area_of (length ends.old)) (beside (area_of (length bad.old)) (area_of (length wear.old))) }
    ensures format { ⟦<BlockTable<'a> as Kind>⟧.format ≡ block_format }
    ensures takes { ⟦<BlockTable<'a> as Column>⟧.takes ≡ block_takes }
{
    Pair::new(
        Strides::new(Run::new(ends)),
        Pair::new(Bools::new(Run::new(bad)), Run::new(wear)),
    )
}

// Does nothing, so that a contract names the theorem: its clause is that the definitions give the worked examples of the format.
pub fn examples_hold()
    ensures { ExamplesHold }
{}
