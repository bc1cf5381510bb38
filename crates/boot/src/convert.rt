// An image of the card, admitted and converted into a byte area.
ghost use Rattle.std.specs.Prelude.{◌≡◌, length};
ghost use Rattle.boot.specs.Boot.{Boots, CardBoots, ImageBoots, NumberBoots};

use boolean::bools::Bools;
use card::block::block_table;
use column::element::Value;
use column::kind::{Column, Index, Kind};
use column::run::Run;
use kinds::kinds::CardKind;
use offsets::strides::Strides;
use read::form::FromBytes;
use stash::convert::{ConvertFault, convert_into};
use stash::stash::Stash;
use storage::store::{ByteArea, Store, WordArea};
use storage::write::Full;
use tuple::empties::Empties;

// What a conversion answers: how many elements the list has, and how many bytes its image.
#[derive(Clone, Copy, PartialEq, Eq, Debug)]
pub struct Done {
    pub length: usize,
    pub bytes: usize,
}

// The memory that the columns of a kind live in: cells for bounds, for words of marks, and for wear classes. It is lent, since
// the firmware has no heap.
#[derive(Drop)]
pub struct Memory<'a> {
    pub ends: &'a mut [u64],
    pub bad: &'a mut [u64],
    pub wear: &'a mut [u8],
}

// Admits the image of a column's kind, fills the column with its list, and writes the image of that over the start of `area`.
pub fn converted<C: Column + FromBytes + Drop>(
    image: &[u8],
    ready: C,
    area: &mut [u8],
) -> Result<Done, ConvertFault<Full>>
    ensures { Boots C.Elem.Value.fits C.Kind.format (C.Column.takes (C.Column.areas ready)) image.now area.old area.new result }
{
    let mut table: Stash<C, ByteArea, WordArea> = Stash::try_from_bytes(ByteArea::new(image)?)?;
    let length = table.len();
    let bytes = convert_into(&mut table, ready, area)?;
    Ok(Done { length, bytes })
}

// The same for a kind of the card.
pub fn convert_image(
    kind: CardKind,
    image: &[u8],
    memory: Memory<'_>,
    area: &mut [u8],
) -> Result<Done, ConvertFault<Full>>
    ensures { CardBoots kind image.now (length memory.entry.ends.now) (length memory.entry.bad.now) (length memory.entry.wear.now) area.old area.new result }
{
    let Memory { ends, bad, wear } = memory;
    match kind {
        CardKind::BlockTable => converted(image, block_table(ends, bad, wear), area),
        CardKind::EraseMap => converted(image, Bools::new(Strides::new(Run::new(ends))), area),
        CardKind::SpareCount => converted(image, Empties::new(), area),
    }
}

// The same for the kind of a number, which is asked for before the image is looked at.
pub fn convert_numbered(
    kind: u32,
    image: &[u8],
    memory: Memory<'_>,
    area: &mut [u8],
) -> Result<Done, ConvertFault<Full>>
    ensures { NumberBoots kind image.now (length memory.entry.ends.now) (length memory.entry.bad.now) (length memory.entry.wear.now) area.old area.new result }
{
    let kind = CardKind::try_from(kind)?;
    convert_image(kind, image, memory, area)
}

// The same as C is answered: 0 and the image's length in bytes, or else the number of the refusal.
pub fn boot_image(
    kind: u32,
    image: &[u8],
    memory: Memory<'_>,
    area: &mut [u8],
    bytes: &mut usize,
) -> u32
    ensures { ImageBoots kind image.now (length memory.entry.ends.now) (length memory.entry.bad.now) (length memory.entry.wear.now) area.old area.new bytes.old bytes.new result }
{
    match convert_numbered(kind, image, memory, area) {
        Ok(done) => {
            *bytes = done.bytes;
            0
        }
        Err(fault) => fault.refusal().number(),
    }
}
