// What is read from an image where it stands.
ghost use Rattle.std.specs.Prelude.{◌≡◌};
ghost use Rattle.boolean.specs.Bools.{bools_format, range_bits};
ghost use Rattle.boot.specs.Boot.{list_admitted};
ghost use Rattle.column.specs.Column.{element as element_at};
ghost use Rattle.column.specs.Run.{word_run};
ghost use Rattle.offsets.specs.Strides.{bounds_at, strides_format};
ghost use Rattle.beside.specs.Answer.{answer_number, answer_value, asked_of, told};
ghost use Rattle.beside.specs.Beside.{column_bits, column_element, numbered_bits, numbered_element, slice_place};

use crate::answer::{answer, answer_both};
use crate::columns::{ByteRun, Compared, StrideMarks, WordMarks, WordRun};
use area::fault::{Fault, Refusal};
use boolean::bools::Bools;
use boolean::form::bits_at;
use column::element::Value;
use column::kind::{Index, Kind};
use column::run::Run;
use decode::decoded::DecodedStore;
use offsets::bounds::bounds as bounds_in;
use offsets::strides::Strides;
use read::form::FromBytes;
use read::validate::validate;
use storage::store::{ByteArea, Store};
use tuple::empties::Empties;

// The element at a place of the list that bytes are admitted with as an image of kind `K`.
fn element_of<K: FromBytes>(image: &[u8], place: usize) -> Result<K::Elem, Fault>
    ensures { result ≡ asked_of (list_admitted K.Kind.format image.now) (λ xs. element_at xs place) }
{
    validate::<K, ByteArea>(ByteArea::new(image)?)?
        .view()
        .get(place)
}

// The same for a column, as a number.
fn element_in(column: Compared, image: &[u8], place: usize) -> Result<u64, Fault>
    ensures { result ≡ column_element column image.now place }
{
    match column {
        Compared::WordRun => element_of::<WordRun>(image, place),
        Compared::ByteRun => Ok(u64::from(element_of::<ByteRun>(image, place)?)),
        Compared::Strides => element_of::<Strides>(image, place),
        Compared::WordMarks => Ok(u64::from(element_of::<WordMarks>(image, place)?)),
        Compared::StrideMarks => Ok(u64::from(element_of::<StrideMarks>(image, place)?)),
        Compared::Empties => {
            element_of::<Empties>(image, place)?;
            Ok(0)
        }
    }
}

// The same for the column of a number, which is asked for before the bytes are looked at.
fn element_numbered(column: u32, image: &[u8], place: usize) -> Result<u64, Fault>
    ensures { result ≡ numbered_element column image.now place }
{
    element_in(Compared::try_from(column)?, image, place)
}

// The same as C is answered: 0 and the element, or else the number of the refusal, which leaves `found`.
pub fn element(column: u32, image: &[u8], place: usize, found: &mut u64) -> u32
    ensures answer { result ≡ answer_number (numbered_element column image.now place) }
    ensures after { found.new ≡ answer_value (numbered_element column image.now place) found.old }
{
    answer(element_numbered(column, image, place), found)
}

// A range of marks as a number, of the list that bytes are admitted with as an image of bools over a kind `C`.
fn bits_of<C: FromBytes<Elem = u64> + Index<Item = u64>>(
    image: &[u8],
    place: usize,
    count: usize,
) -> Result<u64, Fault>
    ensures { result ≡ asked_of (list_admitted (bools_format C.Kind.format) image.now) (λ xs. range_bits xs place count) }
{
    let admitted = validate::<Bools<C>, ByteArea>(ByteArea::new(image)?)?;
    bits_at(&admitted.view(), place, count)
}

// The same for a column; 17 for one of no marks.
fn bits_in(column: Compared, image: &[u8], place: usize, count: usize) -> Result<u64, Fault>
    ensures { result ≡ column_bits column image.now place count }
{
    match column {
        Compared::WordMarks => bits_of::<Run<u64>>(image, place, count),
        Compared::StrideMarks => bits_of::<Strides>(image, place, count),
        _ => Err(Fault::at_start(Refusal::UnknownRecord)),
    }
}

// The same for the column of a number.
fn bits_numbered(column: u32, image: &[u8], place: usize, count: usize) -> Result<u64, Fault>
    ensures { result ≡ numbered_bits column image.now place count }
{
    bits_in(Compared::try_from(column)?, image, place, count)
}

// The same as C is answered.
pub fn bits(column: u32, image: &[u8], place: usize, count: usize, found: &mut u64) -> u32
    ensures answer { result ≡ answer_number (numbered_bits column image.now place count) }
    ensures after { found.new ≡ answer_value (numbered_bits column image.now place count) found.old }
{
    answer(bits_numbered(column, image, place, count), found)
}

// The bounds of a block of the list that bytes are admitted with as an image of strides.
fn bounds_of(image: &[u8], block: usize) -> Result<(u64, u64), Fault>
    ensures { result ≡ asked_of (list_admitted (strides_format word_run) image.now) (λ xs. bounds_at xs block) }
{
    let admitted = validate::<Strides, ByteArea>(ByteArea::new(image)?)?;
    bounds_in(&admitted.view(), block)
}

// The same as C is answered.
pub fn bounds(image: &[u8], block: usize, lower: &mut u64, upper: &mut u64) -> u32
    ensures answer { result ≡ answer_number (asked_of (list_admitted (strides_format word_run) image.now) (λ xs. bounds_at xs block)) }
    ensures lower { lower.new ≡ answer_value (told (λ p. p.0) (asked_of (list_admitted (strides_format word_run) image.now) (λ xs. bounds_at xs block))) lower.old }
    ensures upper { upper.new ≡ answer_value (told (λ p. p.1) (asked_of (list_admitted (strides_format word_run) image.now) (λ xs. bounds_at xs block))) upper.old }
{
    answer_both(bounds_of(image, block), lower, upper)
}

// Where slice `k` stands in the bytes, and how many bytes it has. Asks questions 1 to 4, 6 and 7, and then 10.
fn place_of(image: &[u8], k: usize) -> Result<(usize, usize), Fault>
    ensures { result ≡ slice_place image.now k }
{
    let span = DecodedStore::new(ByteArea::new(image)?)?.get(k)?;
    Ok((8 * span.from, span.bytes))
}

// The same as C is answered.
pub fn slice(image: &[u8], k: usize, from: &mut usize, bytes: &mut usize) -> u32
    ensures answer { result ≡ answer_number (slice_place image.now k) }
    ensures from { from.new ≡ answer_value (told (λ p. p.0) (slice_place image.now k)) from.old }
    ensures bytes { bytes.new ≡ answer_value (told (λ p. p.1) (slice_place image.now k)) bytes.old }
{
    answer_both(place_of(image, k), from, bytes)
}
