// A column that is given elements, and its image.
ghost use Rattle.std.specs.Prelude.{◌≡◌, length};
ghost use Rattle.beside.specs.Columns.{AnswersWrite, ColumnWrites, NumberedWrites, column_area, column_encoded, numbered_area, numbered_encoded};
ghost use Rattle.beside.specs.Answer.{answer_number, answer_value};
ghost use Rattle.beside.specs.Fill.{Pushes, Writes, encoded_answer, encoded_area, pushed_list};

use crate::answer::answer;
use crate::columns::Compared;
use crate::number::{Numbered, Numbers, all_within};
use area::fault::{Fault, Refusal};
use boolean::bools::Bools;
use column::element::Value;
use column::kind::{AsBytes, Column, Index, Kind};
use column::run::Run;
use indexed::encode as encode_image;
use offsets::strides::Strides;
use read::form::FromBytes;
use stash::convert::ConvertFault;
use stash::stash::{Stash, fill};
use std::marker::PhantomData;
use storage::store::{ByteArea, Store, WordArea};
use storage::write::Full;
use tuple::empties::Empties;

// A column that is given the elements that numbers stand for. A number that stands for no element is refused with 12 as an element that
// is not taken, and before any is pushed.
fn filled<E: Numbered, C: Column<Elem = E> + Drop>(column: C, numbers: &[u64]) -> Result<C, Fault>
    ensures { Pushes C.Column E.Numbered.most E.Numbered.element column numbers.now result }
{
    if !all_within(numbers, E::most()) {
        return Err(Fault::at_start(Refusal::NotTaken));
    }
    let source: Numbers<E> = Numbers {
        numbers,
        of: PhantomData,
    };
    fill(column, &source)
}

// The same, and then the column's image over the start of an area: how many words it has. A refusal leaves the area.
fn encoded<E: Numbered, C: Column<Elem = E> + Drop>(
    column: C,
    numbers: &[u64],
    area: &mut [u64],
) -> Result<usize, Fault>
    ensures answer { result ≡ encoded_answer C.Kind.format (pushed_list E.Numbered.most E.Numbered.element (C.Column.takes (C.Column.areas column)) numbers.now) area.old }
    ensures after { area.new ≡ encoded_area C.Kind.format (pushed_list E.Numbered.most E.Numbered.element (C.Column.takes (C.Column.areas column)) numbers.now) area.old }
{
    encode_image(&filled::<E, C>(column, numbers)?, area, 0)
}

// The same for a column that lives in the lent cells: `bytes` for a run of bytes, `cells` for any other.
fn encoded_in(
    column: Compared,
    numbers: &[u64],
    cells: &mut [u64],
    bytes: &mut [u8],
    area: &mut [u64],
) -> Result<usize, Fault>
    ensures answer { result ≡ column_encoded column numbers.now (length cells.old) (length bytes.old) area.old }
    ensures after { area.new ≡ column_area column numbers.now (length cells.old) (length bytes.old) area.old }
{
    match column {
        Compared::WordRun => encoded(Run::new(cells), numbers, area),
        Compared::ByteRun => encoded(Run::new(bytes), numbers, area),
        Compared::Strides => encoded(Strides::new(Run::new(cells)), numbers, area),
        Compared::WordMarks => encoded(Bools::new(Run::new(cells)), numbers, area),
        Compared::StrideMarks => encoded(Bools::new(Strides::new(Run::new(cells))), numbers, area),
        Compared::Empties => encoded(Empties::new(), numbers, area),
    }
}

// The same for the column of a number, which is asked for first.
fn encoded_numbered(
    column: u32,
    numbers: &[u64],
    cells: &mut [u64],
    bytes: &mut [u8],
    area: &mut [u64],
) -> Result<usize, Fault>
    ensures answer { result ≡ numbered_encoded column numbers.now (length cells.old) (length bytes.old) area.old }
    ensures after { area.new ≡ numbered_area column numbers.now (length cells.old) (length bytes.old) area.old }
{
    encoded_in(Compared::try_from(column)?, numbers, cells, bytes, area)
}

// The same as C is answered: 0 and the image's length in words, or else the number of the refusal, which leaves `words`.
pub fn encode(
    column: u32,
    numbers: &[u64],
    cells: &mut [u64],
    bytes: &mut [u8],
    area: &mut [u64],
    words: &mut usize,
) -> u32
    ensures answer { result ≡ answer_number (numbered_encoded column numbers.now (length cells.old) (length bytes.old) area.old) }
    ensures words { words.new ≡ answer_value (numbered_encoded column numbers.now (length cells.old) (length bytes.old) area.old) words.old }
    ensures after { area.new ≡ numbered_area column numbers.now (length cells.old) (length bytes.old) area.old }
{
    answer(encoded_numbered(column, numbers, cells, bytes, area), words)
}

// The same elements in a column, and then its image piece by piece over the start of a byte area: how many bytes it has.
fn written<E: Numbered, C: Column<Elem = E> + FromBytes + Drop>(
    column: C,
    numbers: &[u64],
    area: &mut [u8],
) -> Result<usize, ConvertFault<Full>>
    ensures { Writes C.Kind.format (pushed_list E.Numbered.most E.Numbered.element (C.Column.takes (C.Column.areas column)) numbers.now) area.old area.new result }
{
    let table: Stash<C, ByteArea, WordArea> = Stash::Typed(filled::<E, C>(column, numbers)?);
    Ok(table.reload(area)?)
}

// The same for a column that lives in the lent cells.
fn written_in(
    column: Compared,
    numbers: &[u64],
    cells: &mut [u64],
    bytes: &mut [u8],
    area: &mut [u8],
) -> Result<usize, ConvertFault<Full>>
    ensures { ColumnWrites column numbers.now (length cells.old) (length bytes.old) area.old area.new result }
{
    match column {
        Compared::WordRun => written(Run::new(cells), numbers, area),
        Compared::ByteRun => written(Run::new(bytes), numbers, area),
        Compared::Strides => written(Strides::new(Run::new(cells)), numbers, area),
        Compared::WordMarks => written(Bools::new(Run::new(cells)), numbers, area),
        Compared::StrideMarks => written(Bools::new(Strides::new(Run::new(cells))), numbers, area),
        Compared::Empties => written(Empties::new(), numbers, area),
    }
}

// The same for the column of a number.
fn written_numbered(
    column: u32,
    numbers: &[u64],
    cells: &mut [u64],
    bytes: &mut [u8],
    area: &mut [u8],
) -> Result<usize, ConvertFault<Full>>
    ensures { NumberedWrites column numbers.now (length cells.old) (length bytes.old) area.old area.new result }
{
    let column = Compared::try_from(column)?;
    written_in(column, numbers, cells, bytes, area)
}

// The same as C is answered: 0 and the image's length in bytes, or else the number of the refusal, which leaves `taken`.
pub fn write(
    column: u32,
    numbers: &[u64],
    cells: &mut [u64],
    bytes: &mut [u8],
    area: &mut [u8],
    taken: &mut usize,
) -> u32
    ensures { AnswersWrite column numbers.now (length cells.old) (length bytes.old) area.old area.new taken.old taken.new result }
{
    match written_numbered(column, numbers, cells, bytes, area) {
        Ok(count) => {
            *taken = count;
            0
        }
        Err(fault) => fault.refusal().number(),
    }
}
