// An image, admitted and converted in lent cells.
ghost use Rattle.std.specs.Prelude.{◌≡◌, length};
ghost use Rattle.beside.specs.Columns.{AnswersConvert, ColumnConverts, NumberedConverts};

use crate::columns::Compared;
use boolean::bools::Bools;
use boot::convert::{Done, converted};
use column::run::Run;
use offsets::strides::Strides;
use stash::convert::ConvertFault;
use storage::write::Full;
use tuple::empties::Empties;

// Admits an image for a column, fills it with the list, and writes the image of that over the start of `area`. A run of bytes
// lives in `bytes`, any other column in `cells`.
fn converted_in(
    column: Compared,
    image: &[u8],
    cells: &mut [u64],
    bytes: &mut [u8],
    area: &mut [u8],
) -> Result<Done, ConvertFault<Full>>
    ensures { ColumnConverts column image.now (length cells.old) (length bytes.old) area.old area.new result }
{
    match column {
        Compared::WordRun => converted(image, Run::new(cells), area),
        Compared::ByteRun => converted(image, Run::new(bytes), area),
        Compared::Strides => converted(image, Strides::new(Run::new(cells)), area),
        Compared::WordMarks => converted(image, Bools::new(Run::new(cells)), area),
        Compared::StrideMarks => converted(image, Bools::new(Strides::new(Run::new(cells))), area),
        Compared::Empties => converted(image, Empties::new(), area),
    }
}

// The same for the column of a number, which is asked for first.
fn converted_numbered(
    column: u32,
    image: &[u8],
    cells: &mut [u64],
    bytes: &mut [u8],
    area: &mut [u8],
) -> Result<Done, ConvertFault<Full>>
    ensures { NumberedConverts column image.now (length cells.old) (length bytes.old) area.old area.new result }
{
    let column = Compared::try_from(column)?;
    converted_in(column, image, cells, bytes, area)
}

// The same as C is answered: 0 and the image's length in bytes, or else the number of the refusal, which leaves `taken`.
pub fn convert(
    column: u32,
    image: &[u8],
    cells: &mut [u64],
    bytes: &mut [u8],
    area: &mut [u8],
    taken: &mut usize,
) -> u32
    ensures { AnswersConvert column image.now (length cells.old) (length bytes.old) area.old area.new taken.old taken.new result }
{
    match converted_numbered(column, image, cells, bytes, area) {
        Ok(done) => {
            *taken = done.bytes;
            0
        }
        Err(fault) => fault.refusal().number(),
    }
}
