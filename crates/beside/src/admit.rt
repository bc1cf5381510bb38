// Admission of an image for a column, and how long its list is.
ghost use Rattle.std.specs.Prelude.{◌≡◌};
ghost use Rattle.boot.specs.Boot.{list_admitted};
ghost use Rattle.kinds.specs.Kinds.{length_answer};
ghost use Rattle.beside.specs.Answer.{answer_number, answer_value};
ghost use Rattle.beside.specs.Beside.{column_length, numbered_length};

use crate::answer::answer;
use crate::columns::{ByteRun, Compared, StrideMarks, WordMarks, WordRun};
use area::fault::Fault;
use column::kind::{Index, Kind};
use offsets::strides::Strides;
use read::form::FromBytes;
use read::validate::validate;
use storage::store::{ByteArea, Store};
use tuple::empties::Empties;

// How long the list is that bytes are admitted with as an image of kind `K`.
fn admitted_len<K: FromBytes>(image: &[u8]) -> Result<usize, Fault>
    ensures { result ≡ length_answer (list_admitted K.Kind.format image.now) }
{
    Ok(validate::<K, ByteArea>(ByteArea::new(image)?)?.view().len())
}

// The same for a column: by a match, since each is a type of its own.
fn column_len(column: Compared, image: &[u8]) -> Result<usize, Fault>
    ensures { result ≡ column_length column image.now }
{
    match column {
        Compared::WordRun => admitted_len::<WordRun>(image),
        Compared::ByteRun => admitted_len::<ByteRun>(image),
        Compared::Strides => admitted_len::<Strides>(image),
        Compared::WordMarks => admitted_len::<WordMarks>(image),
        Compared::StrideMarks => admitted_len::<StrideMarks>(image),
        Compared::Empties => admitted_len::<Empties>(image),
    }
}

// The same for the column of a number, as C gives it, which is asked for before the bytes are looked at.
fn numbered_len(column: u32, image: &[u8]) -> Result<usize, Fault>
    ensures { result ≡ numbered_length column image.now }
{
    column_len(Compared::try_from(column)?, image)
}

// The same as C is answered: 0 and the length, or else the number of the refusal, which leaves `elements`.
pub fn admit(column: u32, image: &[u8], elements: &mut usize) -> u32
    ensures answer { result ≡ answer_number (numbered_length column image.now) }
    ensures after { elements.new ≡ answer_value (numbered_length column image.now) elements.old }
{
    answer(numbered_len(column, image), elements)
}
