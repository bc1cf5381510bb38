// The columns by number as other code asks and fills them from C.
#![tactic(auto)]

ghost use Rattle.std.specs.Prelude.{◌≡◌, length};
ghost use Rattle.column.specs.Run.{word_run};
ghost use Rattle.offsets.specs.Strides.{bounds_at, strides_format};
ghost use Rattle.boot.specs.Boot.{list_admitted};
ghost use Rattle.beside.specs.Answer.{answer_number, answer_value, asked_of, told};
ghost use Rattle.beside.specs.Columns.{AnswersConvert, AnswersWrite, numbered_area, numbered_encoded};
ghost use Rattle.beside.specs.Beside.{numbered_bits, numbered_element, numbered_length, slice_place};

use beside::{admit, convert, fill, lookup};

// 0 where the bytes are admitted for the column, and then how long their list is, or else the number of the refusal.
#[unsafe(no_mangle)]
pub extern "C" fn beside_admit(column: u32, image: &[u8], elements: &mut usize) -> u32
    ensures answer { result ≡ answer_number (numbered_length column image.now) }
    ensures after { elements.new ≡ answer_value (numbered_length column image.now) elements.old }
{
    admit::admit(column, image, elements)
}

// 0 and the element at a place of that list, or else the number of the refusal.
#[unsafe(no_mangle)]
pub extern "C" fn beside_element(column: u32, image: &[u8], place: usize, element: &mut u64) -> u32
    ensures answer { result ≡ answer_number (numbered_element column image.now place) }
    ensures after { element.new ≡ answer_value (numbered_element column image.now place) element.old }
{
    lookup::element(column, image, place, element)
}

// 0 and a range of its marks as a number, or else the number of the refusal.
#[unsafe(no_mangle)]
pub extern "C" fn beside_bits(
    column: u32,
    image: &[u8],
    place: usize,
    count: usize,
    bits: &mut u64,
) -> u32
    ensures answer { result ≡ answer_number (numbered_bits column image.now place count) }
    ensures after { bits.new ≡ answer_value (numbered_bits column image.now place count) bits.old }
{
    lookup::bits(column, image, place, count, bits)
}

// 0 and the bounds of a block of strides, or else the number of the refusal.
#[unsafe(no_mangle)]
pub extern "C" fn beside_bounds(image: &[u8], block: usize, lower: &mut u64, upper: &mut u64) -> u32
    ensures answer { result ≡ answer_number (asked_of (list_admitted (strides_format word_run) image.now) (λ xs. bounds_at xs block)) }
    ensures lower { lower.new ≡ answer_value (told (λ p. p.0) (asked_of (list_admitted (strides_format word_run) image.now) (λ xs. bounds_at xs block))) lower.old }
    ensures upper { upper.new ≡ answer_value (told (λ p. p.1) (asked_of (list_admitted (strides_format word_run) image.now) (λ xs. bounds_at xs block))) upper.old }
{
    lookup::bounds(image, block, lower, upper)
}

// 0, where a slice stands in the bytes, and how many bytes it has, or else the number of the refusal.
#[unsafe(no_mangle)]
pub extern "C" fn beside_slice(image: &[u8], k: usize, from: &mut usize, bytes: &mut usize) -> u32
    ensures answer { result ≡ answer_number (slice_place image.now k) }
    ensures from { from.new ≡ answer_value (told (λ p. p.0) (slice_place image.now k)) from.old }
    ensures bytes { bytes.new ≡ answer_value (told (λ p. p.1) (slice_place image.now k)) bytes.old }
{
    lookup::slice(image, k, from, bytes)
}

// 0 where a column in the lent cells takes the elements that numbers stand for, and its image fits into the start of `area`, and
// then how many words it has, or else the number of the refusal.
#[unsafe(no_mangle)]
pub extern "C" fn beside_encode(
    column: u32,
    elements: &[u64],
    cells: &mut [u64],
    bytes: &mut [u8],
    area: &mut [u64],
    words: &mut usize,
) -> u32
    ensures answer { result ≡ answer_number (numbered_encoded column elements.now (length cells.old) (length bytes.old) area.old) }
    ensures words { words.new ≡ answer_value (numbered_encoded column elements.now (length cells.old) (length bytes.old) area.old) words.old }
    ensures after { area.new ≡ numbered_area column elements.now (length cells.old) (length bytes.old) area.old }
{
    fill::encode(column, elements, cells, bytes, area, words)
}

// The same with the image written to a byte area piece by piece, and its length in bytes.
#[unsafe(no_mangle)]
pub extern "C" fn beside_write(
    column: u32,
    elements: &[u64],
    cells: &mut [u64],
    bytes: &mut [u8],
    area: &mut [u8],
    taken: &mut usize,
) -> u32
    ensures { AnswersWrite column elements.now (length cells.old) (length bytes.old) area.old area.new taken.old taken.new result }
{
    fill::write(column, elements, cells, bytes, area, taken)
}

// 0 where the image is admitted for the column and converted into the start of `area`, and then how many bytes were written, or
// else the number of the refusal.
#[unsafe(no_mangle)]
pub extern "C" fn beside_convert(
    column: u32,
    image: &[u8],
    cells: &mut [u64],
    bytes: &mut [u8],
    area: &mut [u8],
    taken: &mut usize,
) -> u32
    ensures { AnswersConvert column image.now (length cells.old) (length bytes.old) area.old area.new taken.old taken.new result }
{
    convert::convert(column, image, cells, bytes, area, taken)
}
