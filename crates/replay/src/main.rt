// Compares recorded answers of the crate, a line each on standard input, with the answers here. Prints each line that differs and
// how many there were.
#![tactic(auto)]

mod line;

use beside::admit::admit;
use beside::convert::convert;
use beside::fill::{encode, write};
use beside::lookup::{bits, bounds, element, slice};
use line::Line;
use std::alloc::{AllocError, Global};
use std::io::{BufWriter, Read, Write};
use std::process::ExitCode;

// Cells that a column is lent; its image is no longer.
const CELLS: usize = 4096;

// Whether an image is admitted as recorded (0) with a list of this length, or refused (1).
fn admits(column: u32, image: &[u8], refused: u64, length: u64) -> bool {
    let mut elements = 0;
    let answer = admit(column, image, &mut elements);
    if answer == 0 {
        refused == 0 && elements as u64 == length
    } else {
        refused != 0
    }
}

// Whether words are these bytes.
fn same_words(words: &[u64], bytes: &[u8]) -> bool {
    bytes.len() / 8 == words.len()
        && bytes.len() % 8 == 0
        && bytes
            .chunks_exact(8)
            .zip(words)
            .all(|(part, word)| part == word.to_le_bytes().as_slice())
}

// Whether the image of a column that is given these elements is the one recorded, encoded and written.
fn makes(column: u32, numbers: &[u64], image: &[u8]) -> bool {
    let mut cells = [0u64; CELLS];
    let mut bytes = [0u8; CELLS];
    let mut words = [0u64; CELLS];
    let mut area = [0u8; CELLS];
    let mut count = 0;
    let mut taken = 0;
    if encode(
        column, numbers, &mut cells, &mut bytes, &mut words, &mut count,
    ) != 0
        || write(
            column, numbers, &mut cells, &mut bytes, &mut area, &mut taken,
        ) != 0
    {
        return false;
    }
    words
        .get(..count)
        .is_some_and(|encoded| same_words(encoded, image))
        && area.get(..taken).is_some_and(|written| written == image)
}

// Whether a stored image is converted into the one recorded.
fn converts(column: u32, stored: &[u8], image: &[u8]) -> bool {
    let mut cells = [0u64; CELLS];
    let mut bytes = [0u8; CELLS];
    let mut area = [0u8; CELLS];
    let mut taken = 0;
    convert(
        column, stored, &mut cells, &mut bytes, &mut area, &mut taken,
    ) == 0
        && area.get(..taken).is_some_and(|written| written == image)
}

// Whether a line's answer is the one here; none where it is no recorded answer.
fn holds(heap: Global, line: &Line) -> Result<Option<bool>, AllocError> {
    let column = u32::try_from(line.number(1).unwrap_or(0)).unwrap_or(0);
    let held = match line.name() {
        "admit" => match (line.bytes(heap, 2)?, line.number(3), line.number(4)) {
            (Some(image), Some(refused), Some(length)) => {
                Some(admits(column, &image, refused, length))
            }
            _ => None,
        },
        "element" => match (line.bytes(heap, 2)?, line.number(3), line.number(4)) {
            (Some(image), Some(place), Some(value)) => {
                let mut found = 0;
                Some(element(column, &image, place as usize, &mut found) == 0 && found == value)
            }
            _ => None,
        },
        "bits" => bits_hold(heap, column, line)?,
        "bounds" => bounds_hold(heap, line)?,
        "slice" => slice_holds(heap, line)?,
        "encode" => match (line.numbers(heap, 2)?, line.bytes(heap, 3)?) {
            (Some(numbers), Some(image)) => Some(makes(column, &numbers, &image)),
            _ => None,
        },
        "convert" => match (line.bytes(heap, 2)?, line.bytes(heap, 3)?) {
            (Some(stored), Some(image)) => Some(converts(column, &stored, &image)),
            _ => None,
        },
        _ => None,
    };
    Ok(held)
}

fn bits_hold(heap: Global, column: u32, line: &Line) -> Result<Option<bool>, AllocError> {
    let (Some(image), Some(place), Some(count), Some(value)) = (
        line.bytes(heap, 2)?,
        line.number(3),
        line.number(4),
        line.number(5),
    ) else {
        return Ok(None);
    };
    let mut found = 0;
    let answer = bits(column, &image, place as usize, count as usize, &mut found);
    Ok(Some(answer == 0 && found == value))
}

fn bounds_hold(heap: Global, line: &Line) -> Result<Option<bool>, AllocError> {
    let (Some(image), Some(block), Some(lower), Some(upper)) = (
        line.bytes(heap, 1)?,
        line.number(2),
        line.number(3),
        line.number(4),
    ) else {
        return Ok(None);
    };
    let mut first = 0;
    let mut second = 0;
    let answer = bounds(&image, block as usize, &mut first, &mut second);
    Ok(Some(answer == 0 && first == lower && second == upper))
}

fn slice_holds(heap: Global, line: &Line) -> Result<Option<bool>, AllocError> {
    let (Some(image), Some(k), Some(from), Some(count)) = (
        line.bytes(heap, 1)?,
        line.number(2),
        line.number(3),
        line.number(4),
    ) else {
        return Ok(None);
    };
    let mut start = 0;
    let mut bytes = 0;
    let answer = slice(&image, k as usize, &mut start, &mut bytes);
    Ok(Some(answer == 0 && start as u64 == from && bytes as u64 == count))
}

fn main(rt: HostRuntime) -> anyhow::Result<ExitCode> {
    let heap = rt.alloc();
    let mut recorded = String::new(heap);
    rt.stdin().read_to_string(&mut recorded)?;
    let mut out = BufWriter::new(heap, rt.stdout())?;
    let mut alike = 0usize;
    let mut others = 0usize;
    for text in recorded.lines() {
        match holds(heap, &Line::read(heap, text)?)? {
            Some(true) => alike = alike.saturating_add(1),
            Some(false) => {
                others = others.saturating_add(1);
                writeln!(out, "differs: {text}")?;
            }
            None => {
                others = others.saturating_add(1);
                writeln!(out, "no recorded answer: {text}")?;
            }
        }
    }
    writeln!(out, "{alike} answers as recorded, {others} others")?;
    out.flush()?;
    Ok(if others == 0 {
        ExitCode::SUCCESS
    } else {
        ExitCode::from(1)
    })
}
