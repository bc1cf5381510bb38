// The lines of a script: a call's name, and numbers.
ghost use Rattle.std.specs.Prelude.{◌≡◌};

use kinds::kinds::CardKind;
use std::alloc::{AllocError, Global};

// A line that has words, with its number from 0 in the script. What is no number ends them.
#[derive(Drop)]
pub(crate) struct Line<'a> {
    number: usize,
    name: &'a str,
    numbers: Vec<u64>,
}

// A number in decimal digits, or after 0x in hexadecimal ones.
fn number(word: &str) -> Option<u64> {
    match word.strip_prefix("0x") {
        Some(digits) => u64::from_str_radix(digits, 16).ok(),
        None => word.parse::<u64>().ok(),
    }
}

impl<'a> Line<'a> {
    // None for a line without words, or one that `#` begins. A word that is no number makes the call one of no name.
    fn read(heap: Global, number_of: usize, text: &'a str) -> Result<Option<Line<'a>>, AllocError> {
        let mut words = text.split_whitespace();
        let Some(name) = words.next() else {
            return Ok(None);
        };
        if name.starts_with("#") {
            return Ok(None);
        }
        let mut line = Line {
            number: number_of,
            name,
            numbers: Vec::new(heap),
        };
        for word in words {
            match number(word) {
                Some(n) => line.numbers.push(n)?,
                None => line.name = "",
            }
        }
        Ok(Some(line))
    }

    // The lines of a script.
    pub(crate) fn all(heap: Global, script: &'a str) -> Result<Vec<Line<'a>>, AllocError> {
        let mut lines = Vec::new(heap);
        for (k, text) in script.lines().enumerate() {
            if let Some(line) = Line::read(heap, k, text)? {
                lines.push(line)?;
            }
        }
        Ok(lines)
    }

    pub(crate) fn number(&self) -> usize
        ensures { result ≡ self.now.number }
    {
        self.number
    }

    pub(crate) fn name(&self) -> &'a str
        ensures { result ≡ self.now.name }
    {
        self.name
    }

    pub(crate) fn numbers(&self) -> &[u64] {
        &self.numbers
    }

    // The kind of the table that the line begins, and the sizes of its column's areas; none where it begins none.
    pub(crate) fn table(&self) -> Option<(CardKind, &[u64])> {
        if self.name != "kind" {
            return None;
        }
        let (kind, sizes) = self.numbers.split_first()?;
        let kind = CardKind::try_from(u32::try_from(*kind).ok()?).ok()?;
        Some((kind, sizes))
    }
}
