// A recorded answer: a name, and fields with one space between.
use std::alloc::{AllocError, Global};

#[derive(Drop)]
pub(crate) struct Line<'a> {
    fields: Vec<&'a str>,
}

// The number that two hexadecimal digits write.
fn digit(c: u8) -> Option<u8> {
    match c {
        b'0'..=b'9' => Some(c - b'0'),
        b'a'..=b'f' => Some(c - b'a' + 10),
        _ => None,
    }
}

impl<'a> Line<'a> {
    pub(crate) fn read(heap: Global, text: &'a str) -> Result<Line<'a>, AllocError> {
        let mut fields = Vec::new(heap);
        for field in text.split_whitespace() {
            fields.push(field)?;
        }
        Ok(Line { fields })
    }

    fn field(&self, k: usize) -> &'a str {
        self.fields.get(k).copied().unwrap_or("")
    }

    pub(crate) fn name(&self) -> &'a str {
        self.field(0)
    }

    pub(crate) fn number(&self, k: usize) -> Option<u64> {
        self.field(k).parse::<u64>().ok()
    }

    // A list of numbers with commas between; `-` is the empty one.
    pub(crate) fn numbers(&self, heap: Global, k: usize) -> Result<Option<Vec<u64>>, AllocError> {
        let mut numbers = Vec::new(heap);
        if self.field(k) == "-" {
            return Ok(Some(numbers));
        }
        for word in self.field(k).split(',') {
            match word.parse::<u64>() {
                Ok(n) => numbers.push(n)?,
                Err(_) => return Ok(None),
            }
        }
        Ok(Some(numbers))
    }

    // Bytes in hexadecimal digits, two a byte; `-` is none.
    pub(crate) fn bytes(&self, heap: Global, k: usize) -> Result<Option<Vec<u8>>, AllocError> {
        let mut bytes = Vec::new(heap);
        if self.field(k) == "-" {
            return Ok(Some(bytes));
        }
        for pair in self.field(k).as_bytes().chunks(2) {
            let &[high, low] = pair else {
                return Ok(None);
            };
            let (Some(high), Some(low)) = (digit(high), digit(low)) else {
                return Ok(None);
            };
            bytes.push(high << 4 | low)?;
        }
        Ok(Some(bytes))
    }
}
