// Records: what the program `tables` reads, a kind byte and then a body of fixed length.
ghost use Rattle.std.specs.Prelude.{◌≡◌, ◌+◌, ◌^◌, ◌<◌, length, drop};
ghost use Rattle.std.specs.Iterator.{YieldsFirst, item_count};
ghost use Rattle.card.specs.Records.{answers, push_of, record_answer, record_of, records, size_of};

use area::fault::{Fault, Refusal};
use area::words::join;

// A call that a record stands for, at a table whose elements are E.
#[derive(Clone, Copy)]
pub enum Record<E> {
    Push(E),
    Clear,
    Image,
}

// An element of a block table: the block's end, whether it is bad, and its wear class.
pub type Block = (u64, (bool, u8));

impl Record<Block> {
    // The length in bytes, the kind byte included: by a match, since each record has its own.
    pub fn size(&self) -> usize
        ensures { result ≡ size_of self.now }
    {
        match self {
            Record::Push(_) => 11,
            Record::Clear | Record::Image => 1,
        }
    }
}

// The record that bytes begin with; none where the kind is unknown, the body is cut off, or the bad byte is neither 0
// nor 1.
fn first_record(bytes: &[u8]) -> Option<Record<Block>>
    ensures { result ≡ record_of bytes.now }
{
    match bytes {
        [1, body @ ..] => push_record(body),
        [2, ..] => Some(Record::Clear),
        [3, ..] => Some(Record::Image),
        _ => None,
    }
}

// The record that stands at place `at` of an input, as an answer: 17 carries which record of the input this is.
pub fn read_record(input: &[u8], at: usize, count: usize) -> Result<Record<Block>, Fault>
    ensures { result ≡ record_answer (record_of (drop at input.now)) count }
{
    let record = match input.get(at..) {
        Some(bytes) => first_record(bytes),
        None => None,
    };
    record.ok_or(Fault::at(Refusal::UnknownRecord, count))
}

// The push that a body begins with: eight bytes of end, the bad byte and the wear byte.
fn push_record(body: &[u8]) -> Option<Record<Block>>
    ensures { result ≡ push_of body.now }
{
    let end = join(body, 0)?;
    let [bad, wear] = *body.get(8..)?.first_chunk::<2>()?;
    if bad > 1 {
        return None;
    }
    Some(Record::Push((end, (bad == 1, wear))))
}

// The records of an input, one after the other: those of `rest`, after `read` others. What is no record is refused with 17,
// which carries the number of the record, and ends the reading.
#[derive(Drop)]
pub struct Records<'a> {
    pub rest: &'a [u8],
    pub read: usize,
    pub ghost counted: { read + length rest.now < 2 ^ 64 },
}

impl<'a> Records<'a> {
    pub fn new(input: &'a [u8]) -> Records<'a>
        ensures { (result.rest.now ≡ input.now) × (result.read ≡ 0) }
    {
        Records {
            rest: input,
            read: 0,
        }
    }
}

impl<'a> Iterator for Records<'a> {
    type Item = Result<Record<Block>, Fault>;

    ghost next_gives = { YieldsFirst (λ s. answers s.read (records s.rest.now)) };

    ghost remaining = { item_count (λ s. answers s.read (records s.rest.now)) };

    fn next(&mut self) -> Option<Result<Record<Block>, Fault>> {
        if self.rest.is_empty() {
            return None;
        }
        let Some(record) = first_record(self.rest) else {
            self.rest = &[];
            return Some(Err(Fault::at(Refusal::UnknownRecord, self.read)));
        };
        self.rest = &self.rest[record.size()..];
        self.read += 1;
        Some(Ok(record))
    }
}
