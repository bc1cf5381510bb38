// Images: an index of byte offsets, and then the words of each slice.
#![tactic(auto)]

ghost use Rattle.std.specs.Prelude.{◌≡◌, ◌+◌, ◌<◌, ◌≤◌, length, Ok, slice_index};
ghost use Rattle.std.proofs.Math.Seq.{paste};
ghost use Rattle.column.specs.Kind.{CAP, slot};
ghost use Rattle.indexed.specs.Image.{image, index, words_of, word_length_answer, byte_length_answer, encode_answer, encoded};

pub mod write;

use area::fault::{Fault, Refusal};
use column::kind::{AsBytes, MAX_WORDS};

// How many words the image of `item` has; 15 past 536,870,911.
pub fn length_in_words<A: AsBytes>(item: &A) -> Result<usize, Fault>
    ensures { result ≡ word_length_answer (A.AsBytes.slices item.now) }
{
    let count = item.slices();
    if count >= MAX_WORDS {
        return Err(Fault::at_start(Refusal::ImageTooLong));
    }
    let mut total = 1 + count;
    for k in 0..count {
        let words = item.slice_len(k)?.div_ceil(8);
        if words > MAX_WORDS - total {
            return Err(Fault::at_start(Refusal::ImageTooLong));
        }
        total += words;
    }
    Ok(total)
}

// The same in bytes.
pub fn length_in_bytes<A: AsBytes>(item: &A) -> Result<usize, Fault>
    ensures { result ≡ byte_length_answer (A.AsBytes.slices item.now) }
{
    Ok(8 * length_in_words(item)?)
}

// What gives slices that have an image, since they are not too many words for one.
#[derive(Drop)]
pub(crate) struct Imaged<'a, A: AsBytes> {
    item: &'a A,
    ghost short: { length (image (A.AsBytes.slices item.now)) ≤ CAP },
}

impl<'a, A: AsBytes> Imaged<'a, A> {
    // The index word after word `k`, which is `end`: slice `k` starts at the next whole word.
    fn next_end(&self, k: usize, end: usize) -> Result<usize, Fault>
        requires there { k < length (A.AsBytes.slices self.now.item.now) }
        requires this { end ≡ slice_index (index (A.AsBytes.slices self.now.item.now)) k }
        ensures { result ≡ Ok (slice_index (index (A.AsBytes.slices self.now.item.now)) (k + 1)) }
    {
        Ok(end.next_multiple_of(8) + self.item.slice_len(k)?)
    }

    // Writes the index over the front of `part`: word `k` + 1 is the end of slice `k`, so the number serves both.
    fn write_index(&self, part: &mut [u64]) -> Result<(), Fault>
        requires room { length (image (A.AsBytes.slices self.now.item.now)) ≤ length part.old }
        ensures answer { result ≡ Ok tt }
        ensures after { part.new ≡ paste part.old 0 (index (A.AsBytes.slices self.now.item.now)) (length (index (A.AsBytes.slices self.now.item.now))) }
    {
        let count = self.item.slices();
        let mut end = 8 * (1 + count);
        part[0] = end as u64;
        for k in 0..count {
            end = self.next_end(k, end)?;
            part[k + 1] = end as u64;
        }
        Ok(())
    }

    // Writes the words of slice `k` over `part`, which has room for just these.
    fn write_slice(&self, k: usize, part: &mut [u64]) -> Result<(), Fault>
        requires there { k < length (A.AsBytes.slices self.now.item.now) }
        requires room { length part.old ≡ length (slot (A.AsBytes.slices self.now.item.now) k).words }
        ensures answer { result ≡ Ok tt }
        ensures after { part.new ≡ (slot (A.AsBytes.slices self.now.item.now) k).words }
    {
        // By index: of a slice that `iter_mut` went over, a proof knows the length alone.
        for i in 0..part.len() {
            part[i] = self.item.slice_word(k, i)?;
        }
        Ok(())
    }

    // Writes the words of every slice over `part` from place `at` on, where the index ends. A sink's loop is another: it may
    // stop in the middle of a slice.
    fn write_slices(&self, part: &mut [u64], at: usize) -> Result<(), Fault>
        requires room { at + length (words_of (A.AsBytes.slices self.now.item.now)) ≤ length part.old }
        ensures answer { result ≡ Ok tt }
        ensures after { part.new ≡ paste part.old at (words_of (A.AsBytes.slices self.now.item.now)) (length (words_of (A.AsBytes.slices self.now.item.now))) }
    {
        let mut place = at;
        for k in 0..self.item.slices() {
            let words = self.item.slice_len(k)?.div_ceil(8);
            self.write_slice(k, &mut part[place..place + words])?;
            place += words;
        }
        Ok(())
    }
}

// Writes the image of `item` over `area` from `place` on and answers its length. 15 where there is none, 14 where it
// does not fit or `place` is past the end; then nothing is written.
pub fn encode<A: AsBytes>(item: &A, area: &mut [u64], place: usize) -> Result<usize, Fault>
    ensures answer { result ≡ encode_answer (A.AsBytes.slices item.now) area.old place }
    ensures after { area.new ≡ encoded (A.AsBytes.slices item.now) area.old place }
{
    let words = length_in_words(item)?;
    if place > area.len() || words > area.len() - place {
        return Err(Fault::at_start(Refusal::NoRoom));
    }
    let part = &mut area[place..place + words];
    let imaged = Imaged { item };
    imaged.write_index(part)?;
    imaged.write_slices(part, 1 + item.slices())?;
    Ok(words)
}
