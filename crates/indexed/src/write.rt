// Writing an image to a sink, piece by piece: each index word, then slice by slice each word, the last cut, and any
// zero padding.
ghost use Rattle.std.specs.Prelude.{◌≡◌, ◌<◌, ◌≤◌, [], ◌∷◌, map, length, Ok, Some};
ghost use Rattle.std.specs.List.{flat_map, AllByRecursion};
ghost use Rattle.area.specs.Fault.{refusal_text};
ghost use Rattle.area.specs.Digits.{digits, chunks};
ghost use Rattle.area.specs.Slice.{WellFormed, words_for, contents};
ghost use Rattle.column.specs.Column.{slice_length};
ghost use Rattle.column.specs.Kind.{CAP, slot};
ghost use Rattle.indexed.specs.Gives.{Gives};
ghost use Rattle.indexed.specs.Image.{image, index};
ghost use Rattle.indexed.specs.Pieces.{Given, Written, refusal_of, slice_pieces};
ghost use Rattle.indexed.specs.declared.write.WriteFault.TheVariants.{TooLong};

use crate::{Imaged, length_in_words};
use area::fault::{Fault, Refusal};
use column::kind::AsBytes;
use std::fmt;
use storage::store::Store;
use storage::write::WriteBytes;

// A refused write: 15 before the first piece, or 14 with the number of the piece, from 0, and the sink's own fault.
#[derive(Clone, Copy, PartialEq, Eq, Debug)]
pub enum WriteFault<F> {
    TooLong(Fault),
    Full(Fault, F),
}

impl<F> From<Fault> for WriteFault<F> {
    ghost from_gives = { λ fault refused. refused ≡ TooLong fault };

    fn from(fault: Fault) -> WriteFault<F> {
        WriteFault::TooLong(fault)
    }
}

// The refusal that it carries, whichever case carries it, as the programs print it.
impl<F> fmt::Display for WriteFault<F> {
    ghost output = { λ refused. Some (refusal_text (refusal_of refused)) };

    fn fmt<W: fmt::Write>(&self, f: &mut fmt::Formatter<W>) -> fmt::Result {
        match self {
            WriteFault::TooLong(fault) | WriteFault::Full(fault, _) => write!(f, "{fault}"),
        }
    }
}

// A sink that is lent, and how many pieces it was given.
#[derive(Drop)]
struct Counted<'w, W> {
    sink: &'w mut W,
    piece: usize,
}

impl<'w, W: WriteBytes> Counted<'w, W> {
    // Gives one piece, and counts it.
    fn give(&mut self, bytes: &[u8]) -> Result<(), WriteFault<W::Error>>
        ensures { Gives W.WriteBytes (bytes.now ∷ []) self.old self.new result }
    {
        let refused = Fault::at(Refusal::NoRoom, self.piece);
        self.sink
            .write_all(bytes)
            .map_err(|fault| WriteFault::Full(refused, fault))?;
        self.piece = self.piece.saturating_add(1);
        Ok(())
    }
}

impl<'a, A: AsBytes> Imaged<'a, A> {
    // Gives the words of the index. A sink answers at each piece and an area does not, so the loop stands for each, and the
    // step of both in `next_end`.
    fn give_index<W: WriteBytes>(
        &self,
        out: &mut Counted<'_, W>,
    ) -> Result<(), WriteFault<W::Error>>
        ensures { Gives W.WriteBytes (map (digits 256 8) (index (A.AsBytes.slices self.now.item.now))) out.old out.new result }
    {
        let count = self.item.slices();
        let mut end = 8 * (1 + count);
        out.give(&(end as u64).to_le_bytes())?;
        for k in 0..count {
            end = self.next_end(k, end)?;
            out.give(&(end as u64).to_le_bytes())?;
        }
        Ok(())
    }

    // Gives the words of slice `k`, the last cut, and any padding.
    fn give_slice<W: WriteBytes>(
        &self,
        k: usize,
        out: &mut Counted<'_, W>,
    ) -> Result<(), WriteFault<W::Error>>
        requires { k < length (A.AsBytes.slices self.now.item.now) }
        ensures { Gives W.WriteBytes (slice_pieces (slot (A.AsBytes.slices self.now.item.now) k)) out.old out.new result }
    {
        let bytes = self.item.slice_len(k)?;
        self.give_words(k, bytes, out)?;
        let cut = bytes % 8;
        if cut == 0 {
            return Ok(());
        }
        let zeros = [0u8; 8];
        out.give(&zeros[cut..])
    }

    // Gives the words of slice `k`, of `bytes` bytes, the last cut.
    fn give_words<W: WriteBytes>(
        &self,
        k: usize,
        bytes: usize,
        out: &mut Counted<'_, W>,
    ) -> Result<(), WriteFault<W::Error>>
        requires { slice_length (A.AsBytes.slices self.now.item.now) k ≡ Ok bytes }
        ensures { Gives W.WriteBytes (chunks 8 (words_for (slot (A.AsBytes.slices self.now.item.now) k).bytes) (contents (slot (A.AsBytes.slices self.now.item.now) k))) out.old out.new result }
    {
        for i in 0..bytes.div_ceil(8) {
            let word = self.item.slice_word(k, i)?.to_le_bytes();
            let left = bytes - 8 * i;
            out.give(&word[..left.min(8)])?;
        }
        Ok(())
    }

    // Gives the slices. As of the index, a loop that stops where the sink refuses, and for an area one that does not.
    fn give_slices<W: WriteBytes>(
        &self,
        out: &mut Counted<'_, W>,
    ) -> Result<(), WriteFault<W::Error>>
        ensures { Gives W.WriteBytes (flat_map slice_pieces (A.AsBytes.slices self.now.item.now)) out.old out.new result }
    {
        for k in 0..self.item.slices() {
            self.give_slice(k, out)?;
        }
        Ok(())
    }
}

// Gives `sink` the image of `item`. A refusal leaves the pieces before the refused one.
pub fn write<A: AsBytes, W: WriteBytes>(item: &A, sink: &mut W) -> Result<(), WriteFault<W::Error>>
    ensures { Written W.WriteBytes (A.AsBytes.slices item.now) sink.old sink.new result }
{
    length_in_words(item)?;
    let imaged = Imaged { item };
    let mut out = Counted { sink, piece: 0 };
    imaged.give_index(&mut out)?;
    imaged.give_slices(&mut out)
}

// Gives `sink` the words of a store one by one. A refusal leaves the words before the refused one.
pub fn write_store<S: Store, W: WriteBytes>(
    store: &S,
    sink: &mut W,
) -> Result<(), WriteFault<W::Error>>
    ensures { Given W.WriteBytes (map (digits 256 8) (S.Store.words store.now)) sink.old sink.new result }
{
    let mut out = Counted { sink, piece: 0 };
    for i in 0..store.count() {
        // never absent: the count says that it is there
        let Some(word) = store.word(i) else {
            return Ok(());
        };
        out.give(&word.to_le_bytes())?;
    }
    Ok(())
}
