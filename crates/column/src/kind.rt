// The interfaces: a kind fixes the format, and a column is a list of a kind in lent memory.
ghost use Rattle.std.specs.Prelude.{◌≡◌, ℕ, min, Bool, true, List, [], ◌∷◌, ◌++◌, length};
ghost use Rattle.std.specs.List.{AllByRecursion};
ghost use Rattle.area.specs.Slice.{Slice, WellFormed};
ghost use Rattle.column.specs.Kind.{Format, Laws, Held, CAP};
ghost use Rattle.column.specs.Column.{Areas, element, push_answer, pushed, side_of, slice_length, word_in_slice};

use crate::element::Value;
use area::fault::{Fault, Refusal};

// No column holds more elements.
pub const MAX_LEN: usize = 4_294_967_295;

// No image has more words.
pub const MAX_WORDS: usize = 536_870_911;

// What answers a list: its length, and the element at a place.
pub trait Index {
    type Item: Value;

    ghost list: { Self → List Self.Item };

    fn len(&self) -> usize
        ensures { result ≡ length (list self.now) };

    // The element at place `i`; 10 at or past the length.
    fn get(&self, i: usize) -> Result<Self::Item, Fault>
        ensures { result ≡ element (list self.now) i };
}

// A reference to a list is the same list.
impl<'s, I: Index> Index for &'s I {
    type Item = I::Item;

    ghost list = { λ i. I.Index.list i.now };

    fn len(&self) -> usize {
        (**self).len()
    }

    fn get(&self, i: usize) -> Result<I::Item, Fault> {
        (**self).get(i)
    }
}

// Which of two groups of slices, one after the other, a slice is of, with its number there.
#[derive(Clone, Copy)]
pub enum Side {
    First(usize),
    Second(usize),
}

impl Side {
    // The side that slice `k` is of, where the first has `n` slices and the second `m`; 10 past both, and where no image has
    // so many.
    pub fn of(k: usize, n: usize, m: usize) -> Result<Side, Fault>
        ensures { result ≡ side_of n m k }
    {
        if k < n {
            return Ok(Side::First(k));
        }
        if k >= MAX_WORDS || k - n >= m {
            return Err(Fault::at_start(Refusal::OutOfRange));
        }
        Ok(Side::Second(k - n))
    }
}

// What gives slices, of which images are made.
pub trait AsBytes: Index {
    ghost slices: { Self → List Slice };

    // The number of slices, or 536,870,911 where there are more.
    fn slices(&self) -> usize
        ensures { result ≡ min (length (slices self.now)) CAP };

    // The byte length of slice `k`; 10 past the slices, 15 where no image holds so many bytes.
    fn slice_len(&self, k: usize) -> Result<usize, Fault>
        ensures { result ≡ slice_length (slices self.now) k };

    // Word `i` of slice `k`; refused as its length is, and with 10 past the slice's words.
    fn slice_word(&self, k: usize, i: usize) -> Result<u64, Fault>
        ensures { result ≡ word_in_slice (slices self.now) k i };

    ghost formed: { (s : Self) → AllByRecursion WellFormed (slices s) };
}

// An element type, a number of slices, a writing and a reading, with the laws that join them.
pub trait Kind {
    type Elem: Value;

    ghost format: { Format Self.Elem };

    // How many elements a value of the type holds. A type that only names a kind has no values that hold any, and leaves it.
    ghost elements: { Self → ℕ } = { λ _. 0 };

    // The number of slices, or 536,870,911 where there are more: no image has so many.
    fn slice_count() -> usize
        ensures { result ≡ min format.slots CAP };

    ghost laws: { Laws Self.Elem.Value.fits format };
}

// A list of a kind: a value holds just the elements of its list.
pub trait Listed: Kind + Index<Item = Self::Elem> {
    ghost counted: { (c : Self) → Self.Kind.elements c ≡ length (Self.Index.list c) };
}

// A list of a kind in lent memory. Its slices are the kind's writing of its list; what it takes next is fixed by
// its list and the size of its areas, which no call changes.
pub trait Column: Listed + AsBytes {
    ghost areas: { Self → Areas };

    ghost takes: { Areas → List Self.Elem → Self.Elem → Bool };

    // Whether a push of `x` would be taken.
    fn takes(&self, x: Self::Elem) -> bool
        ensures { result ≡ takes (areas self.now) (Self.list self.now) x };

    // Puts `x` at the end if it is taken; else 12, the list unmoved.
    fn push(&mut self, x: Self::Elem) -> Result<(), Fault>
        ensures fitting { Self.Elem.Value.fits x ≡ true }
        ensures answer { result ≡ push_answer (takes (areas self.old) (Self.list self.old) x) }
        ensures after { Self.list self.new ≡ pushed (takes (areas self.old) (Self.list self.old) x) (Self.list self.old) x }
        ensures same { areas self.new ≡ areas self.old };

    // Empties the list.
    fn clear(&mut self)
        ensures after { Self.list self.new ≡ [] }
        ensures same { areas self.new ≡ areas self.old };

    // What a column holds is a list that its kind writes, and its slices are the writing.
    ghost held: { (c : Self) → Held Self.Elem.Value.fits (Self.Index.list c) };

    ghost written: { (c : Self) → Self.AsBytes.slices c ≡ Self.Kind.format.writing (Self.Index.list c) };
}
