// Stores: what a stored image is read from. A store means a list of words, and asking alters nothing.
ghost use Rattle.std.specs.Prelude.{◌≡◌, ℕ, ◌+◌, ◌^◌, ◌<◌, ◌≤◌, true, List, length, take, drop, slice_get, slice_index};
ghost use Rattle.std.specs.List.{AllByRecursion};
ghost use Rattle.storage.specs.StoreLaws.{all_fit, joined_whole, window_whole};
ghost use Rattle.storage.specs.Store.{join_words, length_stands, StoreLike};

use area::fault::{Fault, Refusal};
use area::words::join;
use std::alloc::AllocError;

// The most bytes that a stored image has.
pub const MAX_BYTES: usize = 4_294_967_288;

pub trait Store {
    ghost words: { Self → List ℕ };

    // How many words there are.
    fn count(&self) -> usize
        ensures { result ≡ length (words self.now) };

    // The word at place `i`, or none at or past the count.
    fn word(&self, i: usize) -> Option<u64>
        ensures { result ≡ slice_get (words self.now) i };

    // Each of them is a word.
    ghost whole: { (s : Self) → AllByRecursion (λ w. w < 2 ^ 64) (words s) };
}

// A reference to a store is a store of the same words.
impl<'s, S: Store> Store for &'s S {
    ghost words = { λ s. S.Store.words s.now };

    ghost whole = { λ s. S.Store.whole s.now };

    fn count(&self) -> usize {
        (**self).count()
    }

    fn word(&self, i: usize) -> Option<u64> {
        (**self).word(i)
    }
}

// A word area.
#[derive(Clone, Copy)]
pub struct WordArea<'a> {
    cells: &'a [u64],
    pub ghost fitting: { (i : ℕ) → slice_index cells.now i < 2 ^ 64 },
}

impl<'a> WordArea<'a> {
    pub fn new(cells: &'a [u64]) -> WordArea<'a>
        ensures { result.cells.now ≡ cells.now }
    {
        WordArea { cells }
    }
}

impl<'a> Store for WordArea<'a> {
    ghost words = { λ s. s.cells.now };

    ghost whole = { λ s. all_fit s.cells.now (2 ^ 64) s.fitting };

    fn count(&self) -> usize {
        self.cells.len()
    }

    fn word(&self, i: usize) -> Option<u64> {
        self.cells.get(i).copied()
    }
}

// A byte area: its words are joined from eight bytes each, the lowest first.
#[derive(Clone, Copy)]
pub struct ByteArea<'a> {
    pub bytes: &'a [u8],
    pub ghost stands: { length_stands bytes.now ≡ true },
    pub ghost fitting: { (i : ℕ) → slice_index bytes.now i < 256 },
}

impl<'a> ByteArea<'a> {
    // 1 where the length is no multiple of 8, or more than an image has.
    pub fn new(bytes: &'a [u8]) -> Result<ByteArea<'a>, Fault>
        ensures { StoreLike result (λ s. s.bytes.now) bytes.now }
    {
        if bytes.len() % 8 != 0 || bytes.len() > MAX_BYTES {
            return Err(Fault::at_start(Refusal::ByteLength));
        }
        Ok(ByteArea { bytes })
    }
}

impl<'a> Store for ByteArea<'a> {
    ghost words = { λ s. join_words s.bytes.now };

    ghost whole = { λ s. joined_whole s.bytes.now s.fitting };

    fn count(&self) -> usize {
        self.bytes.len() / 8
    }

    fn word(&self, i: usize) -> Option<u64> {
        if i >= self.bytes.len() / 8 {
            return None;
        }
        join(self.bytes, 8 * i)
    }
}

// A window of `size` words from place `from` on over any store: a place and a size are what a window is.
pub struct Window<S: Store> {
    store: S,
    from: usize,
    size: usize,
    ghost inside: { from + size ≤ length (S.Store.words store) },
    ghost in_range: { from + size < 2 ^ 64 },
}

// By hand, since a `Clone` is not derived where a struct with type parameters has a ghost field.
impl<S: Store + Copy> Copy for Window<S> {}

// The same window of the store's clone; refused where that has too few words, as no clone with the store's words has.
impl<S: Store + Clone> Clone for Window<S> {
    ghost is_clone = { λ w v. S.Clone.is_clone w.store v.store × ((v.from ≡ w.from) × (v.size ≡ w.size)) };

    ghost is_infallible = { λ w. S.Clone.is_infallible w.store × ((t : S) → S.Clone.is_clone w.store t → S.Store.words t ≡ S.Store.words w.store) };

    fn clone(&self) -> Result<Self, AllocError> {
        let store = self.store.clone()?;
        if self.from + self.size > store.count() {
            return Err(AllocError);
        }
        Ok(Window {
            store,
            from: self.from,
            size: self.size,
        })
    }
}

impl<S: Store + Drop> Window<S> {
    ghost use Rattle.storage.specs.Window.{WindowAnswer};

    // 16 where the window does not lie inside the store.
    pub fn new(store: S, from: usize, size: usize) -> Result<Window<S>, Fault>
        ensures { WindowAnswer S.Store.words result store from size }
    {
        let count = store.count();
        if from > count || size > count - from {
            return Err(Fault::at_start(Refusal::WindowOutside));
        }
        Ok(Window { store, from, size })
    }
}

impl<S: Store> Store for Window<S> {
    ghost words = { λ w. take w.size (drop w.from (S.Store.words w.store)) };

    ghost whole = { λ w. window_whole w.from w.size (S.Store.words w.store) (S.Store.whole w.store) };

    fn count(&self) -> usize {
        self.size
    }

    fn word(&self, i: usize) -> Option<u64> {
        if i >= self.size {
            return None;
        }
        self.store.word(self.from + i)
    }
}
