// A store whose index was looked at, so that its slices can be found.
ghost use Rattle.std.specs.Prelude.{◌≡◌, suc, ◌*◌, ◌<◌, ◌≤◌, length, take, drop, Some, None, ⊤};
ghost use Rattle.column.specs.Kind.{CAP, slot};
ghost use Rattle.decode.specs.Decode.{Inside, ends_fault, index_answer, or_fault, slice_in, slices_of, least_words_answer, span_answer, span_of, structure_fault};

use crate::span::Span;
use area::fault::{Fault, Refusal};
use column::kind::MAX_WORDS;
use std::alloc::AllocError;
use storage::store::Store;

// A store that passed the questions but 5. `count` is the number of its slices, so that word 0 is read once.
#[derive(Drop)]
pub struct DecodedStore<S: Store> {
    store: S,
    count: usize,
    ghost asked: { structure_fault None (S.Store.words store) ≡ None },
    ghost counted: { count ≡ length (slices_of (S.Store.words store)) },
}

// By hand, since a `Clone` is not derived where a struct with type parameters has a ghost field.
impl<S: Store + Copy> Copy for DecodedStore<S> {}

impl<S: Store + Copy> Clone for DecodedStore<S> {
    ghost is_clone = { λ d e. e ≡ d };

    ghost is_infallible = { λ _. ⊤ };

    fn clone(&self) -> Result<Self, AllocError> {
        Ok(*self)
    }
}

// Questions 1 to 4: how many slices the index has.
fn slices_in<S: Store>(store: &S) -> Result<usize, Fault>
    ensures { result ≡ index_answer (S.Store.words store.now) }
{
    let count = store.count();
    if count > MAX_WORDS {
        return Err(Fault::at_start(Refusal::ByteLength));
    }
    let first = store.word(0).ok_or(Fault::at_start(Refusal::NoWord))?;
    if first < 8 || first % 8 != 0 {
        return Err(Fault::at_start(Refusal::FirstWord));
    }
    if first / 8 > count as u64 {
        return Err(Fault::at_start(Refusal::IndexCut));
    }
    Ok((first / 8 - 1) as usize)
}

// Questions 6 and 7 of the `count` slices that the index has, one after the other.
fn ends_stand<S: Store>(store: &S, count: usize) -> Result<(), Fault>
    requires short { length (S.Store.words store.now) ≤ CAP }
    requires under { count < length (S.Store.words store.now) }
    ensures { result ≡ or_fault (ends_fault (8 * length (S.Store.words store.now)) 0 (8 * suc count) (take count (drop 1 (S.Store.words store.now)))) tt }
{
    let total = 8 * store.count() as u64;
    let mut start = 8 * (count as u64 + 1);
    for k in 0..count {
        let end = store.word(k + 1).ok_or(Fault::at_start(Refusal::IndexCut))?;
        if end > total {
            return Err(Fault::at(Refusal::EndOutside, k));
        }
        if end < start {
            return Err(Fault::at(Refusal::EndBeforeStart, k));
        }
        start = end.next_multiple_of(8);
    }
    Ok(())
}

impl<S: Store + Drop> DecodedStore<S> {
    ghost use Rattle.decode.specs.Decoded.{DecodedAnswer};

    // Asks questions 1 to 4, 6 and 7.
    pub fn new(store: S) -> Result<DecodedStore<S>, Fault>
        ensures { DecodedAnswer S.Store None store result }
    {
        DecodedStore::asked(store, None)
    }

    // Asks questions 1 to 7: 5 is whether there are `slices` slices.
    pub fn with_slices(store: S, slices: usize) -> Result<DecodedStore<S>, Fault>
        ensures { DecodedAnswer S.Store (Some slices) store result }
    {
        DecodedStore::asked(store, Some(slices))
    }

    // Question 5 is asked where a slice count is given.
    fn asked(store: S, slices: Option<usize>) -> Result<DecodedStore<S>, Fault>
        ensures { DecodedAnswer S.Store slices store result }
    {
        let count = slices_in(&store)?;
        if count != slices.unwrap_or(count) {
            return Err(Fault::at_start(Refusal::SliceCount));
        }
        ends_stand(&store, count)?;
        Ok(DecodedStore { count, store })
    }
}

impl<S: Store> DecodedStore<S> {
    pub fn store(&self) -> &S
        ensures { result.now ≡ self.now.store }
    {
        &self.store
    }

    // How many slices there are.
    pub fn len(&self) -> usize
        ensures { result ≡ length (slices_of (S.Store.words self.now.store)) }
    {
        self.count
    }

    // The place of slice `k`; 10 past the slices.
    #[tactic(auto, using(crate::proofs::DecodeLemmas::span_inside, crate::proofs::DecodeLemmas::span_slice))]
    pub fn get(&self, k: usize) -> Result<Span, Fault>
        ensures answer { result ≡ span_answer (S.Store.words self.now.store) k }
        ensures inside { k < length (slices_of (S.Store.words self.now.store)) → Inside (S.Store.words self.now.store) (span_of (S.Store.words self.now.store) k) }
        ensures slice { k < length (slices_of (S.Store.words self.now.store)) → slice_in (S.Store.words self.now.store) (span_of (S.Store.words self.now.store) k) ≡ slot (slices_of (S.Store.words self.now.store)) k }
    {
        if k >= self.count {
            return Err(Fault::at_start(Refusal::OutOfRange));
        }
        let past = Fault::at_start(Refusal::OutOfRange);
        let lower = self.store.word(k).ok_or(past)?;
        let upper = self.store.word(k + 1).ok_or(past)?;
        let from = lower.div_ceil(8);
        Ok(Span {
            from: from as usize,
            bytes: (upper - 8 * from) as usize,
        })
    }

    // Question 8 of a slice that has to have `words` words at least; 10 past the slices.
    pub fn has_words(&self, k: usize, words: usize) -> Result<(), Fault>
        ensures { result ≡ least_words_answer (S.Store.words self.now.store) k words }
    {
        if self.get(k)?.words() < words {
            return Err(Fault::at(Refusal::SliceSize, k));
        }
        Ok(())
    }
}
