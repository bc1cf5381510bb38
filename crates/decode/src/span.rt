// Where a slice stands in a store.
ghost use Rattle.std.specs.Prelude.{◌≡◌};
ghost use Rattle.column.specs.Column.{element};
ghost use Rattle.area.specs.Slice.{words_for};
ghost use Rattle.decode.specs.Decode.{Inside, slice_in};

use area::fault::{Fault, Refusal};
use storage::store::Store;

// The slice's first word, and its length in bytes. A place stands apart from its store, which a form is lent anew at each call.
#[derive(Clone, Copy)]
pub struct Span {
    pub from: usize,
    pub bytes: usize,
}

impl Span {
    // How many words the slice has.
    pub fn words(self) -> usize
        ensures { result ≡ words_for self.bytes }
    {
        self.bytes.div_ceil(8)
    }

    // Word `i` of the slice; 10 past its words.
    #[tactic(auto, using(crate::proofs::DecodeLemmas::element_span, crate::proofs::DecodeLemmas::element_after))]
    pub fn word<S: Store>(self, store: &S, i: usize) -> Result<u64, Fault>
        ensures { Inside (S.Store.words store.now) self → result ≡ element (slice_in (S.Store.words store.now) self).words i }
    {
        if i >= self.words() {
            return Err(Fault::at_start(Refusal::OutOfRange));
        }
        store
            .word(self.from.saturating_add(i))
            .ok_or(Fault::at_start(Refusal::OutOfRange))
    }
}
