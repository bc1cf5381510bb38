// The read forms of empties and of pairs.
ghost use Rattle.std.specs.Prelude.{◌≡◌, ℕ, List, [], ◌∷◌, ◌++◌};
ghost use Rattle.decode.specs.Decode.{slice_in};
ghost use Rattle.tuple.specs.Form.{EmptiesKept, PairKept, pair_slices};

use crate::empties::Empties;
use crate::pair::Pair;
use area::fault::{Fault, Refusal};
use column::kind::{AsBytes, Index, Kind, MAX_WORDS, Side};
use decode::decoded::DecodedStore;
use decode::span::Span;
use read::form::{FromBytes, KeptOnce, ReadForm};
use storage::store::Store;

// The place of the count, and the count.
#[derive(Clone, Copy)]
pub struct EmptiesForm {
    place: Span,
    count: Empties,
}

impl ReadForm for Empties {
    type Form = EmptiesForm;

    ghost slices = { λ t ws. slice_in ws t.place ∷ [] };

    ghost kept = { λ t ws. EmptiesKept t ws };
}

impl KeptOnce for Empties {
    ghost use Rattle.std.proofs.Props.{props};

    ghost kept_prop = { λ t ws. Prim.hlevel props };
}

impl FromBytes for Empties {
    fn sized<S: Store>(image: &DecodedStore<S>, at: usize) -> Result<(), Fault> {
        image.has_words(at, 1)
    }

    fn form<S: Store>(image: &DecodedStore<S>, at: usize) -> Result<EmptiesForm, Fault> {
        let place = image.get(at)?;
        let word = place.word(image.store(), 0)?;
        let refused = Fault::at(Refusal::SliceContent, at);
        let count = u32::try_from(word).map_err(|_| refused)?;
        Ok(EmptiesForm {
            place,
            count: Empties { count },
        })
    }

    fn form_len(form: &EmptiesForm) -> usize {
        form.count.len()
    }

    fn form_get<S: Store>(form: &EmptiesForm, _store: &S, i: usize) -> Result<(), Fault> {
        form.count.get(i)
    }

    fn form_slice_len(form: &EmptiesForm, k: usize) -> Result<usize, Fault> {
        form.count.slice_len(k)
    }

    // One word, whatever follows the count.
    fn form_slice_word<S: Store>(
        form: &EmptiesForm,
        _store: &S,
        k: usize,
        i: usize,
    ) -> Result<u64, Fault> {
        form.count.slice_word(k, i)
    }
}

// The forms of the two sides.
#[derive(Drop)]
pub struct PairForm<F, G> {
    first: F,
    second: G,
}

impl<A: ReadForm, B: ReadForm> ReadForm for Pair<A, B> {
    type Form = PairForm<A::Form, B::Form>;

    ghost slices = { λ t ws. pair_slices A.ReadForm.own B.ReadForm.own t ws };

    ghost kept = { λ t ws. PairKept A.ReadForm.own B.ReadForm.own A.Kind.format.slots t ws };
}

impl<A: KeptOnce, B: KeptOnce> KeptOnce for Pair<A, B> {
    ghost use Rattle.std.proofs.Props.{props};

    ghost kept_prop = { λ t ws. Prim.hlevel (props, A.KeptOnce.kept_prop, B.KeptOnce.kept_prop) };
}

impl<A: FromBytes, B: FromBytes> FromBytes for Pair<A, B> {
    fn sized<S: Store>(image: &DecodedStore<S>, at: usize) -> Result<(), Fault> {
        A::sized(image, at)?;
        B::sized(image, at.saturating_add(A::slice_count()))
    }

    fn form<S: Store>(
        image: &DecodedStore<S>,
        at: usize,
    ) -> Result<PairForm<A::Form, B::Form>, Fault> {
        let first = A::form(image, at)?;
        let second = B::form(image, at.saturating_add(A::slice_count()))?;
        if A::form_len(&first) != B::form_len(&second) {
            return Err(Fault::at(Refusal::SliceContent, at));
        }
        Ok(PairForm { first, second })
    }

    fn form_len(form: &PairForm<A::Form, B::Form>) -> usize {
        A::form_len(&form.first)
    }

    fn form_get<S: Store>(
        form: &PairForm<A::Form, B::Form>,
        store: &S,
        i: usize,
    ) -> Result<(A::Elem, B::Elem), Fault> {
        let x = A::form_get(&form.first, store, i)?;
        let y = B::form_get(&form.second, store, i)?;
        Ok((x, y))
    }

    fn form_slice_len(form: &PairForm<A::Form, B::Form>, k: usize) -> Result<usize, Fault> {
        match Side::of(k, A::slice_count(), MAX_WORDS)? {
            Side::First(j) => A::form_slice_len(&form.first, j),
            Side::Second(j) => B::form_slice_len(&form.second, j),
        }
    }

    fn form_slice_word<S: Store>(
        form: &PairForm<A::Form, B::Form>,
        store: &S,
        k: usize,
        i: usize,
    ) -> Result<u64, Fault> {
        match Side::of(k, A::slice_count(), MAX_WORDS)? {
            Side::First(j) => A::form_slice_word(&form.first, store, j, i),
            Side::Second(j) => B::form_slice_word(&form.second, store, j, i),
        }
    }
}
