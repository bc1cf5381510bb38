// The read form of a run: the place of its slice.
ghost use Rattle.std.specs.Prelude.{◌≡◌, ℕ, ◌/◌, List, [], ◌∷◌};
ghost use Rattle.std.proofs.Props.{props};
ghost use Rattle.decode.specs.Decode.{Inside, slice_in};

use crate::element::Stored;
use crate::form::{FromBytes, KeptOnce, ReadForm};
use crate::view::View;
use area::fault::{Fault, Refusal};
use column::element::Element;
use column::kind::{Kind, MAX_LEN};
use column::run::Run;
use decode::decoded::DecodedStore;
use decode::span::Span;
use storage::store::Store;

// How many elements so many bytes hold.
fn count_in<T: Element>(bytes: usize) -> usize
    ensures { result ≡ bytes / T.Element.codec.size }
{
    bytes / T::size()
}

impl<'a, T: Stored> ReadForm for Run<'a, T> {
    type Form = Span;

    ghost slices = { λ s ws. slice_in ws s ∷ [] };

    ghost kept = { λ s ws. Inside ws s };
}

impl<'a, T: Stored> KeptOnce for Run<'a, T> {
    ghost kept_prop = { λ s ws. Prim.hlevel props };
}

impl<'a, T: Stored> FromBytes for Run<'a, T> {
    fn sized<S: Store>(image: &DecodedStore<S>, at: usize) -> Result<(), Fault> {
        let span = image.get(at)?;
        if span.bytes % T::size() != 0 {
            return Err(Fault::at(Refusal::SliceSize, at));
        }
        Ok(())
    }

    fn form<S: Store>(image: &DecodedStore<S>, at: usize) -> Result<Span, Fault> {
        let span = image.get(at)?;
        if count_in::<T>(span.bytes) > MAX_LEN {
            return Err(Fault::at(Refusal::SliceContent, at));
        }
        Ok(span)
    }

    fn form_len(form: &Span) -> usize {
        count_in::<T>(form.bytes)
    }

    fn form_get<S: Store>(form: &Span, store: &S, i: usize) -> Result<T, Fault> {
        if i >= count_in::<T>(form.bytes) {
            return Err(Fault::at_start(Refusal::OutOfRange));
        }
        T::read(store, form.from, i).ok_or(Fault::at_start(Refusal::OutOfRange))
    }

    fn form_slice_len(form: &Span, k: usize) -> Result<usize, Fault> {
        if k > 0 {
            return Err(Fault::at_start(Refusal::OutOfRange));
        }
        Ok(form.bytes)
    }

    // Bytes of the last word past the slice's end are given as 0.
    fn form_slice_word<S: Store>(form: &Span, store: &S, k: usize, i: usize) -> Result<u64, Fault> {
        if k > 0 {
            return Err(Fault::at_start(Refusal::OutOfRange));
        }
        let word = form.word(store, i)?;
        let left = form.bytes.saturating_sub(i.saturating_mul(8));
        if left >= 8 {
            return Ok(word);
        }
        Ok(word % (1 << (8 * left)))
    }
}
