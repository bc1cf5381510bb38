// The read form of strides: the place of the head, its numbers, and the place of the bounds.
ghost use Rattle.std.specs.Prelude.{◌≡◌, ℕ, List, length, None};
ghost use Rattle.column.specs.Column.{element, slice_length, word_in_slice};
ghost use Rattle.column.specs.Run.{word_run};
ghost use Rattle.read.specs.Form.{FormAnswer, Stands, There, list_of, size_answer, slices_within};
ghost use Rattle.offsets.specs.Strides.{strides_format};
ghost use Rattle.offsets.specs.Form.{StridesKept, strides_slices};

use crate::head::Head;
use crate::strides::Strides;
use area::fault::{Fault, Refusal};
use column::kind::{Kind, MAX_LEN};
use column::run::Run;
use decode::decoded::DecodedStore;
use decode::span::Span;
use read::form::{FromBytes, KeptOnce, ReadForm};
use read::view::View;
use std::marker::PhantomData;
use storage::store::Store;

#[derive(Clone, Copy)]
pub struct StridesForm {
    place: Span,
    head: Head,
    bounds: Span,
}

impl<'a> ReadForm for Strides<'a> {
    type Form = StridesForm;

    ghost slices = { λ t ws. strides_slices t ws };

    ghost kept = { λ t ws. StridesKept t ws };
}

impl<'a> KeptOnce for Strides<'a> {
    ghost use Rattle.std.proofs.Props.{props};

    ghost kept_prop = { λ t ws. Prim.hlevel props };
}

// The bounds, as a view of a run.
fn bounds_of<'a, 'f, 's, S: Store>(
    view: &View<'f, 's, Strides<'a>, S>,
) -> View<'f, 's, Run<'a, u64>, S>
    ensures form { result.form.now ≡ view.now.form.now.bounds }
    ensures store { result.store.now ≡ view.now.store.now }
{
    View {
        form: &view.form.bounds,
        store: view.store,
        of: PhantomData,
    }
}

// The clauses of `sized`, `form` and `form_len` are written out: no argument shows the type.
impl<'a> FromBytes for Strides<'a> {
    fn sized<S: Store>(image: &DecodedStore<S>, at: usize) -> Result<(), Fault>
        ensures { There (S.Store.words image.now.store) at 2 → result ≡ size_answer at ((strides_format word_run).sized (slices_within (S.Store.words image.now.store) at 2)) }
    {
        image.has_words(at, 2)?;
        Run::<u64>::sized(image, at + 1)
    }

    fn form<S: Store>(image: &DecodedStore<S>, at: usize) -> Result<StridesForm, Fault>
        ensures { There (S.Store.words image.now.store) at 2 → (strides_format word_run).sized (slices_within (S.Store.words image.now.store) at 2) ≡ None → FormAnswer strides_slices StridesKept (S.Store.words image.now.store) (slices_within (S.Store.words image.now.store) at 2) at ((strides_format word_run).reading (slices_within (S.Store.words image.now.store) at 2)) result }
    {
        let place = image.get(at)?;
        let bounds = Run::<u64>::form(image, at + 1)?;
        let stride = place.word(image.store(), 0)?;
        let length = place.word(image.store(), 1)?;
        let head = Head { stride, length };
        let count = head.len(Run::<u64>::form_len(&bounds));
        // one refusal at one place, whichever is out of bounds
        if stride.checked_mul(length).is_none() || count > MAX_LEN {
            return Err(Fault::at(Refusal::SliceContent, at));
        }
        Ok(StridesForm {
            place,
            head,
            bounds,
        })
    }

    fn form_len(form: &StridesForm) -> usize
        ensures { (ws : List ℕ) → Stands strides_slices StridesKept (strides_format word_run) form.now ws → result ≡ length (list_of (strides_format word_run) (strides_slices form.now ws)) }
    {
        form.head.len(Run::<u64>::form_len(&form.bounds))
    }

    fn form_get<S: Store>(form: &StridesForm, store: &S, i: usize) -> Result<u64, Fault>
        ensures { Stands strides_slices StridesKept (strides_format word_run) form.now (S.Store.words store.now) → result ≡ element (list_of (strides_format word_run) (strides_slices form.now (S.Store.words store.now))) i }
    {
        let length = form.head.length as usize;
        if i < length {
            return Ok(form.head.stride.wrapping_mul(i as u64 + 1));
        }
        Run::<u64>::form_get(&form.bounds, store, i - length)
    }

    fn form_slice_len(form: &StridesForm, k: usize) -> Result<usize, Fault>
        ensures { (ws : List ℕ) → Stands strides_slices StridesKept (strides_format word_run) form.now ws → result ≡ slice_length ((strides_format word_run).giving (strides_slices form.now ws)) k }
    {
        if k > 0 {
            return Run::<u64>::form_slice_len(&form.bounds, k - 1);
        }
        Ok(form.place.words().saturating_mul(8))
    }

    fn form_slice_word<S: Store>(
        form: &StridesForm,
        store: &S,
        k: usize,
        i: usize,
    ) -> Result<u64, Fault>
        ensures { Stands strides_slices StridesKept (strides_format word_run) form.now (S.Store.words store.now) → result ≡ word_in_slice ((strides_format word_run).giving (strides_slices form.now (S.Store.words store.now))) k i }
    {
        if k > 0 {
            return Run::<u64>::form_slice_word(&form.bounds, store, k - 1, i);
        }
        form.place.word(store, i)
    }

    fn view_get<S: Store>(view: &View<'_, '_, Strides<'a>, S>, i: usize) -> Result<u64, Fault> {
        view.form.head.get(&bounds_of(view), i)
    }
}
