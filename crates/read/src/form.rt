// Kinds that stored images are read back as.
ghost use Rattle.std.specs.Prelude.{◌≡◌, ℕ, List, length, None};
ghost use Rattle.area.specs.Slice.{Slice};
ghost use Rattle.column.specs.Column.{element, slice_length, word_in_slice};
ghost use Rattle.read.specs.Form.{FormAnswer, Stands, There, list_of, size_answer, slices_within};

use crate::view::View;
use area::fault::Fault;
use column::element::Value;
use column::kind::Kind;
use decode::decoded::DecodedStore;
use storage::store::Store;

// What a kind's read form keeps of accepted slices: their places in a store that it is lent.
pub trait ReadForm: Kind {
    type Form: Drop;

    // The slices whose places a form keeps, of a store's words.
    ghost slices: { Self.Form → List ℕ → List Slice };

    // What a form keeps to over these words: its places lie inside them, and the numbers that it has read are theirs.
    ghost kept: { Self.Form → List ℕ → Type 0 };
}

// A read form that keeps to what has one proof at most. What a view or an admitted image keeps truncated of it is then had as it
// is, for any goal.
pub trait KeptOnce: ReadForm {
    ghost kept_prop: { (t : Self.Form) (ws : List ℕ) → IsProp (Self.ReadForm.kept t ws) };
}

// A kind with its read form. `There` stays a premise: a type for slices that are there, which every part that a kind asks would
// have to be wrapped in, is no plainer.
pub trait FromBytes: ReadForm {
    // Question 8 of the kind's slices, of which the first has number `at`.
    fn sized<S: Store>(image: &DecodedStore<S>, at: usize) -> Result<(), Fault>
        ensures { There (S.Store.words image.now.store) at Self.Kind.format.slots → result ≡ size_answer at (Self.Kind.format.sized (slices_within (S.Store.words image.now.store) at Self.Kind.format.slots)) };

    // Question 9 of the same slices, and their form.
    fn form<S: Store>(image: &DecodedStore<S>, at: usize) -> Result<Self::Form, Fault>
        ensures { There (S.Store.words image.now.store) at Self.Kind.format.slots → Self.Kind.format.sized (slices_within (S.Store.words image.now.store) at Self.Kind.format.slots) ≡ None → FormAnswer Self.ReadForm.slices Self.ReadForm.kept (S.Store.words image.now.store) (slices_within (S.Store.words image.now.store) at Self.Kind.format.slots) at (Self.Kind.format.reading (slices_within (S.Store.words image.now.store) at Self.Kind.format.slots)) result };

    // How many elements a form has. It takes no view, since a composed kind's `form` asks its parts before they are known to stand.
    fn form_len(form: &Self::Form) -> usize
        ensures { (ws : List ℕ) → Stands Self.ReadForm.slices Self.ReadForm.kept Self.Kind.format form.now ws → result ≡ length (list_of Self.Kind.format (Self.ReadForm.slices form.now ws)) };

    // The same of a form and a store, for a caller who has no view: what they answer is said of a form that stands.
    fn form_get<S: Store>(form: &Self::Form, store: &S, i: usize) -> Result<Self::Elem, Fault>
        ensures { Stands Self.ReadForm.slices Self.ReadForm.kept Self.Kind.format form.now (S.Store.words store.now) → result ≡ element (list_of Self.Kind.format (Self.ReadForm.slices form.now (S.Store.words store.now))) i };

    fn form_slice_len(form: &Self::Form, k: usize) -> Result<usize, Fault>
        ensures { (ws : List ℕ) → Stands Self.ReadForm.slices Self.ReadForm.kept Self.Kind.format form.now ws → result ≡ slice_length (Self.Kind.format.giving (Self.ReadForm.slices form.now ws)) k };

    fn form_slice_word<S: Store>(
        form: &Self::Form,
        store: &S,
        k: usize,
        i: usize,
    ) -> Result<u64, Fault>
        ensures { Stands Self.ReadForm.slices Self.ReadForm.kept Self.Kind.format form.now (S.Store.words store.now) → result ≡ word_in_slice (Self.Kind.format.giving (Self.ReadForm.slices form.now (S.Store.words store.now))) k i };

    // The element at place `i`; 10 at or past the length. What is asked of a view, here and below, its form answers, where a kind
    // has no code of its column's for it.
    fn view_get<S: Store>(view: &View<'_, '_, Self, S>, i: usize) -> Result<Self::Elem, Fault>
        ensures { result ≡ element (list_of Self.Kind.format (Self.ReadForm.slices view.now.form.now (S.Store.words view.now.store.now))) i }
    {
        Self::form_get(view.form, view.store, i)
    }

    // The byte length of slice `k` of those that the view gives.
    fn view_slice_len<S: Store>(view: &View<'_, '_, Self, S>, k: usize) -> Result<usize, Fault>
        ensures { result ≡ slice_length (Self.Kind.format.giving (Self.ReadForm.slices view.now.form.now (S.Store.words view.now.store.now))) k }
    {
        Self::form_slice_len(view.form, k)
    }

    // Word `i` of slice `k` of these.
    fn view_slice_word<S: Store>(
        view: &View<'_, '_, Self, S>,
        k: usize,
        i: usize,
    ) -> Result<u64, Fault>
        ensures { result ≡ word_in_slice (Self.Kind.format.giving (Self.ReadForm.slices view.now.form.now (S.Store.words view.now.store.now))) k i }
    {
        Self::form_slice_word(view.form, view.store, k, i)
    }
}
