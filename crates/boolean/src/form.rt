// The read form of bools, over the read form of the words below.
ghost use Rattle.std.specs.Prelude.{◌≡◌, ℕ, ◌+◌, ◌-◌, ◌*◌, ◌^◌, ◌≤◌, min, List, [], ◌∷◌, ◌++◌, slice_index_or};
ghost use Rattle.std.specs.Option.{ok_or};
ghost use Rattle.area.specs.Fault.{refuse};
ghost use Rattle.area.specs.Slice.{of_words, words_for};
ghost use Rattle.area.specs.declared.fault.Refusal.TheVariants.{SliceContent};
ghost use Rattle.decode.specs.Decode.{Inside, slice_in};
ghost use Rattle.boolean.specs.Bools.{bools_format, bools_list, range_bits};
ghost use Rattle.read.specs.Form.{Stands, list_of};
ghost use Rattle.boolean.specs.Form.{BoolsKept, BoolsKept-prop, bools_slices, slice_tail};

use crate::bools::Bools;
use crate::tail::Tail;
use area::fault::{Fault, Refusal};
use column::kind::{Index, Kind, MAX_LEN, Side};
use decode::decoded::DecodedStore;
use decode::span::Span;
use read::form::{FromBytes, KeptOnce, ReadForm};
use read::view::View;
use std::marker::PhantomData;
use storage::store::Store;

// The form of the words below, the place of the tail, and the tail's bits.
#[derive(Drop)]
pub struct BoolsForm<F> {
    values: F,
    place: Span,
    tail: Tail,
}

// The tail that a slice holds; 9 at the kind's first slice, `at`, where its count is above 63.
fn tail_of<S: Store>(store: &S, place: Span, at: usize) -> Result<Tail, Fault>
    ensures { Inside (S.Store.words store.now) place → 2 ≤ words_for place.bytes → result ≡ ok_or (slice_tail (slice_in (S.Store.words store.now) place)) (refuse SliceContent at) }
{
    let word = place.word(store, 0)?;
    let count = place.word(store, 1)?;
    Tail::stored(word, count).ok_or(Fault::at(Refusal::SliceContent, at))
}

// The bools of a view, over the view of the words below; the slices that the whole view gives are those of the words
// and then the tail's, in whole words.
fn bools_in<'f, 's, C: FromBytes<Elem = u64>, S: Store>(
    view: &View<'f, 's, Bools<C>, S>,
) -> Bools<View<'f, 's, C, S>>
    ensures list { bools_list (list_of C.Kind.format (C.ReadForm.slices result.values.form.now (S.Store.words result.values.store.now))) result.tail ≡ list_of (bools_format C.Kind.format) (bools_slices C.ReadForm.slices view.now.form.now (S.Store.words view.now.store.now)) }
    ensures slices { (bools_format C.Kind.format).giving (bools_slices C.ReadForm.slices view.now.form.now (S.Store.words view.now.store.now)) ≡ C.Kind.format.giving (C.ReadForm.slices result.values.form.now (S.Store.words result.values.store.now)) ++ of_words (slice_in (S.Store.words view.now.store.now) view.now.form.now.place).words ∷ [] }
    ensures place { Inside (S.Store.words view.now.store.now) view.now.form.now.place }
{
    let values: View<C, S> = View {
        form: &view.form.values,
        store: view.store,
        of: PhantomData,
    };
    Bools {
        values,
        tail: view.form.tail,
    }
}

// `count` elements of a view from place `pos` on as a number, the first lowest. 11 where `count` is above 64, 10 where
// the range passes the end.
pub fn bits_at<C: FromBytes<Elem = u64>, S: Store>(
    view: &View<'_, '_, Bools<C>, S>,
    pos: usize,
    count: usize,
) -> Result<u64, Fault>
    ensures { result ≡ range_bits (list_of (bools_format C.Kind.format) (bools_slices C.ReadForm.slices view.now.form.now (S.Store.words view.now.store.now))) pos count }
{
    bools_in(view).bits_at(pos, count)
}

// The group that element 64 × `block` of a form begins, which is the tail past the full groups.
fn word_at<C: FromBytes<Elem = u64>, S: Store>(
    form: &BoolsForm<C::Form>,
    store: &S,
    block: usize,
) -> u64
    ensures { Stands C.ReadForm.slices C.ReadForm.kept C.Kind.format form.now.values (S.Store.words store.now) → result ≡ slice_index_or (list_of C.Kind.format (C.ReadForm.slices form.now.values (S.Store.words store.now))) block form.now.tail.word }
{
    C::form_get(&form.values, store, block).unwrap_or(form.tail.word)
}

// The same as `bits_at` of a form and a store, for a caller who has no view: what it answers is said of a form that stands.
pub fn form_bits_at<C: FromBytes<Elem = u64>, S: Store>(
    form: &BoolsForm<C::Form>,
    store: &S,
    pos: usize,
    count: usize,
) -> Result<u64, Fault>
    ensures { Stands (bools_slices C.ReadForm.slices) (BoolsKept C.ReadForm.kept) (bools_format C.Kind.format) form.now (S.Store.words store.now) → result ≡ range_bits (list_of (bools_format C.Kind.format) (bools_slices C.ReadForm.slices form.now (S.Store.words store.now))) pos count }
{
    if count > 64 {
        return Err(Fault::at_start(Refusal::BitCount));
    }
    let len = Bools::<C>::form_len(form);
    if pos > len || count > len - pos {
        return Err(Fault::at_start(Refusal::OutOfRange));
    }
    if count == 0 {
        return Ok(0);
    }
    let block = pos / 64;
    let bit = pos % 64;
    let mut word = word_at::<C, S>(form, store, block) >> bit;
    if bit + count > 64 {
        word |= word_at::<C, S>(form, store, block + 1) << (64 - bit);
    }
    let mask = if count < 64 {
        (1 << count) - 1
    } else {
        u64::MAX
    };
    Ok(word & mask)
}

impl<C: ReadForm<Elem = u64>> ReadForm for Bools<C> {
    type Form = BoolsForm<C::Form>;

    ghost slices = { λ t ws. bools_slices C.ReadForm.slices t ws };

    ghost kept = { λ t ws. BoolsKept C.ReadForm.kept t ws };
}

impl<C: KeptOnce<Elem = u64>> KeptOnce for Bools<C> {
    ghost kept_prop = { λ t ws. BoolsKept-prop C.ReadForm.kept C.KeptOnce.kept_prop t ws };
}

impl<C: FromBytes<Elem = u64>> FromBytes for Bools<C> {
    fn sized<S: Store>(image: &DecodedStore<S>, at: usize) -> Result<(), Fault> {
        C::sized(image, at)?;
        image.has_words(at.saturating_add(C::slice_count()), 2)
    }

    fn form<S: Store>(image: &DecodedStore<S>, at: usize) -> Result<BoolsForm<C::Form>, Fault> {
        let values = C::form(image, at)?;
        let place = image.get(at.saturating_add(C::slice_count()))?;
        let tail = tail_of(image.store(), place, at)?;
        if tail.len(C::form_len(&values)) > MAX_LEN {
            return Err(Fault::at(Refusal::SliceContent, at));
        }
        Ok(BoolsForm {
            values,
            place,
            tail,
        })
    }

    fn form_len(form: &BoolsForm<C::Form>) -> usize {
        form.tail.len(C::form_len(&form.values))
    }

    fn form_get<S: Store>(form: &BoolsForm<C::Form>, store: &S, i: usize) -> Result<bool, Fault> {
        Ok(form_bits_at::<C, S>(form, store, i, 1)? == 1)
    }

    fn form_slice_len(form: &BoolsForm<C::Form>, k: usize) -> Result<usize, Fault> {
        match Side::of(k, C::slice_count(), 1)? {
            Side::First(j) => C::form_slice_len(&form.values, j),
            Side::Second(_) => Ok(form.place.words().saturating_mul(8)),
        }
    }

    fn form_slice_word<S: Store>(
        form: &BoolsForm<C::Form>,
        store: &S,
        k: usize,
        i: usize,
    ) -> Result<u64, Fault> {
        match Side::of(k, C::slice_count(), 1)? {
            Side::First(j) => C::form_slice_word(&form.values, store, j, i),
            Side::Second(_) => form.place.word(store, i),
        }
    }

    fn view_get<S: Store>(view: &View<'_, '_, Bools<C>, S>, i: usize) -> Result<bool, Fault> {
        bools_in(view).get(i)
    }
}
