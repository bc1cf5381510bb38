// A pair of columns: tuples, one side in each.
ghost use Rattle.std.specs.Prelude.{◌≡◌, List, [], ◌++◌, length, zip};
ghost use Rattle.column.specs.Column.{beside, element, slice_length, word_in_slice};
ghost use Rattle.tuple.specs.Pair.{even_count, even_list, even_slices, pair_format, pair_takes};
ghost use Rattle.tuple.specs.PairLaws.{even_counted, even_formed, even_held, even_written, pair_laws};

use area::fault::{Fault, Refusal};
use column::element::Value;
use column::kind::{AsBytes, Column, Index, Kind, Listed, MAX_WORDS, Side};
use std::marker::Model;

#[derive(Drop)]
pub struct Pair<A: Kind, B: Kind> {
    pub(crate) first: A,
    pub(crate) second: B,
}

// Both sides hold as many elements: by a model, since a struct with a ghost field and no reference is not covered beside a
// `&mut`.
impl<A: Kind, B: Kind> Model for Pair<A, B> {
    ghost use Rattle.std.specs.Prelude.{◌≡◌};
    ghost use Rattle.tuple.specs.Sides.{Sides, sides_code};

    ghost Value = { Sides A B };

    ghost coded = { sides_code A.code B.code };

    ghost view = { λ p. record { first = p.first; second = p.second } };

    ghost invariant = { λ p. A.Kind.elements p.first ≡ B.Kind.elements p.second };
}

impl<A: Column, B: Column> Pair<A, B> {
    // An empty pair; what the sides held is cleared.
    pub fn new(mut first: A, mut second: B) -> Pair<A, B>
        ensures after { ⟦<Pair<A, B> as Index>⟧.list result ≡ [] }
        ensures sides { zip (A.Index.list result.first) (B.Index.list result.second) ≡ [] }
        ensures same { (A.Column.areas result.first ≡ A.Column.areas first) × (B.Column.areas result.second ≡ B.Column.areas second) }
    {
        first.clear();
        second.clear();
        Pair { first, second }
    }
}

impl<A: Kind, B: Kind> Pair<A, B> {
    // A side, to be asked what no clause of the pair says of it, as `level` of a pair inside a pair.
    pub fn first(&self) -> &A
        ensures { result.now ≡ self.now.first }
    {
        &self.first
    }

    pub fn second(&self) -> &B
        ensures { result.now ≡ self.now.second }
    {
        &self.second
    }
}

impl<A: Listed, B: Listed> Pair<A, B> {
    // Does nothing: its clauses say of a pair that both sides hold as many, and that its list is theirs, side by side.
    pub fn level(&self)
        ensures even { A.Kind.elements self.now.first ≡ B.Kind.elements self.now.second }
        ensures level { length (A.Index.list self.now.first) ≡ length (B.Index.list self.now.second) }
        ensures list { ⟦<Pair<A, B> as Index>⟧.list self.now ≡ zip (A.Index.list self.now.first) (B.Index.list self.now.second) }
    {
        // what is known of a pair is known once a field of it is reached
        let _ = &self.first;
    }
}

// The elements at place `i` of two lists that are as long as one another.
pub(crate) fn both<A: Index, B: Index>(
    first: &A,
    second: &B,
    i: usize,
) -> Result<(A::Item, B::Item), Fault>
    requires { length (A.Index.list first.now) ≡ length (B.Index.list second.now) }
    ensures { result ≡ element (zip (A.Index.list first.now) (B.Index.list second.now)) i }
{
    Ok((first.get(i)?, second.get(i)?))
}

// The byte length of slice `k` of the slices of one and then those of another, which refuses what is past its own.
pub(crate) fn joint_len<A: AsBytes, B: AsBytes>(
    first: &A,
    second: &B,
    k: usize,
) -> Result<usize, Fault>
    ensures { result ≡ slice_length (A.AsBytes.slices first.now ++ B.AsBytes.slices second.now) k }
{
    match Side::of(k, first.slices(), MAX_WORDS)? {
        Side::First(j) => first.slice_len(j),
        Side::Second(j) => second.slice_len(j),
    }
}

// Word `i` of slice `k` of these.
pub(crate) fn joint_word<A: AsBytes, B: AsBytes>(
    first: &A,
    second: &B,
    k: usize,
    i: usize,
) -> Result<u64, Fault>
    ensures { result ≡ word_in_slice (A.AsBytes.slices first.now ++ B.AsBytes.slices second.now) k i }
{
    match Side::of(k, first.slices(), MAX_WORDS)? {
        Side::First(j) => first.slice_word(j, i),
        Side::Second(j) => second.slice_word(j, i),
    }
}

impl<A: Listed, B: Listed> Index for Pair<A, B> {
    type Item = (A::Item, B::Item);

    ghost list = { λ c. even_list (A.Kind.elements c.first) (B.Kind.elements c.second) (A.Index.list c.first) (B.Index.list c.second) };

    fn len(&self) -> usize {
        self.first.len()
    }

    fn get(&self, i: usize) -> Result<(A::Item, B::Item), Fault> {
        both(&self.first, &self.second, i)
    }
}

impl<A: Listed + AsBytes, B: Listed + AsBytes> AsBytes for Pair<A, B> {
    ghost slices = { λ c. even_slices A.Kind.format B.Kind.format (A.Kind.elements c.first) (B.Kind.elements c.second) (A.AsBytes.slices c.first) (B.AsBytes.slices c.second) };

    ghost formed = { λ c. even_formed A.Kind.laws B.Kind.laws (A.Kind.elements c.first) (B.Kind.elements c.second) _ _ (A.AsBytes.formed c.first) (B.AsBytes.formed c.second) };

    fn slices(&self) -> usize {
        self.first
            .slices()
            .saturating_add(self.second.slices())
            .min(MAX_WORDS)
    }

    fn slice_len(&self, k: usize) -> Result<usize, Fault> {
        joint_len(&self.first, &self.second, k)
    }

    fn slice_word(&self, k: usize, i: usize) -> Result<u64, Fault> {
        joint_word(&self.first, &self.second, k, i)
    }
}

impl<A: Kind, B: Kind> Kind for Pair<A, B> {
    type Elem = (A::Elem, B::Elem);

    ghost format = { pair_format A.Kind.format B.Kind.format };

    ghost elements = { λ c. even_count (A.Kind.elements c.first) (B.Kind.elements c.second) };

    ghost laws = { pair_laws A.Kind.laws B.Kind.laws };

    fn slice_count() -> usize {
        A::slice_count()
            .saturating_add(B::slice_count())
            .min(MAX_WORDS)
    }
}

impl<A: Listed, B: Listed> Listed for Pair<A, B> {
    ghost counted = { λ c. even_counted _ _ (A.Listed.counted c.first) (B.Listed.counted c.second) };
}

impl<A: Column, B: Column> Column for Pair<A, B> {
    ghost areas = { λ c. beside (A.Column.areas c.first) (B.Column.areas c.second) };

    ghost takes = { pair_takes A.Column.takes B.Column.takes };

    ghost held = { λ c. even_held _ _ (A.Listed.counted c.first) (B.Listed.counted c.second) A.Elem.Value.fits B.Elem.Value.fits (A.Column.held c.first) (B.Column.held c.second) };

    ghost written = { λ c. even_written _ _ (A.Listed.counted c.first) (B.Listed.counted c.second) A.Kind.format B.Kind.format _ _ (A.Column.written c.first) (B.Column.written c.second) };

    fn takes(&self, x: (A::Elem, B::Elem)) -> bool {
        self.first.takes(x.0) && self.second.takes(x.1)
    }

    // Neither side moves where one does not take its part.
    fn push(&mut self, x: (A::Elem, B::Elem)) -> Result<(), Fault> {
        // That both parts fit is promised whatever is answered.
        x.known();
        if !self.takes(x) {
            return Err(Fault::at_start(Refusal::NotTaken));
        }
        self.first.push(x.0)?;
        self.second.push(x.1)
    }

    fn clear(&mut self) {
        self.first.clear();
        self.second.clear();
    }
}
