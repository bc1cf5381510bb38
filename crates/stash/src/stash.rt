// A table: a column, or a stored image with its read form.
ghost use Rattle.std.specs.Prelude.{◌≡◌, [], Err};
ghost use Rattle.area.specs.Fault.{refuse};
ghost use Rattle.area.specs.declared.fault.Refusal.TheVariants.{NotTyped};
ghost use Rattle.column.specs.Kind.{Held};
ghost use Rattle.stash.specs.History.{after, answer, append as append_call, clear as clear_call, holds, typed_answer, push as push_call, typed};
ghost use Rattle.stash.specs.Stash.{AdmittedTable, Filled, call_of, table_of};

use area::fault::{Fault, Refusal};
use column::append::append;
use column::element::Value;
use column::kind::{Column, Index, Kind};
use read::form::FromBytes;
use read::validate::{Admitted, validate};
use storage::store::Store;

// The three states of a table. The images are type arguments: a caller of an enum that named `Admitted<C, _>` in two
// variants, where a column `C` holds a `&mut`, is not covered by the borrow checker.
#[derive(Drop)]
pub enum State<C: Drop, B: Drop, A: Drop> {
    Typed(C),
    Bytes(B),
    Align(A),
}

// A table over columns `C`: a stored image that it holds was admitted.
pub type Stash<C, B, A> = State<C, Admitted<C, B>, Admitted<C, A>>;

// The calls that may change a table. A source is held as it is: a column, a read form, or a reference to one.
#[derive(Drop)]
pub enum Event<
    C: Column + Drop,
    R: Index<Item = C::Elem> + Drop,
    B: Store + Drop,
    A: Store + Drop,
> {
    Push(C::Elem),
    Append(R, usize, usize),
    Clear,
    MakeTyped(C),
    Bytes(B),
    Align(A),
}

// The answer of a call that acts on Typed tables only. A function that lent the column of such a table, for `?`, would have to
// say in separation logic what the table is once the loan is over.
fn not_typed() -> Result<(), Fault>
    ensures { result ≡ Err (refuse NotTyped 0) }
{
    Err(Fault::at_start(Refusal::NotTyped))
}

// Clears a ready column and appends a list to it. One that does not take the whole list is let go.
pub fn fill<C: Column + Drop, R: Index<Item = C::Elem>>(
    mut ready: C,
    source: &R,
) -> Result<C, Fault>
    ensures { Filled C.Column ready (R.Index.list source.now) result }
{
    ready.clear();
    append(&mut ready, source, 0, source.len())?;
    Ok(ready)
}

// A table is a list: of its column, or of the view of its image. By a match, here and in `table`, since the states are of
// three types.
impl<C: Column + FromBytes + Drop, B: Store + Drop, A: Store + Drop> Index
    for State<C, Admitted<C, B>, Admitted<C, A>> {
    type Item = C::Elem;

    ghost list = { λ s. holds C.Kind.format (table_of C.Column s) };

    fn len(&self) -> usize {
        match self {
            State::Typed(column) => column.len(),
            State::Bytes(image) => image.view().len(),
            State::Align(image) => image.view().len(),
        }
    }

    fn get(&self, i: usize) -> Result<C::Elem, Fault> {
        match self {
            State::Typed(column) => column.get(i),
            State::Bytes(image) => image.view().get(i),
            State::Align(image) => image.view().get(i),
        }
    }
}

impl<C: Column + FromBytes + Drop, B: Store + Drop, A: Store + Drop> Stash<C, B, A> {
    // A fresh table: Typed, and its list empty.
    pub fn new(mut column: C) -> Stash<C, B, A>
        ensures { table_of C.Column result ≡ typed (C.Column.areas column) [] }
    {
        column.clear();
        Stash::Typed(column)
    }

    // The table of a stored image that is admitted, or the first question that it fails.
    pub fn try_from_bytes(store: B) -> Result<Stash<C, B, A>, Fault>
        ensures { AdmittedTable C.Column (B.Store.words store) result }
    {
        Ok(Stash::Bytes(validate(store)?))
    }

    // Answers a call by the table's present state and the call together: by a match, as the definitions tell the calls. That
    // what the table holds is a list that the kind writes stands here and on each call, since a history is made of calls.
    pub fn apply<R: Index<Item = C::Elem> + Drop>(
        &mut self,
        event: Event<C, R, B, A>,
    ) -> Result<(), Fault>
        ensures answer { result ≡ answer C.Kind.format C.Column.takes (table_of C.Column self.old) (call_of C.Column R.Index.list B.Store A.Store event) }
        ensures after { table_of C.Column self.new ≡ after C.Kind.format C.Column.takes (table_of C.Column self.old) (call_of C.Column R.Index.list B.Store A.Store event) }
        ensures held { Held C.Elem.Value.fits (holds C.Kind.format (table_of C.Column self.new)) }
    {
        match event {
            Event::Push(x) => match self {
                Stash::Typed(c) => c.push(x),
                _ => not_typed(),
            },
            Event::Append(source, a, b) => match self {
                Stash::Typed(c) => append(c, &source, a, b),
                _ => not_typed(),
            },
            Event::Clear => match self {
                Stash::Typed(c) => {
                    c.clear();
                    Ok(())
                }
                Stash::Bytes(_) | Stash::Align(_) => not_typed(),
            },
            Event::MakeTyped(ready) => {
                // from one view, and not from the table, which would be asked for its state at each element
                let filled = match &*self {
                    Stash::Typed(_) => return Ok(()),
                    Stash::Bytes(image) => fill(ready, &image.view())?,
                    Stash::Align(image) => fill(ready, &image.view())?,
                };
                *self = Stash::Typed(filled);
                Ok(())
            }
            Event::Bytes(store) => {
                *self = Stash::Bytes(validate(store)?);
                Ok(())
            }
            Event::Align(store) => {
                if let Stash::Align(_) = self {
                    return Ok(());
                }
                *self = Stash::Align(validate(store)?);
                Ok(())
            }
        }
    }

    // Puts `x` at the end.
    pub fn push(&mut self, x: C::Elem) -> Result<(), Fault>
        ensures answer { result ≡ answer C.Kind.format C.Column.takes (table_of C.Column self.old) (push_call x) }
        ensures after { table_of C.Column self.new ≡ after C.Kind.format C.Column.takes (table_of C.Column self.old) (push_call x) }
        ensures held { Held C.Elem.Value.fits (holds C.Kind.format (table_of C.Column self.new)) }
    {
        self.apply::<C>(Event::Push(x))
    }

    // Puts the elements at places `a` to `b` - 1 of a column or read form at the end.
    pub fn append<R: Index<Item = C::Elem>>(
        &mut self,
        source: &R,
        a: usize,
        b: usize,
    ) -> Result<(), Fault>
        ensures answer { result ≡ answer C.Kind.format C.Column.takes (table_of C.Column self.old) (append_call (R.Index.list source.now) a b) }
        ensures after { table_of C.Column self.new ≡ after C.Kind.format C.Column.takes (table_of C.Column self.old) (append_call (R.Index.list source.now) a b) }
        ensures held { Held C.Elem.Value.fits (holds C.Kind.format (table_of C.Column self.new)) }
    {
        self.apply(Event::Append(source, a, b))
    }

    // Empties the list.
    pub fn clear(&mut self) -> Result<(), Fault>
        ensures answer { result ≡ answer C.Kind.format C.Column.takes (table_of C.Column self.old) clear_call }
        ensures after { table_of C.Column self.new ≡ after C.Kind.format C.Column.takes (table_of C.Column self.old) clear_call }
        ensures held { Held C.Elem.Value.fits (holds C.Kind.format (table_of C.Column self.new)) }
    {
        self.apply::<C>(Event::Clear)
    }

    // Puts the list into a ready column, which is cleared first. A Typed table accepts, and lets the column go.
    pub fn make_typed(&mut self, ready: C) -> Result<(), Fault>
        ensures answer { result ≡ answer C.Kind.format C.Column.takes (table_of C.Column self.old) (typed_answer (C.Column.areas ready)) }
        ensures after { table_of C.Column self.new ≡ after C.Kind.format C.Column.takes (table_of C.Column self.old) (typed_answer (C.Column.areas ready)) }
        ensures held { Held C.Elem.Value.fits (holds C.Kind.format (table_of C.Column self.new)) }
    {
        self.apply::<C>(Event::MakeTyped(ready))
    }
}
