// A read form with the store that it is lent: a list, and slices that read as it.
ghost use Rattle.std.specs.Prelude.{◌≡◌, length, refl, ⊤};
ghost use Rattle.read.specs.Form.{Passed, Passed-prop, Stands, list_of};
ghost use Rattle.read.specs.FormLaws.{given_formed};

use crate::form::{FromBytes, KeptOnce, ReadForm};
use area::fault::Fault;
use column::kind::{AsBytes, Index, Kind, Listed};
use std::alloc::AllocError;
use std::marker::PhantomData;
use storage::store::Store;

// The form and the store that it reads. That the form stands is kept truncated, since what a kind keeps to may have more than one proof. The borrow checker wants the lifetimes of `K` in the type of a field: `of` names them.
pub struct View<'f, 's, K: ReadForm, S: Store> {
    pub form: &'f K::Form,
    pub store: &'s S,
    pub of: PhantomData<K>,
    pub ghost passed: { Passed K.Kind.format (K.ReadForm.slices form.now (S.Store.words store.now)) } by { Passed-prop K.Kind.format (K.ReadForm.slices form.now (S.Store.words store.now)) },
    pub ghost stands: { ∥ Stands K.ReadForm.slices K.ReadForm.kept K.Kind.format form.now (S.Store.words store.now) ∥₁ },
}

// Two references, which are copied as they are; by hand, since a `Clone` is not derived where a struct with type parameters has a ghost field.
impl<'f, 's, K: ReadForm, S: Store> Copy for View<'f, 's, K, S> {}

impl<'f, 's, K: ReadForm, S: Store> Clone for View<'f, 's, K, S> {
    ghost is_clone = { λ v w. w ≡ v };

    ghost is_infallible = { λ _. ⊤ };

    fn clone(&self) -> Result<Self, AllocError> {
        Ok(*self)
    }
}

impl<'f, 's, K: KeptOnce, S: Store> View<'f, 's, K, S> {
    // Does nothing: its clause is that the form stands, which a caller would else take out of the view's type by a proof.
    pub fn standing(&self)
        ensures { Stands K.ReadForm.slices K.ReadForm.kept K.Kind.format self.now.form.now (S.Store.words self.now.store.now) }
    {}
}

impl<'f, 's, K: FromBytes, S: Store> Index for View<'f, 's, K, S> {
    type Item = K::Elem;

    ghost list = { λ v. list_of K.Kind.format (K.ReadForm.slices v.form.now (S.Store.words v.store.now)) };

    fn len(&self) -> usize {
        K::form_len(self.form)
    }

    fn get(&self, i: usize) -> Result<K::Elem, Fault> {
        K::view_get(self, i)
    }
}

impl<'f, 's, K: FromBytes, S: Store> AsBytes for View<'f, 's, K, S> {
    ghost slices = { λ v. K.Kind.format.giving (K.ReadForm.slices v.form.now (S.Store.words v.store.now)) };

    ghost formed = { λ v. given_formed K.Kind.laws v.passed };

    fn slices(&self) -> usize {
        K::slice_count()
    }

    fn slice_len(&self, k: usize) -> Result<usize, Fault> {
        K::view_slice_len(self, k)
    }

    fn slice_word(&self, k: usize, i: usize) -> Result<u64, Fault> {
        K::view_slice_word(self, k, i)
    }
}

// A view is a list of the kind that it reads.
impl<'f, 's, K: FromBytes, S: Store> Kind for View<'f, 's, K, S> {
    type Elem = K::Elem;

    ghost format = { K.Kind.format };

    ghost elements = { λ v. length (list_of K.Kind.format (K.ReadForm.slices v.form.now (S.Store.words v.store.now))) };

    ghost laws = { K.Kind.laws };

    fn slice_count() -> usize {
        <K as Kind>::slice_count()
    }
}

impl<'f, 's, K: FromBytes, S: Store> Listed for View<'f, 's, K, S> {
    ghost counted = { λ _. refl };
}
