// Admission of any store for any kind.
ghost use Rattle.std.specs.Prelude.{◌≡◌, Some, None, IfOk};
ghost use Rattle.decode.specs.Decode.{slices_of, structure_fault};
ghost use Rattle.read.specs.Admission.{Admits};
ghost use Rattle.read.specs.Form.{Passed, Passed-prop, Stands, list_of};

use crate::form::{FromBytes, KeptOnce, ReadForm};
use crate::view::View;
use area::fault::Fault;
use column::kind::Kind;
use decode::decoded::DecodedStore;
use std::marker::PhantomData;
use storage::store::Store;

// A store that passed questions 1 to 9 of a kind, with the form of its slices.
#[derive(Drop)]
pub struct Admitted<K: ReadForm, S: Store> {
    pub form: K::Form,
    pub store: S,
    pub of: PhantomData<K>,
    pub ghost passed: { Passed K.Kind.format (K.ReadForm.slices form (S.Store.words store)) } by { Passed-prop K.Kind.format (K.ReadForm.slices form (S.Store.words store)) },
    pub ghost stands: { ∥ Stands K.ReadForm.slices K.ReadForm.kept K.Kind.format form (S.Store.words store) ∥₁ },
    pub ghost whole: { K.ReadForm.slices form (S.Store.words store) ≡ slices_of (S.Store.words store) },
    pub ghost asked: { structure_fault (Some K.Kind.format.slots) (S.Store.words store) ≡ None },
}

impl<K: ReadForm, S: Store> Admitted<K, S> {
    pub fn view(&self) -> View<'_, '_, K, S>
        ensures form { result.form.now ≡ self.now.form }
        ensures store { result.store.now ≡ self.now.store }
    {
        View {
            form: &self.form,
            store: &self.store,
            of: PhantomData,
        }
    }
}

impl<K: KeptOnce, S: Store> Admitted<K, S> {
    // Does nothing: its clause is that the form stands, as `standing` of a view.
    pub fn standing(&self)
        ensures { Stands K.ReadForm.slices K.ReadForm.kept K.Kind.format self.now.form (S.Store.words self.now.store) }
    {}
}

// Asks a store questions 1 to 9, and answers the first that it fails.
pub fn validate<K: FromBytes, S: Store + Drop>(store: S) -> Result<Admitted<K, S>, Fault>
    ensures admits { Admits K.Kind.format S.Store.words (λ a. a.store) (λ a. list_of K.Kind.format (K.ReadForm.slices a.form (S.Store.words a.store))) store result }
    ensures stands { IfOk result (λ a. Stands K.ReadForm.slices K.ReadForm.kept K.Kind.format a.form (S.Store.words a.store)) }
{
    let image = DecodedStore::with_slices(&store, K::slice_count())?;
    K::sized(&image, 0)?;
    let form = K::form(&image, 0)?;
    Ok(Admitted {
        form,
        store,
        of: PhantomData,
    })
}
