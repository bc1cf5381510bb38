// Admission for a kind of the card, and the check that the boot loader makes.
ghost use Rattle.std.specs.Prelude.{◌≡◌};
ghost use Rattle.read.specs.Admission.{admission};
ghost use Rattle.kinds.specs.Kinds.{bytes_admission, card_admission, check_answer, length_answer, numbered_admission};

use crate::kinds::{BlockTable, CardKind, EraseMap, SpareCount};
use area::fault::Fault;
use column::kind::{Index, Kind};
use read::form::FromBytes;
use read::validate::validate;
use storage::store::{ByteArea, Store};

// How long the list is that a store's image of kind `K` is admitted with.
fn admitted_len<K: FromBytes, S: Store>(store: &S) -> Result<usize, Fault>
    ensures { result ≡ length_answer (admission K.Kind.format (S.Store.words store.now)) }
{
    Ok(validate::<K, &S>(store)?.view().len())
}

// The same for a kind of the card: by a match, since each is a type of its own.
pub fn admit<S: Store>(kind: CardKind, store: &S) -> Result<usize, Fault>
    ensures { result ≡ card_admission kind (S.Store.words store.now) }
{
    match kind {
        CardKind::BlockTable => admitted_len::<BlockTable, S>(store),
        CardKind::EraseMap => admitted_len::<EraseMap, S>(store),
        CardKind::SpareCount => admitted_len::<SpareCount, S>(store),
    }
}

// The same for the kind of a number, as C gives it, which is asked for before the bytes are looked at.
pub fn admit_bytes(kind: u32, bytes: &[u8]) -> Result<usize, Fault>
    ensures { result ≡ numbered_admission kind bytes.now }
{
    let kind = CardKind::try_from(kind)?;
    admit(kind, &ByteArea::new(bytes)?)
}

// 0 where the bytes are admitted, or else the number of the refusal: what C is answered.
pub fn check_image(kind: u32, bytes: &[u8]) -> u32
    ensures { result ≡ check_answer kind bytes.now }
{
    match admit_bytes(kind, bytes) {
        Ok(_) => 0,
        Err(fault) => fault.refusal.number(),
    }
}
