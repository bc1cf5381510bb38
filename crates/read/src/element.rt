// Elements of runs, read from a store.
ghost use Rattle.std.specs.Prelude.{◌≡◌, suc, ◌+◌, ◌*◌, ◌≤◌, length, Some, slice_get};
ghost use Rattle.read.specs.Form.{element_at};

use column::element::{Element, Value};
use storage::store::Store;

// An element that can be read where it stands.
pub trait Stored: Element {
    // Element `i` of those that stand side by side from word `from` on; none past the store's end.
    fn read<S: Store>(store: &S, from: usize, i: usize) -> Option<Self>
        ensures { 8 * from + Self.Element.codec.size * suc i ≤ 8 * length (S.Store.words store.now) → result ≡ Some (element_at Self.Element.codec (S.Store.words store.now) from i) };
}

// Word `i` from word `from` on; none past the store's end, which is asked first, so that a sum cut at the largest number finds
// no word.
fn word_from<S: Store>(store: &S, from: usize, i: usize) -> Option<u64>
    ensures { result ≡ slice_get (S.Store.words store.now) (from + i) }
{
    if from >= store.count() {
        return None;
    }
    store.word(from.saturating_add(i))
}

// An impl for each type, as of `Element`.
impl Stored for u64 {
    fn read<S: Store>(store: &S, from: usize, i: usize) -> Option<u64> {
        word_from(store, from, i)
    }
}

impl Stored for u8 {
    fn read<S: Store>(store: &S, from: usize, i: usize) -> Option<u8> {
        let word = word_from(store, from, i / 8)?;
        Some(word.to_le_bytes()[i % 8])
    }
}
