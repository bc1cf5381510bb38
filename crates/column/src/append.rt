// The one append, for every column and whatever answers a list of its elements.
ghost use Rattle.std.specs.Prelude.{◌≡◌, true, cond, List, length};
ghost use Rattle.std.specs.List.{between, list_all};
ghost use Rattle.column.specs.Column.{range_answer, range_appended};

use crate::kind::{Column, Index};
use area::fault::{Fault, Refusal};

// Puts the source's elements at places `a` to `b` - 1 at the end, up to the first that is not taken: 12 then carries
// how many were added. 10 where `b` is past the source's end.
pub fn append<C: Column, R: Index<Item = C::Elem>>(
    dst: &mut C,
    src: &R,
    a: usize,
    b: usize,
) -> Result<(), Fault>
    ensures answer { result ≡ range_answer (C.Column.takes (C.Column.areas dst.old)) (C.Index.list dst.old) (R.Index.list src.now) a b }
    ensures after { C.Index.list dst.new ≡ range_appended (C.Column.takes (C.Column.areas dst.old)) (C.Index.list dst.old) (R.Index.list src.now) a b }
    ensures same { C.Column.areas dst.new ≡ C.Column.areas dst.old }
{
    if b > src.len() {
        return Err(Fault::at_start(Refusal::OutOfRange));
    }
    for i in a..b {
        let refused = Fault::at(Refusal::NotTaken, i - a);
        dst.push(src.get(i)?).map_err(|_| refused)?;
    }
    Ok(())
}
