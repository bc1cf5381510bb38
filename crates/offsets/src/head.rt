// The head of strides: it stands for stride, 2 × stride, .. length × stride. That these fit a word is said by the column
// that keeps it, and by the read form's view: with a ghost field of its own beside the column's `&mut`, no pair could hold
// the column.
ghost use Rattle.std.specs.Prelude.{◌≡◌, ◌+◌, ◌-◌, ◌*◌, ◌^◌, ◌<◌, min};
ghost use Rattle.column.specs.Column.{element};
ghost use Rattle.offsets.specs.Head.{following_multiple, strides_list};

use area::fault::Fault;
use column::kind::Index;

#[derive(Clone, Copy)]
pub struct Head {
    pub(crate) stride: u64,
    pub(crate) length: u64,
}

impl Head {
    // The head of an empty list.
    pub(crate) const EMPTY: Head = Head {
        stride: 0,
        length: 0,
    };

    // The multiple after those that the head stands for, or none past 2^64 - 1.
    pub(crate) fn next(self) -> Option<u64>
        ensures { result ≡ following_multiple self.stride self.length }
    {
        self.stride.checked_mul(self.length.checked_add(1)?)
    }

    // The length of the list that the head and so many bounds after it stand for, or 2^64 - 1 where it is longer.
    pub(crate) fn len(self, bounds: usize) -> usize
        ensures { result ≡ min (self.length + bounds) (2 ^ 64 - 1) }
    {
        (self.length as usize).saturating_add(bounds)
    }

    // The element at place `i` of the list that the head and the bounds after it stand for.
    pub(crate) fn get<R: Index<Item = u64>>(self, bounds: &R, i: usize) -> Result<u64, Fault>
        requires { self.stride * self.length < 2 ^ 64 }
        ensures { result ≡ element (strides_list self.stride self.length (R.Index.list bounds.now)) i }
    {
        let length = self.length as usize;
        if i < length {
            return Ok(self.stride * (i as u64 + 1));
        }
        bounds.get(i - length)
    }
}
