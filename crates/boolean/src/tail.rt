// The tail that a column of bools keeps: the elements after the last full group, the first lowest.
ghost use Rattle.std.specs.Prelude.{◌≡◌, ◌+◌, ◌-◌, ◌*◌, ◌^◌, min};
ghost use Rattle.boolean.specs.Tail.{stored_tail};

// What holds of a kept tail, at most 63 elements and unused bits 0, is said where it is kept: a column with a ghost field in
// a part that holds no reference could be no side of a pair.
#[derive(Clone, Copy)]
pub struct Tail {
    pub(crate) word: u64,
    pub(crate) count: u64,
}

impl Tail {
    pub(crate) const EMPTY: Tail = Tail { word: 0, count: 0 };

    // The tail that a stored word and count stand for, its unused bits dropped; none where the count is above 63.
    pub(crate) fn stored(word: u64, count: u64) -> Option<Tail>
        ensures { result ≡ stored_tail word count }
    {
        if count > 63 {
            return None;
        }
        Some(Tail {
            word: word % (1 << count),
            count,
        })
    }

    // The length of the list that so many words and the tail stand for, or 2^64 - 1 where it is longer.
    pub(crate) fn len(self, words: usize) -> usize
        ensures { result ≡ min (64 * words + self.count) (2 ^ 64 - 1) }
    {
        words.saturating_mul(64).saturating_add(self.count as usize)
    }
}
