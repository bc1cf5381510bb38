// Bools: full groups of 64 as words of the column below, the rest in a tail.
ghost use Rattle.std.specs.Prelude.{◌≡◌, ◌+◌, ◌*◌, ◌^◌, ◌<◌, ◌≤◌, List, [], ◌∷◌, ◌++◌, slice_index_or};
ghost use Rattle.column.specs.Kind.{L};
ghost use Rattle.boolean.specs.Bools.{bools_list, tail_slice, bools_format, bools_takes, range_bits, given_bits, bits_pushed, push_bits_answer};
ghost use Rattle.boolean.specs.BoolsLaws.{bools_counted, bools_formed, bools_held, bools_laws, bools_written, few_elements};

use crate::tail::Tail;
use area::fault::{Fault, Refusal};
use column::kind::{AsBytes, Column, Index, Kind, Listed, MAX_LEN, MAX_WORDS, Side};

#[derive(Drop)]
pub struct Bools<C: Kind> {
    pub(crate) values: C,
    pub(crate) tail: Tail,
    ghost few: { tail.count ≤ 63 },
    ghost clean: { tail.word < 2 ^ tail.count },
    ghost short: { 64 * C.Kind.elements values + tail.count ≤ L },
}

// Whether the `count` lowest bits of `bits` are all that it has, and at most 64.
fn bits_given(bits: u64, count: usize) -> bool
    ensures { result ≡ given_bits bits count }
{
    count == 64 || count < 64 && bits >> count == 0
}

impl<C: Column<Elem = u64>> Bools<C> {
    // An empty column over another, which is cleared.
    pub fn new(mut values: C) -> Bools<C>
        ensures after { bools_list (C.Index.list result.values) result.tail ≡ [] }
        ensures same { C.Column.areas result.values ≡ C.Column.areas values }
    {
        values.clear();
        Bools {
            values,
            tail: Tail::EMPTY,
        }
    }

    // Puts the `count` lowest bits of `bits` at the end, the lowest first: all of them or none. 11 where `count` is
    // above 64 or a bit is set at or above it, 12 where one of them is not taken.
    // Inlined, so that a push of one mark, which is most of them, asks no more than one mark needs.
    #[inline(always)]
    pub fn push_bits(&mut self, bits: u64, count: usize) -> Result<(), Fault>
        ensures answer { result ≡ push_bits_answer (bools_takes C.Column.takes (C.Column.areas self.old.values)) (bools_list (C.Index.list self.old.values) self.old.tail) bits count }
        ensures after { bools_list (C.Index.list self.new.values) self.new.tail ≡ bits_pushed (bools_takes C.Column.takes (C.Column.areas self.old.values)) (bools_list (C.Index.list self.old.values) self.old.tail) bits count }
        ensures same { C.Column.areas self.new.values ≡ C.Column.areas self.old.values }
    {
        if !bits_given(bits, count) {
            return Err(Fault::at_start(Refusal::BitCount));
        }
        if count > MAX_LEN - self.len() {
            return Err(Fault::at_start(Refusal::NotTaken));
        }
        let Tail { word, count: held } = self.tail;
        let word = word | bits << held;
        let total = held + count as u64;
        if total < 64 {
            self.tail = Tail { word, count: total };
            return Ok(());
        }
        self.values.push(word)?;
        self.tail = Tail {
            word: bits.unbounded_shr((64 - held) as u32),
            count: total - 64,
        };
        Ok(())
    }
}

impl<C: Listed<Elem = u64>> Bools<C> {
    // The group that element 64 × `block` begins, which is the tail past the full groups.
    fn word(&self, block: usize) -> u64
        ensures { result ≡ slice_index_or (C.Index.list self.now.values) block self.now.tail.word }
    {
        self.values.get(block).unwrap_or(self.tail.word)
    }

    // `count` elements from place `pos` on as a number, the first lowest. 11 where `count` is above 64, 10 where the
    // range passes the end.
    pub fn bits_at(&self, pos: usize, count: usize) -> Result<u64, Fault>
        ensures { result ≡ range_bits (bools_list (C.Index.list self.now.values) self.now.tail) pos count }
    {
        if count > 64 {
            return Err(Fault::at_start(Refusal::BitCount));
        }
        let len = self.len();
        if pos > len || count > len - pos {
            return Err(Fault::at_start(Refusal::OutOfRange));
        }
        if count == 0 {
            return Ok(0);
        }
        let block = pos / 64;
        let bit = pos % 64;
        let mut word = self.word(block) >> bit;
        if bit + count > 64 {
            word |= self.word(block + 1) << (64 - bit);
        }
        let mask = if count < 64 {
            (1 << count) - 1
        } else {
            u64::MAX
        };
        Ok(word & mask)
    }
}

impl<C: Listed<Elem = u64>> Index for Bools<C> {
    type Item = bool;

    ghost list = { λ c. bools_list (C.Index.list c.values) c.tail };

    fn len(&self) -> usize {
        self.tail.len(self.values.len())
    }

    fn get(&self, i: usize) -> Result<bool, Fault> {
        Ok(self.bits_at(i, 1)? == 1)
    }
}

impl<C: Listed<Elem = u64> + AsBytes> AsBytes for Bools<C> {
    ghost slices = { λ c. C.AsBytes.slices c.values ++ tail_slice c.tail.word c.tail.count ∷ [] };

    ghost formed = { λ c. bools_formed c.tail.count c.tail.word c.few c.clean (C.AsBytes.slices c.values) (C.AsBytes.formed c.values) };

    fn slices(&self) -> usize {
        (self.values.slices() + 1).min(MAX_WORDS)
    }

    fn slice_len(&self, k: usize) -> Result<usize, Fault> {
        match Side::of(k, self.values.slices(), 1)? {
            Side::First(j) => self.values.slice_len(j),
            Side::Second(_) => Ok(16),
        }
    }

    fn slice_word(&self, k: usize, i: usize) -> Result<u64, Fault> {
        match Side::of(k, self.values.slices(), 1)? {
            Side::First(j) => self.values.slice_word(j, i),
            Side::Second(_) => [self.tail.word, self.tail.count]
                .get(i)
                .copied()
                .ok_or(Fault::at_start(Refusal::OutOfRange)),
        }
    }
}

impl<C: Kind<Elem = u64>> Kind for Bools<C> {
    type Elem = bool;

    ghost format = { bools_format C.Kind.format };

    ghost elements = { λ c. 64 * C.Kind.elements c.values + c.tail.count };

    ghost laws = { bools_laws C.Kind.format C.Kind.laws };

    fn slice_count() -> usize {
        (C::slice_count() + 1).min(MAX_WORDS)
    }
}

impl<C: Listed<Elem = u64>> Listed for Bools<C> {
    ghost counted = { λ c. bools_counted (C.Index.list c.values) c.tail.count c.tail.word (C.Listed.counted c.values) };
}

impl<C: Column<Elem = u64>> Column for Bools<C> {
    ghost areas = { λ c. C.Column.areas c.values };

    ghost takes = { bools_takes C.Column.takes };

    ghost held = { λ c. bools_held (C.Index.list c.values) c.tail.count c.tail.word (few_elements (C.Index.list c.values) c.tail.count (C.Listed.counted c.values) c.short) };

    ghost written = { λ c. bools_written (C.Index.list c.values) c.tail.count c.tail.word (C.Column.held c.values) c.few C.Kind.format (C.AsBytes.slices c.values) (C.Column.written c.values) c.clean };

    fn takes(&self, x: bool) -> bool {
        if self.len() >= MAX_LEN {
            return false;
        }
        if self.tail.count < 63 {
            return true;
        }
        self.values.takes(self.tail.word | u64::from(x) << 63)
    }

    fn push(&mut self, x: bool) -> Result<(), Fault> {
        self.push_bits(u64::from(x), 1)
    }

    fn clear(&mut self) {
        self.values.clear();
        self.tail = Tail::EMPTY;
    }
}
