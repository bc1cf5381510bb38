// Strides: multiples of a stride as two numbers, and the elements after them as bounds in a run of words.
ghost use Rattle.std.specs.Prelude.{◌≡◌, ◌+◌, ◌*◌, ◌^◌, ◌<◌, ◌≤◌, ◌==◌, min, ◌&&◌, [], length, take, refl};
ghost use Rattle.column.specs.Kind.{CAP, L};
ghost use Rattle.column.specs.Column.{cells as area_of};
ghost use Rattle.column.specs.Run.{word_run};
ghost use Rattle.offsets.specs.Head.{is_next, strides_list};
ghost use Rattle.offsets.specs.Strides.{Grown, front, strides_format, strides_takes, bounds_at};
ghost use Rattle.offsets.specs.StridesLaws.{strides_formed, strides_held, word_strides_laws};

use crate::bounds::bounds;
use crate::head::Head;
use area::fault::{Fault, Refusal};
use column::kind::{AsBytes, Column, Index, Kind, Listed, MAX_LEN};
use column::run::Run;

// The head and the bounds are its list's own.
#[derive(Drop)]
pub struct Strides<'a> {
    head: Head,
    bounds: Run<'a, u64>,
    ghost product: { head.stride * head.length < 2 ^ 64 },
    ghost cleared: { head.length ≡ 0 → head.stride ≡ 0 },
    ghost longest: { front (strides_list head.stride head.length (take bounds.len bounds.cells.now)) ≡ head.length },
    ghost short: { head.length + bounds.len ≤ L },
}

impl<'a> Strides<'a> {
    // An empty column whose bounds go into the run's area.
    pub fn new(mut bounds: Run<'a, u64>) -> Strides<'a>
        ensures after { strides_list result.head.stride result.head.length (take result.bounds.len result.bounds.cells.now) ≡ [] }
        ensures same { length result.bounds.cells.now ≡ length bounds.entry.cells.now }
    {
        bounds.clear();
        Strides {
            head: Head::EMPTY,
            bounds,
        }
    }

    // Whether `x` is the multiple after the head's, with no bound between.
    fn continues(&self, x: u64) -> bool
        ensures { result ≡ (self.now.bounds.len == 0 && is_next self.now.head.stride self.now.head.length x) }
    {
        self.bounds.is_empty() && self.head.next() == Some(x)
    }

    // The head that stands for `x` too, if there is one.
    fn grown(&self, x: u64) -> Option<Head>
        ensures { Grown self.now.head.stride self.now.head.length (take self.now.bounds.len self.now.bounds.cells.now) x result }
    {
        let Head { stride, length } = self.head;
        if length == 0 {
            return Some(Head {
                stride: x,
                length: 1,
            });
        }
        if self.continues(x) {
            return Some(Head {
                stride,
                length: length + 1,
            });
        }
        None
    }

    // Element `i` - 1, or 0 before the first, and element `i`.
    pub fn bounds(&self, i: usize) -> Result<(u64, u64), Fault>
        ensures { result ≡ bounds_at (strides_list self.now.head.stride self.now.head.length (take self.now.bounds.len self.now.bounds.cells.now)) i }
    {
        bounds(self, i)
    }
}

impl<'a> Index for Strides<'a> {
    type Item = u64;

    ghost list = { λ c. strides_list c.head.stride c.head.length (take c.bounds.len c.bounds.cells.now) };

    fn len(&self) -> usize {
        self.head.len(self.bounds.len())
    }

    fn get(&self, i: usize) -> Result<u64, Fault> {
        self.head.get(&self.bounds, i)
    }
}

impl<'a> AsBytes for Strides<'a> {
    ghost slices = { λ c. (strides_format word_run).writing (strides_list c.head.stride c.head.length (take c.bounds.len c.bounds.cells.now)) };

    ghost formed = { λ c. strides_formed c.head.stride c.head.length c.bounds.len c.bounds.cells.now c.product c.bounds.fitting c.short };

    fn slices(&self) -> usize {
        2
    }

    fn slice_len(&self, k: usize) -> Result<usize, Fault> {
        if k == 0 {
            return Ok(16);
        }
        self.bounds.slice_len(k - 1)
    }

    fn slice_word(&self, k: usize, i: usize) -> Result<u64, Fault> {
        if k > 0 {
            return self.bounds.slice_word(k - 1, i);
        }
        [self.head.stride, self.head.length]
            .get(i)
            .copied()
            .ok_or(Fault::at_start(Refusal::OutOfRange))
    }
}

impl<'a> Kind for Strides<'a> {
    type Elem = u64;

    ghost format = { strides_format word_run };

    ghost elements = { λ c. length (strides_list c.head.stride c.head.length (take c.bounds.len c.bounds.cells.now)) };

    ghost laws = { word_strides_laws };

    // Written out, as the check asks of an `impl` with a lifetime alone where no argument shows the type.
    fn slice_count() -> usize
        ensures { result ≡ min (strides_format word_run).slots CAP }
    {
        // the head, and the run of bounds
        1 + 1
    }
}

impl<'a> Listed for Strides<'a> {
    ghost counted = { λ _. refl };
}

impl<'a> Column for Strides<'a> {
    ghost areas = { λ c. area_of (length c.bounds.cells.now) };

    ghost takes = { strides_takes };

    ghost held = { λ c. strides_held c.head.stride c.head.length c.bounds.len c.bounds.cells.now c.product c.bounds.fitting c.short };

    ghost written = { λ _. refl };

    fn takes(&self, x: u64) -> bool {
        // which head is of no matter here
        self.len() < MAX_LEN && (self.grown(x).is_some() || self.bounds.takes(x))
    }

    fn push(&mut self, x: u64) -> Result<(), Fault> {
        if self.len() >= MAX_LEN {
            return Err(Fault::at_start(Refusal::NotTaken));
        }
        let Some(head) = self.grown(x) else {
            return self.bounds.push(x);
        };
        self.head = head;
        Ok(())
    }

    fn clear(&mut self) {
        self.head = Head::EMPTY;
        self.bounds.clear();
    }
}
