// Empties: elements that hold nothing, as their count.
ghost use Rattle.std.specs.Prelude.{◌≡◌, ℕ, length, refl};
ghost use Rattle.column.specs.Column.{none as no_area};
ghost use Rattle.tuple.specs.Empties.{empties_format, empties_list, empties_takes};
ghost use Rattle.tuple.specs.EmptiesLaws.{empties_formed, empties_held, empties_laws};

use area::fault::{Fault, Refusal};
use column::kind::{AsBytes, Column, Index, Kind, Listed};

// No list has more elements than a `u32` counts. A ghost field for the limit would keep empties out of nested pairs:
// the checker does not cover a type argument that "holds a `&mut` and a struct that has a ghost field".
#[derive(Clone, Copy)]
pub struct Empties {
    pub(crate) count: u32,
}

impl Empties {
    pub fn new() -> Empties
        ensures { result.count ≡ 0 }
    {
        Empties { count: 0 }
    }
}

impl Index for Empties {
    type Item = ();

    ghost list = { λ c. empties_list c.count };

    fn len(&self) -> usize {
        self.count as usize
    }

    fn get(&self, i: usize) -> Result<(), Fault> {
        if i >= self.len() {
            return Err(Fault::at_start(Refusal::OutOfRange));
        }
        Ok(())
    }
}

impl AsBytes for Empties {
    ghost slices = { λ c. empties_format.writing (empties_list c.count) };

    ghost formed = { λ c. empties_formed c.count };

    fn slices(&self) -> usize {
        1
    }

    fn slice_len(&self, k: usize) -> Result<usize, Fault> {
        if k > 0 {
            return Err(Fault::at_start(Refusal::OutOfRange));
        }
        Ok(8)
    }

    fn slice_word(&self, k: usize, i: usize) -> Result<u64, Fault> {
        if k > 0 || i > 0 {
            return Err(Fault::at_start(Refusal::OutOfRange));
        }
        Ok(u64::from(self.count))
    }
}

impl Kind for Empties {
    type Elem = ();

    ghost format = { empties_format };

    ghost elements = { λ c. length (empties_list c.count) };

    ghost laws = { empties_laws };

    fn slice_count() -> usize {
        1
    }
}

impl Listed for Empties {
    ghost counted = { λ _. refl };
}

impl Column for Empties {
    ghost areas = { λ _. no_area };

    ghost takes = { empties_takes };

    ghost held = { λ c. empties_held c.count };

    ghost written = { λ _. refl };

    fn takes(&self, _x: ()) -> bool {
        self.count < u32::MAX
    }

    fn push(&mut self, x: ()) -> Result<(), Fault> {
        if !self.takes(x) {
            return Err(Fault::at_start(Refusal::NotTaken));
        }
        self.count += 1;
        Ok(())
    }

    fn clear(&mut self) {
        self.count = 0;
    }
}
