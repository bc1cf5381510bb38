// A run: elements side by side in a lent area, one text for every element type.
ghost use Rattle.std.specs.Prelude.{◌≡◌, ℕ, ◌*◌, ◌<◌, ◌≤◌, true, List, [], length, take, drop, ◌==◌, slice_index, refl};
ghost use Rattle.area.specs.Digits.{number};
ghost use Rattle.std.specs.List.{flat_map, list_all};
ghost use Rattle.column.specs.Kind.{L, CAP};
ghost use Rattle.column.specs.Column.{cells as area_of};
ghost use Rattle.column.specs.Run.{run_format, run_takes};
ghost use Rattle.column.specs.RunLaws.{run_formed, run_held, run_laws};

use crate::element::{Element, Value};
use crate::kind::{AsBytes, Column, Index, Kind, Listed, MAX_LEN, MAX_WORDS};
use area::fault::{Fault, Refusal};

// The list is the first `len` cells of an area that is lent: the firmware has no heap.
#[derive(Drop)]
pub struct Run<'a, T: Value> {
    cells: &'a mut [T],
    len: usize,
    ghost within: { len ≤ length cells.now },
    ghost short: { len ≤ L },
    ghost fitting: { list_all T.Value.fits (take len cells.now) ≡ true },
}

impl<'a, T: Element> Run<'a, T> {
    // An empty run over an area.
    pub fn new(cells: &'a mut [T]) -> Run<'a, T>
        ensures after { take result.len result.cells.now ≡ [] }
        ensures same { result.cells.now ≡ cells.old }
    {
        Run { cells, len: 0 }
    }

    pub fn is_empty(&self) -> bool
        ensures { result ≡ (self.now.len == 0) }
    {
        self.len == 0
    }
}

impl<'a, T: Element> Index for Run<'a, T> {
    type Item = T;

    ghost list = { λ c. take c.len c.cells.now };

    fn len(&self) -> usize {
        self.len
    }

    fn get(&self, i: usize) -> Result<T, Fault> {
        if i >= self.len {
            return Err(Fault::at_start(Refusal::OutOfRange));
        }
        Ok(self.cells[i])
    }
}

impl<'a, T: Element> Run<'a, T> {
    // Byte `p` of the elements in order, 0 past their end.
    fn byte_at(&self, p: usize) -> u8
        ensures { result ≡ slice_index (flat_map T.Element.codec.bytes (take self.now.len self.now.cells.now)) p }
    {
        let size = T::size();
        // by a match: of a closure over a type parameter's call the check finds no proof
        match self.get(p / size) {
            Ok(x) => x.byte(p % size),
            Err(_) => 0,
        }
    }

    // The eight bytes from place 8 × `i` on as a word, the lowest first.
    fn word_at(&self, i: usize) -> u64
        requires { i < CAP }
        ensures { result ≡ number 256 (take 8 (drop (8 * i) (flat_map T.Element.codec.bytes (take self.now.len self.now.cells.now)))) }
    {
        u64::from_le_bytes(std::array::from_fn(|j: usize| self.byte_at(8 * i + j)))
    }
}

impl<'a, T: Element> AsBytes for Run<'a, T> {
    ghost slices = { λ c. (run_format T.Element.codec).writing (take c.len c.cells.now) };

    ghost formed = { λ c. run_formed T.Value.fits T.Element.codec T.Element.one_to_one (take c.len c.cells.now) c.fitting };

    fn slices(&self) -> usize {
        1
    }

    fn slice_len(&self, k: usize) -> Result<usize, Fault> {
        if k > 0 {
            return Err(Fault::at_start(Refusal::OutOfRange));
        }
        let bytes = self.len.saturating_mul(T::size());
        if bytes > 8 * MAX_WORDS {
            return Err(Fault::at_start(Refusal::ImageTooLong));
        }
        Ok(bytes)
    }

    fn slice_word(&self, k: usize, i: usize) -> Result<u64, Fault> {
        let bytes = self.slice_len(k)?;
        if i >= MAX_WORDS || 8 * i >= bytes {
            return Err(Fault::at_start(Refusal::OutOfRange));
        }
        Ok(self.word_at(i))
    }
}

impl<'a, T: Element> Kind for Run<'a, T> {
    type Elem = T;

    ghost format = { run_format T.Element.codec };

    ghost elements = { λ c. length (take c.len c.cells.now) };

    ghost laws = { run_laws T.Value.fits T.Element.codec T.Element.one_to_one };

    fn slice_count() -> usize {
        1
    }
}

impl<'a, T: Element> Listed for Run<'a, T> {
    ghost counted = { λ _. refl };
}

impl<'a, T: Element> Column for Run<'a, T> {
    ghost areas = { λ c. area_of (length c.cells.now) };

    ghost takes = { run_takes };

    ghost held = { λ c. run_held T.Value.fits c.len c.cells.now c.short c.fitting };

    ghost written = { λ _. refl };

    fn takes(&self, _x: T) -> bool {
        self.len < self.cells.len() && self.len < MAX_LEN
    }

    fn push(&mut self, x: T) -> Result<(), Fault> {
        let x = x.known();
        if !self.takes(x) {
            return Err(Fault::at_start(Refusal::NotTaken));
        }
        let at = self.len;
        self.cells[at] = x;
        self.len = at + 1;
        Ok(())
    }

    fn clear(&mut self) {
        self.len = 0;
    }
}
