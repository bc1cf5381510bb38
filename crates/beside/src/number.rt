// Elements as numbers.
ghost use Rattle.std.specs.Prelude.{◌≡◌, ℕ, ◌%◌, ◌^◌, ◌-◌, Bool, List, map, ◌==◌, nat_le};
ghost use Rattle.std.specs.List.{list_all};

use area::fault::{Fault, Refusal};
use column::element::Value;
use column::kind::Index;
use std::marker::PhantomData;

// An element that the numbers up to a largest one stand for.
pub trait Numbered: Value {
    ghost most: { ℕ };

    ghost element: { ℕ → Self };

    // The largest number that stands for an element.
    fn most() -> u64
        ensures { result ≡ most };

    // The element that a number stands for; which one for a larger number does not matter, since that is refused before.
    fn element(number: u64) -> Self
        ensures { result ≡ element number };
}

impl Numbered for u64 {
    ghost most = { 2 ^ 64 - 1 };

    ghost element = { λ n. n };

    fn most() -> u64 {
        u64::MAX
    }

    fn element(number: u64) -> u64 {
        number
    }
}

impl Numbered for u8 {
    ghost most = { 255 };

    ghost element = { λ n. n % 256 };

    fn most() -> u64 {
        u64::from(u8::MAX)
    }

    fn element(number: u64) -> u8 {
        (number % 256) as u8
    }
}

impl Numbered for bool {
    ghost most = { 1 };

    ghost element = { λ n. n == 1 };

    fn most() -> u64 {
        1
    }

    fn element(number: u64) -> bool {
        number == 1
    }
}

impl Numbered for () {
    ghost most = { 0 };

    ghost element = { λ _. tt };

    fn most() -> u64 {
        0
    }

    fn element(_number: u64) {}
}

// The elements that numbers stand for, as a list.
#[derive(Drop)]
pub struct Numbers<'a, E> {
    pub numbers: &'a [u64],
    pub of: PhantomData<E>,
}

impl<'a, E: Numbered> Index for Numbers<'a, E> {
    type Item = E;

    ghost list = { λ s. map E.Numbered.element s.numbers.now };

    #[tactic(auto, using(crate::proofs::NumberLemmas::length_numbers))]
    fn len(&self) -> usize {
        self.numbers.len()
    }

    #[tactic(auto, using(crate::proofs::NumberLemmas::element_in, crate::proofs::NumberLemmas::element_beyond))]
    fn get(&self, i: usize) -> Result<E, Fault> {
        if i >= self.numbers.len() {
            return Err(Fault::at_start(Refusal::OutOfRange));
        }
        Ok(E::element(self.numbers[i]))
    }
}

// Whether none of the numbers is larger than `most`.
pub fn all_within(numbers: &[u64], most: u64) -> bool
    ensures { result ≡ list_all (λ n. nat_le n most) numbers.now }
{
    numbers.iter().all(|number| *number <= most)
}
