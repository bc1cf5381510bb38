// What C is answered.
ghost use Rattle.std.specs.Prelude.{◌≡◌};
ghost use Rattle.beside.specs.Answer.{answer_number, answer_value, told};

use area::fault::Fault;

// 0 and a value at `at`, or else the number of the refusal, which leaves `at`.
pub fn answer<T: Copy>(found: Result<T, Fault>, at: &mut T) -> u32
    ensures number { result ≡ answer_number found }
    ensures after { at.new ≡ answer_value found at.old }
{
    match found {
        Ok(value) => {
            *at = value;
            0
        }
        Err(fault) => fault.refusal.number(),
    }
}

// The same of two values.
pub fn answer_both<T: Copy>(found: Result<(T, T), Fault>, first: &mut T, second: &mut T) -> u32
    ensures number { result ≡ answer_number found }
    ensures first { first.new ≡ answer_value (told (λ p. p.0) found) first.old }
    ensures second { second.new ≡ answer_value (told (λ p. p.1) found) second.old }
{
    match found {
        Ok((a, b)) => {
            *first = a;
            *second = b;
            0
        }
        Err(fault) => fault.refusal.number(),
    }
}
