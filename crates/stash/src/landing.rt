// The area that a reload writes to, as a sink.
ghost use Rattle.std.specs.Prelude.{◌-◌, ◌∷◌, length, take, drop};

use storage::write::{ByteSink, Full, WriteBytes};

// A `ByteSink` that is lent. What it has taken begins with the ghost names of that sink and of its area, which no call
// drops: so the area that was lent is known to be the one that was written to.
#[derive(Drop)]
pub struct Landing<'s, 'a> {
    pub sink: &'s mut ByteSink<'a>,
}

impl<'s, 'a> WriteBytes for Landing<'s, 'a> {
    type Error = Full;

    ghost taken = { λ s. s.sink.ghost_name ∷ (s.sink.now.area.ghost_name ∷ take s.sink.now.at s.sink.now.area.now) };

    ghost room = { λ s. length s.sink.now.area.now - s.sink.now.at };

    ghost beyond = { λ s. drop s.sink.now.at s.sink.now.area.now };

    ghost fault = { λ _ _. record {} };

    fn write_all(&mut self, bytes: &[u8]) -> Result<(), Full> {
        self.sink.write_all(bytes)
    }
}
