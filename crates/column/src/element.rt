// The types that columns hold.
ghost use Rattle.std.specs.Prelude.{◌≡◌, ℕ, ◌^◌, Bool, true, ◌&&◌, nat_lt, slice_index};
ghost use Rattle.std.proofs.Common.{lit<};
ghost use Rattle.column.specs.Element.{Codec, OneToOne, unsigned};
ghost use Rattle.column.specs.RunLaws.{unsigned_one_to_one};

// A number of the logic has no width: `fits` says which values the type has.
pub trait Value: Copy {
    ghost fits: { Self → Bool };

    // The value itself, which is known to fit: it does nothing else, since no clause of another function may say so of each of
    // its arguments.
    fn known(self) -> Self
        ensures same { result ≡ self }
        ensures within { fits self ≡ true };
}

// An impl for each type, here and below: the library has no trait over the unsigned numbers that has their bits.
impl Value for u64 {
    ghost fits = { λ x. nat_lt x (2 ^ 64) };

    fn known(self) -> u64 {
        self
    }
}

impl Value for u8 {
    ghost fits = { λ x. nat_lt x (2 ^ 8) };

    fn known(self) -> u8 {
        self
    }
}

impl Value for bool {
    ghost fits = { λ _. true };

    fn known(self) -> bool {
        self
    }
}

impl Value for () {
    ghost fits = { λ _. true };

    fn known(self) {
        self
    }
}

impl<A: Value, B: Value> Value for (A, B) {
    ghost fits = { λ p. A.Value.fits p.0 && B.Value.fits p.1 };

    fn known(self) -> (A, B) {
        (self.0.known(), self.1.known())
    }
}

// An element of a run: its values match byte strings of one nonzero size, one to one.
pub trait Element: Value {
    ghost codec: { Codec Self };

    // The size in bytes.
    fn size() -> usize
        ensures { result ≡ codec.size };

    // The byte at a place of its byte string, 0 past the end.
    fn byte(self, j: usize) -> u8
        ensures { result ≡ slice_index (codec.bytes self) j };

    ghost one_to_one: { OneToOne Self.Value.fits codec };
}

impl Element for u64 {
    ghost codec = { unsigned 8 };

    ghost one_to_one = { unsigned_one_to_one 8 (lit< tt) };

    fn size() -> usize {
        (u64::BITS / 8) as usize
    }

    fn byte(self, j: usize) -> u8 {
        self.to_le_bytes().get(j).copied().unwrap_or(0)
    }
}

impl Element for u8 {
    ghost codec = { unsigned 1 };

    ghost one_to_one = { unsigned_one_to_one 1 (lit< tt) };

    fn size() -> usize {
        (u8::BITS / 8) as usize
    }

    fn byte(self, j: usize) -> u8 {
        if j == 0 { self } else { 0 }
    }
}
