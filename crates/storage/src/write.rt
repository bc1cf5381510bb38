// Sinks: where images are written to, piece by piece. A piece is taken whole or not at all.
ghost use Rattle.std.specs.Prelude.{◌≡◌, ℕ, ◌+◌, ◌-◌, ◌*◌, ◌<◌, ◌≤◌, List, length, take, drop, slice_set};
ghost use Rattle.area.specs.Digits.{digits};
ghost use Rattle.area.specs.Slice.{spill};
ghost use Rattle.storage.specs.Sink.{counting, leaving, piece_answer, quota_fault, quota_room, room_after, taking};

// A sink means the bytes that it has taken, the room that is left, and the bytes of its area that it has not reached.
// Its fault is its own: `fault` names it.
pub trait WriteBytes {
    type Error;

    ghost taken: { Self → List ℕ };

    ghost room: { Self → ℕ };

    ghost beyond: { Self → List ℕ };

    ghost fault: { Self → List ℕ → Self.Error };

    // Takes a piece whole exactly when it is no longer than the room; else its fault, and nothing moves.
    fn write_all(&mut self, bytes: &[u8]) -> Result<(), Self::Error>
        ensures answer { result ≡ piece_answer (room self.old) bytes.now (fault self.new bytes.now) }
        ensures taken { taken self.new ≡ taking (room self.old) (taken self.old) bytes.now }
        ensures room { room self.new ≡ room_after (room self.old) bytes.now }
        ensures beyond { beyond self.new ≡ leaving (room self.old) (beyond self.old) bytes.now };
}

// The fault of an area: it is full.
#[derive(Clone, Copy)]
pub struct Full;

// A byte area that is lent, since the firmware has no heap: the first `at` bytes are taken.
#[derive(Drop)]
pub struct ByteSink<'a> {
    area: &'a mut [u8],
    at: usize,
    ghost within: { at ≤ length area.now },
}

impl<'a> ByteSink<'a> {
    pub fn new(area: &'a mut [u8]) -> ByteSink<'a>
        ensures start { (result.at ≡ 0) × (result.area.now ≡ area.old) }
        ensures area { result.area.ghost_name ≡ area.entry.ghost_name }
    {
        ByteSink { area, at: 0 }
    }

    // How many bytes are taken.
    pub fn count(&self) -> usize
        ensures { result ≡ self.now.at }
    {
        self.at
    }
}

impl<'a> WriteBytes for ByteSink<'a> {
    type Error = Full;

    ghost taken = { λ s. take s.at s.area.now };

    ghost room = { λ s. length s.area.now - s.at };

    ghost beyond = { λ s. drop s.at s.area.now };

    ghost fault = { λ _ _. record {} };

    // Beside the clauses of the trait, which have to be written again where one is added: the sink still writes to the area
    // that it was made over.
    fn write_all(&mut self, bytes: &[u8]) -> Result<(), Full>
        ensures answer { result ≡ piece_answer (length self.old.area.now - self.old.at) bytes.now (record {}) }
        ensures taken { take self.new.at self.new.area.now ≡ taking (length self.old.area.now - self.old.at) (take self.old.at self.old.area.now) bytes.now }
        ensures room { length self.new.area.now - self.new.at ≡ room_after (length self.old.area.now - self.old.at) bytes.now }
        ensures beyond { drop self.new.at self.new.area.now ≡ leaving (length self.old.area.now - self.old.at) (drop self.old.at self.old.area.now) bytes.now }
        ensures area { self.new.area.ghost_name ≡ self.old.area.ghost_name }
    {
        if bytes.len() > self.area.len() - self.at {
            return Err(Full);
        }
        let end = self.at + bytes.len();
        match bytes {
            // one byte takes less than a call that copies
            [byte] => self.area[self.at] = *byte,
            _ => self.area[self.at..end].copy_from_slice(bytes),
        }
        self.at = end;
        Ok(())
    }
}

// A word area that is lent: its bytes are those of its words, the lowest first. The first `at` words are taken, and `part` bytes of the next.
#[derive(Drop)]
pub struct WordSink<'a> {
    area: &'a mut [u64],
    at: usize,
    part: usize,
    ghost within: { 8 * at + part ≤ 8 * length area.now },
    ghost in_word: { part < 8 },
}

// The word with byte `j` replaced.
fn with_byte(word: u64, j: usize, byte: u8) -> u64
    requires { j < 8 }
    ensures { digits 256 8 result ≡ slice_set (digits 256 8 word) j byte }
{
    let mut bytes = word.to_le_bytes();
    bytes[j] = byte;
    u64::from_le_bytes(bytes)
}

impl<'a> WordSink<'a> {
    pub fn new(area: &'a mut [u64]) -> WordSink<'a>
        ensures { (result.at ≡ 0) × ((result.part ≡ 0) × (result.area.now ≡ area.old)) }
    {
        WordSink {
            area,
            at: 0,
            part: 0,
        }
    }

    // Writes the next byte.
    fn put(&mut self, byte: u8)
        requires { self.old.at < length self.old.area.now }
        ensures next { 8 * self.new.at + self.new.part ≡ 8 * self.old.at + self.old.part + 1 }
        ensures written { spill self.new.area.now ≡ slice_set (spill self.old.area.now) (8 * self.old.at + self.old.part) byte }
    {
        self.area[self.at] = with_byte(self.area[self.at], self.part, byte);
        self.at += (self.part + 1) / 8;
        self.part = (self.part + 1) % 8;
    }
}

impl<'a> WriteBytes for WordSink<'a> {
    type Error = Full;

    ghost taken = { λ s. take (8 * s.at + s.part) (spill s.area.now) };

    ghost room = { λ s. length (spill s.area.now) - (8 * s.at + s.part) };

    ghost beyond = { λ s. drop (8 * s.at + s.part) (spill s.area.now) };

    ghost fault = { λ _ _. record {} };

    fn write_all(&mut self, bytes: &[u8]) -> Result<(), Full> {
        // in 128 bits, since the bytes of a word area may be more than a `usize` counts
        let taken = 8 * self.at as u128 + self.part as u128;
        if bytes.len() as u128 > 8 * self.area.len() as u128 - taken {
            return Err(Full);
        }
        for byte in bytes {
            self.put(*byte);
        }
        Ok(())
    }
}

// What a quota answers: the limit is short, or the fault of the sink below.
#[derive(Clone, Copy)]
pub enum QuotaFault<F> {
    Limit,
    Under(F),
}

// A quota over any sink: at most `limit` bytes in all, of which `count` are taken. The bytes are the sink's.
#[derive(Drop)]
pub struct Quota<W> {
    sink: W,
    limit: usize,
    count: usize,
    ghost counted: { count ≤ limit },
}

impl<W: WriteBytes> Quota<W> {
    pub fn new(sink: W, limit: usize) -> Quota<W>
        ensures { (result.sink ≡ sink) × ((result.limit ≡ limit) × (result.count ≡ 0)) }
    {
        Quota {
            sink,
            limit,
            count: 0,
        }
    }
}

impl<W: WriteBytes> WriteBytes for Quota<W> {
    type Error = QuotaFault<W::Error>;

    ghost taken = { λ q. W.WriteBytes.taken q.sink };

    ghost room = { λ q. quota_room q.limit q.count (W.WriteBytes.room q.sink) };

    ghost beyond = { λ q. W.WriteBytes.beyond q.sink };

    ghost fault = { λ q bs. quota_fault (q.limit - q.count) bs (W.WriteBytes.fault q.sink bs) };

    // Beside the clauses of the trait, written again as above: the limit stays, and the bytes are counted once they are taken.
    fn write_all(&mut self, bytes: &[u8]) -> Result<(), QuotaFault<W::Error>>
        ensures answer { result ≡ piece_answer (quota_room self.old.limit self.old.count (W.WriteBytes.room self.old.sink)) bytes.now (quota_fault (self.new.limit - self.new.count) bytes.now (W.WriteBytes.fault self.new.sink bytes.now)) }
        ensures taken { W.WriteBytes.taken self.new.sink ≡ taking (quota_room self.old.limit self.old.count (W.WriteBytes.room self.old.sink)) (W.WriteBytes.taken self.old.sink) bytes.now }
        ensures room { quota_room self.new.limit self.new.count (W.WriteBytes.room self.new.sink) ≡ room_after (quota_room self.old.limit self.old.count (W.WriteBytes.room self.old.sink)) bytes.now }
        ensures beyond { W.WriteBytes.beyond self.new.sink ≡ leaving (quota_room self.old.limit self.old.count (W.WriteBytes.room self.old.sink)) (W.WriteBytes.beyond self.old.sink) bytes.now }
        ensures limit { self.new.limit ≡ self.old.limit }
        ensures count { self.new.count ≡ counting (quota_room self.old.limit self.old.count (W.WriteBytes.room self.old.sink)) self.old.count bytes.now }
    {
        if bytes.len() > self.limit - self.count {
            return Err(QuotaFault::Limit);
        }
        self.sink.write_all(bytes).map_err(QuotaFault::Under)?;
        self.count += bytes.len();
        Ok(())
    }
}
