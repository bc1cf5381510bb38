// Words from bytes.
ghost use Rattle.std.specs.Prelude.{◌≡◌};
ghost use Rattle.area.specs.Slice.{join_at};

// The word that the eight bytes from place `at` on write, the lowest first; none where they are not all there.
pub fn join(bytes: &[u8], at: usize) -> Option<u64>
    ensures { result ≡ join_at bytes.now at }
{
    // by places: of `get` and `first_chunk` each word takes half as many instructions more
    if bytes.len() < 8 || at > bytes.len() - 8 {
        return None;
    }
    Some(u64::from_le_bytes([
        bytes[at],
        bytes[at + 1],
        bytes[at + 2],
        bytes[at + 3],
        bytes[at + 4],
        bytes[at + 5],
        bytes[at + 6],
        bytes[at + 7],
    ]))
}
