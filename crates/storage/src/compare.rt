// Comparison of byte areas.
ghost use Rattle.std.specs.Prelude.{◌≡◌, Decides};

// Yes exactly where both have the same length and the same bytes.
pub fn same_bytes(a: &[u8], b: &[u8]) -> bool
    ensures { Decides result (a.now ≡ b.now) }
{
    a == b
}
