// The bounds of a block: where the one before it ends, and where it ends itself.
ghost use Rattle.std.specs.Prelude.{◌≡◌};
ghost use Rattle.offsets.specs.Strides.{bounds_at};

use area::fault::Fault;
use column::kind::Index;

// Element `i` - 1, or 0 before the first, and element `i`, of a column or of a read form.
pub fn bounds<R: Index<Item = u64>>(ends: &R, i: usize) -> Result<(u64, u64), Fault>
    ensures { result ≡ bounds_at (R.Index.list ends.now) i }
{
    let upper = ends.get(i)?;
    if i == 0 {
        return Ok((0, upper));
    }
    let lower = ends.get(i - 1)?;
    Ok((lower, upper))
}
