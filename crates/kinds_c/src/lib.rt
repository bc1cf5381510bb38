// The image check and the boot step as the boot loader calls them from C.
#![tactic(auto)]

ghost use Rattle.std.specs.Prelude.{◌≡◌, length};
ghost use Rattle.boot.specs.Boot.{ImageBoots};
ghost use Rattle.kinds.specs.Kinds.{check_answer};

use boot::convert::{Memory, boot_image};
use kinds::check;

// 0 where the bytes are admitted for the kind, or else the number of the refusal.
#[unsafe(no_mangle)]
pub extern "C" fn check_image(kind: u32, bytes: &[u8]) -> u32
    ensures { result ≡ check_answer kind bytes.now }
{
    check::check_image(kind, bytes)
}

// 0 where the image is admitted and converted into the start of `out`, and then its length in bytes stands at `bytes`, or else
// the number of the refusal. The columns live in `ends`, `bad` and `wear`.
#[unsafe(no_mangle)]
pub extern "C" fn convert_image(
    kind: u32,
    image: &[u8],
    ends: &mut [u64],
    bad: &mut [u64],
    wear: &mut [u8],
    out: &mut [u8],
    bytes: &mut usize,
) -> u32
    ensures { ImageBoots kind image.now (length ends.old) (length bad.old) (length wear.old) out.old out.new bytes.old bytes.new result }
{
    boot_image(kind, image, Memory { ends, bad, wear }, out, bytes)
}
