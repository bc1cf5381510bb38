// The slices of a byte area, handed out as parts of it.
ghost use Rattle.std.specs.Prelude.{◌≡◌, length};
ghost use Rattle.storage.specs.Store.{join_words};
ghost use Rattle.decode.specs.Decode.{AskedPart, PartAnswer, bytes_fault, slices_of};
ghost use Rattle.decode.specs.Decoded.{PartsAnswer};

use crate::decoded::DecodedStore;
use area::fault::Fault;
use storage::store::ByteArea;

// A byte area that passed questions 1 to 4, 6 and 7.
#[derive(Clone, Copy)]
pub struct Decoded<'a> {
    slices: DecodedStore<ByteArea<'a>>,
}

impl<'a> Decoded<'a> {
    // How many slices there are.
    pub fn len(&self) -> usize
        ensures { result ≡ length (slices_of (join_words self.now.slices.store.bytes.now)) }
    {
        self.slices.len()
    }

    // The part of the area that is slice `k`; 10 past the slices.
    #[tactic(auto, using(crate::proofs::PartLemmas::part_refused))]
    pub fn get(&self, k: usize) -> Result<&'a [u8], Fault>
        ensures { PartAnswer (λ p. p.now) self.now.slices.store.bytes.now k result }
    {
        let bytes = self.slices.store().bytes;
        let span = self.slices.get(k)?;
        let lower = 8 * span.from;
        Ok(&bytes[lower..lower + span.bytes])
    }
}

// The slices of a byte area. Asks questions 1 to 4, 6 and 7.
pub fn decode<'a>(bytes: &'a [u8]) -> Result<Decoded<'a>, Fault>
    ensures { PartsAnswer bytes.now result }
{
    let area = ByteArea::new(bytes)?;
    let slices = DecodedStore::new(area)?;
    Ok(Decoded { slices })
}

// The part of a byte area that is slice `k`. Asks questions 1 to 4, 6 and 7, and then 10.
pub fn decode_index<'a>(bytes: &'a [u8], k: usize) -> Result<&'a [u8], Fault>
    ensures { AskedPart (λ p. p.now) bytes.now k (bytes_fault bytes.now) result }
{
    decode(bytes)?.get(k)
}
