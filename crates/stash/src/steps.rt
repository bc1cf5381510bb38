// The second steps of `make_aligned` and of a reload: a table is given the start of an area that is lent to read.
ghost use Rattle.std.specs.Prelude.{◌≡◌};
ghost use Rattle.column.specs.Kind.{Held};
ghost use Rattle.stash.specs.History.{holds};
ghost use Rattle.stash.specs.Stash.{table_of};
ghost use Rattle.stash.specs.Written.{after_reload, after_start, reload_answer, start_answer};

use crate::stash::{Event, Stash};
use area::fault::{Fault, Refusal};
use column::element::Value;
use column::kind::{Column, Index, Kind};
use read::form::FromBytes;
use storage::store::{ByteArea, Store, WordArea};

impl<'a, C: Column + FromBytes + Drop, B: Store + Drop> Stash<C, B, WordArea<'a>> {
    // Takes the first `words` words of `area` as the table's store; 16 where there are fewer. An Align table stays as it
    // is.
    pub fn aligned(&mut self, area: &'a [u64], words: usize) -> Result<(), Fault>
        ensures answer { result ≡ start_answer C.Kind.format C.Column.takes (table_of C.Column self.old) area.now words }
        ensures after { table_of C.Column self.new ≡ after_start C.Kind.format C.Column.takes (table_of C.Column self.old) area.now words }
        ensures held { Held C.Elem.Value.fits (holds C.Kind.format (table_of C.Column self.new)) }
    {
        if let Stash::Align(_) = self {
            return Ok(());
        }
        let start = area
            .get(..words)
            .ok_or(Fault::at_start(Refusal::WindowOutside))?;
        self.apply::<C>(Event::Align(WordArea::new(start)))
    }
}

impl<'a, C: Column + FromBytes + Drop, A: Store + Drop> Stash<C, ByteArea<'a>, A> {
    // Takes the first `bytes` bytes of `area` as the table's store; 16 where there are fewer, then 1, then as admission.
    pub fn reloaded(&mut self, area: &'a [u8], bytes: usize) -> Result<(), Fault>
        ensures answer { result ≡ reload_answer C.Kind.format C.Column.takes (table_of C.Column self.old) area.now bytes }
        ensures after { table_of C.Column self.new ≡ after_reload C.Kind.format C.Column.takes (table_of C.Column self.old) area.now bytes }
        ensures held { Held C.Elem.Value.fits (holds C.Kind.format (table_of C.Column self.new)) }
    {
        let start = area
            .get(..bytes)
            .ok_or(Fault::at_start(Refusal::WindowOutside))?;
        self.apply::<C>(Event::Bytes(ByteArea::new(start)?))
    }
}
