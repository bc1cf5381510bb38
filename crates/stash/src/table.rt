// Calls that change no table: by a match each, since the states are of three types.
ghost use Rattle.std.specs.Prelude.{◌≡◌};
ghost use Rattle.column.specs.Kind.{Held};
ghost use Rattle.indexed.specs.Image.{byte_length_answer, word_length_answer};
ghost use Rattle.stash.specs.History.{holds};
ghost use Rattle.stash.specs.Stash.{table_of};
ghost use Rattle.stash.specs.Written.{Reloads, TableWritten, align_answer, aligned_area, slices_of_table};

use crate::landing::Landing;
use crate::stash::Stash;
use area::fault::Fault;
use column::element::Value;
use column::kind::{AsBytes, Column, Index, Kind};
use indexed::write::{WriteFault, write, write_store};
use indexed::{encode, length_in_words};
use read::form::FromBytes;
use storage::store::Store;
use storage::write::{ByteSink, Full, WriteBytes};

impl<C: Column + FromBytes + Drop, B: Store + Drop, A: Store + Drop> Stash<C, B, A> {
    // Gives `sink` the image of a Typed table, or the words of any other's store one by one.
    pub fn write<W: WriteBytes>(&self, sink: &mut W) -> Result<(), WriteFault<W::Error>>
        ensures { TableWritten W.WriteBytes C.Kind.format (table_of C.Column self.now) sink.old sink.new result }
    {
        match self {
            Stash::Typed(column) => write(column, sink),
            Stash::Bytes(image) => write_store(&image.store, sink),
            Stash::Align(image) => write_store(&image.store, sink),
        }
    }

    // How many words `encode` of the present column or read form would give. What a table holds is a list that its kind writes.
    pub fn length_in_words(&self) -> Result<usize, Fault>
        ensures length { result ≡ word_length_answer (slices_of_table C.Kind.format (table_of C.Column self.now)) }
        ensures held { Held C.Elem.Value.fits (holds C.Kind.format (table_of C.Column self.now)) }
    {
        match self {
            Stash::Typed(column) => length_in_words(column),
            Stash::Bytes(image) => length_in_words(&image.view()),
            Stash::Align(image) => length_in_words(&image.view()),
        }
    }

    // The same in bytes.
    pub fn length_in_bytes(&self) -> Result<usize, Fault>
        ensures { result ≡ byte_length_answer (slices_of_table C.Kind.format (table_of C.Column self.now)) }
    {
        Ok(8 * self.length_in_words()?)
    }

    // The first step of `make_aligned`: encodes the present column or read form into the start of `area` and answers the
    // image's length in words, or none where the table is Align and there is nothing to do.
    pub fn make_aligned(&self, area: &mut [u64]) -> Result<Option<usize>, Fault>
        ensures answer { result ≡ align_answer C.Kind.format (table_of C.Column self.now) area.old }
        ensures after { area.new ≡ aligned_area C.Kind.format (table_of C.Column self.now) area.old }
    {
        match self {
            Stash::Typed(column) => Ok(Some(encode(column, area, 0)?)),
            Stash::Bytes(image) => Ok(Some(encode(&image.view(), area, 0)?)),
            Stash::Align(_) => Ok(None),
        }
    }

    // The first step of a reload: writes the table to the start of `area` and answers how many bytes it took.
    pub fn reload(&self, area: &mut [u8]) -> Result<usize, WriteFault<Full>>
        ensures { Reloads C.Kind.format (table_of C.Column self.now) area.old area.new result }
    {
        let mut sink = ByteSink::new(area);
        let mut landing = Landing { sink: &mut sink };
        self.write(&mut landing)?;
        Ok(sink.count())
    }
}
