// The conversion: `make_typed`, and then a write.
ghost use Rattle.std.specs.Prelude.{◌≡◌, Some};
ghost use Rattle.area.specs.Fault.{refusal_text};
ghost use Rattle.column.specs.Kind.{Held};
ghost use Rattle.stash.specs.Convert.{Converts, ConvertsInto, carried};
ghost use Rattle.stash.specs.History.{after, holds, typed_answer};
ghost use Rattle.stash.specs.Stash.{table_of};
ghost use Rattle.stash.specs.declared.convert.ConvertFault.TheVariants.{Refused, Write};

use crate::stash::Stash;
use area::fault::{Fault, Refusal};
use column::element::Value;
use column::kind::{Column, Index, Kind};
use indexed::write::WriteFault;
use read::form::FromBytes;
use std::fmt;
use storage::store::Store;
use storage::write::{Full, WriteBytes};

// A refused conversion: the ready column does not take the list, or the sink not the image.
#[derive(Clone, Copy, PartialEq, Eq, Debug)]
pub enum ConvertFault<F> {
    Refused(Fault),
    Write(WriteFault<F>),
}

impl<F> From<Fault> for ConvertFault<F> {
    ghost from_gives = { λ fault refused. refused ≡ Refused fault };

    fn from(fault: Fault) -> ConvertFault<F> {
        ConvertFault::Refused(fault)
    }
}

impl<F> From<WriteFault<F>> for ConvertFault<F> {
    ghost from_gives = { λ fault refused. refused ≡ Write fault };

    fn from(fault: WriteFault<F>) -> ConvertFault<F> {
        ConvertFault::Write(fault)
    }
}

impl<F> ConvertFault<F> {
    // The refusal that it carries.
    pub fn refusal(&self) -> Refusal
        ensures { result ≡ (carried self.now).refusal }
    {
        match self {
            ConvertFault::Refused(refused) => refused.refusal,
            ConvertFault::Write(WriteFault::TooLong(fault) | WriteFault::Full(fault, _)) =>
                fault.refusal,
        }
    }
}

// The refusal that it carries, as the programs print it: by a match, since the two are of two types.
impl<F> fmt::Display for ConvertFault<F> {
    ghost output = { λ refused. Some (refusal_text (carried refused)) };

    fn fmt<W: fmt::Write>(&self, f: &mut fmt::Formatter<W>) -> fmt::Result {
        match self {
            ConvertFault::Refused(refusal) => write!(f, "{refusal}"),
            ConvertFault::Write(refusal) => write!(f, "{refusal}"),
        }
    }
}

// Makes a table Typed in a ready column, and gives `sink` its image. This closes a history of the table.
pub fn convert<C: Column + FromBytes + Drop, B: Store + Drop, A: Store + Drop, W: WriteBytes>(
    table: &mut Stash<C, B, A>,
    ready: C,
    sink: &mut W,
) -> Result<(), ConvertFault<W::Error>>
    ensures after { table_of C.Column table.new ≡ after C.Kind.format C.Column.takes (table_of C.Column table.old) (typed_answer (C.Column.areas ready)) }
    ensures held { Held C.Elem.Value.fits (holds C.Kind.format (table_of C.Column table.new)) }
    ensures claim { Converts W.WriteBytes C.Elem.Value.fits C.Kind.format C.Column.takes (table_of C.Column table.old) (C.Column.areas ready) sink.old sink.new result }
{
    table.make_typed(ready)?;
    table.write(sink)?;
    Ok(())
}

// The same into the start of a byte area: how many bytes its image has. A refusal leaves the area, but for the pieces of the
// image before the one that did not fit.
pub fn convert_into<C: Column + FromBytes + Drop, B: Store + Drop, A: Store + Drop>(
    table: &mut Stash<C, B, A>,
    column: C,
    area: &mut [u8],
) -> Result<usize, ConvertFault<Full>>
    ensures after { table_of C.Column table.new ≡ after C.Kind.format C.Column.takes (table_of C.Column table.old) (typed_answer (C.Column.areas column)) }
    ensures held { Held C.Elem.Value.fits (holds C.Kind.format (table_of C.Column table.new)) }
    ensures claim { ConvertsInto C.Elem.Value.fits C.Kind.format C.Column.takes (table_of C.Column table.old) (C.Column.areas column) area.old area.new result }
{
    table.make_typed(column)?;
    Ok(table.reload(area)?)
}
