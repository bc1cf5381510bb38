// The run of a table over the records of an input.
ghost use Rattle.std.specs.Prelude.{◌≡◌, List, ◌++◌, length, OnOk};
ghost use Rattle.column.specs.Kind.{Accepted as AcceptedBy};
ghost use Rattle.card.specs.Records.{records};
ghost use Rattle.card.specs.Tables.{Runs, after, answer, lines_of_image, list_after, lines_of};

use crate::line::Line;
use crate::record::{Block, Record, Records};
use column::element::Value;
use column::kind::{AsBytes, Column, Index, Kind};
use indexed::encode;
use std::alloc::AllocError;

// Adds the lines of the table's image, which is written to `area`, or of its refusal. The three are lent by the caller, here and
// below: of a struct that held them, each call would have to say that they are still the ones that were lent.
fn image_lines<C: Column>(
    table: &C,
    area: &mut [u64],
    lines: &mut Vec<Line>,
) -> Result<(), AllocError>
    ensures { OnOk result (lines.new.items ≡ lines.old.items ++ lines_of_image (C.AsBytes.slices table.now) area.old (length (C.Index.list table.now))) }
{
    match encode(table, area, 0) {
        Ok(words) => {
            lines.push(Line::ImageOf(words))?;
            for word in &area[..words] {
                lines.push(Line::Word(*word))?;
            }
        }
        Err(fault) => lines.push(Line::Refused(fault.refusal, table.len()))?,
    }
    Ok(())
}

// Answers one record: the table after it, and the lines that it adds. By a match, as the definitions tell the records.
pub fn step<C: Column>(
    table: &mut C,
    item: Record<C::Elem>,
    area: &mut [u64],
    lines: &mut Vec<Line>,
) -> Result<(), AllocError>
    ensures same { C.Column.areas table.new ≡ C.Column.areas table.old }
    ensures after { C.Index.list table.new ≡ after (C.Column.takes (C.Column.areas table.old)) C.Kind.format.writing area.old (C.Index.list table.old) item }
    ensures lines { OnOk result (lines.new.items ≡ lines.old.items ++ answer (C.Column.takes (C.Column.areas table.old)) C.Kind.format.writing area.old (C.Index.list table.old) item) }
{
    match item {
        Record::Push(x) => match table.push(x) {
            Ok(()) => lines.push(Line::Accepted(table.len()))?,
            Err(fault) => lines.push(Line::Refused(fault.refusal, table.len()))?,
        },
        Record::Clear => {
            table.clear();
            lines.push(Line::Accepted(table.len()))?;
        }
        Record::Image => image_lines(table, area, lines)?,
    }
    Ok(())
}

// Answers the records of an input one after the other. What is no record is refused with 17 and ends the reading. At the
// end the table's slices are accepted and read as its list.
pub fn play<C: Column<Elem = Block>>(
    table: &mut C,
    input: &[u8],
    area: &mut [u64],
    lines: &mut Vec<Line>,
) -> Result<(), AllocError>
    ensures same { C.Column.areas table.new ≡ C.Column.areas table.old }
    ensures after { OnOk result (C.Index.list table.new ≡ list_after (C.Column.takes (C.Column.areas table.old)) C.Kind.format.writing area.old (C.Index.list table.old) (records input.now)) }
    ensures lines { OnOk result (lines.new.items ≡ lines.old.items ++ lines_of (C.Column.takes (C.Column.areas table.old)) C.Kind.format.writing area.old (C.Index.list table.old) (records input.now)) }
    ensures runs { OnOk result (Runs (C.Column.takes (C.Column.areas table.old)) C.Kind.format.writing area.old) }
    ensures read_back { OnOk result (AcceptedBy C.Kind.format (C.Kind.format.writing (C.Index.list table.new)) (C.Index.list table.new)) }
{
    for item in Records::new(input) {
        match item {
            Ok(record) => step(table, record, area, lines)?,
            Err(fault) => lines.push(Line::Refused(fault.refusal, table.len()))?,
        }
    }
    Ok(())
}
