// The lines that the program `tables` prints.
ghost use Rattle.std.specs.Prelude.{Some};
ghost use Rattle.card.specs.Tables.{line_text};

use area::fault::Refusal;
use std::fmt;

#[derive(Clone, Copy)]
pub enum Line {
    // A record was accepted, and the table's length is now this.
    Accepted(usize),
    // A record was refused, at this length.
    Refused(Refusal, usize),
    // An image of this many words follows.
    ImageOf(usize),
    Word(u64),
}

// By a match: each case has a text of its own.
impl fmt::Display for Line {
    ghost output = { λ l. Some (line_text l) };

    fn fmt<W: fmt::Write>(&self, f: &mut fmt::Formatter<W>) -> fmt::Result {
        match self {
            Line::Accepted(n) => write!(f, "ok {n}"),
            Line::Refused(refusal, n) => write!(f, "refused {} {n}", refusal.number()),
            Line::ImageOf(n) => write!(f, "image {n}"),
            Line::Word(w) => write!(f, "{w:x}"),
        }
    }
}
