// Plays histories: a script on standard input, a call to a line, for tables of the kinds of the card. docs/HISTORY.md has the
// grammar.
#![tactic(auto)]

mod kind;
mod line;
mod pool;
mod session;

use card::block::BlockTable;
use kind::*;
use kinds::kinds::{CardKind, EraseMap, SpareCount};
use line::Line;
use pool::Pool;
use session::Session;
use std::alloc::Global;
use std::io::{BufWriter, Read, Stdout, Write};

// The cells that a script can lend in all.
const WORDS: usize = 1 << 20;

// Answers the lines from number `from` on, for a fresh table in a ready column, up to the next that begins a table, and answers
// its number. A line that is no call is refused with 17, and is the last.
fn play<'a, C: Scripted<'a>, W: Write>(
    heap: Global,
    out: &mut W,
    pool: &mut Pool<'a>,
    column: C,
    lines: &[Line],
    from: usize,
) -> anyhow::Result<usize> {
    let mut session = Session::new(column);
    for k in from..lines.len() {
        let Some(line) = lines.get(k) else {
            break;
        };
        if line.name() == "kind" {
            return Ok(k);
        }
        match session.call(heap, pool, line.name(), line.numbers())? {
            Some(answer) => writeln!(out, "{answer}")?,
            None => return refuse(out, lines, k),
        }
    }
    Ok(lines.len())
}

// The same from the line on that begins the table, with the sizes of its column's areas.
fn begin<'a, C: Scripted<'a>, W: Write>(
    heap: Global,
    out: &mut W,
    pool: &mut Pool<'a>,
    sizes: &[u64],
    lines: &[Line],
    from: usize,
) -> anyhow::Result<usize> {
    match C::ready(pool, sizes) {
        Some(column) => {
            writeln!(out, "ok")?;
            play(heap, out, pool, column, lines, from.saturating_add(1))
        }
        None => refuse(out, lines, from),
    }
}

// Refuses a line that is no call: it is the last.
fn refuse<W: Write>(out: &mut W, lines: &[Line], k: usize) -> anyhow::Result<usize> {
    if let Some(line) = lines.get(k) {
        writeln!(out, "refused 17 {}", line.number())?;
    }
    Ok(lines.len())
}

// Answers the lines of one table, which line `from` begins, and answers the number of the line that begins the next.
fn play_table<'a, W: Write>(
    heap: Global,
    out: &mut W,
    pool: &mut Pool<'a>,
    lines: &[Line],
    from: usize,
) -> anyhow::Result<usize> {
    let Some((kind, sizes)) = lines.get(from).and_then(|line| line.table()) else {
        return refuse(out, lines, from);
    };
    match kind {
        CardKind::BlockTable => begin::<BlockTable, W>(heap, out, pool, sizes, lines, from),
        CardKind::EraseMap => begin::<EraseMap, W>(heap, out, pool, sizes, lines, from),
        CardKind::SpareCount => begin::<SpareCount, W>(heap, out, pool, sizes, lines, from),
    }
}

fn main(rt: HostRuntime) -> anyhow::Result<()> {
    let heap = rt.alloc();
    let mut script = String::new(heap);
    rt.stdin().read_to_string(&mut script)?;
    let lines = Line::all(heap, &script)?;
    let mut words = vec![in heap; 0u64; WORDS]?;
    let mut bytes = vec![in heap; 0u8; 8 * WORDS]?;
    let mut pool = Pool {
        words: &mut words,
        bytes: &mut bytes,
    };
    let mut out = BufWriter::new(heap, rt.stdout())?;
    let mut next = 0;
    for k in 0..lines.len() {
        if k == next {
            next = play_table(heap, &mut out, &mut pool, &lines, k)?;
        }
    }
    out.flush()?;
    Ok(())
}
