// The worked examples of the format, run: each line is an image, or what a call answers.
#![tactic(auto)]

use area::fault::Fault;
use boolean::bools::*;
use column::append::append;
use column::element::*;
use column::kind::*;
use column::run::*;
use indexed::encode;
use indexed::write::write;
use offsets::form::*;
use offsets::strides::*;
use read::form::FromBytes;
use read::run::*;
use stash::convert::{convert, convert_into};
use stash::stash::Stash;
use std::{fmt, io};
use storage::store::*;
use storage::write::*;
use tuple::empties::*;
use tuple::pair::*;

// What prints stands in each program, with the data that it is about: a function of a library that only prints has nothing
// to promise, and examples are read where they are tried.

// Prints a name and an answer, or its refusal.
fn told<T: fmt::Display + Drop, E: fmt::Display + Drop>(
    rt: &HostRuntime,
    name: &str,
    answer: Result<T, E>,
) -> io::Result<()> {
    match answer {
        Ok(told) => println!(rt; "{name}: {told}"),
        Err(fault) => println!(rt; "{name}: {fault}"),
    }
}

// The same of a call that gives nothing.
fn done<E: fmt::Display + Drop>(
    rt: &HostRuntime,
    name: &str,
    answer: Result<(), E>,
) -> io::Result<()> {
    told(rt, name, answer.map(|()| "ok"))
}

// The same of numbers, in hexadecimal.
fn hex<T: fmt::Radix + Copy>(rt: &HostRuntime, name: &str, numbers: &[T]) -> io::Result<()> {
    print!(rt; "{name}:")?;
    for n in numbers {
        print!(rt; " {n:x}")?;
    }
    println!(rt; "")
}

// The image of `item`.
fn show<A: AsBytes>(rt: &HostRuntime, name: &str, item: &A) -> io::Result<()> {
    let mut area = [0u64; 32];
    match encode(item, &mut area, 0) {
        Ok(words) => hex(rt, name, &area[..words]),
        Err(fault) => println!(rt; "{name}: {fault}"),
    }
}

fn bounds_of(rt: &HostRuntime, ends: &Strides, i: usize) -> io::Result<()> {
    match ends.bounds(i) {
        Ok((lower, upper)) => println!(rt; "bounds {i}: {lower} {upper}"),
        Err(fault) => println!(rt; "bounds {i}: {fault}"),
    }
}

fn bits_of(rt: &HostRuntime, marks: &Bools<Run<u64>>, pos: usize, count: usize) -> io::Result<()> {
    match marks.bits_at(pos, count) {
        Ok(bits) => println!(rt; "bits_at {pos} {count}: {bits:x}"),
        Err(fault) => println!(rt; "bits_at {pos} {count}: {fault}"),
    }
}

fn strides(rt: &HostRuntime) -> io::Result<()> {
    let mut cells = [0u64; 2];
    let mut c = Strides::new(Run::new(&mut cells));
    for x in [3, 6, 9, 10] {
        let _ = c.push(x);
    }
    show(rt, "3 6 9 10", &c)?;
    bounds_of(rt, &c, 0)?;
    bounds_of(rt, &c, 3)?;
    bounds_of(rt, &c, 4)?;
    done(rt, "a second bound", c.push(15))?;
    done(rt, "a third bound", c.push(18))?;
    c.clear();
    for _ in 0..3 {
        let _ = c.push(0);
    }
    show(rt, "0 0 0", &c)?;
    c.clear();
    let _ = c.push(1 << 63);
    let _ = c.push(0);
    show(rt, "2^63 0", &c)
}

fn bools(rt: &HostRuntime) -> io::Result<()> {
    let mut cells = [0u64; 1];
    let mut c = Bools::new(Run::new(&mut cells));
    for _ in 0..62 {
        let _ = c.push(false);
    }
    done(rt, "push_bits 7 3", c.push_bits(7, 3))?;
    show(rt, "62 false and 7 3", &c)?;
    done(rt, "push_bits 2 1", c.push_bits(2, 1))?;
    done(rt, "push_bits 0 65", c.push_bits(0, 65))?;
    done(rt, "push_bits past the cell", c.push_bits(1, 64))?;
    done(rt, "push_bits 0 0", c.push_bits(0, 0))?;
    bits_of(rt, &c, 61, 4)?;
    bits_of(rt, &c, 62, 4)?;
    bits_of(rt, &c, 0, 65)?;
    bits_of(rt, &c, 66, 0)
}

fn small(rt: &HostRuntime) -> io::Result<()> {
    let mut cells = [0u8; 3];
    let mut bytes = Run::new(&mut cells);
    for x in [1, 2, 3] {
        let _ = bytes.push(x);
    }
    show(rt, "bytes 1 2 3", &bytes)?;
    done(rt, "a fourth byte", bytes.push(4))?;
    let mut empties = Empties::new();
    for _ in 0..7 {
        let _ = empties.push(());
    }
    show(rt, "7 empties", &empties)?;
    let mut none = [0u64; 0];
    let mut map = Bools::new(Strides::new(Run::new(&mut none)));
    for _ in 0..128 {
        let _ = map.push(false);
    }
    show(rt, "128 false over strides", &map)
}

// One append at words, at bools, at elements that hold nothing, at bytes and at tuples.
fn appends(rt: &HostRuntime) -> io::Result<()> {
    let mut a = [0u64; 4];
    let mut b = [0u64; 4];
    let mut words = Run::new(&mut a);
    for x in [5, 10, 15, 7] {
        let _ = words.push(x);
    }
    let mut strides = Strides::new(Run::new(&mut b));
    done(rt, "words 0 to 4", append(&mut strides, &words, 0, 4))?;
    done(rt, "words 3 to 1", append(&mut strides, &words, 3, 1))?;
    done(rt, "words 5 to 5", append(&mut strides, &words, 5, 5))?;
    show(rt, "words appended", &strides)?;
    append_bytes(rt)?;
    append_bits(rt)?;
    append_tuples(rt)
}

fn append_bytes(rt: &HostRuntime) -> io::Result<()> {
    let mut a = [0u8; 4];
    let mut b = [0u8; 3];
    let mut from = Run::new(&mut a);
    for x in [1, 2, 3, 4] {
        let _ = from.push(x);
    }
    let mut to = Run::new(&mut b);
    done(rt, "bytes 1 to 3", append(&mut to, &from, 1, 3))?;
    done(rt, "bytes 0 to 4", append(&mut to, &from, 0, 4))?;
    show(rt, "bytes appended", &to)
}

fn append_bits(rt: &HostRuntime) -> io::Result<()> {
    let mut a = [0u64; 1];
    let mut b = [0u64; 0];
    let mut from = Bools::new(Run::new(&mut a));
    let _ = from.push_bits(0xff00_ff00_ff00_ff00, 64);
    let _ = from.push_bits(5, 3);
    let mut to = Bools::new(Strides::new(Run::new(&mut b)));
    done(rt, "bools 8 to 67", append(&mut to, &from, 8, 67))?;
    show(rt, "bools appended", &to)?;
    done(rt, "bools 0 to 67", append(&mut to, &from, 0, 67))?;
    let mut some = Empties::new();
    for _ in 0..3 {
        let _ = some.push(());
    }
    let mut more = Empties::new();
    done(rt, "empties 1 to 3", append(&mut more, &some, 1, 3))?;
    show(rt, "empties appended", &more)
}

fn append_tuples(rt: &HostRuntime) -> io::Result<()> {
    let mut a = [0u64; 3];
    let mut b = [0u8; 3];
    let mut c = [0u64; 3];
    let mut d = [0u8; 2];
    let mut from = Pair::new(Run::new(&mut a), Run::new(&mut b));
    for x in [(1, 9), (2, 8), (4, 7)] {
        let _ = from.push(x);
    }
    let mut to = Pair::new(Strides::new(Run::new(&mut c)), Run::new(&mut d));
    done(rt, "tuples 0 to 3", append(&mut to, &from, 0, 3))?;
    show(rt, "tuples appended", &to)
}

// The image of three bytes, given to a byte area, to a word area, and to a quota that is short in its third piece.
fn sinks(rt: &HostRuntime) -> io::Result<()> {
    let mut cells = [0u8; 3];
    let mut bytes = Run::new(&mut cells);
    for x in [1, 2, 3] {
        let _ = bytes.push(x);
    }
    let mut area = [0xffu8; 26];
    done(
        rt,
        "to a byte area",
        write(&bytes, &mut ByteSink::new(&mut area)),
    )?;
    hex(rt, "byte area", &area)?;
    let mut words = [0xffu64; 4];
    done(
        rt,
        "to a word area",
        write(&bytes, &mut WordSink::new(&mut words)),
    )?;
    let [a, b, c, d] = words;
    // in one write, as a line that a failed write leaves whole or not at all
    println!(rt; "word area: {a:x} {b:x} {c:x} {d:x}")?;
    let mut short = [0xffu8; 18];
    let mut quota = Quota::new(ByteSink::new(&mut short), 18);
    done(rt, "to a quota", write(&bytes, &mut quota))?;
    drop(quota);
    hex(rt, "under the quota", &short)
}

// A stored image with a bound that could be in the head, converted into a word area, under a quota, and into the start of a
// byte area: six words, of which five are left.
fn converted(rt: &HostRuntime) -> io::Result<()> {
    let words = [24, 40, 48, 5, 1, 10];
    let mut cells = [0u64; 2];
    let mut area = [0xffu64; 6];
    match stored_table(&words) {
        Ok(mut table) => {
            let ready = Strides::new(Run::new(&mut cells));
            let mut sink = Quota::new(WordSink::new(&mut area), 48);
            done(rt, "converted", convert(&mut table, ready, &mut sink))?;
            drop(sink);
            hex(rt, "five words", &area)?;
        }
        Err(fault) => println!(rt; "converted: {fault}")?,
    }
    let mut more_cells = [0u64; 2];
    let mut bytes = [0xffu8; 41];
    match stored_table(&words) {
        Ok(mut table) => {
            let ready = Strides::new(Run::new(&mut more_cells));
            told(
                rt,
                "into bytes",
                convert_into(&mut table, ready, &mut bytes),
            )
        }
        Err(fault) => println!(rt; "into bytes: {fault}"),
    }
}

// The table of a stored image of strides.
fn stored_table<'a>(
    words: &'a [u64],
) -> Result<Stash<Strides<'a>, WordArea<'a>, WordArea<'a>>, Fault> {
    Stash::try_from_bytes(WordArea::new(words))
}

fn main(rt: HostRuntime) -> io::Result<()> {
    strides(&rt)?;
    bools(&rt)?;
    small(&rt)?;
    appends(&rt)?;
    sinks(&rt)?;
    converted(&rt)
}
