// Stored images, admitted and refused, read in place, and written again. Each line is what a call answers.
#![tactic(auto)]

use area::fault::Fault;
use boolean::bools::*;
use boolean::form::*;
use column::append::append;
use column::element::*;
use column::kind::*;
use column::run::*;
use decode::decode::*;
use decode::decoded::DecodedStore;
use decode::span::Span;
use indexed::encode;
use indexed::write::write_store;
use kinds::check::{admit, admit_bytes};
use kinds::kinds::*;
use offsets::bounds::bounds;
use offsets::form::*;
use offsets::strides::*;
use read::element::*;
use read::form::FromBytes;
use read::run::*;
use read::validate::validate;
use read::view::*;
use std::{fmt, io};
use storage::compare::same_bytes;
use storage::store::*;
use storage::write::ByteSink;
use tuple::empties::*;
use tuple::form::*;
use tuple::pair::*;

// What prints stands in each program, with the data that it is about: a function of a library that only prints has nothing
// to promise, and examples are read where they are tried.

// Prints a name and how long an admitted list is, or the refusal.
fn told(rt: &HostRuntime, name: &str, answer: Result<usize, Fault>) -> io::Result<()> {
    match answer {
        Ok(length) => println!(rt; "{name}: admitted {length}"),
        Err(fault) => println!(rt; "{name}: {fault}"),
    }
}

// Prints a name and numbers, in hexadecimal.
fn hex<T: fmt::Radix + Copy>(rt: &HostRuntime, name: &str, numbers: &[T]) -> io::Result<()> {
    print!(rt; "{name}:")?;
    for n in numbers {
        print!(rt; " {n:x}")?;
    }
    println!(rt; "")
}

// The same words as bytes, and between other words.
fn as_bytes(words: &[u64]) -> [u8; 128] {
    let mut bytes = [0u8; 128];
    let _ = write_store(&WordArea::new(words), &mut ByteSink::new(&mut bytes));
    bytes
}

fn between_others(words: &[u64]) -> [u64; 18] {
    let mut wide = [0xffu64; 18];
    let n = words.len().min(16);
    wide[1..n + 1].copy_from_slice(&words[..n]);
    wide
}

// Admission from a word area; from a byte area and from a window between other words the answer has to be the same. The
// kind is a number, as C gives it, since numbers of no kind are tried too.
fn check(rt: &HostRuntime, name: &str, kind: u32, words: &[u64]) -> io::Result<()> {
    let bytes = as_bytes(words);
    let wide = between_others(words);
    let n = words.len().min(16);
    let card = match CardKind::try_from(kind) {
        Ok(card) => card,
        Err(fault) => return println!(rt; "{name}: {fault}"),
    };
    let from_words = admit(card, &WordArea::new(words));
    told(rt, name, from_words)?;
    let from_bytes = admit_bytes(kind, &bytes[..8 * n]);
    let from_window = Window::new(WordArea::new(&wide), 1, n).and_then(|window| admit(
        card, &window,
    ));
    if from_bytes != from_window || from_bytes != from_words {
        println!(rt; "{name}: another store answers otherwise")?;
    }
    Ok(())
}

const L: u64 = 4_294_967_295;

fn structure(rt: &HostRuntime) -> io::Result<()> {
    check(rt, "kind 0", 0, &[8])?;
    check(rt, "kind 4", 4, &[8])?;
    told(rt, "23 bytes", admit_bytes(3, &[0; 23]))?;
    check(rt, "no word", 3, &[])?;
    check(rt, "0", 3, &[0])?;
    check(rt, "12", 3, &[12, 0])?;
    check(rt, "16 alone", 3, &[16])?;
    check(rt, "2^64 - 8", 3, &[u64::MAX - 7, 0])?;
    check(rt, "kind 3 with 8", 3, &[8])?;
    check(rt, "kind 3 with two slices", 3, &[24, 32, 32, 7])?;
    check(rt, "end 25 of 24", 3, &[16, 25, 7])?;
    check(rt, "end 2^64 - 1", 3, &[16, u64::MAX, 7])?;
    check(rt, "end 15", 3, &[16, 15, 7])?;
    check(rt, "no count", 3, &[16, 16])?;
    check(rt, "7 empties", 3, &[16, 24, 7])?;
    check(rt, "count word of one byte", 3, &[16, 17, 7])?;
    check(rt, "7 empties and more words", 3, &[16, 32, 7, 8, 9])?;
    check(rt, "L empties", 3, &[16, 24, L])?;
    check(rt, "L + 1 empties", 3, &[16, 24, L + 1])
}

fn erase_maps(rt: &HostRuntime) -> io::Result<()> {
    check(rt, "128 false", 2, &[32, 48, 48, 64, 0, 2, 0, 0])?;
    check(rt, "tail count 63", 2, &[32, 48, 48, 64, 0, 2, 0, 63])?;
    check(rt, "tail count 64", 2, &[32, 48, 48, 64, 0, 2, 0, 64])?;
    check(rt, "too many words", 2, &[32, 48, 48, 64, 0, L, 0, 0])?;
    check(rt, "2^32 + 1 times L", 2, &[32, 48, 48, 64, L + 2, L, 0, 0])?;
    check(
        rt,
        "product past 2^64",
        2,
        &[32, 48, 48, 64, L + 3, L, 0, 0],
    )?;
    check(
        rt,
        "tail cut, product past 2^64",
        2,
        &[32, 48, 48, 56, L + 3, L, 0],
    )
}

const THREE_BLOCKS: [u64; 12] = [48, 64, 72, 72, 88, 91, 64, 2, 190, 2, 3, 0x050303];

// A block table of three blocks, with one word of it changed.
fn block(rt: &HostRuntime, name: &str, place: usize, word: u64) -> io::Result<()> {
    let mut words = THREE_BLOCKS;
    if let Some(changed) = words.get_mut(place) {
        *changed = word;
    }
    check(rt, name, 1, &words)
}

fn block_tables(rt: &HostRuntime) -> io::Result<()> {
    check(rt, "three blocks", 1, &THREE_BLOCKS)?;
    block(rt, "head's end outside", 1, 97)?;
    block(rt, "bounds' end outside", 2, 97)?;
    block(rt, "values' end outside", 3, 97)?;
    block(rt, "tail's end outside", 4, 97)?;
    block(rt, "wear's end outside", 5, 97)?;
    block(rt, "head's end before its start", 1, 47)?;
    block(rt, "bounds' end before its start", 2, 63)?;
    block(rt, "values' end before its start", 3, 71)?;
    block(rt, "tail's end before its start", 4, 71)?;
    block(rt, "wear's end before its start", 5, 87)?;
    block(rt, "bounds cut", 2, 71)?;
    block(rt, "head's product", 6, u64::MAX)?;
    block(rt, "head longer than L", 7, L)?;
    block(rt, "tail count 64 under marks", 10, 64)?;
    block(rt, "two marks for three classes", 10, 2)?;
    block(rt, "two classes", 5, 90)?;
    block(rt, "four ends", 7, 3)?;
    check(
        rt,
        "head cut",
        1,
        &[48, 56, 64, 64, 80, 83, 64, 190, 2, 3, 0x050303],
    )?;
    check(
        rt,
        "values cut",
        1,
        &[48, 64, 72, 79, 96, 99, 64, 2, 190, 0, 2, 3, 0x050303],
    )?;
    check(
        rt,
        "tail cut",
        1,
        &[48, 64, 72, 72, 80, 83, 64, 2, 190, 2, 0x050303],
    )?;
    check(
        rt,
        "product past 2^64, and tail cut",
        1,
        &[48, 64, 72, 72, 80, 83, u64::MAX, 2, 190, 2, 0x050303],
    )
}

// Prints a name and the image of `item`, or its refusal.
fn show<A: AsBytes>(rt: &HostRuntime, name: &str, item: &A) -> io::Result<()> {
    let mut area = [0u64; 16];
    match encode(item, &mut area, 0) {
        Ok(words) => hex(rt, name, &area[..words]),
        Err(fault) => println!(rt; "{name}: {fault}"),
    }
}

// The image of the read form of an image.
fn again<K: FromBytes>(rt: &HostRuntime, name: &str, words: &[u64]) -> io::Result<()> {
    match validate::<K, WordArea>(WordArea::new(words)) {
        Ok(image) => show(rt, name, &image.view()),
        Err(fault) => println!(rt; "{name}: {fault}"),
    }
}

fn bounds_of_questions(rt: &HostRuntime) -> io::Result<()> {
    again::<Strides>(rt, "24 27 27", &[24, 27, 27, 0])?;
    again::<Strides>(rt, "head 2^32 + 1, L", &[24, 40, 40, L + 2, L])?;
    again::<Strides>(rt, "head 2^32 + 2, L", &[24, 40, 40, L + 3, L])?;
    again::<Strides>(rt, "head 0, L", &[24, 40, 40, 0, L])?;
    again::<Strides>(rt, "head 0, L, and a bound", &[24, 40, 48, 0, L, 1])?;
    again::<Bools<Run<u64>>>(rt, "count 63", &[24, 24, 40, 0, 63])?;
    again::<Bools<Run<u64>>>(rt, "count 64", &[24, 24, 40, 0, 64])
}

fn written_again(rt: &HostRuntime) -> io::Result<()> {
    again::<Strides>(rt, "a head of nine bytes", &[24, 33, 48, 5, 0x302, 9])?;
    again::<Strides>(rt, "a head of three words", &[24, 48, 56, 5, 1, 7, 10])?;
    again::<Run<u8>>(rt, "dirty padding", &[16, 19, 0xff03_0201])?;
    again::<Empties>(rt, "a count and more", &[16, 32, 7, 8, 9])?;
    again::<Bools<Run<u64>>>(rt, "a dirty tail", &[24, 32, 48, 5, 0xff, 3])?;
    again::<Pair<Run<u64>, Run<u8>>>(rt, "a pair", &[24, 40, 42, 5, 6, 0xff0807])
}

// Ends that are read where they stand, and appended to a column.
fn ends<K: FromBytes<Elem = u64>>(rt: &HostRuntime, words: &[u64]) -> io::Result<()> {
    let image = match validate::<K, WordArea>(WordArea::new(words)) {
        Ok(image) => image,
        Err(fault) => return println!(rt; "ends: {fault}"),
    };
    let view = image.view();
    for i in [0, 3, 4] {
        match bounds(&view, i) {
            Ok((lower, upper)) => println!(rt; "bounds {i}: {lower} {upper}")?,
            Err(fault) => println!(rt; "bounds {i}: {fault}")?,
        }
    }
    let mut cells = [0u64; 1];
    let mut column = Strides::new(Run::new(&mut cells));
    // a refusal is printed, and then what was appended before it
    if let Err(fault) = append(&mut column, &view, 1, 4) {
        println!(rt; "6 9 10: {fault}")?;
    }
    show(rt, "appended as far as it goes", &column)
}

fn marks(rt: &HostRuntime) -> io::Result<()> {
    let words = [24, 32, 48, 0xC000000000000000, 0xff, 3];
    let image = match validate::<Bools<Run<u64>>, WordArea>(WordArea::new(&words)) {
        Ok(image) => image,
        Err(fault) => return println!(rt; "marks: {fault}"),
    };
    for (pos, count) in [(62, 5), (63, 5), (0, 65)] {
        match bits_at(&image.view(), pos, count) {
            Ok(bits) => println!(rt; "bits_at {pos} {count}: {bits:x}")?,
            Err(fault) => println!(rt; "bits_at {pos} {count}: {fault}")?,
        }
    }
    Ok(())
}

fn told_part(rt: &HostRuntime, name: &str, answer: Result<&[u8], Fault>) -> io::Result<()> {
    match answer {
        Ok(part) => hex(rt, name, part),
        Err(fault) => println!(rt; "{name}: {fault}"),
    }
}

// The slices of bytes, whatever their kind.
fn slices(rt: &HostRuntime) -> io::Result<()> {
    let bytes = as_bytes(&[24, 27, 40, 0x030201, 9]);
    told_part(rt, "slice 0", decode_index(&bytes, 0))?;
    told_part(rt, "slice 1", decode_index(&bytes, 1))?;
    told_part(rt, "slice 2", decode_index(&bytes, 2))?;
    let odd = [0u8; 127];
    told_part(rt, "of 127 bytes", decode_index(&odd, 0))?;
    match decode(&bytes) {
        Ok(all) => {
            let n = all.len();
            println!(rt; "slices: {n}")?;
            told_part(rt, "decoded 1", all.get(1))?;
        }
        Err(fault) => println!(rt; "slices: {fault}")?,
    }
    let cut = as_bytes(&[24, 27, 27, 0x030201, 9]);
    told_part(rt, "24 27 27", decode_index(&cut, 0))
}

// The place of a slice in a store.
fn place(rt: &HostRuntime, words: &[u64], k: usize) -> io::Result<()> {
    match DecodedStore::new(WordArea::new(words)).and_then(|found| found.get(k)) {
        Ok(Span { from, bytes }) => println!(rt; "slice {k} at word {from}, {bytes} bytes"),
        Err(fault) => println!(rt; "no such slice: {fault}"),
    }
}

fn compared(rt: &HostRuntime) -> io::Result<()> {
    let a = same_bytes(&[1, 2, 3], &[1, 2, 3]);
    let b = same_bytes(&[1, 2, 3], &[1, 2, 4]);
    let c = same_bytes(&[1, 2, 3], &[1, 2]);
    println!(rt; "same bytes: {a} {b} {c}")?;
    match Window::new(WordArea::new(&[1, 2]), 1, 2) {
        Ok(_) => println!(rt; "a window past the end"),
        Err(fault) => println!(rt; "a window past the end: {fault}"),
    }
}

fn main(rt: HostRuntime) -> io::Result<()> {
    structure(&rt)?;
    erase_maps(&rt)?;
    block_tables(&rt)?;
    bounds_of_questions(&rt)?;
    written_again(&rt)?;
    ends::<Strides>(&rt, &[24, 40, 48, 3, 3, 10])?;
    marks(&rt)?;
    slices(&rt)?;
    place(&rt, &[24, 27, 40, 7, 8], 1)?;
    place(&rt, &[24, 27, 40, 7, 8], 2)?;
    compared(&rt)
}
