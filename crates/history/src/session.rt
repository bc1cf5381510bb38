// A table, and the calls of a script on it.
use crate::kind::Scripted;
use crate::pool::Pool;
use area::fault::Fault;
use area::words::join;
use column::element::Value;
use column::kind::{Column, Index, Kind};
use read::form::FromBytes;
use read::validate::{Admitted, validate};
use read::view::View;
use stash::stash::Stash;
use std::alloc::{AllocError, Global};
use std::fmt;
use storage::store::{ByteArea, Store, WordArea};
use storage::write::{ByteSink, Quota, WriteBytes};

// A table with the image that it is appended from.
#[derive(Drop)]
pub(crate) struct Session<'a, C: Scripted<'a>> {
    table: Stash<C, ByteArea<'a>, WordArea<'a>>,
    source: Option<Admitted<C, ByteArea<'a>>>,
}

// The line of an answer that says no more than `ok`, or of a refusal.
fn done<T: Drop, E: fmt::Display + Drop>(
    heap: Global,
    answer: Result<T, E>,
) -> Result<String, AllocError> {
    match answer {
        Ok(_) => format!(in heap; "ok"),
        Err(fault) => format!(in heap; "{fault}"),
    }
}

// The same of an answer with a number.
fn counted<E: fmt::Display + Drop>(
    heap: Global,
    answer: Result<usize, E>,
) -> Result<String, AllocError> {
    match answer {
        Ok(count) => format!(in heap; "ok {count}"),
        Err(fault) => format!(in heap; "{fault}"),
    }
}

// A byte area of the pool with the bytes of words; none where it has no such area.
fn stored<'a>(pool: &mut Pool<'a>, words: &[u64]) -> Option<&'a [u8]> {
    let area = pool.bytes(words.len().checked_mul(8)?)?;
    for (part, word) in area.chunks_exact_mut(8).zip(words) {
        part.copy_from_slice(&word.to_le_bytes());
    }
    Some(area)
}

// The image that bytes are, and the table that it makes.
fn stored_image<'a, C: Scripted<'a>>(bytes: &'a [u8]) -> Result<Admitted<C, ByteArea<'a>>, Fault> {
    validate(ByteArea::new(bytes)?)
}

fn stored_table<'a, C: Scripted<'a>>(
    bytes: &'a [u8],
) -> Result<Stash<C, ByteArea<'a>, WordArea<'a>>, Fault> {
    Stash::try_from_bytes(ByteArea::new(bytes)?)
}

// The words of bytes as a line tells them.
fn told(heap: Global, image: &[u8]) -> Result<String, AllocError> {
    let mut line = format!(in heap; "ok {}", image.len() / 8)?;
    for i in 0..image.len() / 8 {
        if let Some(word) = join(image, 8 * i) {
            line.push_str(format!(in heap; " {word:x}")?.as_str())?;
        }
    }
    Ok(line)
}

impl<'a, C: Scripted<'a>> Session<'a, C> {
    // A fresh table in a ready column.
    pub(crate) fn new(column: C) -> Session<'a, C> {
        Session {
            table: Stash::new(column),
            source: None,
        }
    }

    // The answer to a call; none where it is no call, or one that the pool has no area for.
    pub(crate) fn call(
        &mut self,
        heap: Global,
        pool: &mut Pool<'a>,
        name: &str,
        numbers: &[u64],
    ) -> Result<Option<String>, AllocError> {
        match (name, numbers) {
            ("admit", words) => self.admit(heap, pool, words),
            ("source", words) => self.take_source(heap, pool, words),
            ("push", numbers) => self.push(heap, numbers),
            ("append", &[a, b]) => self.append(heap, a as usize, b as usize),
            ("clear", []) => Ok(Some(done(heap, self.table.clear())?)),
            ("make_typed", sizes) => self.make_typed(heap, pool, sizes),
            ("make_aligned", &[words]) => self.make_aligned(heap, pool, words as usize),
            ("reload", &[bytes]) => self.reload(heap, pool, bytes as usize),
            ("write", &[bytes]) => self.write(heap, pool, bytes as usize),
            ("quota", &[limit, bytes]) => self.write_under(
                heap,
                pool,
                limit as usize,
                bytes as usize,
            ),
            ("length", []) => self.length(heap),
            ("list", []) => self.list(heap),
            _ => Ok(None),
        }
    }

    fn admit(
        &mut self,
        heap: Global,
        pool: &mut Pool<'a>,
        words: &[u64],
    ) -> Result<Option<String>, AllocError> {
        let Some(bytes) = stored(pool, words) else {
            return Ok(None);
        };
        let line = match stored_table(bytes) {
            Ok(table) => {
                self.table = table;
                format!(in heap; "ok {}", self.table.len())?
            }
            Err(fault) => format!(in heap; "{fault}")?,
        };
        Ok(Some(line))
    }

    fn take_source(
        &mut self,
        heap: Global,
        pool: &mut Pool<'a>,
        words: &[u64],
    ) -> Result<Option<String>, AllocError> {
        let Some(bytes) = stored(pool, words) else {
            return Ok(None);
        };
        let line = match stored_image::<C>(bytes) {
            Ok(source) => {
                let len = source.view().len();
                self.source = Some(source);
                format!(in heap; "ok {len}")?
            }
            Err(fault) => format!(in heap; "{fault}")?,
        };
        Ok(Some(line))
    }

    fn push(&mut self, heap: Global, numbers: &[u64]) -> Result<Option<String>, AllocError> {
        match C::element(numbers) {
            Some(x) => Ok(Some(done(heap, self.table.push(x))?)),
            None => Ok(None),
        }
    }

    fn append(&mut self, heap: Global, a: usize, b: usize) -> Result<Option<String>, AllocError> {
        match &self.source {
            Some(source) => Ok(Some(done(heap, self.table.append(&source.view(), a, b))?)),
            None => Ok(None),
        }
    }

    fn make_typed(
        &mut self,
        heap: Global,
        pool: &mut Pool<'a>,
        sizes: &[u64],
    ) -> Result<Option<String>, AllocError> {
        match C::ready(pool, sizes) {
            Some(column) => Ok(Some(done(heap, self.table.make_typed(column))?)),
            None => Ok(None),
        }
    }

    fn make_aligned(
        &mut self,
        heap: Global,
        pool: &mut Pool<'a>,
        words: usize,
    ) -> Result<Option<String>, AllocError> {
        let Some(area) = pool.words(words) else {
            return Ok(None);
        };
        let line = match self.table.make_aligned(area) {
            Ok(Some(words)) => counted(heap, self.table.aligned(area, words).map(|()| words))?,
            Ok(None) => format!(in heap; "ok")?,
            Err(fault) => format!(in heap; "{fault}")?,
        };
        Ok(Some(line))
    }

    fn reload(
        &mut self,
        heap: Global,
        pool: &mut Pool<'a>,
        bytes: usize,
    ) -> Result<Option<String>, AllocError> {
        let Some(area) = pool.bytes(bytes) else {
            return Ok(None);
        };
        let line = match self.table.reload(area) {
            Ok(bytes) => counted(heap, self.table.reloaded(area, bytes).map(|()| bytes))?,
            Err(fault) => format!(in heap; "{fault}")?,
        };
        Ok(Some(line))
    }

    fn write(
        &self,
        heap: Global,
        pool: &mut Pool<'a>,
        bytes: usize,
    ) -> Result<Option<String>, AllocError> {
        let Some(area) = pool.bytes(bytes) else {
            return Ok(None);
        };
        let mut sink = ByteSink::new(area);
        let line = match self.table.write(&mut sink) {
            Ok(()) => {
                let count = sink.count();
                drop(sink);
                told(heap, area.get(..count).unwrap_or(&[]))?
            }
            Err(fault) => format!(in heap; "{fault}")?,
        };
        Ok(Some(line))
    }

    fn write_under(
        &self,
        heap: Global,
        pool: &mut Pool<'a>,
        limit: usize,
        bytes: usize,
    ) -> Result<Option<String>, AllocError> {
        let Some(area) = pool.bytes(bytes) else {
            return Ok(None);
        };
        let mut sink = Quota::new(ByteSink::new(area), limit);
        Ok(Some(done(heap, self.table.write(&mut sink))?))
    }

    fn length(&self, heap: Global) -> Result<Option<String>, AllocError> {
        let line = match self.table.length_in_words() {
            Ok(words) => format!(in heap; "ok {words}")?,
            Err(fault) => format!(in heap; "{fault}")?,
        };
        Ok(Some(line))
    }

    fn list(&self, heap: Global) -> Result<Option<String>, AllocError> {
        let mut line = format!(in heap; "ok {}", self.table.len())?;
        for i in 0..self.table.len() {
            if let Ok(x) = self.table.get(i) {
                line.push_str(" ")?;
                line.push_str(C::text(heap, x)?.as_str())?;
            }
        }
        Ok(Some(line))
    }
}
