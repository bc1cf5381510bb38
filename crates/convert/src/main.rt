// The boot step as a program: admits the image on standard input for the kind of a number, converts it, and prints its words.
#![tactic(auto)]

use area::words::join;
use boot::convert::{Memory, convert_numbered};
use std::alloc::Global;
use std::io::{BufWriter, Read, Write};
use std::process::ExitCode;
use std::{env, fs};

const USAGE: &str = "usage: convert KIND [--out FILE] < IMAGE\n\
    KIND is 1 for a block table, 2 for an erase map and 3 for a spare count.\n\
    With --out the image is written to FILE, and its words are not printed.";

// What the arguments ask for: the number of a kind, and a file for the image.
#[derive(Drop)]
struct Asked {
    kind: u32,
    out: Option<String>,
}

impl Asked {
    // None where the arguments name no kind, or ask for something else.
    fn read(rt: &HostRuntime) -> anyhow::Result<Option<Asked>> {
        let mut args = env::args(rt)?.skip(1);
        let Some(kind) = args.next().and_then(|word| word.parse::<u32>().ok()) else {
            return Ok(None);
        };
        let out = match args.next() {
            None => None,
            Some(flag) if flag.as_str() == "--out" => match args.next() {
                Some(file) => Some(file),
                None => return Ok(None),
            },
            Some(_) => return Ok(None),
        };
        if args.next().is_some() {
            return Ok(None);
        }
        Ok(Some(Asked { kind, out }))
    }
}

// Prints each word of an image, or writes the image to a file.
fn give(rt: &HostRuntime, heap: Global, image: &[u8], out: Option<String>) -> anyhow::Result<()> {
    if let Some(file) = out {
        fs::write(rt, file.as_str(), image)?;
        return Ok(());
    }
    let mut lines = BufWriter::new(heap, rt.stdout())?;
    for i in 0..image.len() / 8 {
        if let Some(word) = join(image, 8 * i) {
            writeln!(lines, "{word:x}")?;
        }
    }
    lines.flush()?;
    Ok(())
}

fn main(rt: HostRuntime) -> anyhow::Result<ExitCode> {
    let heap = rt.alloc();
    let Some(Asked { kind, out }) = Asked::read(&rt)? else {
        eprintln!(&rt; "{USAGE}")?;
        return Ok(ExitCode::from(2));
    };
    let mut image: Vec<u8> = Vec::new(heap);
    rt.stdin().read_to_end(&mut image)?;
    // no column needs more cells than the image has words, and the image that is written is no longer
    let words = image.len() / 8;
    let mut ends = vec![in heap; 0u64; words]?;
    let mut bad = vec![in heap; 0u64; words]?;
    let mut wear = vec![in heap; 0u8; image.len()]?;
    let mut area = vec![in heap; 0u8; image.len()]?;
    let memory = Memory {
        ends: &mut ends,
        bad: &mut bad,
        wear: &mut wear,
    };
    match convert_numbered(kind, &image, memory, &mut area) {
        Ok(done) => {
            println!(&rt; "admitted {}", done.length)?;
            println!(&rt; "image {}", done.bytes / 8)?;
            give(&rt, heap, area.get(..done.bytes).unwrap_or(&[]), out)?;
            Ok(ExitCode::SUCCESS)
        }
        Err(fault) => {
            println!(&rt; "{fault}")?;
            Ok(ExitCode::from(1))
        }
    }
}
