// Reads records from standard input into a block table, and prints a line for each.
#![tactic(auto)]

use boolean::bools::*;
use card::block::block_table;
use card::line::Line;
use card::play::play;
use column::element::*;
use column::kind::*;
use column::run::*;
use offsets::strides::*;
use std::io::{BufWriter, Read, Write};
use tuple::pair::*;

fn main(rt: HostRuntime) -> anyhow::Result<()> {
    let heap = rt.alloc();
    let mut input: Vec<u8> = Vec::new(heap);
    rt.stdin().read_to_end(&mut input)?;
    let mut ends = [0u64; 64];
    let mut bad = [0u64; 16];
    let mut wear = [0u8; 1024];
    let mut area = [0u64; 218];
    let mut table = block_table(&mut ends, &mut bad, &mut wear);
    let mut lines: Vec<Line> = Vec::new(heap);
    play(&mut table, &input, &mut area, &mut lines)?;
    let mut out = BufWriter::new(heap, rt.stdout())?;
    for line in &lines {
        writeln!(out, "{line}")?;
    }
    out.flush()?;
    Ok(())
}
