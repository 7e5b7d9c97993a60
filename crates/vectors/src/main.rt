//! Runs the frozen vectors (docs/VECTORS.md), compares all that the call gives with what is frozen,
//! and prints how many cases of each family and outcome there were and how many differed.
#![tactic(auto)]

mod case;
mod numbers;
mod report;

use case::Case;
use numbers::Numbers;
use report::Tally;
use std::alloc::Global;
use std::io::Read;
use std::rt::Files;
use std::{fs, io};

// The first `most` bytes of a file.
fn read_file(rt: &impl Files, alloc: Global, name: &str, most: usize) -> io::Result<Vec<u8>> {
    let mut bytes = Vec::new(alloc);
    fs::open(rt, name)?
        .take(most as u64)
        .read_to_end(&mut bytes)?;
    Ok(bytes)
}

// The first `most` bytes of a file, or none where it can't be read.
fn read_or_say(
    rt: &(impl Files + Eprint),
    alloc: Global,
    name: &str,
    most: usize,
) -> io::Result<Vec<u8>> {
    match read_file(rt, alloc, name, most) {
        Err(e) => {
            eprintln!(rt; "{name}: {e}")?;
            eprintln!(rt; "no cases were run")?;
            Ok(Vec::new(alloc))
        }
        bytes => bytes,
    }
}

fn main(rt: HostRuntime) -> io::Result<()> {
    let alloc = rt.alloc();
    let cases = read_or_say(&rt, alloc, "cases.bin", 131072)?;
    let sheets = read_or_say(&rt, alloc, "sheets.bin", 65536)?;
    let mut numbers = Numbers(&cases);
    let mut tally = Tally::default();
    for k in 0..numbers.number() {
        let mut case = Case::read(&mut numbers, alloc, &sheets)?;
        let outcome = case.call();
        let frozen = case::read_outcome(&mut numbers);
        let differences = case.differences(outcome, frozen, &mut numbers);
        if differences.any() {
            println!(rt; "case {k} differs:{differences}")?;
        }
        tally.add(case.family, frozen.number, differences.any());
    }
    print!(rt; "{tally}")
}
