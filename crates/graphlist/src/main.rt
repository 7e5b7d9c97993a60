//! Reads a version sheet, a payload, its reservations and a trusted list from files, and prints the
//! payload's object graph (docs/GRAPHLIST.md).
#![tactic(auto)]

ghost use Rattle.std.specs.Prelude.{◌<◌};

mod files;

use cache_graph::parse::{Call, Tables, parse_with};
use files::Input;
use std::alloc::Global;
use std::io::{BufWriter, Write};
use std::{fmt, io};

// Records of N fields, a line each: the letter and the fields. N is small, so that a record's size
// fits.
#[derive(Clone, Copy)]
struct Lines<'a, const N: usize> {
    letter: &'static str,
    records: &'a [[u64; N]],
    ghost few: { N < 16 },
}

impl<const N: usize> fmt::Display for Lines<'_, N> {
    // `write_str` and `fmt`: with `write!` a long listing takes a fifth more time.
    fn fmt<W: fmt::Write>(&self, f: &mut fmt::Formatter<W>) -> fmt::Result {
        for record in self.records {
            f.write_str(self.letter)?;
            for n in record {
                f.write_str(" ")?;
                n.fmt(f)?;
            }
            f.write_str("\n")?;
        }
        Ok(())
    }
}

// Prints the first `count` records of a table.
fn records<const N: usize>(
    out: &mut impl Write,
    letter: &'static str,
    table: &[u64],
    count: u64,
) -> io::Result<()>
    requires { (0 < N) × (N < 16) }
{
    let (all, _) = table.as_chunks::<N>();
    let records = all.get(..count as usize).unwrap_or(all);
    write!(out, "{}", Lines { letter, records })
}

// The graph, or the refusal. docs/GRAPHLIST.md says why the rooms are as they are.
fn list(out: &mut impl Write, alloc: Global, input: &Input) -> io::Result<()> {
    let mut objects = vec![in alloc; 0u64; 131072]?;
    let mut slots = vec![in alloc; 0u64; 393216]?;
    let mut values = vec![in alloc; 0u64; 196608]?;
    let mut addresses = vec![in alloc; 0u64; 163840]?;
    let mut scratch = vec![in alloc; 0u64; 8192]?;
    let call = Call {
        sheet: &input.sheet,
        payload: &input.payload,
        reservations: &input.reservations,
        trusted: &input.trusted,
    };
    let mut tables = Tables {
        objects: &mut objects,
        slots: &mut slots,
        values: &mut values,
        addresses: &mut addresses,
        scratch: &mut scratch,
    };
    let g = match parse_with(call, &mut tables) {
        Ok(g) => g,
        Err(e) => return writeln!(out, "refused {} {}", e.refusal.number(), e.place),
    };
    writeln!(
        out,
        "graph {} {} {} {} {} {}",
        g.objects, g.slots, g.values, g.addresses, g.end, g.long_integers
    )?;
    records::<4>(out, "o", &objects, g.objects)?;
    records::<6>(out, "s", &slots, g.slots)?;
    records::<3>(out, "v", &values, g.values)?;
    records::<5>(out, "d", &addresses, g.addresses)
}

fn main(rt: HostRuntime) -> io::Result<()> {
    let alloc = rt.alloc();
    let input = match Input::read(&rt, alloc) {
        Ok(input) => input,
        Err(unusable) => return eprintln!(rt; "{unusable}"),
    };
    let mut out = BufWriter::with_capacity(alloc, 16384, io::writer(&rt))?;
    list(&mut out, alloc, &input)?;
    out.flush()
}
