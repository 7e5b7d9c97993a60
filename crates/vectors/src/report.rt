//! What is printed: the parts in which a case differs, and how many cases there were.
ghost use Rattle.std.specs.Prelude.{◌≡◌, ◌||◌, ◌+◌, ◌<◌, ◌≤◌, nat_lt, if◌then◌else◌, IsTrue};

use std::fmt;

/// Which parts of a case differ from what is frozen.
#[derive(Clone, Copy)]
pub struct Differences {
    /// The outcome: a refusal and its place, or the record counts, the cursor at the finish and the
    /// number of long integers.
    pub outcome: bool,
    /// The object table, and so for the other three.
    pub objects: bool,
    pub slots: bool,
    pub values: bool,
    pub addresses: bool,
}

impl Differences {
    /// Whether any part differs.
    pub fn any(&self) -> bool
        ensures { result ≡ (self.now.outcome || self.now.objects || self.now.slots || self.now.values || self.now.addresses) }
    {
        self.outcome || self.objects || self.slots || self.values || self.addresses
    }
}

// The parts, each after a space.
impl fmt::Display for Differences {
    fn fmt<W: fmt::Write>(&self, f: &mut fmt::Formatter<W>) -> fmt::Result {
        let parts = [
            (self.outcome, " outcome"),
            (self.objects, " objects"),
            (self.slots, " slots"),
            (self.values, " values"),
            (self.addresses, " addresses"),
        ];
        for (differs, name) in parts {
            if differs {
                f.write_str(name)?;
            }
        }
        Ok(())
    }
}

// What the families are called, by their numbers in cases.bin.
const FAMILIES: [&str; 8] = [
    "examples",
    "modern",
    "legacy",
    "map-first",
    "6.x",
    "shared bytes",
    "unusable",
    "rooms",
];

// No count goes further.
const MOST: u64 = 1000000;

/// How many cases there were of each family and of each frozen number, and how many differed.
#[derive(Clone, Copy, Default)]
pub struct Tally {
    families: [u64; 8],
    outcomes: [u64; 18],
    differ: u64,
}

fn count(n: &mut u64)
    ensures { n.new ≡ (if nat_lt n.old MOST then n.old + 1 else n.old) }
{
    if *n < MOST {
        *n += 1;
    }
}

// One more at place k, where there is one.
fn count_at(counts: &mut [u64], k: u64) {
    if let Ok(i) = usize::try_from(k)
        && let Some(n) = counts.get_mut(i)
    {
        count(n);
    }
}

impl Tally {
    /// Counts a case: its family, its frozen refusal's number or 0, and whether it differs.
    pub fn add(&mut self, family: u64, outcome: u64, differs: bool)
        ensures counted { IsTrue differs → 0 < self.new.differ }
        ensures kept { self.old.differ ≤ self.new.differ }
    {
        count_at(&mut self.families, family);
        count_at(&mut self.outcomes, outcome);
        if differs {
            count(&mut self.differ);
        }
    }
}

impl fmt::Display for Tally {
    fn fmt<W: fmt::Write>(&self, f: &mut fmt::Formatter<W>) -> fmt::Result {
        for (name, n) in FAMILIES.iter().zip(&self.families) {
            writeln!(f, "{name}: {n}")?;
        }
        writeln!(f, "accepted: {}", self.outcomes[0])?;
        for (i, n) in self.outcomes.iter().enumerate().skip(1) {
            if *n != 0 {
                writeln!(f, "refused with {i}: {n}")?;
            }
        }
        if self.differ == 0 {
            writeln!(f, "all equal")
        } else {
            writeln!(f, "differ: {}", self.differ)
        }
    }
}
