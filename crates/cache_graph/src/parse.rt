//! A call from its checks to its answer, and what it is given and lent.
ghost use Rattle.std.specs.Prelude.{true, ◌≡◌, List, ℕ, ◌*◌, ◌<◌, ◌≤◌, length, get_or, IfOk, IfErr};
ghost use Rattle.refusals.specs.Numbers.{number_of};
ghost use Rattle.sheet.specs.Sheet as Sheet;
ghost use Rattle.definition.specs.Call as Definition;
ghost use Rattle.assurance.specs.Unused.{zeros_from};
ghost use Rattle.cache_graph.specs.Promise.{call_of, entered, rooms_in, answer, graph_of, refused_of, RefusalNumber, Reads, Assures, SameTables, Cleared, AllZero, Prepared, Fitting, Trimmed, Started, begun_in, Walked};
ghost use Rattle.cache_graph.specs.SecondCall.{SecondCallsIn};

use address_index::layout::LISTED_SPACES;
use alloc::legacy_alloc::{LegacyAlloc, spaces};
use backref::hot_ring::HotRing;
use graph::walk::walk;
use heads::heads::{Head, decode};
use readers::state::{self, State};
use readers::walker::Walker;
use refusals::refusal::Refusal;
use tables::records::{ADDRESS_FIELDS, SLOT_FIELDS, clear};

/// What is entered: the version sheet (docs/SHEET.md), the payload's bytes, its chunk reservations,
/// and the trusted list, which has a byte for each root index.
#[derive(Clone, Copy)]
pub struct Call<'a> {
    pub sheet: &'a [u16],
    pub payload: &'a [u8],
    pub reservations: &'a [u32],
    pub trusted: &'a [u8],
}

/// What is lent to be written: the four tables, flat, whose records have 4 numbers for an object, 6
/// for a slot, 3 for a value and 5 for an address (docs/FORMAT.md, "The tables"), and working
/// memory. A table's room is its length divided by the fields of its record; scratch may have any
/// length, and a longer one makes the call faster.
#[derive(Drop)]
pub struct Tables<'a> {
    pub objects: &'a mut [u64],
    pub slots: &'a mut [u64],
    pub values: &'a mut [u64],
    pub addresses: &'a mut [u64],
    pub scratch: &'a mut [u64],
}

/// An accepted payload: how many records each table has, and the cursor at the finish, in bytes.
#[derive(Clone, Copy, Debug, PartialEq, Eq)]
pub struct Graph {
    pub objects: u64,
    pub slots: u64,
    pub values: u64,
    pub addresses: u64,
    pub end: u64,
    pub long_integers: u64,
}

/// Why a payload is refused, and at which byte (docs/FORMAT.md, "Refusals").
#[derive(Clone, Copy, Debug, PartialEq, Eq)]
pub struct Refused {
    pub refusal: Refusal,
    pub place: u64,
}

impl From<State> for Graph {
    ghost from_gives = { λ s g. g ≡ graph_of s };

    fn from(s: State) -> Graph {
        Graph {
            objects: s.objects as u64,
            slots: s.slots as u64,
            values: s.values as u64,
            addresses: s.addresses as u64,
            end: s.at as u64,
            long_integers: s.long_integers,
        }
    }
}

impl From<state::Refused> for Refused {
    ghost from_gives = { λ e r. r ≡ refused_of e };

    fn from(e: state::Refused) -> Refused {
        Refused {
            refusal: e.refusal,
            place: e.place as u64,
        }
    }
}

// A refusal before the walk.
fn at_start(refusal: Refusal) -> Refused
    ensures { result ≡ record { refusal = refusal; place = 0 } }
{
    Refused { refusal, place: 0 }
}

// The payload or the reservation list is over its limit. That a payload has bytes is known here, by
// its type.
fn too_long(payload: &[u8], reservations: &[u32]) -> bool
    ensures is { (sheet trusted : List ℕ) → result ≡ Definition.too_long (call_of sheet payload.now reservations.now trusted) }
    ensures bytes { (i : ℕ) → get_or payload.now i 0 < 256 }
{
    16777216 < payload.len() || 65536 < reservations.len()
}

// Clears the first n numbers of a list, as far as it has them.
fn clear_first(t: &mut [u64], n: usize)
    ensures { (i : ℕ) → i < n → get_or t.new i 0 ≡ 0 }
{
    let end = t.len().min(n);
    clear(&mut t[..end]);
}

// Clears the numbers of a table above its records, of which there are so many.
fn clear_above(t: &mut [u64], fields: usize, count: u64)
    requires { count * fields ≤ length t.old }
    ensures { t.new ≡ zeros_from (count * fields) t.old }
{
    clear(&mut t[count as usize * fields..]);
}

impl Tables<'_> {
    // All that the walk reads before it has written it: objects and values, at any number, and the
    // first slot record. Of slots and addresses it reads nothing else above its records.
    fn prepare(&mut self)
        ensures prepared { Prepared (rooms_in self.old) self.new }
        ensures same { SameTables self.old self.new }
    {
        clear(self.objects);
        clear(self.values);
        clear_first(self.slots, SLOT_FIELDS);
    }

    // What stands above the records of an accepted payload; of objects and values that is zero as
    // it is.
    fn clear_rest(&mut self, graph: Graph)
        requires { Fitting graph self.old.slots.now self.old.addresses.now }
        ensures trimmed { Trimmed graph self.old self.new }
        ensures same { SameTables self.old self.new }
    {
        clear_above(self.slots, SLOT_FIELDS, graph.slots);
        clear_above(self.addresses, ADDRESS_FIELDS, graph.addresses);
    }

    // Every number of the four tables is 0.
    fn clear(&mut self)
        ensures zero { Cleared (rooms_in self.old) self.new.objects.now self.new.slots.now self.new.values.now self.new.addresses.now }
        ensures same { SameTables self.old self.new }
    {
        clear(self.objects);
        clear(self.slots);
        clear(self.values);
        clear(self.addresses);
    }
}

// The walk of a payload over tables that are prepared, which come by value, so that they and the
// parts of scratch can be lent at once. Scratch may hold anything: its first part has a place for
// each byte of the payload, as far as it goes, and the rest is the index of legacy addresses, whose
// counts are cleared: no record is entered yet.
fn walk_payload<'a>(
    call: Call<'a>,
    heads: &'a [Head; 256],
    tables: Tables<'a>,
) -> Result<Graph, Refused>
    requires { Started (entered call) heads.now tables }
    ensures { Walked (Definition.walk (Definition.input_of (entered call.entry)) (begun_in tables.entry)) result tables.exit.0.now tables.exit.1.0.now tables.exit.1.1.0.now tables.exit.1.1.1.0.now }
{
    let Tables {
        objects,
        slots,
        values,
        addresses,
        scratch,
    } = tables;
    let (pending, index) = scratch.split_at_mut(call.payload.len().min(scratch.len()));
    clear_first(index, LISTED_SPACES as usize);
    let mut w = Walker {
        sheet: call.sheet,
        heads,
        trusted: call.trusted,
        payload: call.payload,
        spaces: spaces(call.reservations),
        objects,
        slots,
        values,
        addresses,
        pending,
        index,
        hot: HotRing::new(),
        alloc: LegacyAlloc::new(),
    };
    // All numbers by name, as the definition's `start` has them: tried with the default of `State`,
    // of which the proof did not close.
    let start = State {
        at: 0,
        objects: 0,
        slots: 0,
        values: 0,
        addresses: 0,
        pending: 0,
        waiting: 0,
        skip: 0,
        alignment: 0,
        long_integers: 0,
    };
    let ((), s) = walk(&mut w, start)?;
    Ok(Graph::from(s))
}

// The checks, and then the walk.
fn read(call: Call<'_>, tables: &mut Tables<'_>) -> Result<Graph, Refused>
    requires { Prepared (rooms_in tables.old) tables.old }
    ensures walked { Walked (Definition.called (entered call.entry) (begun_in tables.old)) result tables.new.objects.now tables.new.slots.now tables.new.values.now tables.new.addresses.now }
    ensures bytes { IfOk result (λ g. (i : ℕ) → get_or call.entry.payload.now i 0 < 256) }
    ensures rooms { rooms_in tables.new ≡ rooms_in tables.old }
    ensures same { SameTables tables.old tables.new }
{
    let heads = decode(call.sheet).ok_or(at_start(Refusal::UnusableSheet))?;
    if too_long(call.payload, call.reservations) {
        return Err(at_start(Refusal::TooLong));
    }
    let lent = Tables {
        objects: tables.objects,
        slots: tables.slots,
        values: tables.values,
        addresses: tables.addresses,
        scratch: tables.scratch,
    };
    walk_payload(call, &heads, lent)
}

/// The object graph of a payload, in the four tables; or a refusal's number, 1 to 16, with its
/// place.
///
/// `reads` says what the answer and every number of the tables are, after a refusal too. `assured`
/// says what is guaranteed of an accepted payload under a plain sheet, and `second` what then holds
/// of a second call whose payload begins as this one does. `cleared` says that a refusal leaves
/// every table zero, and `same` that the tables that were lent are those that are written. All of
/// it holds whatever the tables hold before, for every length of scratch and whatever it holds;
/// what scratch holds at the end is not said.
pub fn parse_with(call: Call<'_>, tables: &mut Tables<'_>) -> Result<Graph, Refused>
    ensures reads { Reads (entered call.entry) (rooms_in tables.old) (answer result) tables.new.objects.now tables.new.slots.now tables.new.values.now tables.new.addresses.now }
    ensures assured { Sheet.plain call.entry.sheet.now ≡ true → (answer result).number ≡ 0 → Assures (entered call.entry) (rooms_in tables.old) (answer result) tables.new.objects.now tables.new.slots.now tables.new.values.now tables.new.addresses.now }
    ensures second { Sheet.plain call.entry.sheet.now ≡ true → (answer result).number ≡ 0 →
        SecondCallsIn (entered call.entry) (rooms_in tables.old) (answer result) tables.new }
    ensures numbered { IfErr result (λ e. RefusalNumber (number_of e.refusal)) }
    ensures cleared { IfErr result (λ e. AllZero (rooms_in tables.old) tables.new) }
    ensures same { SameTables tables.old tables.new }
{
    tables.prepare();
    let graph = read(call, tables);
    match graph {
        Ok(g) => tables.clear_rest(g),
        Err(_) => tables.clear(),
    }
    graph
}
