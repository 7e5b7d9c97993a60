//! Runs vectors of the parts below the walk and prints what they give;
//! crates/leaf_vectors/stdout is what must come out.
#![tactic(auto)]

use alloc::fill::fill_to_align;
use alloc::legacy_alloc::{LegacyAlloc, Request};
use alloc::resolve::{Place, resolve};
use filled::covering::range_at;
use filled::filled::{Counts, Filled, Tables};
use filled::number::{Wish, number_in};
use filled::refused::Refused;
use filled::view::raw_range;
use heads::heads::decode;
use inspection::inspect::inspect;
use refusals::refusal::Refusal;
use sheet::names::*;
use std::io;
use stream::putint::{Int, putint};
use stream::smi::decode_smi_bytes;
use tables::records::{Slot, add_slot};
use tables::values::{Raw, SlotValue};
use usable_sheets::usable::{plain, usable};

// The integer at a place of some bytes: its value and byte count.
fn integers(rt: &impl Print) -> io::Result<()> {
    let vectors: [(&[u8], usize); 8] = [
        (b"\x08", 0),
        (b"\x09\x00", 0),
        (b"\xff\x02\x00\x80\x45", 0),
        (b"\xfe\xff\xff", 0),
        (b"\xff\xff\xff\xff", 0),
        (b"\x00\x45\x46\x0c", 3),
        (b"\xff\xff\xff", 0),
        (b"\x08", 1),
    ];
    for (payload, at) in vectors {
        match putint(payload, at) {
            Some(Int { value, count }) => println!(rt; "int {value} {count}")?,
            None => println!(rt; "int cut")?,
        }
    }
    Ok(())
}

// The Smi of some bytes.
fn smis(rt: &impl Print) -> io::Result<()> {
    let vectors: [&[u8]; 9] = [
        b"\xfe\xff\xff\xff",
        b"\x04\x00\x00\x00",
        b"\x00\x00\x00\x80",
        b"\x05\x00\x00\x00",
        b"\x00\x00\x00\x00\xff\xff\xff\xff",
        b"\x00\x00\x00\x00\x07\x00\x00\x00",
        b"\x00\x00\x00\x00\x00\x00\x00\x80",
        b"\x01\x00\x00\x00\x07\x00\x00\x00",
        b"\x00\x00\x00",
    ];
    for bytes in vectors {
        match decode_smi_bytes(bytes) {
            Some(smi) => println!(rt; "smi {smi}")?,
            None => println!(rt; "smi none")?,
        }
    }
    Ok(())
}

// Sheet A (docs/FORMAT.md, "Examples").
fn sheet_a() -> [u16; SHEET_LENGTH] {
    let mut sheet = [ABSENT; SHEET_LENGTH];
    sheet[K_NEW_OBJECT] = 0x00;
    sheet[K_BACKREF] = 0x08;
    sheet[K_READ_ONLY_HEAP_REF] = 0x09;
    sheet[K_ROOT_ARRAY] = 0x0a;
    sheet[K_ATTACHED_REFERENCE] = 0x0b;
    sheet[K_NOP] = 0x0c;
    sheet[K_SYNCHRONIZE] = 0x0d;
    sheet[K_REGISTER_PENDING_FORWARD_REF] = 0x0e;
    sheet[K_RESOLVE_PENDING_FORWARD_REF] = 0x0f;
    sheet[K_WEAK_PREFIX] = 0x10;
    sheet[K_CLEARED_WEAK_REFERENCE] = 0x11;
    sheet[K_VARIABLE_RAW_DATA] = 0x12;
    sheet[K_VARIABLE_REPEAT] = 0x13;
    sheet[K_ROOT_ARRAY_CONSTANTS] = 0x40;
    sheet[K_FIXED_RAW_DATA] = 0x60;
    sheet[K_FIXED_REPEAT] = 0x80;
    sheet[K_HOT_OBJECT] = 0x90;
    sheet[TAGGED_SIZE] = 8;
    sheet[VAR_RAW_ADVANCES] = 1;
    sheet
}

// What some head bytes mean under a sheet: the kind and the argument
// (crates/heads/src/kinds.rt).
fn show_heads(rt: &impl Print, sheet: &[u16], bytes: &[u8]) -> io::Result<()> {
    if let Some(heads) = decode(sheet) {
        for &byte in bytes {
            let b = usize::from(byte);
            let head = heads[b];
            println!(rt; "head {} {}", head.kind as u64, head.argument)?;
        }
    }
    Ok(())
}

fn show_sheet(rt: &impl Print, sheet: &[u16]) -> io::Result<()> {
    let usable = u64::from(usable(sheet));
    let plain = u64::from(plain(sheet));
    println!(rt; "usable plain {usable} {plain}")
}

// Usable, plain, and the heads of the first and last byte of some spans. With kSpaceMask the sheet
// is legacy, and with a span that ends past 255 not usable.
fn sheets(rt: &impl Print) -> io::Result<()> {
    let mut sheet = sheet_a();
    show_sheet(rt, &sheet)?;
    show_heads(rt, &sheet, b"\x00\x07\x08\x0d\x45\x5f\x7f\x81\x97\xff")?;
    sheet[K_SPACE_MASK] = 7;
    show_sheet(rt, &sheet)?;
    sheet[K_FIXED_RAW_DATA] = 224;
    show_sheet(rt, &sheet)
}

// The name that some head bytes obey, and whether another lays hold of them; of a sheet that is not
// usable the refusal.
fn show_names(rt: &impl Print, sheet: &[u16], bytes: &[u8]) -> io::Result<()> {
    let mut names = [1; 256];
    let mut shared = [1; 256];
    let seen = inspect(sheet, &mut names, &mut shared);
    for &byte in bytes {
        let b = usize::from(byte);
        let (name, other) = (names[b], shared[b]);
        match seen {
            Ok(()) => println!(rt; "name {name} {other}")?,
            Err(refusal) => println!(rt; "refused {} {name} {other}", refusal.number())?,
        }
    }
    Ok(())
}

// Sheet A, with kFixedRepeatRoot where kFixedRepeat hides it and kWeakPrefix on a root constant.
// The same as a legacy sheet with kRootArray among the six bytes of kNewObject, and as one with no
// spaces, in which kBackref has its byte alone. A sheet without kNop is not usable.
fn inspections(rt: &impl Print) -> io::Result<()> {
    let mut sheet = sheet_a();
    sheet[K_FIXED_REPEAT_ROOT] = 0x80;
    sheet[K_WEAK_PREFIX] = 0x45;
    show_names(rt, &sheet, b"\x00\x07\x08\x0c\x0d\x44\x45\x80\xff")?;
    sheet[K_SPACE_MASK] = 7;
    sheet[K_ROOT_ARRAY] = 0x05;
    show_names(rt, &sheet, b"\x04\x05\x06\x08\x0d")?;
    sheet[K_NUMBER_OF_SPACES] = 0;
    show_names(rt, &sheet, b"\x00\x05\x08\x09")?;
    sheet[K_NOP] = ABSENT;
    show_names(rt, &sheet, b"\x45")
}

// The filler before a double-aligned and a double-unaligned object, under words of four bytes.
fn fillers(rt: &impl Print) -> io::Result<()> {
    for alignment in [1, 2] {
        let at_four = fill_to_align(4, alignment, 4);
        let at_eight = fill_to_align(8, alignment, 4);
        println!(rt; "fill {at_four} {at_eight}")?;
    }
    Ok(())
}

// A refusal's number, or 0 for none, as the output has it.
fn number_of(alignment: Result<u64, Refusal>) -> u64 {
    alignment.err().map_or(0, Refusal::number)
}

// Two objects of 12 bytes in space 2, the second double-aligned: it is found at its address, and at
// the one before its filler while the alignment is pending.
fn addresses(rt: &impl Print) -> io::Result<()> {
    let mut table = [0u64; 10];
    let request = Request {
        space: 2,
        size: 12,
        object: 0,
        alignment: 0,
        word: 4,
    };
    let aligned = Request {
        object: 1,
        alignment: 1,
        ..request
    };
    let first = LegacyAlloc::new().allocate(&mut table, 0, 6, request);
    let second = first.alloc.allocate(&mut table, 1, 6, aligned);
    let one = number_of(first.alignment);
    let two = number_of(second.alignment);
    println!(rt; "allocated {one} {two}")?;
    println!(rt; "address {} {}", table[2], table[7])?;
    for (offset, alignment) in [(16, 0), (12, 1), (12, 0)] {
        match resolve(&table, 2, 2, Place { chunk: 0, offset }, alignment, 4) {
            Some(object) => println!(rt; "object {object} {offset}")?,
            None => println!(rt; "object none")?,
        }
    }
    Ok(())
}

// A table of two raw slots: three bytes from place 1, and three from place 2.
fn raw_slots() -> [u64; 12] {
    let mut table = [0u64; 12];
    for (k, off) in [1, 2].into_iter().enumerate() {
        let raw = SlotValue::Raw(Raw {
            off,
            len: 3,
            advances: true,
        });
        let slot = Slot {
            object: 0,
            index: k as u64 + 1,
            value: raw.into(),
            waits: 0,
        };
        add_slot(&mut table, k, slot);
    }
    table
}

// A slot table of two slots as filled tables, the others empty.
fn filled_of(slots: &[u64]) -> Result<Filled<'_>, Refused> {
    let tables = Tables {
        objects: &[],
        slots,
        values: &[],
        addresses: &[],
    };
    let none = Counts {
        objects: 0,
        slots: 0,
        values: 0,
        addresses: 0,
    };
    Filled::new(tables, none, Counts { slots: 2, ..none })
}

// The view of a raw slot, of one whose range ends past the payload, and of one that is not listed.
fn views(rt: &impl Print, filled: Filled<'_>) -> io::Result<()> {
    for k in 0..3 {
        match raw_range(filled, &[7u8; 4], k) {
            Ok(range) => println!(rt; "view {} {}", range.begin, range.len)?,
            Err(refused) => {
                println!(rt; "refused {} {}", refused.refusal.number(), refused.place)?
            }
        }
    }
    Ok(())
}

// The slots whose ranges cover each byte of a payload of five, and the byte past its end.
fn coverings(rt: &impl Print, filled: Filled<'_>) -> io::Result<()> {
    for offset in 0..6 {
        match range_at(filled, 5, offset) {
            Ok(covering) => println!(rt; "covering {covering:?}")?,
            Err(refused) => {
                println!(rt; "refused {} {}", refused.refusal.number(), refused.place)?
            }
        }
    }
    Ok(())
}

// Numbers in raw data.
fn numbers(rt: &impl Print) -> io::Result<()> {
    let bytes = [8, 0, 0, 0, 0, 0, 0, 0];
    for (size, at) in [(4, 0), (8, 0), (4, 5), (5, 0)] {
        println!(rt; "number {:?}", number_in(&bytes, at, Wish::Smi(size)))?;
    }
    let nan = [0, 0, 0, 0, 0, 0, 0xf8, 0x7f];
    println!(rt; "number {:?}", number_in(&nan, 0, Wish::Double))
}

fn main(rt: HostRuntime) -> io::Result<()> {
    integers(&rt)?;
    smis(&rt)?;
    sheets(&rt)?;
    inspections(&rt)?;
    fillers(&rt)?;
    addresses(&rt)?;
    let table = raw_slots();
    match filled_of(&table) {
        Ok(filled) => {
            views(&rt, filled)?;
            coverings(&rt, filled)?;
        }
        Err(_) => println!(rt; "not filled")?,
    }
    numbers(&rt)
}
