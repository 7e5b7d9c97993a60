//! What a reference with each head byte is: the 256 answers, made once for a sheet.

ghost use Rattle.std.specs.Prelude.{◌≡◌, true, ◌+◌, ◌<◌, ◌≤◌, length, replicate};
ghost use Rattle.sheet.specs.Sheet.{usable as isUsable};
ghost use Rattle.heads.specs.Heads.{span_of, tests, argument_of, no_head, Heads, Decoded};
ghost use Rattle.heads.specs.Assigning.{Assigned};

use crate::kinds::Kind;
use crate::order::{Argument, Family, ORDER, Span};
use sheet::names::{K_BACKREF, K_FIXED_REPEAT, K_NEW_OBJECT};
use sheet::numbers::{
    legacy, new_object_span, number, number_of_spaces, present, present_number, root_mask, six_x,
};
use usable_sheets::usable::usable;

/// How many bytes a row's name lays hold of, from its first byte on.
pub fn span_of(sheet: &[u16], span: Span) -> u64
    ensures { result ≡ span_of sheet.now span }
{
    match span {
        Span::Bytes(n) => n,
        Span::Spaces => number_of_spaces(sheet),
        Span::NewObjects => new_object_span(sheet),
        Span::RootConstants => root_mask(sheet) + 1,
        Span::UpToBackref => {
            number(sheet, K_BACKREF).saturating_sub(number(sheet, K_NEW_OBJECT))
        }
    }
}

/// Whether this sheet tests a row's name at a reference's head.
pub fn tested(sheet: &[u16], family: Family) -> bool
    ensures { result ≡ tests sheet.now family }
{
    match family {
        Family::Always => true,
        Family::Legacy => legacy(sheet),
        Family::Modern => !legacy(sheet),
        Family::SixX => six_x(sheet),
        Family::NotSixX => !six_x(sheet),
        Family::SixXAlone => six_x(sheet) && !present(sheet, K_FIXED_REPEAT),
        Family::NotSixXAlone => !six_x(sheet) && !present(sheet, K_FIXED_REPEAT),
    }
}

// The head's argument, from the byte and the name's first byte.
fn argument_of(mask: u64, argument: Argument, first: u64, b: u64) -> u64
    requires { (first ≤ b) × (b < 256) }
    ensures { result ≡ argument_of mask argument first b }
{
    match argument {
        Argument::Nothing => 0,
        Argument::Offset => b - first,
        Argument::FromOne => b - first + 1,
        Argument::FromTwo => b - first + 2,
        Argument::AndSeven => b & 7,
        Argument::AndMask => b & mask,
    }
}

/// What a reference with a head byte is, and its argument, which is at most 257.
#[derive(Clone, Copy)]
pub struct Head {
    pub kind: Kind,
    pub argument: u16,
}

// n bytes from `first` on get this kind and their arguments.
fn assign(heads: &mut [Head; 256], first: u64, n: u64, kind: Kind, argument: Argument, mask: u64)
    requires { first + n ≤ 256 }
    ensures { Assigned heads.old first n kind argument mask heads.new }
{
    for b in first..first + n {
        heads[b as usize] = Head {
            kind,
            argument: argument_of(mask, argument, first, b) as u16,
        };
    }
}

// The answers of a usable sheet. The rows are taken from the last to the first, so that the first
// that lays hold of a byte stays.
fn claim_all(sheet: &[u16], heads: &mut [Head; 256])
    requires sheet_value { isUsable sheet.now ≡ true }
    requires heads_value { heads.old ≡ replicate 256 no_head }
    ensures { Heads sheet.now heads.new }
{
    let mask = root_mask(sheet);
    for c in ORDER.iter().rev() {
        if let Some(first) = present_number(sheet, c.name)
            && tested(sheet, c.family)
        {
            let n = span_of(sheet, c.span);
            assign(heads, first, n, c.kind, c.argument, mask);
        }
    }
}

/// What each head byte means under this sheet: the answer for byte b stands at index b. None where
/// the sheet is not usable.
pub fn decode(sheet: &[u16]) -> Option<[Head; 256]>
    ensures { Decoded sheet.now result }
{
    if !usable(sheet) {
        return None;
    }
    let none = Head {
        kind: Kind::NoMeaning,
        argument: 0,
    };
    let mut heads = [none; 256];
    claim_all(sheet, &mut heads);
    Some(heads)
}
