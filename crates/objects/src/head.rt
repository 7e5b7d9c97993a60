//! An object's head: its size, and its record.

ghost use Rattle.std.specs.Prelude.{true, false, ◌≡◌, ◌^◌, ◌<◌, IfSome, IsNone};
ghost use Rattle.sheet.specs.Sheet.{usable};
ghost use Rattle.heads.specs.declared.kinds.Kind.TheVariants.{NewObject as NewObjectKind};
ghost use Rattle.readers.specs.Views.{mem, seen, Below, Counts};
ghost use Rattle.readers.specs.Lent.{input_of, lent_of, Kept};
ghost use Rattle.objects.specs.Head.{recording, opening, OpensAt, NewAt};

use heads::heads::Head;
use heads::kinds::Kind;
use readers::ints::{read_byte, read_int};
use readers::state::{Answer, State};
use readers::walker::Walker;
use refusals::refusal::Refusal;
use sheet::numbers::{lo_space, six_x, word_bytes};
use tables::records::add_object;

/// A new object, by its head. That the space is below 256 stands in the clauses of those that need
/// it, since it follows from the sheet's heads, which a walker doesn't promise.
#[derive(Clone, Copy)]
pub struct NewObject {
    /// The place of its head in the payload.
    pub tag: usize,
    /// Its space, in a legacy sheet.
    pub space: u64,
}

impl NewObject {
    /// The new object that a head at place `at` begins; `None` exactly where the head is another.
    pub fn of(at: usize, head: Head) -> Option<NewObject>
        ensures some { IfSome result (λ new. (head.kind ≡ NewObjectKind) × (new ≡ record { tag = at; space = head.argument })) }
        ensures none { IsNone result → head.kind ≡ NewObjectKind → ⊥ }
    {
        if head.kind != Kind::NewObject {
            return None;
        }
        Some(NewObject {
            tag: at,
            space: u64::from(head.argument),
        })
    }
}

/// The new object whose head stands at place `at`; `None` exactly where none stands there.
pub fn new_object_at(w: &Walker, at: usize) -> Option<NewObject>
    ensures some { IfSome result (NewAt w.now at) }
    ensures none { IsNone result → OpensAt w.now at → ⊥ }
{
    NewObject::of(at, w.head_at(at)?)
}

/// Reads the size of a new object after whose head the cursor stands, and adds its record: the size
/// in words. In 6.x a large object has one byte more. Refused (docs/FORMAT.md, "Refusals") where
/// the payload ends and where the record has no room.
pub fn open_object(w: &mut Walker, s: State, new: NewObject) -> Answer<u64>
    requires { (usable w.old.sheet.now ≡ true) × Counts s }
    ensures is { seen result (lent_of w.new) ≡ opening (input_of w.old) new.space new.tag (mem s (lent_of w.old)) }
    ensures small { Below (2 ^ 30) result }
    ensures kept { Kept w.old w.new }
{
    let (words, t) = read_int(w.payload, s)?;
    if !six_x(w.sheet) || new.space != lo_space(w.sheet) {
        return add_record(w, t, new.tag, words);
    }
    let (_, u) = read_byte(w.payload, t)?;
    add_record(w, u, new.tag, words)
}

// The object's record, if there is room; the words again.
#[tactic(auto, unfolding(definition::specs::Object::add_object))]
fn add_record(w: &mut Walker, s: State, tag: usize, words: u64) -> Answer<u64>
    requires { (usable w.old.sheet.now ≡ true) × (words < 2 ^ 30) }
    ensures is { seen result (lent_of w.new) ≡ recording (input_of w.old) tag words (mem s (lent_of w.old)) }
    ensures small { Below (2 ^ 30) result }
    ensures kept { Kept w.old w.new }
{
    let bytes = words * word_bytes(w.sheet);
    add_object(w.objects, s.objects, bytes, tag as u64).ok_or(s.refused(Refusal::NoRoom))?;
    let t = State {
        objects: s.objects + 1,
        ..s
    };
    Ok((words, t))
}
