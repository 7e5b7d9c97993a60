//! References and the values of slots. They are `Ref`, `Raw` and `SlotValue` of the Rust's
//! src/serializer.rs, with value records in place of boxed values.
ghost use Rattle.std.specs.Prelude.{◌≡◌, ◌≤◌};
ghost use Rattle.tables.specs.Values.{triple, kind_number, ref_fields, fields_of, width_of};

/// What a reference stands for.
#[derive(Clone, Copy)]
pub enum Ref {
    /// The object of this number.
    Object(u64),
    /// The root of this index.
    Root(u64),
    /// A read-only object: the page's number, and the offset in it.
    RoRef(u64, u64),
    /// The attached reference of this index.
    Attached(u64),
}

/// A raw range of the payload.
#[derive(Clone, Copy)]
pub struct Raw {
    /// The place of its first byte in the payload.
    pub off: u64,
    /// How many bytes it has.
    pub len: u64,
    /// Whether it takes bytes of its object.
    pub advances: bool,
}

/// The value of a slot. A repeat and a weak reference name the value that they hold by the number
/// of its value record, so that no value needs memory of its own.
#[derive(Clone, Copy)]
pub enum SlotValue {
    /// A reference.
    Ref(Ref),
    /// The value of a value record, so many times: the count and the record's number.
    Repeat(u32, u64),
    /// The slot before, so many times (6.x).
    RepeatPrev(u32),
    /// So many bytes of the object that are passed over.
    Skip(u32),
    /// So many bytes of the payload that take no bytes of the object (6.x).
    StreamBytes(u32),
    /// A raw range.
    Raw(Raw),
    /// A weak reference that was cleared.
    ClearedWeak,
    /// The value of this value record behind a weak, indirect-pointer or protected-pointer prefix.
    WeakRef(u64),
    /// A pending forward reference of this number.
    PendingRef(u64),
}

/// The kinds of values, with their numbers in a record: `Raw` takes bytes of its object, and
/// `RawInPlace` does not.
#[derive(Clone, Copy, PartialEq, Eq)]
pub enum ValueKind {
    Object = 1,
    Root = 2,
    ReadOnly = 3,
    Attached = 4,
    Raw = 5,
    RawInPlace = 6,
    Repeat = 7,
    RepeatPrevious = 8,
    Skip = 9,
    StreamBytes = 10,
    ClearedWeak = 11,
    Weak = 12,
    Pending = 13,
}

/// A value as a record has it (docs/FORMAT.md, "The tables"). The kind is the number of a
/// `ValueKind`; a number that the kind does not use is 0.
#[derive(Clone, Copy)]
pub struct Fields {
    pub kind: u64,
    pub a: u64,
    pub b: u64,
}

impl Fields {
    fn new(kind: ValueKind, a: u64, b: u64) -> Fields
        ensures { result ≡ triple (kind_number kind) a b }
    {
        Fields {
            kind: kind as u64,
            a,
            b,
        }
    }
}

/// The kind and the two numbers of a reference.
impl From<Ref> for Fields {
    ghost from_gives = { λ r f. f ≡ ref_fields r };

    fn from(r: Ref) -> Fields {
        match r {
            Ref::Object(id) => Fields::new(ValueKind::Object, id, 0),
            Ref::Root(i) => Fields::new(ValueKind::Root, i, 0),
            Ref::RoRef(c, o) => Fields::new(ValueKind::ReadOnly, c, o),
            Ref::Attached(i) => Fields::new(ValueKind::Attached, i, 0),
        }
    }
}

/// The kind and the two numbers of a value.
impl From<SlotValue> for Fields {
    ghost from_gives = { λ v f. f ≡ fields_of v };

    fn from(v: SlotValue) -> Fields {
        match v {
            SlotValue::Ref(r) => r.into(),
            SlotValue::Raw(r) if r.advances => Fields::new(ValueKind::Raw, r.off, r.len),
            SlotValue::Raw(r) => Fields::new(ValueKind::RawInPlace, r.off, r.len),
            SlotValue::Repeat(n, k) => Fields::new(ValueKind::Repeat, n as u64, k),
            SlotValue::RepeatPrev(n) => Fields::new(ValueKind::RepeatPrevious, n as u64, 0),
            SlotValue::Skip(n) => Fields::new(ValueKind::Skip, n as u64, 0),
            SlotValue::StreamBytes(n) => Fields::new(ValueKind::StreamBytes, n as u64, 0),
            SlotValue::ClearedWeak => Fields::new(ValueKind::ClearedWeak, 0, 0),
            SlotValue::WeakRef(k) => Fields::new(ValueKind::Weak, k, 0),
            SlotValue::PendingRef(n) => Fields::new(ValueKind::Pending, n, 0),
        }
    }
}

/// How many bytes of its object an item with this value takes, `ts` bytes to a word; `ts` is at
/// most 8.
pub fn width(v: SlotValue, ts: u64) -> u64
    requires { ts ≤ 8 }
    ensures { result ≡ width_of ts v }
{
    match v {
        SlotValue::Raw(r) => { if r.advances { r.len } else { 0 } }
        SlotValue::Repeat(n, _) | SlotValue::RepeatPrev(n) => n as u64 * ts,
        SlotValue::Skip(n) => n as u64,
        SlotValue::StreamBytes(_) => 0,
        SlotValue::Ref(_)
        | SlotValue::ClearedWeak
        | SlotValue::WeakRef(_)
        | SlotValue::PendingRef(_) => ts,
    }
}
