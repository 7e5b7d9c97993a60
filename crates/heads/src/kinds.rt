//! What a reference can be by its head byte.
//!
//! Each kind says what stands after the head byte, and what the reference then is. *Integer* is one
//! of the format's (docs/FORMAT.md, "Integers"); a *with-skip amount* is an integer too, which
//! stands until the next slot item. What is read of each kind is `by_head` of the crate
//! `definition`.

/// The kind of a reference.
#[derive(Clone, Copy, PartialEq, Eq, Debug)]
pub enum Kind {
    /// A byte without meaning: refusal 10.
    NoMeaning,
    /// Opens an object. In legacy sheets the argument is its space, else 0.
    NewObject,
    /// A back-reference by plain index: an integer.
    Backref,
    /// A legacy back-reference. The argument is the space.
    LegacyBackref,
    /// A with-skip amount, then as `LegacyBackref`. Only in 6.x.
    LegacyBackrefWithSkip,
    /// A chunk change of the space that the next byte names, then a reference. Only in legacy.
    NextChunk,
    /// An alignment prefix, whose argument is 1 to 3, then a reference. Only in legacy.
    Alignment,
    /// A place of the hot ring: the argument, 0 to 7.
    Hot,
    /// A with-skip amount, then as `Hot`.
    HotWithSkip,
    /// A root by number: an integer.
    RootArray,
    /// A root by number: the argument.
    RootConstant,
    /// A with-skip amount, then as `RootConstant`.
    RootConstantWithSkip,
    /// An object of the read-only heap: page number and offset, two integers.
    ReadOnly,
    /// An attached reference by number: an integer.
    Attached,
    /// A builtin's code by number: an integer. Only in 6.x.
    Builtin,
    /// An external reference by number: an integer. Only in 6.x.
    External,
    /// An API reference: a with-skip amount and its number, an integer. Only in 6.x.
    Api,
    /// An internal reference: two integers, and no slot. Only in 6.x.
    Internal,
    /// A deoptimizer entry: one integer, and no slot. Only in 6.x.
    Deoptimizer,
    /// A backing store or code bytes: a length, and no slot. Only in 6.x.
    StreamBytes,
    /// Embedder fields: an object's number and a length, and no slot. Only in 6.x.
    EmbedderFields,
    /// An off-heap target: a with-skip amount and its number, an integer. Only in 6.x.
    OffHeapTarget,
    /// An entry of one of the four object caches, by number: an integer.
    Cache,
    /// A pending forward reference, which takes the next number. No integer follows.
    RegisterPending,
    /// A cleared weak reference, or the self indirect pointer.
    ClearedWeak,
    /// A weak reference to what the reference that follows is.
    WeakPrefix,
    /// An indirect or protected pointer: it is the reference that follows.
    PointerPrefix,
    /// A dispatch entry: one integer.
    DispatchEntry,
    /// Raw data. The argument is its length in words, 1 to 32.
    FixedRaw,
    /// Raw data, whose length is an integer: words, in legacy bytes.
    VariableRaw,
    /// So many bytes are left out: an integer.
    Skip,
    /// The reference that follows, repeated. The argument is the count, from 2 on.
    FixedRepeat,
    /// A root, whose number is the next byte, repeated. The argument is the count, from 2 on.
    FixedRepeatRoot,
    /// The previous slot, repeated. The argument is the count, from 1 on. Only in 6.x.
    RepeatPrevious,
    /// A count less 18, an integer, and the reference that is repeated.
    VariableRepeat,
    /// A count, an integer: the previous slot, repeated. Only in 6.x.
    VariableRepeatPrevious,
    /// A count less 18, an integer, and the number of the root that is repeated, one byte.
    VariableRepeatRoot,
    /// A meta map: refusal 11.
    MetaMap,
}
