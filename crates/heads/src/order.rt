//! The order in which a reference's head byte is tested, as a table (`order` of specs/Heads.antt).

use crate::kinds::Kind;
use sheet::names::*;

/// How many bytes a name lays hold of, from its first byte on.
#[derive(Clone, Copy, PartialEq, Eq, Debug)]
pub enum Span {
    /// So many.
    Bytes(u64),
    /// kNumberOfSpaces.
    Spaces,
    /// kNumberOfSpaces, but none from a kRootArray on that lies there (`new_object_span`).
    NewObjects,
    /// kRootArrayConstantsMask + 1.
    RootConstants,
    /// From kNewObject to below kBackref.
    UpToBackref,
}

/// Which sheets test a name.
#[derive(Clone, Copy, PartialEq, Eq, Debug)]
pub enum Family {
    Always,
    Legacy,
    Modern,
    SixX,
    NotSixX,
    /// 6.x, where kFixedRepeat is absent: it hides kFixedRepeatRoot.
    SixXAlone,
    /// All but 6.x, where kFixedRepeat is absent.
    NotSixXAlone,
}

/// A head's argument, from its byte and the name's first byte.
#[derive(Clone, Copy, PartialEq, Eq, Debug)]
pub enum Argument {
    /// 0.
    Nothing,
    /// The byte less the first byte.
    Offset,
    /// That, and 1.
    FromOne,
    /// That, and 2.
    FromTwo,
    /// The byte AND 7.
    AndSeven,
    /// The byte AND kRootArrayConstantsMask.
    AndMask,
}

/// A row of the order: the bytes of a name, by its place in the sheet, mean this kind and argument
/// in sheets of this family.
#[derive(Clone, Copy, PartialEq, Eq, Debug)]
pub struct Claim {
    pub name: usize,
    pub span: Span,
    pub family: Family,
    pub kind: Kind,
    pub argument: Argument,
}

// The rows, a line each.
macro_rules! claims {
    ($($name:ident, $span:ident $(($n:literal))?, $family:ident, $kind:ident, $argument:ident;)*) => {
        [$(Claim {
            name: $name,
            span: Span::$span $(($n))?,
            family: Family::$family,
            kind: Kind::$kind,
            argument: Argument::$argument,
        }),*]
    };
}

/// The rows, in order. Legacy sheets test the first five before all others.
pub const ORDER: [Claim; 50] = claims! {
    K_NEW_OBJECT, NewObjects, Legacy, NewObject, Offset;
    K_BACKREF_WITH_SKIP, Spaces, SixX, LegacyBackrefWithSkip, Offset;
    K_BACKREF, Spaces, Legacy, LegacyBackref, Offset;
    K_NEXT_CHUNK, Bytes(1), Legacy, NextChunk, Nothing;
    K_ALIGNMENT_PREFIX, Bytes(3), Legacy, Alignment, FromOne;
    K_NEW_OBJECT, UpToBackref, Modern, NewObject, Nothing;
    K_BACKREF, Bytes(1), Always, Backref, Nothing;
    K_HOT_OBJECT, Bytes(8), Always, Hot, AndSeven;
    K_HOT_OBJECT_WITH_SKIP, Bytes(8), Always, HotWithSkip, AndSeven;
    K_ROOT_ARRAY, Bytes(1), Always, RootArray, Nothing;
    K_ROOT_ARRAY_CONSTANTS, RootConstants, Always, RootConstant, AndMask;
    K_ROOT_ARRAY_CONSTANTS_WITH_SKIP, RootConstants, Always, RootConstantWithSkip, AndMask;
    K_READ_ONLY_HEAP_REF, Bytes(1), Always, ReadOnly, Nothing;
    K_ATTACHED_REFERENCE, Bytes(1), Always, Attached, Nothing;
    K_BUILTIN, Bytes(1), SixX, Builtin, Nothing;
    K_EXTERNAL_REFERENCE, Bytes(1), SixX, External, Nothing;
    K_API_REFERENCE, Bytes(1), SixX, Api, Nothing;
    K_INTERNAL_REFERENCE, Bytes(1), SixX, Internal, Nothing;
    K_INTERNAL_REFERENCE_ENCODED, Bytes(1), SixX, Internal, Nothing;
    K_DEOPTIMIZER_ENTRY_PLAIN, Bytes(1), SixX, Deoptimizer, Nothing;
    K_DEOPTIMIZER_ENTRY_FROM_CODE, Bytes(1), SixX, Deoptimizer, Nothing;
    K_OFF_HEAP_BACKING_STORE, Bytes(1), SixX, StreamBytes, Nothing;
    K_VARIABLE_RAW_CODE, Bytes(1), SixX, StreamBytes, Nothing;
    K_EMBEDDER_FIELDS_DATA, Bytes(1), SixX, EmbedderFields, Nothing;
    K_OFF_HEAP_TARGET, Bytes(1), SixX, OffHeapTarget, Nothing;
    K_PARTIAL_SNAPSHOT_CACHE, Bytes(1), Always, Cache, Nothing;
    K_STARTUP_OBJECT_CACHE, Bytes(1), Always, Cache, Nothing;
    K_READ_ONLY_OBJECT_CACHE, Bytes(1), Always, Cache, Nothing;
    K_SHARED_HEAP_OBJECT_CACHE, Bytes(1), Always, Cache, Nothing;
    K_REGISTER_PENDING_FORWARD_REF, Bytes(1), Always, RegisterPending, Nothing;
    K_CLEARED_WEAK_REFERENCE, Bytes(1), Always, ClearedWeak, Nothing;
    K_WEAK_PREFIX, Bytes(1), Always, WeakPrefix, Nothing;
    K_INDIRECT_POINTER_PREFIX, Bytes(1), Always, PointerPrefix, Nothing;
    K_PROTECTED_POINTER_PREFIX, Bytes(1), Always, PointerPrefix, Nothing;
    K_INITIALIZE_SELF_INDIRECT_POINTER, Bytes(1), Always, ClearedWeak, Nothing;
    K_ALLOCATE_JS_DISPATCH_ENTRY, Bytes(1), Always, DispatchEntry, Nothing;
    K_JS_DISPATCH_ENTRY, Bytes(1), Always, DispatchEntry, Nothing;
    K_FIXED_RAW_DATA, Bytes(32), Always, FixedRaw, FromOne;
    K_VARIABLE_RAW_DATA, Bytes(1), Always, VariableRaw, Nothing;
    K_SKIP, Bytes(1), Always, Skip, Nothing;
    K_FIXED_REPEAT, Bytes(16), SixX, RepeatPrevious, FromOne;
    K_FIXED_REPEAT, Bytes(16), NotSixX, FixedRepeat, FromTwo;
    K_FIXED_REPEAT_ROOT, Bytes(16), SixXAlone, RepeatPrevious, FromOne;
    K_FIXED_REPEAT_ROOT, Bytes(16), NotSixXAlone, FixedRepeatRoot, FromTwo;
    K_VARIABLE_REPEAT, Bytes(1), SixX, VariableRepeatPrevious, Nothing;
    K_VARIABLE_REPEAT, Bytes(1), NotSixX, VariableRepeat, Nothing;
    K_VARIABLE_REPEAT_ROOT, Bytes(1), Always, VariableRepeatRoot, Nothing;
    K_NEW_META_MAP, Bytes(1), Always, MetaMap, Nothing;
    K_NEW_CONTEXTLESS_META_MAP, Bytes(1), Always, MetaMap, Nothing;
    K_NEW_CONTEXTFUL_META_MAP, Bytes(1), Always, MetaMap, Nothing;
};
