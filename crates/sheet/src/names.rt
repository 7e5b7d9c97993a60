//! The places of the version sheet's numbers (docs/FORMAT.md, "The version sheet").
//!
//! Each constant named `K_..` is the place of the tag or constant that V8 calls by that name.

/// What an absent tag or constant has.
pub const ABSENT: u16 = 65535;

/// How many numbers a sheet has.
pub const SHEET_LENGTH: usize = 58;

/// How many of them, the first, are tags and constants.
pub const NAMED: usize = 56;

/// How many of these, the first, a usable sheet has to have.
pub const REQUIRED: usize = 9;

/// kNewObject: a new object follows: size, map, body.
pub const K_NEW_OBJECT: usize = 0;

/// kBackref: reference to an object read before.
pub const K_BACKREF: usize = 1;

/// kRootArray: root by index integer; enters the hot ring.
pub const K_ROOT_ARRAY: usize = 2;

/// kAttachedReference: attached reference by index.
pub const K_ATTACHED_REFERENCE: usize = 3;

/// kSynchronize: ends the closing section.
pub const K_SYNCHRONIZE: usize = 4;

/// kNop: padding after kSynchronize.
pub const K_NOP: usize = 5;

/// kHotObject: object or root in a place of the hot ring (a span of 8 bytes).
pub const K_HOT_OBJECT: usize = 6;

/// kRootArrayConstants: root whose index is in the byte.
pub const K_ROOT_ARRAY_CONSTANTS: usize = 7;

/// kFixedRawData: raw words, the number in the byte, from 1 (a span of 32 bytes).
pub const K_FIXED_RAW_DATA: usize = 8;

/// kNextChunk: chunk change; a space byte follows.
pub const K_NEXT_CHUNK: usize = 9;

/// kAlignmentPrefix: alignment of the next allocation (a span of 3 bytes).
pub const K_ALIGNMENT_PREFIX: usize = 10;

/// kHotObjectWithSkip: as kHotObject, with a skip in bytes (a span of 8 bytes).
pub const K_HOT_OBJECT_WITH_SKIP: usize = 11;

/// kRootArrayConstantsWithSkip: as kRootArrayConstants, with a skip in bytes.
pub const K_ROOT_ARRAY_CONSTANTS_WITH_SKIP: usize = 12;

/// kReadOnlyHeapRef: read-only object by page and offset.
pub const K_READ_ONLY_HEAP_REF: usize = 13;

/// kBuiltin: builtin code by index.
pub const K_BUILTIN: usize = 14;

/// kExternalReference: external reference by index.
pub const K_EXTERNAL_REFERENCE: usize = 15;

/// kApiReference: API reference: skip, index.
pub const K_API_REFERENCE: usize = 16;

/// kInternalReference: internal reference of a code object: two offsets.
pub const K_INTERNAL_REFERENCE: usize = 17;

/// kInternalReferenceEncoded: the same in encoded form.
pub const K_INTERNAL_REFERENCE_ENCODED: usize = 18;

/// kDeoptimizerEntryPlain: deoptimizer entry.
pub const K_DEOPTIMIZER_ENTRY_PLAIN: usize = 19;

/// kDeoptimizerEntryFromCode: deoptimizer entry in code.
pub const K_DEOPTIMIZER_ENTRY_FROM_CODE: usize = 20;

/// kOffHeapBackingStore: backing store of an array buffer: length, bytes.
pub const K_OFF_HEAP_BACKING_STORE: usize = 21;

/// kVariableRawCode: bytes of a code object: length, bytes.
pub const K_VARIABLE_RAW_CODE: usize = 22;

/// kEmbedderFieldsData: embedder fields: index, length, bytes.
pub const K_EMBEDDER_FIELDS_DATA: usize = 23;

/// kOffHeapTarget: off-heap builtin target: skip, index.
pub const K_OFF_HEAP_TARGET: usize = 24;

/// kPartialSnapshotCache: entry of the partial snapshot cache.
pub const K_PARTIAL_SNAPSHOT_CACHE: usize = 25;

/// kStartupObjectCache: entry of the startup object cache.
pub const K_STARTUP_OBJECT_CACHE: usize = 26;

/// kReadOnlyObjectCache: entry of the read-only object cache.
pub const K_READ_ONLY_OBJECT_CACHE: usize = 27;

/// kSharedHeapObjectCache: entry of the shared heap object cache.
pub const K_SHARED_HEAP_OBJECT_CACHE: usize = 28;

/// kRegisterPendingForwardRef: forward reference, pending until resolved.
pub const K_REGISTER_PENDING_FORWARD_REF: usize = 29;

/// kClearedWeakReference: cleared weak reference.
pub const K_CLEARED_WEAK_REFERENCE: usize = 30;

/// kWeakPrefix: the next reference is weak.
pub const K_WEAK_PREFIX: usize = 31;

/// kIndirectPointerPrefix: the next reference is an indirect pointer.
pub const K_INDIRECT_POINTER_PREFIX: usize = 32;

/// kProtectedPointerPrefix: the next reference is a protected pointer.
pub const K_PROTECTED_POINTER_PREFIX: usize = 33;

/// kInitializeSelfIndirectPointer: the object's own indirect pointer.
pub const K_INITIALIZE_SELF_INDIRECT_POINTER: usize = 34;

/// kAllocateJSDispatchEntry: dispatch table entry to allocate.
pub const K_ALLOCATE_JS_DISPATCH_ENTRY: usize = 35;

/// kJSDispatchEntry: dispatch table entry by number.
pub const K_JS_DISPATCH_ENTRY: usize = 36;

/// kVariableRawData: raw data with its length: words, in legacy bytes.
pub const K_VARIABLE_RAW_DATA: usize = 37;

/// kSkip: skip of some bytes in the object.
pub const K_SKIP: usize = 38;

/// kFixedRepeat: repeat, the count in the byte (a span of 16 bytes).
pub const K_FIXED_REPEAT: usize = 39;

/// kFixedRepeatRoot: repeat of a root, the count in the byte (a span of 16 bytes).
pub const K_FIXED_REPEAT_ROOT: usize = 40;

/// kVariableRepeat: repeat with its count.
pub const K_VARIABLE_REPEAT: usize = 41;

/// kVariableRepeatRoot: repeat of a root with its count.
pub const K_VARIABLE_REPEAT_ROOT: usize = 42;

/// kNewMetaMap: a meta map; refused with 11.
pub const K_NEW_META_MAP: usize = 43;

/// kNewContextlessMetaMap: a meta map without context; refused with 11.
pub const K_NEW_CONTEXTLESS_META_MAP: usize = 44;

/// kNewContextfulMetaMap: a meta map with context; refused with 11.
pub const K_NEW_CONTEXTFUL_META_MAP: usize = 45;

/// kResolvePendingForwardRef: this object is the target of a pending reference.
pub const K_RESOLVE_PENDING_FORWARD_REF: usize = 46;

/// kDeferred: the rest of the object is in the closing section.
pub const K_DEFERRED: usize = 47;

/// kNumberOfSpaces: number of spaces in new-object and back-reference bytes; 6 where absent.
pub const K_NUMBER_OF_SPACES: usize = 48;

/// kMapSpace: space whose back-references are map numbers; 4 where absent.
pub const K_MAP_SPACE: usize = 49;

/// kLoSpace: space whose back-references are large-object numbers; 5 where absent.
pub const K_LO_SPACE: usize = 50;

/// kRootArrayConstantsMask: mask of a root constant's index; 31 where absent.
pub const K_ROOT_ARRAY_CONSTANTS_MASK: usize = 51;

/// kSpaceTagSize: bits that the space takes in a packed back-reference; 3 where absent.
pub const K_SPACE_TAG_SIZE: usize = 52;

/// kPageSizeBits: size of a page as a power of two; 19 where absent.
pub const K_PAGE_SIZE_BITS: usize = 53;

/// kSpaceMask: its presence marks legacy; its value has no meaning.
pub const K_SPACE_MASK: usize = 54;

/// kBackrefWithSkip: as kBackref, with a skip in bytes; its presence marks 6.x.
pub const K_BACKREF_WITH_SKIP: usize = 55;

/// tagged_size: bytes of a tagged word, 4 or 8.
pub const TAGGED_SIZE: usize = 56;

/// var_raw_advances: whether kVariableRawData moves the slot position.
pub const VAR_RAW_ADVANCES: usize = 57;
