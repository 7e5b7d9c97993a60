//! The reading half of a walk: the payload, borrowed, and a cursor in it. In the Rust it is a part
//! of `Walker` (src/serializer.rs).
//!
//! | Function | What it gives | Where the cursor stands then |
//! |---|---|---|
//! | `Reader::new(payload, at)` | a reader at that place | `at`, also past the payload |
//! | `peek(self)` | the byte at the cursor (`Cursor.byte_at`) | the caller's copy stays |
//! | `view(self, n)` | the `n` bytes there, of the payload itself | the caller's copy stays |
//! | `byte(&mut self)` | the byte at the cursor | after the byte (`Cursor.past_byte`) |
//! | `putint(&mut self)` | the integer (`PutInt.int_at`) | after it (`Cursor.past_int`) |
//! | `raw(&mut self, n)` | where a raw range of `n` bytes ends | at that end (`Cursor.past_raw`) |
//! | `size_after_tag(payload, at)` | the integer at `at + 1` | there is none |
//!
//! An integer is below 2^30. No function has a `requires`: where bytes are missing the answer is
//! `None`, and `view`'s is empty, and the cursor stays. This differs from crate `readers`, where a
//! refusal's place is the payload's end.
//!
//! `Reader` is a struct that holds a slice at its own lifetime: it is made, passed by value as
//! `self`, returned, and lent as `&mut`. The toolchain covers all of these forms, so there is no
//! proof by hand here and no proofs/: the check finds each proof from std's lemmas on tests and
//! from the definitions of `stream` that the attributes name.
//!
//! The crates of the walk (`readers`, `walker`, `graph`) take payload and state as parameters, and
//! do not use `Reader`.
#![tactic(auto, using(std::proofs::lemmas::Bool::Decides::nat_tests), unfolding(stream::specs::Bytes::raw_at, stream::specs::PutInt::int_at))]

ghost use Rattle.std.specs.Prelude.{◌≡◌, ◌+◌, OnSome};
ghost use Rattle.stream.specs.Bytes.{raw_at, LiesAt};
ghost use Rattle.stream.specs.PutInt.{int_at, Small};
ghost use Rattle.reader.specs.Cursor.{byte_at, moved_to, past_byte, past_int, past_raw, bytes_of};

use stream::bytes::raw;
use stream::putint::{Int, putint};

/// A payload and a cursor in it.
#[derive(Clone, Copy)]
pub struct Reader<'a> {
    /// The bytes that are read.
    pub payload: &'a [u8],
    /// The cursor: bytes from the payload's start. It may pass the payload's end.
    pub at: usize,
}

impl<'a> Reader<'a> {
    /// A reader of a payload, at a place that need not lie in it.
    pub fn new(payload: &'a [u8], at: usize) -> Self
        ensures payload { result.payload ≡ payload.entry }
        ensures at { result.at ≡ at }
    {
        Self { payload, at }
    }

    /// The byte at the cursor; `None` where none is left.
    #[tactic(auto, unfolding(stream::specs::Bytes::peek_at))]
    pub fn peek(self) -> Option<u8>
        ensures { result ≡ byte_at self.entry.payload.now self.entry.at }
    {
        self.payload.get(self.at).copied()
    }

    /// The `n` bytes at the cursor: that part of the payload itself, in its memory.
    ///
    /// Where they pass the payload's end the slice is empty, and its memory is not said. `raw`
    /// tells this from a range of no bytes.
    pub fn view(self, n: usize) -> &'a [u8]
        ensures bytes { let end = raw_at self.entry.payload.now self.entry.at n
            in result.now ≡ bytes_of self.entry.payload.now self.entry.at n end }
        ensures memory { let end = raw_at self.entry.payload.now self.entry.at n
            in OnSome end (LiesAt result self.entry.payload self.entry.at) }
    {
        match raw(self.payload, self.at, n) {
            Some(end) => &self.payload[self.at..end],
            None => &[],
        }
    }

    /// The byte at the cursor, which moves past it; `None` where none is left, and then the cursor
    /// stays.
    #[tactic(auto, using(std::proofs::lemmas::Bool::Decides::nat_tests), unfolding(stream::specs::Bytes::peek_at))]
    pub fn byte(&mut self) -> Option<u8>
        ensures value { result ≡ byte_at self.old.payload.now self.old.at }
        ensures cursor { self.new ≡ moved_to self.old (past_byte self.old.payload.now self.old.at) }
    {
        let byte = *self.payload.get(self.at)?;
        self.at += 1;
        Some(byte)
    }

    /// The end of a raw range of `n` bytes at the cursor, which moves there; `None` where the range
    /// passes the payload's end, and then the cursor stays.
    pub fn raw(&mut self, n: usize) -> Option<usize>
        ensures value { result ≡ raw_at self.old.payload.now self.old.at n }
        ensures cursor { self.new ≡ moved_to self.old (past_raw result self.old.at) }
    {
        let end = raw(self.payload, self.at, n)?;
        self.at = end;
        Some(end)
    }

    /// The integer at the cursor, which moves past it; `None` where the payload ends before the
    /// integer does, and then the cursor stays.
    pub fn putint(&mut self) -> Option<Int>
        ensures value { result ≡ int_at self.old.payload.now self.old.at }
        ensures small { Small result }
        ensures cursor { self.new ≡ moved_to self.old (past_int result self.old.at) }
    {
        let int = putint(self.payload, self.at)?;
        self.at += int.count;
        Some(int)
    }
}

/// The size integer, in words, of a new object whose head byte stands at a place; `None` where the
/// payload ends before the integer does.
pub fn size_after_tag(payload: &[u8], at: usize) -> Option<Int>
    ensures { result ≡ int_at payload.now (at + 1) }
{
    let mut r = Reader::new(payload, at);
    r.byte();
    r.putint()
}
