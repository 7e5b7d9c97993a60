//! The input files: sheet.bin, payload.bin, reserve.bin and trusted.bin, little-endian.
ghost use Rattle.std.specs.Prelude.{◌≡◌, ◌≢◌, ◌*◌, ◌/◌, ◌≤◌, ◌⊎◌, [], map, IfOk, length, vec_len};
ghost use Rattle.std.specs.Int.{from_le_bytes};
ghost use Rattle.std.specs.Simd.{first_chunks};
ghost use mir.Syntax.{w16, w32};

use std::alloc::{AllocError, Global};
use std::io::{Error, ErrorKind, Read};
use std::rt::Files;
use std::{fmt, fs, io};

const LIMIT: usize = 65536;

/// What the files hold.
#[derive(Drop)]
pub struct Input {
    /// The 58 numbers of the version sheet, or none where the file has another length.
    pub sheet: Vec<u16>,
    /// The payload, of at most 65,536 bytes.
    pub payload: Vec<u8>,
    /// The reservations, at most 16,384.
    pub reservations: Vec<u32>,
    /// The trusted list, of at most 65,536 bytes.
    pub trusted: Vec<u8>,
}

/// The name of a file that can't be used, and the reason.
#[derive(Debug, Drop)]
pub struct Unusable {
    name: &'static str,
    reason: Error,
}

impl fmt::Display for Unusable {
    fn fmt<W: fmt::Write>(&self, f: &mut fmt::Formatter<W>) -> fmt::Result {
        write!(f, "{}: {}", self.name, self.reason)
    }
}

// All bytes of a file, which are at most LIMIT.
fn read_open(alloc: Global, file: impl Read + Drop) -> io::Result<Vec<u8>>
    ensures { IfOk result (λ v. vec_len v ≤ LIMIT) }
{
    let mut bytes = Vec::new(alloc);
    file.take(LIMIT as u64 + 1).read_to_end(&mut bytes)?;
    if bytes.len() > LIMIT {
        return Err(Error::other("more than 65,536 bytes"));
    }
    Ok(bytes)
}

// The bytes of a file that must be there.
fn read_needed(rt: &impl Files, alloc: Global, name: &str) -> io::Result<Vec<u8>>
    ensures { IfOk result (λ v. vec_len v ≤ LIMIT) }
{
    read_open(alloc, fs::open(rt, name)?)
}

// The bytes of a file that counts as empty where it is missing.
fn read_if_there(rt: &impl Files, alloc: Global, name: &str) -> io::Result<Vec<u8>>
    ensures { IfOk result (λ v. vec_len v ≤ LIMIT) }
{
    match fs::open(rt, name) {
        Ok(file) => read_open(alloc, file),
        Err(e) if e.kind() == ErrorKind::NotFound => Ok(Vec::new(alloc)),
        Err(e) => Err(e),
    }
}

// The 58 numbers of a sheet, or none where the bytes are not so many, which is no usable sheet.
fn sheet_of(alloc: Global, bytes: &[u8]) -> Result<Vec<u16>, AllocError>
    ensures sheet { length bytes.now ≡ 116 → IfOk result (λ v. v.items ≡ map (from_le_bytes w16) (first_chunks 2 (length bytes.now / 2) bytes.now)) }
    ensures no_sheet { length bytes.now ≢ 116 → IfOk result (λ v. v.items ≡ []) }
    ensures len { IfOk result (λ v. (vec_len v ≡ 0) ⊎ (vec_len v ≡ 58)) }
{
    if bytes.len() != 116 {
        return Ok(Vec::new(alloc));
    }
    let (pairs, _) = bytes.as_chunks::<2>();
    pairs.iter().map(|x| u16::from_le_bytes(*x)).collect(alloc)
}

// The reservations, four bytes each.
fn reservations_of(alloc: Global, bytes: &[u8]) -> io::Result<Vec<u32>>
    ensures whole { IfOk result (λ v. vec_len v * 4 ≡ length bytes.now) }
    ensures numbers { IfOk result (λ v. v.items ≡ map (from_le_bytes w32) (first_chunks 4 (length bytes.now / 4) bytes.now)) }
{
    let (fours, rest) = bytes.as_chunks::<4>();
    if !rest.is_empty() {
        return Err(Error::other("not whole numbers of four bytes"));
    }
    Ok(fours.iter().map(|x| u32::from_le_bytes(*x)).collect(alloc)?)
}

fn read_sheet(rt: &impl Files, alloc: Global) -> io::Result<Vec<u16>>
    ensures { IfOk result (λ v. (vec_len v ≡ 0) ⊎ (vec_len v ≡ 58)) }
{
    let bytes = read_needed(rt, alloc, "sheet.bin")?;
    Ok(sheet_of(alloc, &bytes)?)
}

fn read_reservations(rt: &impl Files, alloc: Global) -> io::Result<Vec<u32>>
    ensures { IfOk result (λ v. vec_len v ≤ 16384) }
{
    let bytes = read_if_there(rt, alloc, "reserve.bin")?;
    reservations_of(alloc, &bytes)
}

// What was read, or the reason with the file's name.
fn named<T>(name: &'static str, read: io::Result<T>) -> Result<T, Unusable>
    ensures { IfOk result (λ v. read ≡ Ok v) }
{
    read.map_err(|reason| Unusable { name, reason })
}

impl Input {
    /// Reads the files, up to the first that can't be used. reserve.bin and trusted.bin count as
    /// empty where they are missing.
    pub fn read(rt: &impl Files, alloc: Global) -> Result<Input, Unusable>
        ensures sheet { IfOk result (λ i. (vec_len i.sheet ≡ 0) ⊎ (vec_len i.sheet ≡ 58)) }
        ensures payload { IfOk result (λ i. vec_len i.payload ≤ LIMIT) }
        ensures reservations { IfOk result (λ i. vec_len i.reservations ≤ 16384) }
        ensures trusted { IfOk result (λ i. vec_len i.trusted ≤ LIMIT) }
    {
        let sheet = named("sheet.bin", read_sheet(rt, alloc))?;
        let payload = named("payload.bin", read_needed(rt, alloc, "payload.bin"))?;
        let reservations = named("reserve.bin", read_reservations(rt, alloc))?;
        let trusted = named("trusted.bin", read_if_there(rt, alloc, "trusted.bin"))?;
        Ok(Input {
            sheet,
            payload,
            reservations,
            trusted,
        })
    }
}

#[cfg(test)]
mod tests {
    use super::*;
    use std::test::Fail;

    #[test]
    fn sheet_has_58_numbers(rt: HostRuntime) -> Result<(), Fail> {
        let mut bytes = [0u8; 116];
        bytes[0] = 0x34;
        bytes[1] = 0x12;
        bytes[115] = 0x80;
        let sheet = sheet_of(rt.alloc(), &bytes)?;
        assert_eq!(rt; sheet.len(), 58);
        assert_eq!(rt; sheet.first(), Some(&0x1234));
        assert_eq!(rt; sheet.last(), Some(&0x8000));
        assert_eq!(rt; sheet_of(rt.alloc(), &bytes[..114])?.len(), 0);
        Ok(())
    }

    #[test]
    fn reservations_are_whole(rt: HostRuntime) -> Result<(), Fail> {
        let bytes = [0x78, 0x56, 0x34, 0x12, 0, 0, 0, 0x80];
        let reservations = reservations_of(rt.alloc(), &bytes)?;
        assert_eq!(rt;
            reservations.as_slice(),
            [0x12345678, 0x80000000].as_slice()
        );
        assert_eq!(rt; reservations_of(rt.alloc(), &bytes[..7]).is_err(), true);
        Ok(())
    }
}
