//! Files in memory, as a map from names to bytes.

ghost use Rattle.std.specs.Prelude.{◌≡◌, ◌+◌, ◌^◌, ◌<◌, ◌++◌, [], is_some, option_map, min, take, drop, length};
ghost use Rattle.std.specs.Prelude.{IsSome, OnOk, OnErr};
ghost use Rattle.std.specs.FinMap as fin;
ghost use Rattle.cla_spec.specs.Files.{bytes_at};
ghost use Rattle.cla_io.specs.MemTold.{told_of};

use cla_num::{Memory, Name};
use std::collections::BTreeMap;

// The bytes of a file by its text, by a scan, since a look-up would take memory for a name.
pub(crate) fn find_bytes<'a>(files: &'a BTreeMap<Name, Vec<u8>>, name: &str) -> Option<&'a [u8]>
    ensures { option_map (λ b. b.now) result ≡ fin.get (told_of files.now.entries) name.now }
{
    for (key, bytes) in files {
        if name == key.as_str() {
            return Some(bytes);
        }
    }
    None
}

// Whether there is a file of this name.
pub(crate) fn has_name(files: &BTreeMap<Name, Vec<u8>>, name: &Name) -> bool
    ensures { result ≡ is_some (fin.get (told_of files.now.entries) name.now) }
{
    match files.get(name) {
        Some(_) => true,
        None => false,
    }
}

// The bytes of a file from a place on; none where it is absent.
pub(crate) fn rest_of<'a>(files: &'a BTreeMap<Name, Vec<u8>>, name: &Name, place: usize) -> &'a [u8]
    ensures rest { result.now ≡ drop place (bytes_at (told_of files.now.entries) name.now) }
    ensures fits { place + length result.now < 2 ^ 64 }
{
    match files.get(name) {
        Some(bytes) => rest_from(bytes, place),
        None => &[],
    }
}

// The bytes from a place on; none past the end.
fn rest_from(bytes: &[u8], place: usize) -> &[u8]
    ensures rest { result.now ≡ drop place bytes.now }
    ensures fits { place + length result.now < 2 ^ 64 }
{
    if place <= bytes.len() {
        &bytes[place..]
    } else {
        &[]
    }
}

// Copies as much of the front of `bytes` as `into` has room for, and gives its length.
pub(crate) fn copy_front(bytes: &[u8], into: &mut [u8]) -> usize
    ensures count { result ≡ min (length bytes.now) (length into.old) }
    ensures front { take result into.new ≡ take result bytes.now }
{
    let count = bytes.len().min(into.len());
    into[..count].copy_from_slice(&bytes[..count]);
    count
}

// Makes the file of this name empty, and makes it where it isn't there.
pub(crate) fn make_empty(
    files: &mut BTreeMap<Name, Vec<u8>>,
    name: Name,
    empty: Vec<u8>,
) -> Result<(), Memory>
    requires { empty.items ≡ [] }
    ensures told { OnOk result (told_of files.new.entries ≡ fin.insert (told_of files.old.entries) name []) }
    ensures same { OnErr result (told_of files.new.entries ≡ told_of files.old.entries) }
{
    match files.insert(name, empty) {
        Ok(_) => Ok(()),
        Err(_) => Err(Memory),
    }
}

// Appends to the file of this name.
pub(crate) fn append(
    files: &mut BTreeMap<Name, Vec<u8>>,
    name: &Name,
    piece: &[u8],
) -> Result<(), Memory>
    requires { IsSome (fin.get (told_of files.old.entries) name.now) }
    ensures told { OnOk result (told_of files.new.entries ≡ fin.insert (told_of files.old.entries) name.now
        (bytes_at (told_of files.old.entries) name.now ++ piece.now)) }
    ensures same { OnErr result (told_of files.new.entries ≡ told_of files.old.entries) }
{
    let Some(bytes) = files.get_mut(name) else {
        unreachable!()
    };
    match bytes.extend_from_slice(piece) {
        Ok(()) => Ok(()),
        Err(_) => Err(Memory),
    }
}
