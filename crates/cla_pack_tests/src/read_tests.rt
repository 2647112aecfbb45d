//! Files that are read whole, cut short at each byte and at each limit, made longer, and damaged.

use crate::known_files::{DAMAGED, Damage, KNOWN, Place};
use crate::matrices::{are_same, matrix};
use crate::packed_files::{fault_of, read_bytes};
use cla_pack::PackFault;
use std::alloc::Global;
use std::test::Fail;

// A limit above each of the files' lengths.
const LIMIT: u64 = 1000;

fn bad_field(place: Place) -> PackFault {
    let (group, field, at) = place;
    PackFault::Field { group, field, at }
}

// The last of the fields that begins within the first n bytes, or right behind them.
fn field_at(fields: &[Place], n: u64) -> Option<PackFault> {
    let mut last = None;
    for field in fields {
        if field.2 <= n {
            last = Some(bad_field(*field));
        }
    }
    last
}

// The first n where the file's first n bytes are not refused at the field that they cut short.
fn wrong_cut(alloc: Global, bytes: &[u8], fields: &[Place]) -> Result<Option<usize>, Fail> {
    for n in 0..bytes.len() {
        if fault_of(alloc, &bytes[..n], LIMIT)? != field_at(fields, n as u64) {
            return Ok(Some(n));
        }
    }
    Ok(None)
}

// The first limit below the file's length by which the file is not too long.
fn wrong_limit(alloc: Global, bytes: &[u8]) -> Result<Option<u64>, Fail> {
    for limit in 8..bytes.len() as u64 {
        if fault_of(alloc, bytes, limit)? != Some(PackFault::TooLong) {
            return Ok(Some(limit));
        }
    }
    Ok(None)
}

fn with_byte(alloc: Global, bytes: &[u8], place: usize, byte: u8) -> Result<Vec<u8>, Fail> {
    let mut other = bytes.to_vec(alloc)?;
    if place >= other.len() {
        return Err(Fail::new("no byte to change"));
    }
    other[place] = byte;
    Ok(other)
}

// The first change of a file by which the file is not refused as it should be.
fn wrong_damage(alloc: Global, bytes: &[u8], damages: &[Damage]) -> Result<Option<Damage>, Fail> {
    for damage in damages {
        let (place, byte, field) = *damage;
        let other = with_byte(alloc, bytes, place, byte)?;
        if fault_of(alloc, &other, LIMIT)? != Some(bad_field(field)) {
            return Ok(Some(*damage));
        }
    }
    Ok(None)
}

#[test]
fn whole_files(rt: HostRuntime) -> Result<(), Fail> {
    for (bytes, cells, _) in KNOWN {
        let len = bytes.len() as u64;
        let packed = read_bytes(rt.alloc(), bytes, len)??;
        assert_eq!(rt; packed.bytes, len);
        let m = packed.table.to_dense(rt.alloc())?;
        let want = matrix(rt.alloc(), m.rows(), m.cols(), cells)?;
        assert!(rt; are_same(&m, &want));
    }
    Ok(())
}

#[test]
fn files_cut_short(rt: HostRuntime) -> Result<(), Fail> {
    for (bytes, _, fields) in KNOWN {
        assert_eq!(rt; wrong_cut(rt.alloc(), bytes, fields)?, None);
        assert_eq!(rt; wrong_limit(rt.alloc(), bytes)?, None);
    }
    Ok(())
}

#[test]
fn a_byte_behind_the_end(rt: HostRuntime) -> Result<(), Fail> {
    for (bytes, _, _) in KNOWN {
        let at = bytes.len() as u64;
        let mut longer = bytes.to_vec(rt.alloc())?;
        longer.push(7)?;
        let trailing = Some(PackFault::Trailing { at });
        assert_eq!(rt; fault_of(rt.alloc(), &longer, LIMIT)?, trailing);
        assert_eq!(rt;
            fault_of(rt.alloc(), &longer, at)?,
            Some(PackFault::TooLong)
        );
    }
    Ok(())
}

#[test]
fn damaged_files(rt: HostRuntime) -> Result<(), Fail> {
    for ((bytes, _, _), damages) in KNOWN.iter().zip(DAMAGED) {
        assert_eq!(rt; wrong_damage(rt.alloc(), bytes, damages)?, None);
    }
    Ok(())
}

// `TooLarge` stands behind good columns, before the groups.
#[test]
fn too_many_cells(rt: HostRuntime) -> Result<(), Fail> {
    let (rows, cols) = (67_108_865, 1);
    for bytes in [
        b"CLAGRP01\x01\0\0\x04\x01\0\0\0".as_slice(),
        b"CLAGRP01\x01\0\0\x04\x01\0\0\0\0\0\0\0",
    ] {
        let fault = fault_of(rt.alloc(), bytes, LIMIT)?;
        assert_eq!(rt; fault, Some(PackFault::TooLarge { rows, cols }));
    }
    Ok(())
}
