//! What the first bytes of a file tell, and reads that fail.

use crate::known_tables::KNOWN;
use crate::table_files::fault_of;
use cla_io::CallKind;
use cla_tables::{FieldName, FileFault, MtxFault, PackFault};
use std::test::Fail;

// Only the 8 bytes of the magic make a file a packed one.
#[test]
fn forms(rt: HostRuntime) -> Result<(), Fail> {
    let (group, field, at) = (0, FieldName::Rows, 8);
    let cut_short = FileFault::Pack(PackFault::Field { group, field, at });
    assert_eq!(rt; fault_of(rt.alloc(), b"CLAGRP01", None)?, Some(cut_short));
    let no_banner = FileFault::Mtx(MtxFault::Banner { line: 1 });
    for text in [
        "",
        "CLAGRP0",
        "CLAGRP02",
        "CLAGRP0\n1",
        "clagrp01",
        " CLAGRP01",
    ] {
        let fault = fault_of(rt.alloc(), text.as_bytes(), None)?;
        assert_eq!(rt; fault, Some(no_banner), "{text}");
    }
    Ok(())
}

#[test]
fn failing_reads(rt: HostRuntime) -> Result<(), Fail> {
    for (bytes, _, _, _) in KNOWN {
        let fault = fault_of(rt.alloc(), bytes, Some((CallKind::Read, 1)))?;
        assert_eq!(rt; fault, Some(FileFault::Mtx(MtxFault::Read)));
    }
    let (packed, _, _, _) = KNOWN[1];
    let fault = fault_of(rt.alloc(), packed, Some((CallKind::Read, 2)))?;
    assert_eq!(rt; fault, Some(FileFault::Pack(PackFault::Read)));
    Ok(())
}
