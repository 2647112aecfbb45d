//! Tables that are read in either form.

ghost use Rattle.std.specs.Prelude.{◌≡◌, length, IfOk};
ghost use Rattle.std.specs.Option.{ForSome};
ghost use Rattle.cla_num.specs.Bits.{IsSupported};
ghost use Rattle.cla_io.specs.State.{left};
ghost use Rattle.cla_io.specs.Lines.{ahead_of};
ghost use Rattle.cla_io.specs.InputFrame.{ReadsOn};
ghost use Rattle.cla_market.specs.Texts.{matrix_in};
ghost use Rattle.cla_packed.specs.Fields.{whole_at};
ghost use Rattle.cla_packed.specs.Files.{file_at};
ghost use Rattle.cla_tables.specs.TableFiles.{table_in, text_or_fault, packed_or_fault};
ghost use Rattle.cla_tables.specs.Reading.{ReadsAs, HasReadCause};
ghost use Rattle.cla_tables.specs.Budget.{Fits};
ghost use Rattle.cla_tables.specs.Stats.{AreStats};

use crate::budget::{BudgetFault, fits, text_fits};
use crate::fault::FileFault;
use crate::kept::Kept;
use crate::packed_stats::packed_stats;
use crate::stats::{TableStats, text_stats};
use cla_io::{Files, InFault, Input};
use cla_market::MtxFault;
use cla_mtx::read_mtx;
use cla_num::{Dense, Memory, Number};
use cla_pack_reader::read_packed;
use std::alloc::Global;
use std::marker::Model;

/// The bytes that a packed file begins with.
const MAGIC: [u8; 8] = *b"CLAGRP01";

/// A table that was read from a file of either form. Contracts see its matrix, its groups and its packed
/// size.
#[derive(Drop)]
pub struct TableFile<N: Number> {
    kept: Kept<N>,
}

impl<N: Number> Model for TableFile<N> {
    ghost use Rattle.cla_tables.specs.TableFiles.{TableFile};
    ghost use Rattle.cla_tables.specs.Kept.{file_kept, IsKept};

    ghost Value = { TableFile };

    ghost view = { λ t. file_kept t.kept };

    ghost invariant = { λ t. IsKept t.kept };
}

/// The table that a file holds, in one pass: a packed file where the file begins with the 8 bytes
/// `CLAGRP01`, and else Matrix Market text.
///
/// The first fault of the bytes is told as the reader of their form tells it. `Read` comes only where
/// faults of reading rose, and `Memory` at any byte. `Ok` says that the file was read to its end.
pub fn read_table<N: Number, F: Files>(
    alloc: Global,
    input: &mut Input<'_, F>,
) -> Result<TableFile<N>, FileFault>
    requires bits { IsSupported N.BITS }
    requires nothing_taken { input.old.taken.at ≡ 0 }
    ensures same_reference { input.new.files.ghost_name ≡ input.old.files.ghost_name }
    ensures frame { ReadsOn (F.state input.old.files.now) (F.state input.new.files.now) }
    ensures cause { HasReadCause (F.state input.old.files.now).read_faults (F.state input.new.files.now).read_faults
        result }
    ensures reads { let bytes = ahead_of input.old.taken (left (F.state input.old.files.now)) in
        ForSome bytes (λ bytes. ReadsAs (table_in N.BITS input.old.taken.limit bytes) result) }
{
    match input.starts_with(&MAGIC) {
        Ok(true) => packed_table(alloc, input),
        Ok(false) => text_table(alloc, input),
        Err(InFault::TooLong) => Err(FileFault::Mtx(MtxFault::TooLong)),
        Err(InFault::Read) => Err(FileFault::Mtx(MtxFault::Read)),
        Err(InFault::Memory) => Err(FileFault::Mtx(MtxFault::Memory)),
    }
}

// The table of a text.
fn text_table<N: Number, F: Files>(
    alloc: Global,
    input: &mut Input<'_, F>,
) -> Result<TableFile<N>, FileFault>
    requires bits { IsSupported N.BITS }
    requires nothing_taken { input.old.taken.at ≡ 0 }
    ensures same_reference { input.new.files.ghost_name ≡ input.old.files.ghost_name }
    ensures frame { ReadsOn (F.state input.old.files.now) (F.state input.new.files.now) }
    ensures cause { HasReadCause (F.state input.old.files.now).read_faults (F.state input.new.files.now).read_faults
        result }
    ensures reads { let bytes = ahead_of input.old.taken (left (F.state input.old.files.now)) in
        ForSome bytes (λ text. ReadsAs (text_or_fault (matrix_in N.BITS input.old.taken.limit text)) result) }
{
    match read_mtx(alloc, input) {
        Ok(m) => Ok(TableFile {
            kept: Kept::Text(m),
        }),
        Err(fault) => Err(FileFault::Mtx(fault)),
    }
}

// The table of a packed file.
fn packed_table<N: Number, F: Files>(
    alloc: Global,
    input: &mut Input<'_, F>,
) -> Result<TableFile<N>, FileFault>
    requires bits { IsSupported N.BITS }
    requires nothing_taken { input.old.taken.at ≡ 0 }
    ensures same_reference { input.new.files.ghost_name ≡ input.old.files.ghost_name }
    ensures frame { ReadsOn (F.state input.old.files.now) (F.state input.new.files.now) }
    ensures cause { HasReadCause (F.state input.old.files.now).read_faults (F.state input.new.files.now).read_faults
        result }
    ensures reads { let bytes = ahead_of input.old.taken (left (F.state input.old.files.now)) in
        ForSome bytes (λ bytes. ReadsAs
        (packed_or_fault (length bytes) (whole_at (file_at 8 N.BITS) input.old.taken.limit bytes)) result) }
{
    match read_packed(alloc, input) {
        Ok(packed) => Ok(TableFile {
            kept: Kept::Packed(packed),
        }),
        Err(fault) => Err(FileFault::Pack(fault)),
    }
}

impl<N: Number> TableFile<N> {
    /// The matrix. That of a text is moved; the groups of a packed file are written out, which takes the
    /// cells, and 4 bytes a row while it works.
    pub fn into_matrix(self, alloc: Global) -> Result<Dense<N>, Memory>
        ensures { IfOk result (λ m. m ≡ self.matrix) }
    {
        match self.kept {
            Kept::Text(m) => Ok(m),
            Kept::Packed(packed) => packed.table.to_dense(alloc),
        }
    }

    /// Whether the packed size is within a budget. The columns of a text are grouped only where one plain
    /// group of them all takes more.
    pub fn within_budget(&self, alloc: Global, budget: u64) -> Result<(), BudgetFault>
        ensures { Fits budget self.now.bytes result }
    {
        match &self.kept {
            Kept::Text(m) => text_fits(alloc, m, budget),
            Kept::Packed(packed) => fits(packed.bytes, budget),
        }
    }

    /// What is told of the table and of its groups.
    pub fn stats(&self, alloc: Global) -> Result<TableStats, Memory>
        ensures { IfOk result (AreStats self.now) }
    {
        match &self.kept {
            Kept::Text(m) => text_stats(alloc, m),
            Kept::Packed(packed) => packed_stats(alloc, packed),
        }
    }
}
