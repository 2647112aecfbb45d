//! Tables of groups of any kind: from dense matrices, and copies.

ghost use Rattle.std.specs.Prelude.{◌≡◌, ◌∷◌, [], false, length, IfOk};
ghost use Rattle.std.specs.List.{range_with_len};
ghost use Rattle.cla_coded.specs.AnyGroups.{any_columns, any_codes, any_dictionary, any_form, plain_form};
ghost use Rattle.cla_coded.specs.Forms.{forms_of};
ghost use Rattle.cla_layout.specs.Layouts.{loose_layout};
ghost use Rattle.cla_coded.specs.Outlines.{outline};
ghost use Rattle.cla_coded.specs.Parts.{part_of};
ghost use Rattle.cla_coded.specs.Tables.{layout_of};

use crate::any_group::AnyGroup;
use crate::part::Part;
use crate::table::Table;
use cla_group::{Group, Owned};
use cla_num::{Dense, Memory, Number};
use cla_plain::Plain;
use std::alloc::Global;

/// A matrix that is kept as groups of any kind.
pub type Coded<N> = Table<N, AnyGroup<N>>;

/// The matrix as one plain group of all columns, not flipped. It keeps the cells as they are, and takes
/// memory for the list of columns alone.
pub fn loose<N: Number>(alloc: Global, m: Dense<N>) -> Result<Coded<N>, Memory>
    ensures layout { IfOk result (λ t. layout_of any_codes any_dictionary t ≡ loose_layout m) }
    ensures flipped { IfOk result (λ t. t.flipped ≡ false) }
    ensures forms { IfOk result (λ t. forms_of t ≡ plain_form ∷ []) }
{
    let rows = m.rows();
    let cols = m.cols();
    let columns = first_columns(alloc, cols)?;
    let mut parts = Vec::with_capacity(alloc, 1)?;
    parts.push(Part {
        columns,
        group: AnyGroup::Plain(Plain::from_rows(cols, Vec::from(m))),
    })?;
    Ok(Table::new(rows, cols, false, parts))
}

/// A table of equal groups, each kept as it was, which stands for the same matrix. It costs a copy of the
/// dictionaries; what belongs to the rows is shared.
pub fn copy<N: Number>(alloc: Global, m: &Coded<N>) -> Result<Coded<N>, Memory>
    ensures layout { let layout = layout_of any_codes any_dictionary m.now in
        IfOk result (λ t. layout_of any_codes any_dictionary t ≡ layout) }
    ensures flipped { IfOk result (λ t. t.flipped ≡ m.now.flipped) }
    ensures forms { IfOk result (λ t. forms_of t ≡ forms_of m.now) }
{
    let mut parts = Vec::with_capacity(alloc, m.parts().len())?;
    for part in m.parts() {
        parts.push(copy_part(alloc, part)?)?;
    }
    Ok(m.with_parts(parts))
}

// A part with an equal group, kept as it was.
fn copy_part<N: Number>(
    alloc: Global,
    part: &Part<AnyGroup<N>>,
) -> Result<Part<AnyGroup<N>>, Memory>
    ensures outline { IfOk result (λ p. outline any_columns any_codes p ≡ outline any_columns any_codes part.now) }
    ensures part { let old = part_of any_codes any_dictionary part.now in
        IfOk result (λ p. part_of any_codes any_dictionary p ≡ old) }
    ensures form { IfOk result (λ p. any_form p.group ≡ any_form part.now.group) }
{
    let columns = Vec::from_slice(alloc, &part.columns)?;
    let places = first_columns(alloc, part.group.width())?;
    let group = part.group.project(alloc, &places)?;
    Ok(Part { columns, group })
}

// The columns 0, 1, .. up to before `count`.
fn first_columns(alloc: Global, count: u32) -> Result<Vec<u32>, Memory>
    ensures { IfOk result (λ columns. columns.items ≡ range_with_len 0 count) }
{
    let mut columns = Vec::with_capacity(alloc, count as usize)?;
    for column in 0..count {
        columns.push(column)?;
    }
    Ok(columns)
}
