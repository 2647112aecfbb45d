//! The table that a cut makes of a matrix.

ghost use Rattle.std.specs.Prelude.{◌≡◌, ◌<◌, ℕ, [], false, length, map, slice_index_or, IfOk};
ghost use Rattle.cla_grouping.specs.Tuples.{AreColumns, tuples_in, distinct_tuples};
ghost use Rattle.cla_coded.specs.AnyGroups.{any_columns, any_codes, any_dictionary, any_form, IsGroupFrom};
ghost use Rattle.cla_coded.specs.Forms.{kinds_of, forms_of};
ghost use Rattle.cla_coded.specs.Parts.{part_of, parts_of};
ghost use Rattle.cla_coded.specs.Tables.{layout_of};
ghost use Rattle.cla_layout.specs.Canonical.{IsCanonical};
ghost use Rattle.cla_layout.specs.Groups.{IsGroup};
ghost use Rattle.cla_layout.specs.Layouts.{StandsFor};
ghost use Rattle.cla_grouping.specs.Grouping.{grouping_of};
ghost use Rattle.cla_cocode.specs.Built.{HasEntries, AreBuilt, IsInForm, AreInForm, AreOwnForms};
ghost use Rattle.cla_cocode.specs.Cuts.{cut_seen};

use crate::cut::{Cut, LayoutGroup};
use crate::values::values_of;
use cla_coded::{AnyGroup, Coded, Part, Table};
use cla_layout::Kind;
use cla_num::{Dense, Memory, Number};
use cla_rows::{Occurrences, counted};
use cla_stats::Tuples;
use std::alloc::Global;

/// The table of a matrix by its cut: it stands for the matrix, with the columns and the kinds of the cut's
/// groups, and isn't flipped. It is in the one form that packed files have: groups stand in the order of
/// their first columns, tuples are numbered by first row and distinct, and the rest is the one of the rule.
/// It costs what it takes to count the groups' tuples once more.
pub fn build<N: Number>(alloc: Global, m: &Dense<N>, l: &Cut) -> Result<Coded<N>, Memory>
    requires { cut_seen l.now ≡ grouping_of m.now }
    ensures stands { IfOk result (λ t. StandsFor (layout_of any_codes any_dictionary t) m.now) }
    ensures flipped { IfOk result (λ t. t.flipped ≡ false) }
    ensures columns { let columns = map (λ g. g.columns) (cut_seen l.now).groups in
        IfOk result (λ t. map (λ p. p.columns.items) t.parts ≡ columns) }
    ensures kinds { IfOk result (λ t. kinds_of t ≡ map (λ g. g.kind) (cut_seen l.now).groups) }
    ensures canonical { IfOk result (λ t. IsCanonical N.BITS (layout_of any_codes any_dictionary t) (kinds_of t)) }
    ensures forms { IfOk result (λ t. AreOwnForms (forms_of t) (parts_of any_codes any_dictionary t.parts)) }
{
    // The cells tell that the matrix has few of them, as tables must.
    let _ = m.cells();
    let parts = built_parts(alloc, m, &l.groups)?;
    Ok(Table::new(m.rows(), m.cols(), false, parts))
}

// The parts of these groups.
fn built_parts<N: Number>(
    alloc: Global,
    m: &Dense<N>,
    groups: &[LayoutGroup],
) -> Result<Vec<Part<AnyGroup<N>>>, Memory>
    requires { let columns = map (λ g. g.columns.items) groups.now in
        (q : ℕ) → q < length groups.now → AreColumns m.now.cols (slice_index_or columns q []) }
    ensures columns { IfOk result (λ v. map (λ p. p.columns.items) v.items ≡ map (λ g. g.columns.items) groups.now) }
    ensures kinds { IfOk result (λ v. map (λ p. (any_form p.group).kind) v.items ≡ map (λ g. g.kind) groups.now) }
    ensures built { IfOk result (λ v. AreBuilt N.BITS m.now (parts_of any_codes any_dictionary v.items)) }
    ensures in_form { IfOk result
        (λ v. AreInForm (map (λ p. any_form p.group) v.items) (parts_of any_codes any_dictionary v.items)) }
{
    let mut parts = Vec::with_capacity(alloc, groups.len())?;
    for group in groups {
        parts.push(built_part(alloc, m, &group.columns, group.kind)?)?;
    }
    Ok(parts)
}

/// Columns of a matrix as a group of this kind. The cells of the columns are gone over once, and then
/// only those of the first row of each tuple.
pub(crate) fn built_part<N: Number>(
    alloc: Global,
    m: &Dense<N>,
    columns: &[u32],
    kind: Kind,
) -> Result<Part<AnyGroup<N>>, Memory>
    requires { AreColumns m.now.cols columns.now }
    ensures columns { IfOk result (λ p. p.columns.items ≡ columns.now) }
    ensures rows { IfOk result (λ p. length (any_codes p.group) ≡ m.now.rows) }
    ensures group { let width = length columns.now in
        IfOk result (λ p. IsGroup N.BITS width (any_codes p.group) (any_dictionary p.group)) }
    ensures kind { IfOk result (λ p. (any_form p.group).kind ≡ kind) }
    ensures entries { IfOk result (λ p. HasEntries m.now columns.now (any_codes p.group) (any_dictionary p.group)) }
    ensures in_form { IfOk result (λ p. IsInForm (any_form p.group) (part_of any_codes any_dictionary p)) }
{
    let tuples = Tuples::count(alloc, m, columns)?;
    let Occurrences { first_rows, .. } = counted(alloc, tuples.codes(), tuples.distinct())?;
    let values = values_of(alloc, m, columns, &first_rows)?;
    let group = AnyGroup::from_codes(alloc, kind, tuples.width(), tuples.codes(), values)?;
    let columns = Vec::from_slice(alloc, columns)?;
    Ok(Part { columns, group })
}
