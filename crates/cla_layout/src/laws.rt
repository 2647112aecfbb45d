//! Laws of whole layouts, whichever groups they have.

ghost use Rattle.cla_layout.specs.Laws.{LayoutsStand, LayoutsStandForOne, TransposedTwice, LooseStands};
ghost use Rattle.cla_layout.specs.Laws.{RowsSumByParts, SumsByParts, SumsTranspose};
ghost use Rattle.cla_layout.specs.Laws.{FirstPlacesByParts, FirstPlacesTranspose, FaultsByParts, FaultsTranspose};
ghost use Rattle.cla_layout.specs.Laws.{ExtremesByParts, ExtremesTranspose};
ghost use Rattle.cla_layout.specs.Laws.{ValuesAreFew, CodesCountTuples};

/// A whole layout stands for a matrix that is well made: the entry in each column is the value in the
/// one part that has the column (PVLDB 9(12), section 3).
pub fn layouts_stand()
    ensures { LayoutsStand }
{}

/// A whole layout stands for one matrix.
pub fn layouts_stand_for_one()
    ensures { LayoutsStandForOne }
{}

/// A sum over the columns of a row is the sum over the parts of the sums over their columns.
pub fn rows_sum_by_parts()
    ensures { RowsSumByParts }
{}

/// The transpose of the transpose is the matrix.
pub fn transposed_twice()
    ensures { TransposedTwice }
{}

/// A matrix that is kept as one group of all its columns, row by row, stands for itself.
pub fn loose_stands()
    ensures { LooseStands }
{}

/// A sum over rows and columns is the sum over the parts of the sums over their rows and columns.
pub fn sums_by_parts()
    ensures { SumsByParts }
{}

/// A sum over the rows and columns of a matrix is one over those of its transpose.
pub fn sums_transpose()
    ensures { SumsTranspose }
{}

/// The first cell that fails is the least of the first places of the parts, which are found among the
/// first rows of their tuples. None fails where none fails in any part.
pub fn first_places_by_parts()
    ensures { FirstPlacesByParts }
{}

/// The first place of a matrix is that of its transpose, at which the places are exchanged.
pub fn first_places_transpose()
    ensures { FirstPlacesTranspose }
{}

/// The first fault, with its place and what is wrong there, is the first of those of the parts. There is
/// none where no part has one.
pub fn faults_by_parts()
    ensures { FaultsByParts }
{}

/// The first fault of a matrix is that of its transpose, at which the places are exchanged.
pub fn faults_transpose()
    ensures { FaultsTranspose }
{}

/// The least or the greatest entry is that of the tuples of all parts.
pub fn extremes_by_parts()
    ensures { ExtremesByParts }
{}

/// The least or the greatest entry of a matrix is that of its transpose.
pub fn extremes_transpose()
    ensures { ExtremesTranspose }
{}

/// The groups of a whole layout have no more values than the matrix has cells.
pub fn values_are_few()
    ensures { ValuesAreFew }
{}

/// A group has as many tuples as different codes.
pub fn codes_count_tuples()
    ensures { CodesCountTuples }
{}
