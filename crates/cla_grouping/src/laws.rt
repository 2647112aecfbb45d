//! Laws of the tuples of columns, and of cuts.

ghost use Rattle.cla_grouping.specs.Laws.{CodesTellTuples, ZerosAreTold, JoinsAgree, CodesAreNumbered, CutsPartColumns};

/// Two rows have one code exactly where they have the same tuple.
pub fn codes_tell_tuples()
    ensures { CodesTellTuples }
{}

/// A row has the zero code exactly where it has zeros alone.
pub fn zeros_are_told()
    ensures { ZerosAreTold }
{}

/// To join the tuples of two lists of columns is to ask the rows anew for both.
pub fn joins_agree()
    ensures { JoinsAgree }
{}

/// Codes number the tuples by first row.
pub fn codes_are_numbered()
    ensures { CodesAreNumbered }
{}

/// The groups of a cut part the columns of the matrix, and stand in the order of their first columns.
pub fn cuts_part_columns()
    ensures { CutsPartColumns }
{}
