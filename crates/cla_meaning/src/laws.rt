//! Laws of meanings. Each stands on a function with an empty body, whose contract it is.

ghost use Rattle.cla_meaning.specs.Laws.{FaultsAreFirst};
ghost use Rattle.cla_meaning.specs.Orders.{OrdersChoose};

/// The fault of a result is that of its first faulty cell, row by row, and there is none where no cell
/// is faulty.
pub fn faults_are_first()
    ensures { FaultsAreFirst }
{}

/// The lesser of two integers is one of them and no greater than either, and so is the greater.
pub fn orders_choose()
    ensures { OrdersChoose }
{}
