//! Which statements run today.

ghost use Rattle.std.specs.Prelude.{◌≡◌};
ghost use Rattle.cla_script.specs.Reads.{statements_of};
ghost use Rattle.cla_script.specs.View.{tree_of, statement_of};
ghost use Rattle.cla_cli.specs.Statements.{is_name, is_number, is_summand, is_call_built, is_built, does_run};
ghost use Rattle.cla_cli.specs.Statements.{are_built};

use crate::evaluate::is_product;
use cla_num::Number;
use cla_script::{Call, Expr, Statement};

/// Whether all statements run today.
pub(crate) fn are_built<N: Number>(statements: &[Statement<N>]) -> bool
    ensures { result ≡ are_built (statements_of N.value statements.now) }
{
    for statement in statements {
        if !does_run(statement) {
            return false;
        }
    }
    true
}

fn does_run<N: Number>(statement: &Statement<N>) -> bool
    ensures { result ≡ does_run (statement_of N.value statement.now) }
{
    match statement {
        Statement::Read { .. } => true,
        Statement::Print { value } => is_built(value),
        Statement::Let { .. } | Statement::Write { .. } | Statement::Pack { .. } => false,
    }
}

fn is_built<N: Number>(e: &Expr<N>) -> bool
    ensures { result ≡ is_built (tree_of N.value e.now) }
{
    match e {
        Expr::Number { .. } | Expr::Named { .. } => true,
        Expr::Call { call, a, .. } => is_call_built(*call, a),
        Expr::Neg { .. }
        | Expr::Square { .. }
        | Expr::Binary { .. }
        | Expr::Bind { .. }
        | Expr::Slice { .. } => false,
    }
}

fn is_call_built<N: Number>(call: Call, e: &Expr<N>) -> bool
    ensures { result ≡ is_call_built call (tree_of N.value e.now) }
{
    match call {
        Call::Sum => is_summand(e),
        Call::Nrow | Call::Ncol => is_name(e),
        Call::Transpose
        | Call::RowSums
        | Call::ColSums
        | Call::Min
        | Call::Max
        | Call::RowMins
        | Call::RowMaxs
        | Call::ColMins
        | Call::ColMaxs => false,
    }
}

fn is_summand<N: Number>(e: &Expr<N>) -> bool
    ensures { result ≡ is_summand (tree_of N.value e.now) }
{
    match e {
        Expr::Named { .. } => true,
        Expr::Binary { op, a, b, .. } => is_product(*op) && is_name(a) && is_number(b),
        Expr::Number { .. }
        | Expr::Neg { .. }
        | Expr::Square { .. }
        | Expr::Call { .. }
        | Expr::Bind { .. }
        | Expr::Slice { .. } => false,
    }
}

fn is_name<N: Number>(e: &Expr<N>) -> bool
    ensures { result ≡ is_name (tree_of N.value e.now) }
{
    matches!(e, Expr::Named { .. })
}

fn is_number<N: Number>(e: &Expr<N>) -> bool
    ensures { result ≡ is_number (tree_of N.value e.now) }
{
    matches!(e, Expr::Number { .. })
}
