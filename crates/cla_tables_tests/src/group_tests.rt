//! The matrix, the groups and the packed size of each file.

use crate::known_tables::{KNOWN, KnownGroup};
use crate::table_files::{has_cells, read_bytes};
use cla_tables::{BudgetFault, GroupStats, OverBudget};
use std::test::Fail;

// Whether these groups are told so.
fn are_told(stats: &[GroupStats], groups: &[KnownGroup]) -> bool {
    if stats.len() != groups.len() {
        return false;
    }
    for (told, known) in stats.iter().zip(groups) {
        if (told.kind, told.width, told.tuples, told.bytes) != *known {
            return false;
        }
    }
    true
}

#[test]
fn groups_and_cells(rt: HostRuntime) -> Result<(), Fail> {
    for (bytes, size, cells, groups) in KNOWN {
        let table = read_bytes(rt.alloc(), bytes, None)??;
        let stats = table.stats(rt.alloc())?;
        assert_eq!(rt; (stats.rows, stats.cols, stats.bytes), size);
        assert!(rt; are_told(&stats.groups, groups), "{stats:?}");
        let m = table.into_matrix(rt.alloc())?;
        assert!(rt; (m.rows(), m.cols()) == (size.0, size.1) && has_cells(&m, cells));
    }
    Ok(())
}

#[test]
fn budgets(rt: HostRuntime) -> Result<(), Fail> {
    for (bytes, size, _, _) in KNOWN {
        let needed = size.2;
        let budget = needed.saturating_sub(1);
        let table = read_bytes(rt.alloc(), bytes, None)??;
        assert_eq!(rt; table.within_budget(rt.alloc(), needed), Ok(()));
        assert_eq!(rt;
            table.within_budget(rt.alloc(), budget),
            Err(BudgetFault::Over(OverBudget { needed, budget }))
        );
    }
    Ok(())
}
