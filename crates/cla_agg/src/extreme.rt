//! The least and the greatest entry.

ghost use Rattle.std.specs.Prelude.{◌<◌, length};
ghost use Rattle.cla_layout.specs.Groups.{value_of};
ghost use Rattle.cla_layout.specs.GroupLaws.{IsExtreme};
ghost use Rattle.cla_layout.specs.Firsts.{IsExtremeEntry};
ghost use Rattle.cla_coded.specs.Tables.{rows_of_table, cols_of_table, table_entry};
ghost use Rattle.cla_meaning.specs.Orders.{IsLesser, IsGreater};

use crate::order::{Falling, Order, Rising};
use cla_coded::Table;
use cla_group::Group;
use cla_num::Number;

/// The least entry. Each value of the dictionaries is read once, and no row is scanned. It takes no
/// memory.
pub fn least<N: Number, G: Group<N>>(m: &Table<N, G>) -> N
    ensures { let entry = table_entry G.codes G.dictionary m.now in
        IsExtremeEntry IsLesser (rows_of_table m.now) (cols_of_table m.now) entry (N.value result) }
{
    first_of_table::<N, G, Rising>(m)
}

/// The greatest entry. Each value of the dictionaries is read once, and no row is scanned. It takes no
/// memory.
pub fn greatest<N: Number, G: Group<N>>(m: &Table<N, G>) -> N
    ensures { let entry = table_entry G.codes G.dictionary m.now in
        IsExtremeEntry IsGreater (rows_of_table m.now) (cols_of_table m.now) entry (N.value result) }
{
    first_of_table::<N, G, Falling>(m)
}

fn first_of_table<N: Number, G: Group<N>, O: Order<N>>(m: &Table<N, G>) -> N
    ensures { let entry = table_entry G.codes G.dictionary m.now in
        IsExtremeEntry O.before (rows_of_table m.now) (cols_of_table m.now) entry (N.value result) }
{
    let parts = m.parts();
    let mut first = first_of_group::<N, G, O>(&parts[0].group);
    for q in 1..parts.len() {
        first = O::chosen(first, first_of_group::<N, G, O>(&parts[q].group));
    }
    first
}

fn first_of_group<N: Number, G: Group<N>, O: Order<N>>(g: &G) -> N
    ensures { IsExtremeEntry O.before (length (G.dictionary g.now)) (G.columns g.now) (value_of (G.dictionary g.now))
        (N.value result) }
{
    let mut first = first_of_tuple::<N, G, O>(g, 0);
    for k in 1..g.tuples() {
        first = O::chosen(first, first_of_tuple::<N, G, O>(g, k));
    }
    first
}

pub(crate) fn first_of_tuple<N: Number, G: Group<N>, O: Order<N>>(g: &G, k: u32) -> N
    requires { k < length (G.dictionary g.now) }
    ensures { IsExtreme O.before (value_of (G.dictionary g.now) k) (G.columns g.now) (N.value result) }
{
    let mut first = g.value(k, 0);
    for c in 1..g.width() {
        first = O::chosen(first, g.value(k, c));
    }
    first
}
