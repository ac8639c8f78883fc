//! Declarations that would be overridden by those of other methods.
ghost use Rattle.std.specs.Prelude.{◌≡◌, ◌⊎◌, ◌↔◌, Contains, IfOk, OnOk};
ghost use Rattle.mol_scope_classes.specs.hierarchy.Paths.{ArePaths};
ghost use Rattle.mol_faults_entities.specs.override_faults.Overridden.{Adds, ArePlaced, AreSorted, IsAlong, IsOver, IsOverAny, pair_above};

use crate::override_faults::declaration::Declaration;
use crate::override_faults::key::Key;
use crate::override_faults::orders::Orders;
use crate::override_faults::rivals::are_rivals;
use crate::pair_faults::{Pair, add_pair, ordered};
use mol_base::{Id, OutOfMemory};
use mol_scope_classes::{Paths, Position, living_parent};
use mol_table::Table;
use std::alloc::Global;

/// The pairs of each of these declarations with those of other methods in the ancestors of its class that are named as it is.
pub(crate) fn overridden(
    alloc: Global,
    table: &Table,
    paths: &Paths,
    orders: &Orders<'_>,
) -> Result<Vec<Pair>, OutOfMemory>
    requires paths { ArePaths table.now paths.now.positions.entries }
    requires placed { ArePlaced paths.now.positions.entries orders.now.by_key.items }
    requires sorted { AreSorted orders.now }
    ensures { IfOk result (λ pairs. let rows = orders.now.by_key.items in (pair : Pair)
        → Contains pairs.items pair ↔ IsOverAny table.now rows rows pair) }
{
    let mut pairs = Vec::new(alloc);
    for row in orders.by_key.as_slice() {
        add_overridden(table, paths, &mut pairs, row, orders)?;
    }
    Ok(pairs)
}

/// Adds those of one. Where no other method is named as its method is, none is looked for.
fn add_overridden(
    table: &Table,
    paths: &Paths,
    pairs: &mut Vec<Pair>,
    row: &Declaration<'_>,
    orders: &Orders<'_>,
) -> Result<(), OutOfMemory>
    requires paths { ArePaths table.now paths.now.positions.entries }
    requires placed { ArePlaced paths.now.positions.entries orders.now.by_key.items }
    requires sorted { AreSorted orders.now }
    requires stands { Contains orders.now.by_key.items row.now }
    ensures { OnOk result (Adds (IsOver table.now orders.now.by_key.items row.now) pairs.old.items pairs.new.items) }
{
    if !are_rivals(orders.by_method.as_slice(), &row.key) {
        return Ok(());
    }
    add_above(table, paths, pairs, row, orders)
}

/// Adds those of one, path by path up from its class, until there is no class further up, or one is met again.
fn add_above(
    table: &Table,
    paths: &Paths,
    pairs: &mut Vec<Pair>,
    row: &Declaration<'_>,
    orders: &Orders<'_>,
) -> Result<(), OutOfMemory>
    requires paths { ArePaths table.now paths.now.positions.entries }
    requires placed { ArePlaced paths.now.positions.entries orders.now.by_key.items }
    requires sorted { AreSorted orders.now }
    ensures { OnOk result (Adds (IsOver table.now orders.now.by_key.items row.now) pairs.old.items pairs.new.items) }
{
    let known = table.ids();
    let mut at = living_parent(table, &row.owner);
    let mut mark = row.owner;
    for turn in 0..known.len() {
        let Some(class) = at else {
            return Ok(());
        };
        if class == mark {
            // These superclasses run in a circle.
            return Ok(());
        }
        let position = paths.position(&class);
        add_along(pairs, row, &position, orders)?;
        at = living_parent(table, &position.top);
        mark = next_mark(turn, mark, class);
    }
    Ok(())
}

/// The class that tells a circle when it is met again: a later one, each time twice as many paths are passed.
fn next_mark(turn: usize, mark: Id, class: Id) -> Id
    ensures { (result ≡ mark) ⊎ (result ≡ class) }
{
    if turn.is_power_of_two() { class } else { mark }
}

/// Adds those with declarations in the classes from a position up the path, the lowest first.
fn add_along(
    pairs: &mut Vec<Pair>,
    row: &Declaration<'_>,
    position: &Position,
    orders: &Orders<'_>,
) -> Result<(), OutOfMemory>
    requires { AreSorted orders.now }
    ensures { OnOk result (Adds (IsAlong orders.now.by_key.items row.now position.now) pairs.old.items pairs.new.items) }
{
    let key = Key {
        arity: row.key.arity,
        name: row.key.name,
        position: *position,
    };
    let rows = orders.by_key.as_slice();
    let count = rows.partition_point(|candidate| candidate.key.compare(&key).is_le());
    let mut left = count;
    while left > 0 {
        let above = &orders.by_key[left - 1];
        if !key.compare_path(&above.key).is_eq() {
            return Ok(());
        }
        add_pair(pairs, pair_above(row, above))?;
        left = orders.left_after(row, left - 1);
    }
    Ok(())
}

/// The pair of two declarations, if their methods and their classes differ.
fn pair_above(row: &Declaration<'_>, above: &Declaration<'_>) -> Option<Pair>
    ensures { result ≡ pair_above row.now above.now }
{
    if row.method == above.method || row.owner == above.owner {
        None
    } else {
        ordered(row.id, above.id)
    }
}
