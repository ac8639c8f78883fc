//! Lists of conflicts.
ghost use Rattle.std.specs.Prelude.{◌≡◌, ◌++◌, ◌∷◌, IfOk, OnOk, codes};
ghost use Rattle.std.specs.List.{flat_map};
ghost use Rattle.mol_faults_rules.specs.Kept.{kept_fault};
ghost use Rattle.mol_report.specs.FaultText.{fault_text};
ghost use Rattle.mol_report.specs.Labels.{cell_text, id_text};
ghost use Rattle.mol_report_conflicts.specs.Conflicts.{conflict_line, conflicts_text, kind_text, value_text};

use crate::pieces::{push_number, push_stamps, push_value};
use mol_base::{Id, List, OutOfMemory};
use mol_faults_rules::{Conflict, ConflictKind, Fault};
use mol_report::{Labels, push_fault};
use mol_table::Table;
use mol_values_types::{Cell, Value};
use std::alloc::Global;

/// The text of a list of conflicts: the line `conflicts` with their number, and a line for each, in their order. Each line ends in LF. It
/// has the name of the conflict, what it is about, the word `by` and the stamps, a space between two. An identity is written with its
/// address in the base of the two logs in brackets, or with `added` where it has none there; a value as compact JSON, as rows of logs have
/// it. Of a line of two values the first is the one whose entry has the smaller stamp. ASCII but for names and texts in values.
///
/// The time is near-linear in the identities of the base and in what is written: the addresses are made ready once. `Err` is want of memory.
pub fn conflict_lines(
    alloc: Global,
    base: &Table,
    list: &List<Conflict>,
) -> Result<List<u8>, OutOfMemory>
    ensures { IfOk result (λ lines. lines ≡ conflicts_text base.now list.now) }
{
    let labels = Labels::new(alloc, base)?;
    let mut lines = Vec::new(alloc);
    push_list(alloc, &mut lines, &labels, list.items())?;
    Ok(List::from_vec(lines))
}

/// Appends the number of the conflicts and a line for each.
fn push_list(
    alloc: Global,
    out: &mut Vec<u8>,
    labels: &Labels<'_>,
    list: &[Conflict],
) -> Result<(), OutOfMemory>
    ensures { OnOk result (out.new.items ≡ out.old.items ++ conflicts_text labels.now list.now) }
{
    out.extend_from_slice(b"conflicts ")?;
    push_number(alloc, out, list.len())?;
    out.push(b'\n')?;
    push_each(alloc, out, labels, list)
}

/// Appends a line for each conflict.
fn push_each(
    alloc: Global,
    out: &mut Vec<u8>,
    labels: &Labels<'_>,
    list: &[Conflict],
) -> Result<(), OutOfMemory>
    ensures { OnOk result (out.new.items ≡ out.old.items ++ flat_map (conflict_line labels.now) list.now) }
{
    for conflict in list {
        push_conflict(alloc, out, labels, conflict)?;
    }
    Ok(())
}

/// Appends the line of a conflict.
fn push_conflict(
    alloc: Global,
    out: &mut Vec<u8>,
    labels: &Labels<'_>,
    conflict: &Conflict,
) -> Result<(), OutOfMemory>
    ensures { OnOk result (out.new.items ≡ out.old.items ++ conflict_line labels.now conflict.now) }
{
    push_kind(alloc, out, labels, &conflict.kind)?;
    push_stamps(alloc, out, conflict.stamps.items())?;
    out.push(b'\n')?;
    Ok(())
}

/// Appends how two logs conflict.
fn push_kind(
    alloc: Global,
    out: &mut Vec<u8>,
    labels: &Labels<'_>,
    kind: &ConflictKind,
) -> Result<(), OutOfMemory>
    ensures { OnOk result (out.new.items ≡ out.old.items ++ kind_text labels.now kind.now) }
{
    match kind {
        ConflictKind::Twice(at, first, second) => push_twice(alloc, out, labels, at, first, second),
        ConflictKind::GoneChanged(id) => push_changed(alloc, out, labels, id),
        ConflictKind::GoneUsed(id, at) => push_used(alloc, out, labels, id, at),
        ConflictKind::Bad(fault) => push_bad(alloc, out, labels, fault),
    }
}

/// Appends a cell that both logs write, and the two values.
fn push_twice(
    alloc: Global,
    out: &mut Vec<u8>,
    labels: &Labels<'_>,
    at: &Cell,
    first: &Value,
    second: &Value,
) -> Result<(), OutOfMemory>
    ensures { OnOk result (out.new.items ≡ out.old.items ++ codes "twice " ++ cell_text labels.now at.now
        ++ 32 ∷ value_text first.now ++ 32 ∷ value_text second.now) }
{
    out.extend_from_slice(b"twice ")?;
    labels.push_cell(alloc, out, at)?;
    push_value(alloc, out, first)?;
    push_value(alloc, out, second)
}

/// Appends an entity that one log deletes and the other changes.
fn push_changed(
    alloc: Global,
    out: &mut Vec<u8>,
    labels: &Labels<'_>,
    id: &Id,
) -> Result<(), OutOfMemory>
    ensures { OnOk result (out.new.items ≡ out.old.items ++ codes "gone-changed " ++ id_text labels.now id.now) }
{
    out.extend_from_slice(b"gone-changed ")?;
    labels.push_id(alloc, out, id)
}

/// Appends an entity that one log deletes, and the cell in which the other refers to it.
fn push_used(
    alloc: Global,
    out: &mut Vec<u8>,
    labels: &Labels<'_>,
    id: &Id,
    at: &Cell,
) -> Result<(), OutOfMemory>
    ensures { OnOk result (out.new.items ≡ out.old.items ++ codes "gone-used " ++ id_text labels.now id.now
        ++ 32 ∷ cell_text labels.now at.now) }
{
    out.extend_from_slice(b"gone-used ")?;
    labels.push_id(alloc, out, id)?;
    out.push(b' ')?;
    labels.push_cell(alloc, out, at)
}

/// Appends a fault of what both logs together leave.
fn push_bad(
    alloc: Global,
    out: &mut Vec<u8>,
    labels: &Labels<'_>,
    fault: &Fault,
) -> Result<(), OutOfMemory>
    ensures { OnOk result (out.new.items ≡ out.old.items ++ codes "fault " ++ fault_text labels.now (kept_fault fault.now)) }
{
    out.extend_from_slice(b"fault ")?;
    push_fault(alloc, out, labels, fault)
}
