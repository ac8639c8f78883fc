//! The texts of faults.
ghost use Rattle.std.specs.Prelude.{◌≡◌, ◌++◌, ◌∷◌, IfOk, OnOk, codes};
ghost use Rattle.std.specs.Fmt.{decimal};
ghost use Rattle.mol_faults_rules.specs.Kept.{kept_fault, kept_target};
ghost use Rattle.mol_report.specs.FaultText.{fault_text, pair_text, target_text};
ghost use Rattle.mol_report.specs.Labels.{cell_text, id_text};

use crate::addresses::push_number;
use crate::labels::Labels;
use mol_base::{Id, List, OutOfMemory, Text};
use mol_faults_rules::{Fault, Target};
use mol_table::Table;
use mol_values_types::Cell;
use std::alloc::Global;

/// The text of a fault, without a line end: its name in lower-case words joined by `-`, and its fields, a space before each. An identity
/// is written with its address in `base` in brackets, or with `added` where it has none there. ASCII but for names. The time is
/// near-linear in the identities of the base. `Err` is want of memory.
pub fn fault_line(alloc: Global, base: &Table, fault: &Fault) -> Result<List<u8>, OutOfMemory>
    ensures { IfOk result (λ text. text ≡ fault_text base.now (kept_fault fault.now)) }
{
    let labels = Labels::new(alloc, base)?;
    let mut text = Vec::new(alloc);
    push_fault(alloc, &mut text, &labels, fault)?;
    Ok(List::from_vec(text))
}

/// Appends the text of a fault, as `fault_line` makes it, to that of a report. `Err` is want of memory; then a part may be appended.
pub fn push_fault(
    alloc: Global,
    out: &mut Vec<u8>,
    labels: &Labels<'_>,
    fault: &Fault,
) -> Result<(), OutOfMemory>
    ensures { OnOk result (out.new.items ≡ out.old.items ++ fault_text labels.now (kept_fault fault.now)) }
{
    match fault {
        Fault::SameAddress(first, second) => {
            push_pair(alloc, out, labels, "same-address ", first, second)
        }
        Fault::FalseOverride(first, second) => {
            push_pair(alloc, out, labels, "false-override ", first, second)
        }
        Fault::Apart(method) => push_named(alloc, out, labels, "apart ", method),
        Fault::OutsideName(method) => push_named(alloc, out, labels, "outside-name ", method),
        Fault::Missing(cell, target) => push_missing(alloc, out, labels, cell, target),
        Fault::Misread(cell, number, target) => {
            push_misread(alloc, out, labels, cell, *number, target)
        }
        Fault::LocalClash(cell, name) => push_clash(alloc, out, labels, cell, name),
        Fault::PackageIsClass(class, inside) => {
            push_pair(alloc, out, labels, "package-is-class ", class, inside)
        }
    }
}

/// Appends the name of a fault and an identity.
fn push_named(
    alloc: Global,
    out: &mut Vec<u8>,
    labels: &Labels<'_>,
    name: &str,
    id: &Id,
) -> Result<(), OutOfMemory>
    ensures { OnOk result (out.new.items ≡ out.old.items ++ name.now ++ id_text labels.now id.now) }
{
    out.extend_from_slice(name.as_bytes())?;
    labels.push_id(alloc, out, id)
}

/// Appends the name of a fault and two identities.
fn push_pair(
    alloc: Global,
    out: &mut Vec<u8>,
    labels: &Labels<'_>,
    name: &str,
    first: &Id,
    second: &Id,
) -> Result<(), OutOfMemory>
    ensures { OnOk result (out.new.items ≡ out.old.items ++ name.now ++ pair_text labels.now first.now second.now) }
{
    push_named(alloc, out, labels, name, first)?;
    push_named(alloc, out, labels, " ", second)
}

/// Appends the name of a fault and a cell.
fn push_in_cell(
    alloc: Global,
    out: &mut Vec<u8>,
    labels: &Labels<'_>,
    name: &str,
    cell: &Cell,
) -> Result<(), OutOfMemory>
    ensures { OnOk result (out.new.items ≡ out.old.items ++ name.now ++ cell_text labels.now cell.now) }
{
    out.extend_from_slice(name.as_bytes())?;
    labels.push_cell(alloc, out, cell)
}

/// Appends a cell that refers to what is gone.
fn push_missing(
    alloc: Global,
    out: &mut Vec<u8>,
    labels: &Labels<'_>,
    cell: &Cell,
    target: &Id,
) -> Result<(), OutOfMemory>
    ensures { OnOk result (out.new.items ≡ out.old.items ++ codes "missing " ++ cell_text labels.now cell.now
        ++ 32 ∷ id_text labels.now target.now) }
{
    push_in_cell(alloc, out, labels, "missing ", cell)?;
    push_named(alloc, out, labels, " ", target)
}

/// Appends a cell with the number of a reference that reads as something else, and its target.
fn push_misread(
    alloc: Global,
    out: &mut Vec<u8>,
    labels: &Labels<'_>,
    cell: &Cell,
    number: u32,
    target: &Target,
) -> Result<(), OutOfMemory>
    ensures { OnOk result (out.new.items ≡ out.old.items ++ codes "misread " ++ cell_text labels.now cell.now
        ++ 32 ∷ decimal number ++ 32 ∷ target_text labels.now (kept_target target.now)) }
{
    push_in_cell(alloc, out, labels, "misread ", cell)?;
    out.push(b' ')?;
    push_number(alloc, out, number as u64)?;
    out.push(b' ')?;
    push_target(alloc, out, labels, target)
}

/// Appends the target of a reference.
fn push_target(
    alloc: Global,
    out: &mut Vec<u8>,
    labels: &Labels<'_>,
    target: &Target,
) -> Result<(), OutOfMemory>
    ensures { OnOk result (out.new.items ≡ out.old.items ++ target_text labels.now (kept_target target.now)) }
{
    match target {
        Target::Entity(id) => labels.push_id(alloc, out, id),
        Target::Default(class) => push_named(alloc, out, labels, "default ", class),
        Target::Local(number) => push_local(alloc, out, *number),
        Target::Outside(text) => push_outside(out, text),
    }
}

/// Appends the number of a local.
fn push_local(alloc: Global, out: &mut Vec<u8>, number: u32) -> Result<(), OutOfMemory>
    ensures { OnOk result (out.new.items ≡ out.old.items ++ codes "local " ++ decimal number) }
{
    out.extend_from_slice(b"local ")?;
    push_number(alloc, out, number as u64)
}

/// Appends the text of what is outside.
fn push_outside(out: &mut Vec<u8>, text: &Text) -> Result<(), OutOfMemory>
    ensures { OnOk result (out.new.items ≡ out.old.items ++ text.now) }
{
    out.extend_from_slice(text.bytes())?;
    Ok(())
}

/// Appends a body and a name that it declares twice.
fn push_clash(
    alloc: Global,
    out: &mut Vec<u8>,
    labels: &Labels<'_>,
    cell: &Cell,
    name: &Text,
) -> Result<(), OutOfMemory>
    ensures { OnOk result (out.new.items ≡ out.old.items ++ codes "local-clash " ++ cell_text labels.now cell.now ++ 32 ∷ name.now) }
{
    push_in_cell(alloc, out, labels, "local-clash ", cell)?;
    out.push(b' ')?;
    out.extend_from_slice(name.bytes())?;
    Ok(())
}
