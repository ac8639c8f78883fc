//! The identities of a base.
ghost use Rattle.std.specs.Prelude.{◌≡◌, ◌++◌, ◌∷◌, IfOk, OnOk};
ghost use Rattle.mol_report.specs.Ids.{id_line, ids_text, kind_text, line_at, line_end, method_text};
ghost use Rattle.mol_report.specs.Labels.{label};

use crate::labels::Labels;
use mol_base::{Id, List, OutOfMemory};
use mol_table::Table;
use mol_values_types::Known;
use std::alloc::Global;

/// The text of all identities that a base knows, each known parameter too: a line for each, ascending, which ends in LF. It has the
/// identity, what that names (`class`, `method`, `decl`, `field` or `param`) and its address in the base, a space between two; for a
/// declaration then ` of ` and its method. ASCII but for names. The time is that of some look-ups for each identity; for a parameter also
/// of a look through the list of its method, of at most 255. `Err` is want of memory.
pub fn id_lines(alloc: Global, base: &Table) -> Result<List<u8>, OutOfMemory>
    ensures { IfOk result (λ text. text ≡ ids_text base.now) }
{
    let labels = Labels::new(alloc, base)?;
    let mut text = Vec::new(alloc);
    push_lines(alloc, &mut text, &labels)?;
    Ok(List::from_vec(text))
}

/// Appends the lines of all identities.
fn push_lines(alloc: Global, out: &mut Vec<u8>, labels: &Labels<'_>) -> Result<(), OutOfMemory>
    ensures { OnOk result (out.new.items ≡ out.old.items ++ ids_text labels.now) }
{
    for id in labels.base().ids() {
        push_line(alloc, out, labels, id)?;
    }
    Ok(())
}

/// Appends the line of an identity, if it is known.
fn push_line(
    alloc: Global,
    out: &mut Vec<u8>,
    labels: &Labels<'_>,
    id: &Id,
) -> Result<(), OutOfMemory>
    ensures { OnOk result (out.new.items ≡ out.old.items ++ line_at labels.now id.now) }
{
    match labels.base().known(*id) {
        Some(known) => push_known(alloc, out, labels, id, &known),
        None => Ok(()),
    }
}

/// Appends the line of an identity that names this.
fn push_known(
    alloc: Global,
    out: &mut Vec<u8>,
    labels: &Labels<'_>,
    id: &Id,
    known: &Known,
) -> Result<(), OutOfMemory>
    ensures { OnOk result (out.new.items ≡ out.old.items ++ id_line labels.now (id.now, known.now)) }
{
    out.extend_from_slice(id.write(alloc)?.bytes())?;
    out.push(b' ')?;
    push_named(alloc, out, labels, id, known)
}

/// Appends what an identity names, its address and the end of its line.
fn push_named(
    alloc: Global,
    out: &mut Vec<u8>,
    labels: &Labels<'_>,
    id: &Id,
    known: &Known,
) -> Result<(), OutOfMemory>
    ensures { OnOk result (out.new.items ≡ out.old.items ++ kind_text known.now ++ 32 ∷ label labels.now id.now ++ line_end known.now) }
{
    out.extend_from_slice(kind_word(known).as_bytes())?;
    out.push(b' ')?;
    labels.push_label(alloc, out, id)?;
    push_end(alloc, out, known)
}

/// The word of what an identity names.
fn kind_word(known: &Known) -> &'static str
    ensures { result.now ≡ kind_text known.now }
{
    match known {
        Known::Class => "class",
        Known::Method(_) => "method",
        Known::Decl(_) => "decl",
        Known::Field => "field",
        Known::Param(_) => "param",
    }
}

/// Appends the method of a declaration, and LF.
fn push_end(alloc: Global, out: &mut Vec<u8>, known: &Known) -> Result<(), OutOfMemory>
    ensures { OnOk result (out.new.items ≡ out.old.items ++ line_end known.now) }
{
    push_method(alloc, out, known)?;
    out.push(b'\n')?;
    Ok(())
}

/// Appends the method of a declaration.
fn push_method(alloc: Global, out: &mut Vec<u8>, known: &Known) -> Result<(), OutOfMemory>
    ensures { OnOk result (out.new.items ≡ out.old.items ++ method_text known.now) }
{
    if let Known::Decl(method) = known {
        out.extend_from_slice(b" of ")?;
        out.extend_from_slice(method.write(alloc)?.bytes())?;
    }
    Ok(())
}
