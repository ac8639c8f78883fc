//! Methods without a topmost declaration.
ghost use Rattle.std.specs.Prelude.{◌≡◌, IfOk};
ghost use Rattle.mol_faults_rules.specs.OfKind.{AreAllOfKind};
ghost use Rattle.mol_faults_entities.specs.method_faults.ApartMethods.{is_apart};

use mol_base::{Id, List, OutOfMemory};
use mol_faults_rules::Fault;
use mol_scope_members::Topmost;
use mol_table::Table;
use mol_values_types::Known;
use std::alloc::Global;

/// Each method that lives and has no living declaration whose class is, for each living declaration of the method, its class or an ancestor
/// of that (JLS 8.1.4), in the order of identities. The time is that of finding the topmost declarations, and of some look-ups for each
/// known identity. `Err` is want of memory.
pub fn apart(alloc: Global, table: &Table) -> Result<List<Fault>, OutOfMemory>
    ensures { IfOk result (λ faults. AreAllOfKind table.now 2 faults) }
{
    let topmost = Topmost::new(alloc, table)?;
    let mut faults = Vec::new(alloc);
    for id in table.ids() {
        if is_apart(table, &topmost, id) {
            faults.push(Fault::Apart(*id))?;
        }
    }
    Ok(List::from_vec(faults))
}

/// Whether this is a method that lives and has no topmost declaration.
fn is_apart(table: &Table, topmost: &Topmost<'_>, id: &Id) -> bool
    requires { topmost.now ≡ table.now }
    ensures { result ≡ is_apart table.now id.now }
{
    match table.known(*id) {
        Some(Known::Method(_)) => table.lives(*id) && topmost.decl(id).is_none(),
        _ => false,
    }
}
