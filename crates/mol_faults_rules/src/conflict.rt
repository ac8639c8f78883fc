//! Conflicts of two logs over one base.
ghost use Rattle.std.specs.Prelude.{◌≡◌, IfOk};

use crate::Fault;
use mol_base::{Id, List, OutOfMemory, Stamp, both};
use mol_values_types::{Cell, Value};
use std::alloc::Global;

/// Why two logs over one base do not go together.
#[derive(Drop)]
pub struct Conflict {
    pub kind: ConflictKind,
    /// The stamps of the entries from which it comes, ascending, each once.
    pub stamps: List<Stamp>,
}

/// How two logs over one base do not go together. The order of the variants is the order in which conflicts are listed.
#[derive(Drop)]
pub enum ConflictKind {
    /// A cell to which both logs write, each last another value, where its entity lives after each of the two logs. The value whose
    /// entry has the smaller stamp goes first.
    Twice(Cell, Value, Value),
    /// An entity of the base, no parameter, that does not live after one of the logs and lives after the other one, which writes to a
    /// cell of it.
    GoneChanged(Id),
    /// An entity of the base, no parameter, that does not live after one of the logs and lives after the other one, and a cell to which
    /// that other log writes: the value that it writes there last, once tidied, refers to the entity, and what the cell is of lives.
    GoneUsed(Id, Cell),
    /// A fault of the program that both logs together leave.
    Bad(Fault),
}

impl Conflict {
    /// A conflict that equals this one. `Err` is want of memory.
    pub fn copy(&self, alloc: Global) -> Result<Conflict, OutOfMemory>
        ensures { IfOk result (λ copy. copy ≡ self.now) }
    {
        let (kind, stamps) = both(self.kind.copy(alloc), self.stamps.copy(alloc))?;
        Ok(Conflict { kind, stamps })
    }
}

impl ConflictKind {
    /// A kind of conflict that equals this one. `Err` is want of memory.
    pub fn copy(&self, alloc: Global) -> Result<ConflictKind, OutOfMemory>
        ensures { IfOk result (λ copy. copy ≡ self.now) }
    {
        match self {
            ConflictKind::Twice(at, first, second) => copy_twice(alloc, at, first, second),
            ConflictKind::GoneChanged(id) => Ok(ConflictKind::GoneChanged(*id)),
            ConflictKind::GoneUsed(id, at) => Ok(ConflictKind::GoneUsed(*id, *at)),
            ConflictKind::Bad(fault) => Ok(ConflictKind::Bad(fault.copy(alloc)?)),
        }
    }
}

/// The conflict of a cell that is written twice, with values that equal these.
fn copy_twice(
    alloc: Global,
    at: &Cell,
    first: &Value,
    second: &Value,
) -> Result<ConflictKind, OutOfMemory>
    ensures { IfOk result (λ kind. kind ≡ ConflictKind.Twice at.now first.now second.now) }
{
    let (first, second) = both(first.copy(alloc), second.copy(alloc))?;
    Ok(ConflictKind::Twice(*at, first, second))
}
