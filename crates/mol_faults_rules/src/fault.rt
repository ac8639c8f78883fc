//! Faults.
ghost use Rattle.std.specs.Prelude.{◌≡◌, IfOk};

use crate::Target;
use mol_base::{Id, OutOfMemory, Text};
use mol_values_types::Cell;
use std::alloc::Global;

/// A fault of a program. The order of the variants is that of the kinds, in which faults are listed.
#[derive(Drop)]
pub enum Fault {
    /// Two living classes, fields or declarations that a source names alike. The smaller identity goes first, here and in the next.
    SameAddress(Id, Id),
    /// Living declarations of two methods, one of which would override the other (JLS 8.4.8.1).
    FalseOverride(Id, Id),
    /// A living method none of whose living declarations stands in a class that is, for each of them, its class or an ancestor of that.
    Apart(Id),
    /// A living method that has the name and the number of parameters of one of `Object` and had not when it was added, or the other way
    /// round.
    OutsideName(Id),
    /// A cell of what lives that, once tidied, refers to what is gone.
    Missing(Cell, Id),
    /// A reference of a cell, by its number from 0 in the order in which they print, that would read as something else than its target.
    Misread(Cell, u32, Target),
    /// A body, and a name that it declares twice where both are in scope (JLS 6.4).
    LocalClash(Cell, Text),
    /// A class whose full name is the package of another one, or whose full name and a dot begin that package, and that other class
    /// (JLS 7.1).
    PackageIsClass(Id, Id),
}

impl Fault {
    /// A fault that equals this one. `Err` is want of memory.
    pub fn copy(&self, alloc: Global) -> Result<Fault, OutOfMemory>
        ensures { IfOk result (λ copy. copy ≡ self.now) }
    {
        match self {
            Fault::SameAddress(first, second) => Ok(Fault::SameAddress(*first, *second)),
            Fault::FalseOverride(first, second) => Ok(Fault::FalseOverride(*first, *second)),
            Fault::Apart(method) => Ok(Fault::Apart(*method)),
            Fault::OutsideName(method) => Ok(Fault::OutsideName(*method)),
            Fault::Missing(at, target) => Ok(Fault::Missing(*at, *target)),
            Fault::Misread(at, number, target) => copy_misread(alloc, at, *number, target),
            Fault::LocalClash(at, name) => copy_clash(alloc, at, name),
            Fault::PackageIsClass(class, inside) => Ok(Fault::PackageIsClass(*class, *inside)),
        }
    }
}

/// The fault of a misread reference, with a target that equals this one.
fn copy_misread(
    alloc: Global,
    at: &Cell,
    number: u32,
    target: &Target,
) -> Result<Fault, OutOfMemory>
    ensures { IfOk result (λ fault. fault ≡ Fault.Misread at.now number target.now) }
{
    Ok(Fault::Misread(*at, number, target.copy(alloc)?))
}

/// The fault of a name that is declared twice, with a name that equals this one.
fn copy_clash(alloc: Global, at: &Cell, name: &Text) -> Result<Fault, OutOfMemory>
    ensures { IfOk result (λ fault. fault ≡ Fault.LocalClash at.now name.now) }
{
    Ok(Fault::LocalClash(*at, name.copy(alloc)?))
}
