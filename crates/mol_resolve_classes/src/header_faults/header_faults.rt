//! The faults of the classes of source files, which stand at the beginnings of the files.
ghost use Rattle.std.specs.Prelude.{◌≡◌, IfOk, OnOk, filter, slice_get, Some};
ghost use Rattle.mol_resolve_classes.specs.header_faults.FaultyClasses.{note_if};
ghost use Rattle.mol_resolve_faults.specs.First.{all_noted};
ghost use Rattle.mol_resolve_faults.specs.Kinds.{kind_of};
ghost use Rattle.mol_resolve_members.specs.sources.Sources.{file_of, files_of};
ghost use Rattle.mol_resolve_rules.specs.FaultKinds.{every_kind};
ghost use Rattle.mol_resolve_rules.specs.FaultLists.{at_place, has_fault};

use crate::headers::{doubles, imports_clash, packages, path_differs};
use jav_scope::{Scope, SourceUnit, circles};
use mol_base::OutOfMemory;
use mol_resolve_faults::{FaultKind, FirstFault};
use std::alloc::Global;
use std::marker::Model;

/// Of each class of source files, which of those faults it has that are seen when all classes are looked at: that another class has its
/// full name, that its full name is a package, and that its superclasses lead back to it. Contracts see the files.
#[derive(Drop)]
pub struct HeaderFaults<'a> {
    sources: &'a [SourceUnit],
    doubles: Vec<bool>,
    packages: Vec<bool>,
    circles: Vec<bool>,
}

impl<'a> Model for HeaderFaults<'a> {
    ghost use Rattle.std.specs.Prelude.{List};
    ghost use Rattle.std.specs.Coded.{coded_list};
    ghost use Rattle.jav_scope.specs.contracts.source.SourceUnit as source;
    ghost use Rattle.jav_scope.specs.declared.source.SourceUnit.{SourceUnit};
    ghost use Rattle.mol_resolve_classes.specs.header_faults.FaultyClasses.{AreFaulty};

    ghost Value = { List SourceUnit };

    ghost coded = { coded_list source.the_row.coded };

    ghost view = { λ faults. faults.sources.now };

    ghost invariant = { λ faults. AreFaulty faults.sources.now faults.doubles.items faults.packages.items faults.circles.items };
}

impl<'a> HeaderFaults<'a> {
    /// Those of these files, of which the scope is made. The time is near-linear in the texts of full names and packages.
    /// `Err` is want of memory.
    pub fn new(
        alloc: Global,
        scope: &Scope<'_>,
        sources: &'a [SourceUnit],
    ) -> Result<HeaderFaults<'a>, OutOfMemory>
        requires { scope.now ≡ sources.now }
        ensures { IfOk result (λ faults. faults ≡ sources.now) }
    {
        let doubles = doubles(alloc, scope, sources)?;
        let packages = packages(alloc, sources)?;
        let circles = circles(alloc, scope, sources.len())?;
        Ok(HeaderFaults {
            sources,
            doubles,
            packages,
            circles,
        })
    }

    /// Notes each fault that the class of a file has: the file of this number, which is this one (JLS 7.1, 7.5.1, 7.6, 8.1.4). All stand at
    /// its first byte. For want of memory some may have been noted.
    pub fn note(
        &self,
        alloc: Global,
        scope: &Scope<'_>,
        faults: &mut FirstFault,
        unit: u32,
        source: &SourceUnit,
    ) -> Result<(), OutOfMemory>
        requires scope { scope.now ≡ self.now }
        requires source { slice_get self.now unit ≡ Some source.now }
        ensures { OnOk result (faults.new ≡ all_noted faults.old
            (at_place 0 (filter (has_fault (files_of self.now) (unit, file_of source.now)) every_kind))) }
    {
        let place = unit as usize;
        note_if(faults, path_differs(alloc, source)?, FaultKind::PathDiffers);
        note_if(faults, self.doubles[place], FaultKind::DuplicateClass);
        note_if(faults, self.packages[place], FaultKind::PackageIsClass);
        note_if(faults, self.circles[place], FaultKind::SuperCycle);
        note_if(
            faults,
            imports_clash(scope, unit, source),
            FaultKind::ImportClash,
        );
        Ok(())
    }
}

/// Notes a fault at the beginning of the file, where the file has it.
fn note_if(faults: &mut FirstFault, is: bool, kind: FaultKind)
    ensures { faults.new ≡ note_if is (kind_of kind) faults.old }
{
    if is {
        faults.note(kind, 0);
    }
}
