//! Source files, read one after the other.
ghost use Rattle.std.specs.Prelude.{◌≡◌, ◌≢◌, ℕ, ◌++◌, ◌<◌, None, Some, IfOk, IfErr, OnOk, filter, flat_map, length, option_map, slice_get};
ghost use Rattle.std.specs.Option.{option_to_list};
ghost use Rattle.mol_resolve_entities.specs.Parts.{class_entity};
ghost use Rattle.mol_resolve_faults.specs.first_faults.FirstByPath.{first_in};
ghost use Rattle.mol_resolve_faults.specs.First.{all_noted};
ghost use Rattle.mol_resolve_faults.specs.ResolveFaults.{resolve_fault};
ghost use Rattle.mol_resolve_members.specs.places.Orders.{numbers_by_path};
ghost use Rattle.mol_resolve_laws.specs.Entities.{plain_entities};
ghost use Rattle.mol_resolve.specs.Added.{IsAdded, IsClassAdded};
ghost use Rattle.mol_resolve.specs.Reported.{IsReported};
ghost use Rattle.mol_resolve_members.specs.sources.Sources.{file_of, files_of};
ghost use Rattle.mol_resolve_rules.specs.FaultKinds.{every_kind};
ghost use Rattle.mol_resolve_rules.specs.FaultLists.{at_place, faults_beside, has_fault};
ghost use Rattle.mol_resolve_rules.specs.Files.{File};
ghost use Rattle.mol_resolve_rules.specs.Numbering.{ids_of};
ghost use Rattle.mol_resolve_rules.specs.ReadAs.{HasNoFault};
ghost use Rattle.mol_resolve_rules.specs.ReadFiles.{superclass_faults};
ghost use Rattle.mol_resolve_rules.specs.ResolveFaults.{rows_in};

use crate::entities::Entities;
use crate::first_met::unless_met;
use jav_scope::{Scope, SourceUnit};
use mol_base::{List, OutOfMemory};
use mol_resolve_classes::{HeaderFaults, Related};
use mol_resolve_entities::class_entity;
use mol_resolve_faults::{FirstFault, ResolveFault};
use mol_resolve_members::{Finder, Members, Numbers};
use mol_table_rules::NewEntity;
use mol_values_types::IType;
use std::alloc::Global;
use std::marker::Model;

/// Source files, with what is asked while they are read. Contracts see the files.
#[derive(Drop)]
pub(crate) struct FileReader<'a> {
    pub(crate) alloc: Global,
    pub(crate) scope: &'a Scope<'a>,
    pub(crate) sources: &'a [SourceUnit],
    pub(crate) numbers: &'a Numbers<'a>,
    pub(crate) finder: Finder<'a>,
    headers: HeaderFaults<'a>,
    related: Related<'a>,
}

impl<'a> Model for FileReader<'a> {
    ghost use Rattle.std.specs.Prelude.{List};
    ghost use Rattle.std.specs.Coded.{coded_list};
    ghost use Rattle.jav_scope.specs.contracts.source.SourceUnit as source;
    ghost use Rattle.jav_scope.specs.declared.source.SourceUnit.{SourceUnit};
    ghost use Rattle.mol_resolve.specs.Seen.{AreSeen};

    ghost Value = { List SourceUnit };

    ghost coded = { coded_list source.the_row.coded };

    ghost view = { λ reader. reader.sources.now };

    ghost invariant = { λ reader.
        AreSeen reader.sources.now reader.scope.now reader.numbers.now reader.finder reader.headers reader.related };
}

impl<'a> FileReader<'a> {
    /// The reader of the files of a scope, with their members and identities. The time is near-linear.
    pub fn new(
        alloc: Global,
        scope: &'a Scope<'a>,
        sources: &'a [SourceUnit],
        members: &'a Members<'a>,
        numbers: &'a Numbers<'a>,
    ) -> Result<FileReader<'a>, OutOfMemory>
        requires scope { scope.now ≡ sources.now }
        requires members { members.now ≡ sources.now }
        requires numbers { numbers.now ≡ sources.now }
        ensures { IfOk result (λ reader. reader ≡ sources.now) }
    {
        let headers = HeaderFaults::new(alloc, scope, sources)?;
        let related = Related::new(alloc, scope, members, sources.len())?;
        Ok(FileReader {
            alloc,
            scope,
            sources,
            numbers,
            finder: Finder::new(scope, members, numbers),
            headers,
            related,
        })
    }

    /// All entities of the files, in the order of their numbers; or the first fault. The files are read in the order of their paths, up to
    /// the first that has a fault.
    pub fn read_all(&self, order: &[u32]) -> Result<List<NewEntity>, ResolveFault>
        requires { order.now ≡ numbers_by_path self.now }
        ensures none { OnOk result (HasNoFault (files_of self.now)) }
        ensures entities { IfOk result (λ entities. entities ≡ plain_entities (files_of self.now)) }
        ensures fault { IfErr result (IsReported (files_of self.now)) }
    {
        let mut entities = Entities::new(self.alloc);
        for unit in order {
            let source = self.source(*unit);
            self.read_file(*unit, source, &mut entities)?;
        }
        Ok(entities.in_order()?)
    }

    /// The file of this number.
    fn source(&self, unit: u32) -> &'a SourceUnit
        requires { unit < length self.now }
        ensures { slice_get self.now unit ≡ Some result.now }
    {
        let sources = self.sources;
        &sources[unit as usize]
    }

    /// Adds the entities of the file of this number; or its first fault.
    fn read_file(
        &self,
        unit: u32,
        source: &SourceUnit,
        entities: &mut Entities,
    ) -> Result<(), ResolveFault>
        requires { slice_get self.now unit ≡ Some source.now }
        ensures fault { IfErr result (λ fault. fault ≢ ResolveFault.OutOfMemory
            → option_map (resolve_fault unit) (first_in (files_of self.now) (unit, file_of source.now)) ≡ Some fault) }
        ensures none { OnOk result (first_in (files_of self.now) (unit, file_of source.now) ≡ None) }
        ensures added { OnOk result (IsAdded (files_of self.now) (unit, file_of source.now) entities.old entities.new) }
    {
        let mut faults = FirstFault::new();
        self.note_faults(&mut faults, unit, source)?;
        self.read_class(&mut faults, unit, source, entities)?;
        self.read_members(&mut faults, unit, source, entities)?;
        unless_met(&faults, unit)
    }

    /// Notes the faults of the class of a file and those between its members and others.
    fn note_faults(
        &self,
        faults: &mut FirstFault,
        unit: u32,
        source: &SourceUnit,
    ) -> Result<(), OutOfMemory>
        requires { slice_get self.now unit ≡ Some source.now }
        ensures { let files = files_of self.now in let file : ℕ × File = (unit, file_of source.now) in
            OnOk result (faults.new ≡ all_noted faults.old
            (at_place 0 (filter (has_fault files file) every_kind) ++ flat_map (faults_beside files) (rows_in files file))) }
    {
        self.headers
            .note(self.alloc, self.scope, faults, unit, source)?;
        self.related.note(faults, unit);
        Ok(())
    }

    /// Adds the class of a file, and notes what is met in what it extends.
    fn read_class(
        &self,
        faults: &mut FirstFault,
        unit: u32,
        source: &SourceUnit,
        entities: &mut Entities,
    ) -> Result<(), OutOfMemory>
        requires { slice_get self.now unit ≡ Some source.now }
        ensures faults { OnOk result (faults.new
            ≡ all_noted faults.old (superclass_faults (files_of self.now) (unit, file_of source.now))) }
        ensures added { OnOk result (IsClassAdded (files_of self.now) unit entities.old entities.new) }
    {
        let above = self.read_superclass(faults, unit, &source.unit.class.parent)?;
        self.add_class(unit, source, above, entities)
    }

    /// Adds the class of a file, where what it extends has a meaning.
    fn add_class(
        &self,
        unit: u32,
        source: &SourceUnit,
        above: Option<Option<IType>>,
        entities: &mut Entities,
    ) -> Result<(), OutOfMemory>
        ensures classes { OnOk result (entities.new.classes.items ≡ entities.old.classes.items
            ++ option_to_list (option_map (class_entity ((ids_of (files_of self.now)).class_id unit) source.now.unit) above)) }
        ensures members { entities.new.members ≡ entities.old.members }
        ensures methods { entities.new.methods ≡ entities.old.methods }
    {
        let Some(above) = above else {
            return Ok(());
        };
        let id = self.numbers.class_id(unit);
        let class = class_entity(self.alloc, id, &source.unit, above)?;
        entities.add_class(class)
    }
}
