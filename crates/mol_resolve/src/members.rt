//! Members of source files, each at its place.
ghost use Rattle.std.specs.Prelude.{◌≡◌, ℕ, IfOk, OnOk, Some, flat_map, slice_get};
ghost use Rattle.jav_names.specs.UnitViews.{numbered};
ghost use Rattle.mol_resolve_entities.specs.file_entities.EntitiesRead.{AreMemberIds, AreMethodIds};
ghost use Rattle.mol_resolve_faults.specs.First.{all_noted};
ghost use Rattle.mol_resolve_names.specs.names.InMember.{reader_of};
ghost use Rattle.mol_resolve_members.specs.numbers.Members.{HasArity, IsMember};
ghost use Rattle.mol_resolve_members.specs.places.Listings.{HasMember, key_of};
ghost use Rattle.mol_resolve.specs.Added.{AreAdded};
ghost use Rattle.mol_resolve.specs.ReadAtPlaces.{IsReadAt, ReadsAt, IsMemberAdded};
ghost use Rattle.mol_resolve_members.specs.sources.Sources.{file_of, files_of};
ghost use Rattle.mol_resolve_rules.specs.Files.{File, placed};
ghost use Rattle.mol_resolve_rules.specs.Numbering.{member_keys};
ghost use Rattle.mol_resolve_rules.specs.ReadFiles.{member_faults};

use crate::entities::Entities;
use crate::file_members::MemberReader;
use crate::file_reader::FileReader;
use jav_scope::{MemberRef, SourceUnit};
use jav_tree::Member;
use mol_base::{OutOfMemory, number_of};
use mol_resolve_entities::{MemberEntities, MemberIds, MethodIds};
use mol_resolve_faults::FirstFault;
use mol_resolve_names::MemberNames;

impl FileReader<'_> {
    /// Adds the members of a file and their methods, and notes what is met in them.
    pub(crate) fn read_members(
        &self,
        faults: &mut FirstFault,
        unit: u32,
        source: &SourceUnit,
        entities: &mut Entities,
    ) -> Result<(), OutOfMemory>
        requires { slice_get self.now unit ≡ Some source.now }
        ensures faults { let files = files_of self.now in let file : ℕ × File = (unit, file_of source.now) in
            OnOk result (faults.new ≡ all_noted faults.old
            (flat_map (λ member. member_faults files (placed files file member)) (numbered source.now.unit.class.members))) }
        ensures added { OnOk result (AreAdded (files_of self.now) (member_keys (unit, file_of source.now)) entities.old entities.new) }
    {
        let members = source.unit.class.members.items();
        for (place, member) in members.iter().enumerate() {
            let number = number_of(place)?;
            let at = MemberRef {
                unit,
                member: number,
            };
            self.read_member(faults, at, member, entities)?;
        }
        Ok(())
    }

    /// Adds a member and its method, where it is the topmost declaration of one, and notes what is met in it.
    fn read_member(
        &self,
        faults: &mut FirstFault,
        at: MemberRef,
        member: &Member,
        entities: &mut Entities,
    ) -> Result<(), OutOfMemory>
        requires { IsMember self.now (key_of at) member.now }
        ensures { OnOk result (IsMemberAdded (files_of self.now) (key_of at) member.now entities.old entities.new faults.old faults.new) }
    {
        let names = MemberNames::new(self.alloc, &self.finder, self.numbers, self.sources, at)?;
        let made = self.made(&names, faults, at, member)?;
        entities.add_member(made)?;
        Ok(())
    }

    /// The entities that a member is; none, where a name in it has no meaning.
    fn made(
        &self,
        names: &MemberNames<'_>,
        faults: &mut FirstFault,
        at: MemberRef,
        member: &Member,
    ) -> Result<Option<MemberEntities>, OutOfMemory>
        requires member { IsMember self.now (key_of at) member.now }
        requires names { ReadsAt self.now (key_of at) member.now (reader_of names.now) }
        ensures { IfOk result (λ made. IsReadAt (files_of self.now) (key_of at) member.now made faults.old faults.new) }
    {
        let reader = MemberReader {
            alloc: self.alloc,
            names,
            ids: self.member_ids(at),
        };
        match member {
            Member::Field(field) => reader.field(faults, field),
            Member::Method(method) => {
                let ids = self.method_ids(at, method.params.items().len())?;
                reader.method(faults, &ids, method)
            },
            Member::Ctor(ctor) => {
                let ids = self.method_ids(at, ctor.params.items().len())?;
                reader.constructor(faults, &ids, ctor)
            },
        }
    }

    /// The identities of a member and of its class.
    fn member_ids(&self, at: MemberRef) -> MemberIds
        requires { HasMember self.now at }
        ensures { AreMemberIds (files_of self.now) (key_of at) result }
    {
        MemberIds {
            id: self.numbers.member_id(at),
            owner: self.numbers.class_id(at.unit),
        }
    }

    /// The identities of the method of a declaration, which has so many parameters.
    fn method_ids(&self, at: MemberRef, count: usize) -> Result<MethodIds, OutOfMemory>
        requires member { HasMember self.now at }
        requires count { HasArity self.now at count }
        ensures { IfOk result (λ ids. AreMethodIds (files_of self.now) (key_of at) ids) }
    {
        let arity = number_of(count)?;
        let params = self.numbers.param_ids(self.alloc, at, arity)?;
        Ok(MethodIds {
            id: self.numbers.method_id(at),
            params,
            is_top: self.numbers.is_top(at),
        })
    }
}
