//! What names mean in a member of a source file.
ghost use Rattle.mol_resolve_names.specs.names.Stands.{Stands};

use crate::chains::Parameter;
use crate::names::params::{is_constructor, param_ids, parameters, params_of};
use jav_scope::{MemberRef, SourceUnit};
use mol_base::OutOfMemory;
use mol_resolve_members::{Finder, Numbers};
use std::alloc::Global;

/// What names mean in a member of a class of source files, where the parameters of the member are in scope; or outside of its members.
#[derive(Drop)]
pub struct MemberNames<'a> {
    pub(crate) finder: &'a Finder<'a>,
    pub(crate) numbers: &'a Numbers<'a>,
    /// How many files there are.
    pub(crate) count: usize,
    /// The number of the file, from 0.
    pub(crate) unit: u32,
    pub(crate) source: &'a SourceUnit,
    pub(crate) params: Vec<Parameter>,
    pub(crate) in_constructor: bool,
    ghost stands: { Stands finder.now numbers.now count unit source.now },
}

impl<'a> MemberNames<'a> {
    ghost use Rattle.std.specs.Prelude.{◌≡◌, ◌<◌, IfOk, Some, length, slice_get};
    ghost use Rattle.jav_scope.specs.declared.source.SourceUnit.{SourceUnit};
    ghost use Rattle.jav_tree.specs.declared.unit.Member.{Member};
    ghost use Rattle.mol_resolve_names.specs.names.InMember.{reader_of};
    ghost use Rattle.mol_resolve_members.specs.places.Listings.{HasMember};
    ghost use Rattle.mol_resolve_members.specs.sources.Sources.{file_of, files_of};
    ghost use Rattle.mol_resolve_rules.specs.Files.{placed};
    ghost use Rattle.mol_resolve_rules.specs.ReadFiles.{file_reader, member_reader};

    /// What names mean in the member at this place: its parameters are in scope. The finder and the numbers are those of these files.
    /// `Err` is want of memory. The time is that of reading the parameters' types.
    pub fn new(
        alloc: Global,
        finder: &'a Finder<'a>,
        numbers: &'a Numbers<'a>,
        sources: &'a [SourceUnit],
        at: MemberRef,
    ) -> Result<MemberNames<'a>, OutOfMemory>
        requires finder { finder.now ≡ sources.now }
        requires numbers { numbers.now ≡ sources.now }
        requires member { HasMember sources.now at }
        ensures { IfOk result (λ names. (source : SourceUnit) (member : Member) → slice_get sources.now at.unit ≡ Some source
            → slice_get source.unit.class.members at.member ≡ Some member → reader_of names
            ≡ member_reader (files_of sources.now) (placed (files_of sources.now) (at.unit, file_of source) (at.member, member))) }
    {
        let source = &sources[at.unit as usize];
        let file_members = source.unit.class.members.items();
        let member = &file_members[at.member as usize];
        let ids = param_ids(alloc, numbers, at, member)?;
        let params = parameters(
            alloc,
            finder.scope(),
            at.unit,
            params_of(member),
            ids.as_slice(),
        )?;
        Ok(MemberNames {
            finder,
            numbers,
            count: sources.len(),
            unit: at.unit,
            source,
            params,
            in_constructor: is_constructor(member),
        })
    }

    /// What names mean in the file of this number, from 0, outside of its members: no parameters are in scope. The finder and the numbers
    /// are those of these files. It takes no memory.
    pub fn of_file(
        alloc: Global,
        finder: &'a Finder<'a>,
        numbers: &'a Numbers<'a>,
        sources: &'a [SourceUnit],
        unit: u32,
    ) -> MemberNames<'a>
        requires finder { finder.now ≡ sources.now }
        requires numbers { numbers.now ≡ sources.now }
        requires unit { unit < length sources.now }
        ensures { (source : SourceUnit) → slice_get sources.now unit ≡ Some source
            → reader_of result ≡ file_reader (files_of sources.now) (unit, file_of source) }
    {
        MemberNames {
            finder,
            numbers,
            count: sources.len(),
            unit,
            source: &sources[unit as usize],
            params: Vec::new(alloc),
            in_constructor: false,
        }
    }
}
