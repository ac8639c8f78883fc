//! The members of all files.
ghost use Rattle.std.specs.Prelude.{◌≡◌, ◌<◌, IfOk, Some, length, map, slice_get};
ghost use Rattle.jav_names.specs.UnitViews.{numbered};
ghost use Rattle.jav_scope.specs.declared.source.SourceUnit.{SourceUnit};
ghost use Rattle.mol_resolve_rules.specs.MemberFaults.{row_of};
ghost use Rattle.mol_resolve_members.specs.members.Rows.{kept_row, type_at};
ghost use Rattle.mol_resolve_members.specs.members.Tables.{row_at, rows_at};
ghost use Rattle.mol_resolve_members.specs.places.Listings.{HasMember};

use crate::members::member_row::MemberRow;
use jav_scope::{MemberRef, Scope, SourceUnit};
use jav_tree::Member;
use mol_base::{OutOfMemory, number_of};
use std::alloc::Global;
use std::marker::Model;

/// The members of source files, with their types as they are read. Contracts see the files.
#[derive(Drop)]
pub struct Members<'a> {
    sources: &'a [SourceUnit],
    /// Of each file those of its class.
    rows: Vec<Vec<MemberRow<'a>>>,
}

impl<'a> Model for Members<'a> {
    ghost use Rattle.std.specs.Prelude.{List};
    ghost use Rattle.std.specs.Coded.{coded_list};
    ghost use Rattle.jav_scope.specs.contracts.source.SourceUnit as source;
    ghost use Rattle.jav_scope.specs.declared.source.SourceUnit.{SourceUnit};
    ghost use Rattle.mol_resolve_members.specs.members.Tables.{AreKept};

    ghost Value = { List SourceUnit };

    ghost coded = { coded_list source.the_row.coded };

    ghost view = { λ members. members.sources.now };

    ghost invariant = { λ members. AreKept members.sources.now members.rows.items };
}

impl<'a> Members<'a> {
    /// The members of the files that a scope is made of. The time is that of reading each type.
    /// `Err` is want of memory.
    pub fn new(
        alloc: Global,
        scope: &Scope<'_>,
        sources: &'a [SourceUnit],
    ) -> Result<Members<'a>, OutOfMemory>
        requires { scope.now ≡ sources.now }
        ensures { IfOk result (λ members. members ≡ sources.now) }
    {
        let mut rows = Vec::new(alloc);
        for (place, source) in sources.iter().enumerate() {
            let unit = number_of(place)?;
            let members = source.unit.class.members.items();
            let file_rows = rows_of_file(alloc, scope, unit, members)?;
            rows.push(file_rows)?;
        }
        Ok(Members { sources, rows })
    }

    /// The members of the class of the file of this number, in their order. It takes no memory.
    pub fn of_file(&self, unit: u32) -> &[MemberRow<'a>]
        requires { unit < length self.now }
        ensures { (source : SourceUnit) → slice_get self.now unit ≡ Some source
            → map kept_row result.now ≡ rows_at self.now (unit, source) }
    {
        let rows = self.rows.as_slice();
        rows[unit as usize].as_slice()
    }

    /// A member. It takes no memory.
    pub fn row(&self, member: MemberRef) -> &MemberRow<'a>
        requires { HasMember self.now member }
        ensures { Some (kept_row result.now) ≡ row_at self.now member }
    {
        let rows = self.of_file(member.unit);
        &rows[member.member as usize]
    }
}

/// The rows of the members of the file of this number.
fn rows_of_file<'a>(
    alloc: Global,
    scope: &Scope<'_>,
    unit: u32,
    members: &'a [Member],
) -> Result<Vec<MemberRow<'a>>, OutOfMemory>
    requires { unit < length scope.now }
    ensures { IfOk result (λ rows. (source : SourceUnit) → slice_get scope.now unit ≡ Some source
        → map kept_row rows.items ≡ map (row_of (type_at scope.now unit source) unit) (numbered members.now)) }
{
    let mut rows = Vec::new(alloc);
    for (place, member) in members.iter().enumerate() {
        let number = number_of(place)?;
        let at = MemberRef {
            unit,
            member: number,
        };
        let row = MemberRow::new(alloc, scope, at, member)?;
        rows.push(row)?;
    }
    Ok(rows)
}
