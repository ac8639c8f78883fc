//! What the values of an operation may mention.
ghost use Rattle.std.specs.Prelude.{◌≡◌};
ghost use Rattle.std.specs.FinMap.{get};
ghost use Rattle.std.specs.List.{list_any};
ghost use Rattle.mol_table_rules.specs.Mentions.{a_class, a_field, a_called_method, a_static_method, a_constructor};
ghost use Rattle.mol_values_types.specs.Order.{id_eq};
ghost use Rattle.mol_op.specs.Changes.{first_name};
ghost use Rattle.mol_op.specs.Seen.{seen_by, added_names};
ghost use Rattle.mol_op.specs.Tests.{IsVerdict, mention_fault};

use crate::OpFault;
use mol_base::Id;
use mol_table::Table;
use mol_values_types::{Known, MethodKind, Param};

/// What the values of an operation may mention: what the table knows, and what the operation itself adds.
#[derive(Clone, Copy)]
pub struct Seen<'a> {
    pub table: &'a Table,
    /// The entities that the operation adds.
    pub entities: &'a [(Id, Known)],
    /// The method whose parameters it adds; where it adds none, any identity.
    pub method: Id,
    pub params: &'a [Param],
}

impl<'a> Seen<'a> {
    /// What is known where an operation on this identity adds nothing.
    pub fn of(table: &'a Table, id: &Id) -> Seen<'a>
        ensures { seen_by result ≡ table.now.known }
    {
        Seen {
            table,
            entities: &[],
            method: *id,
            params: &[],
        }
    }
}

impl Seen<'_> {
    /// What the identity is known as. The table is asked first: what the operation adds is gone through
    /// only for what the table does not know.
    fn known(&self, id: &Id) -> Option<Known>
        ensures { result ≡ get (seen_by self.now) id.now }
    {
        match self.table.known(*id) {
            Some(known) => Some(known),
            None => self.added(id),
        }
    }

    /// What the operation adds under this identity.
    fn added(&self, id: &Id) -> Option<Known>
        ensures { result ≡ first_name (added_names self.now) id.now }
    {
        match entity_of(self.entities, id) {
            Some(known) => Some(known),
            None => {
                if is_listed(self.params, id) {
                    Some(Known::Param(self.method))
                } else {
                    None
                }
            }
        }
    }

    /// A class may be mentioned by this identity.
    pub fn class(&self, id: &Id) -> Result<(), OpFault>
        ensures { IsVerdict (mention_fault (seen_by self.now) (record { role = a_class; id = id.now })) result }
    {
        match self.known(id) {
            None => Err(OpFault::Unknown(*id)),
            Some(Known::Class) => Ok(()),
            Some(_) => Err(OpFault::WrongKind(*id)),
        }
    }

    /// A field may be mentioned by this identity.
    pub fn field(&self, id: &Id) -> Result<(), OpFault>
        ensures { IsVerdict (mention_fault (seen_by self.now) (record { role = a_field; id = id.now })) result }
    {
        match self.known(id) {
            None => Err(OpFault::Unknown(*id)),
            Some(Known::Field) => Ok(()),
            Some(_) => Err(OpFault::WrongKind(*id)),
        }
    }

    /// A method that is no constructor may be mentioned by this identity.
    pub fn called(&self, id: &Id) -> Result<(), OpFault>
        ensures { IsVerdict (mention_fault (seen_by self.now) (record { role = a_called_method; id = id.now })) result }
    {
        match self.known(id) {
            None => Err(OpFault::Unknown(*id)),
            Some(Known::Method(MethodKind::Instance | MethodKind::Static)) => Ok(()),
            Some(_) => Err(OpFault::WrongKind(*id)),
        }
    }

    /// A static method may be mentioned by this identity.
    pub fn static_method(&self, id: &Id) -> Result<(), OpFault>
        ensures { IsVerdict (mention_fault (seen_by self.now) (record { role = a_static_method; id = id.now })) result }
    {
        match self.known(id) {
            None => Err(OpFault::Unknown(*id)),
            Some(Known::Method(MethodKind::Static)) => Ok(()),
            Some(_) => Err(OpFault::WrongKind(*id)),
        }
    }

    /// A constructor may be mentioned by this identity.
    pub fn constructor(&self, id: &Id) -> Result<(), OpFault>
        ensures { IsVerdict (mention_fault (seen_by self.now) (record { role = a_constructor; id = id.now })) result }
    {
        match self.known(id) {
            None => Err(OpFault::Unknown(*id)),
            Some(Known::Method(MethodKind::Constructor)) => Ok(()),
            Some(_) => Err(OpFault::WrongKind(*id)),
        }
    }
}

/// What the first of the entities with this identity is known as.
pub(crate) fn entity_of(entities: &[(Id, Known)], id: &Id) -> Option<Known>
    ensures { result ≡ first_name entities.now id.now }
{
    for (own, known) in entities {
        if id == own {
            return Some(*known);
        }
    }
    None
}

/// Whether one of the parameters has this identity.
pub(crate) fn is_listed(params: &[Param], id: &Id) -> bool
    ensures { result ≡ list_any (λ param. id_eq id.now param.id) params.now }
{
    params.iter().any(|param| *id == param.id)
}
