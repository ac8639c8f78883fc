//! Parameters by their identities.
ghost use Rattle.std.specs.Prelude.{◌≡◌, find, option_copied};
ghost use Rattle.mol_resolve_rules.specs.StaticTypes.{present_param};
ghost use Rattle.mol_table_rules.specs.Program.{same_id};

use mol_base::Id;
use mol_scope_classes::params_of;
use mol_table::Table;
use mol_values_types::Param;

/// The parameter of an identity, in the list of its method, if it stands there. The time is linear in the length of the list, which is at
/// most 255 in a program that is read.
pub(crate) fn present_param<'a>(table: &'a Table, id: &Id) -> Option<&'a Param>
    ensures { option_copied result ≡ present_param table.now id.now }
{
    match table.method_of_param(*id) {
        Some(method) => param_in(params_of(table, &method), id),
        None => None,
    }
}

/// The parameter of an identity among these.
fn param_in<'a>(params: &'a [Param], id: &Id) -> Option<&'a Param>
    ensures { option_copied result ≡ find (λ param. same_id id.now param.id) params.now }
{
    params.iter().find(|param| is_same(id, &param.id))
}

/// Whether two identities are the same.
pub(crate) fn is_same(first: &Id, second: &Id) -> bool
    ensures { result ≡ same_id first.now second.now }
{
    first == second
}
