//! Values and trees with other identities.
ghost use Rattle.std.specs.Prelude.{◌≡◌};
ghost use Rattle.mol_values.specs.Renaming.{name_in};

mod iblock;
mod iexpr;
mod itype;
mod value;

use iblock::rename_body;
use iexpr::{rename_all, rename_arguments, rename_expr, rename_maybe};
use indexmap::IndexMap;
use itype::rename_type;
use mol_base::Id;
pub use value::{rename_known, rename_value};

/// The new identity, where there is one.
fn name_of(names: &IndexMap<Id, Id>, id: &Id) -> Id
    ensures { result ≡ name_in names.now.entries id.now }
{
    names.get(id).copied().unwrap_or(*id)
}
