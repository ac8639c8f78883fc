ghost use Rattle.std.specs.Prelude.{◌≡◌, ◌↔◌, IsTrue};

use crate::same::{same_id, same_text};
use mol_values_types::IType;

/// Whether both are the same type, and written alike. It takes no memory.
pub fn same_type(one: &IType, other: &IType) -> bool
    ensures { IsTrue result ↔ one.now ≡ other.now }
{
    match one {
        IType::Boolean => match other {
            IType::Boolean => true,
            _ => false,
        },
        IType::Byte => match other {
            IType::Byte => true,
            _ => false,
        },
        IType::Short => match other {
            IType::Short => true,
            _ => false,
        },
        IType::Char => match other {
            IType::Char => true,
            _ => false,
        },
        IType::Int => match other {
            IType::Int => true,
            _ => false,
        },
        IType::Long => match other {
            IType::Long => true,
            _ => false,
        },
        IType::Void => match other {
            IType::Void => true,
            _ => false,
        },
        IType::Class(a0) => match other {
            IType::Class(b0) => { same_id(a0, b0) }
            _ => false,
        },
        IType::Imported(a0, a1) => match other {
            IType::Imported(b0, b1) => {
                if !same_text(a0, b0) {
                    return false;
                }
                same_text(a1.get(), b1.get())
            }
            _ => false,
        },
        IType::Written(a0) => match other {
            IType::Written(b0) => { same_text(a0, b0) }
            _ => false,
        },
        IType::Array(a0) => match other {
            IType::Array(b0) => { same_type(a0.get(), b0.get()) }
            _ => false,
        },
    }
}
