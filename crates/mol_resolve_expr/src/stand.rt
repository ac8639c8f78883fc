//! How an expression stands among others.
use mol_resolve_readings::Chain;

/// An expression stands alone; or before a dot, and then with what it begins with, together with the names that follow it.
#[derive(Clone, Copy)]
pub(crate) enum Stand {
    Alone,
    Before(Chain),
}
