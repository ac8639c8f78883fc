//! Pairs of identities.
ghost use Rattle.std.specs.Prelude.{◌≡◌, ◌++◌, OnOk};
ghost use Rattle.std.specs.Option.{option_to_list};
ghost use Rattle.mol_faults_entities.specs.pair_faults.Pairs.{ordered_pair};

use mol_base::{Id, OutOfMemory};
use std::cmp::Ordering;

/// Two identities, the smaller one first. Pairs are ordered by their first identities, then by their second ones.
#[derive(Clone, Copy, PartialEq, Eq, PartialOrd, Ord)]
pub struct Pair {
    pub first: Id,
    pub second: Id,
}

/// The pair of two identities; `None` where they are one. It takes no memory.
pub fn ordered(former: Id, latter: Id) -> Option<Pair>
    ensures { result ≡ ordered_pair former latter }
{
    match former.cmp(&latter) {
        Ordering::Less => Some(Pair {
            first: former,
            second: latter,
        }),
        Ordering::Equal => None,
        Ordering::Greater => Some(Pair {
            first: latter,
            second: former,
        }),
    }
}

/// Adds a pair to a list, if there is one. `Err` is want of memory.
pub fn add_pair(pairs: &mut Vec<Pair>, pair: Option<Pair>) -> Result<(), OutOfMemory>
    ensures { OnOk result (pairs.new.items ≡ pairs.old.items ++ option_to_list pair) }
{
    if let Some(pair) = pair {
        pairs.push(pair)?;
    }
    Ok(())
}
