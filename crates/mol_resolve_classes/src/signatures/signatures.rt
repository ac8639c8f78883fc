//! The members of a class in the order of their signatures.
ghost use Rattle.std.specs.Prelude.{◌≡◌, IfOk};
ghost use Rattle.std.specs.List.{list_any};
ghost use Rattle.std.specs.List.Sorted.{IsPermutation};
ghost use Rattle.mol_resolve_classes.specs.signatures.Repeats.{repeats};

use crate::signatures::signature::Signature;
use mol_base::OutOfMemory;
use std::marker::Model;

/// The members of a class, to be asked for those that repeat one another. Contracts see them in ascending order.
#[derive(Drop)]
pub struct Signatures<'a> {
    members: Vec<Signature<'a>>,
}

impl<'a> Model for Signatures<'a> {
    ghost use Rattle.jav_names.specs.contracts.seen.seen_type.SeenType as seen;
    ghost use Rattle.std.specs.Coded.{codes};
    ghost use Rattle.std.specs.Prelude.{List};
    ghost use Rattle.std.specs.List.Sorted.{IsSorted};
    ghost use Rattle.mol_resolve_classes.specs.signatures.SignatureOrder.{signature_cmp};
    ghost use Rattle.mol_resolve_classes.specs.declared.signatures.signature.Signature.{Signature};

    ghost Value = { List Signature };

    ghost coded = { Prim.hlevel (codes, seen.the_row.coded) };

    ghost view = { λ signatures. signatures.members.items };

    ghost invariant = { λ signatures. IsSorted signature_cmp signatures.members.items };
}

impl<'a> Signatures<'a> {
    /// The signatures of these members, which are in any order. The time is that of sorting them. `Err` is want of memory.
    pub fn new(mut members: Vec<Signature<'a>>) -> Result<Signatures<'a>, OutOfMemory>
        ensures { IfOk result (λ signatures. IsPermutation members.entry.items signatures) }
    {
        members.sort_by(|former, latter| former.compare(latter))?;
        Ok(Signatures { members })
    }

    /// Whether a member repeats one that stands before it in the class: of its kind, with its name and with equal types of parameters.
    /// A type whose name reads as nothing equals none. It takes no memory, and the time is logarithmic in the number of members.
    pub fn is_repeated(&self, member: &Signature<'_>) -> bool
        ensures { result ≡ list_any (repeats member.now) self.now }
    {
        let least = Signature {
            place: 0,
            ..*member
        };
        let members = self.members.as_slice();
        let start = members.partition_point(|candidate| candidate.compare(&least).is_lt());
        match members.get(start) {
            Some(first) => member.repeats(first),
            None => false,
        }
    }
}
