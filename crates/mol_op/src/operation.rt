//! What all operations have in common.
ghost use Rattle.std.specs.Prelude.{◌≡◌, ◌⊎◌, ℕ, List, Option, None, Some, OnOk, OnErr, IfErr};
ghost use Rattle.mol_table_rules.specs.Program.{Program, Knowns};
ghost use Rattle.mol_table_rules.specs.Rules.{IsProgram};
ghost use Rattle.mol_op.specs.Changes.{Write, Name, know_all, written};
ghost use Rattle.mol_op.specs.Operation.{IsCause, Within, AreNamed, StayNew, AreApart};
ghost use Rattle.mol_op.specs.Owned.{AreOwned, rules-owned};
ghost use Rattle.mol_op.specs.Tests.{IsVerdict};
ghost use Rattle.mol_op.specs.declared.fault.OpFault.{OpFault};

use crate::{ApplyFault, OpFault};
use mol_base::{OutOfMemory, Tag};
use mol_table::Table;
use std::alloc::Global;

/// An operation is a condition on what is known, a list of writes, and the identities that are known
/// afterwards. It looks at no cell, not even at what lives, and writes values that it alone gives.
pub trait Operation {
    /// The condition, for an entry of this tag where this is known: its first test that fails.
    ghost fault: { Self → List ℕ → Knowns → Option OpFault };

    /// The cells that it writes, with their values.
    ghost writes: { Self → List Write };

    /// Its new identities, with what they are known as. A parameter that it lists for a known method may be
    /// known already.
    ghost names: { Self → List Name };

    /// Whether the operation applies, as an entry of this tag. It takes no memory; the time is that of one
    /// look-up for each identity that it names, and of comparing its new identities with each other.
    fn applies(&self, tag: Tag, table: &Table) -> Result<(), OpFault>
        ensures { IsVerdict (fault self.now tag table.now.known) result };

    /// Applies the operation, as an entry of this tag. Where it is refused or memory is wanting, the table
    /// stays as it was. Memory is taken for copies of its values and for its new identities: `Delete` and
    /// `MoveMethod` have neither and always find enough.
    fn apply(&self, alloc: Global, tag: Tag, table: &mut Table) -> Result<(), ApplyFault>
        ensures ok { OnOk result (table.new ≡ written table.old (writes self.now) (names self.now)) }
        ensures fits { OnOk result (fault self.now tag table.old.known ≡ None) }
        ensures err { OnErr result (table.new ≡ table.old) }
        ensures cause { IfErr result (IsCause (fault self.now tag table.old.known)) };

    /// Each identity that it names is known as that already, or is not known and has the entry's tag.
    ghost named: { (operation : Self) (tag : List ℕ) (known : Knowns) → fault operation tag known ≡ None
        → AreNamed tag known (names operation) };

    /// It applies where more is known, but for its new identities.
    ghost grows: { (operation : Self) (tag : List ℕ) (known more : Knowns) → fault operation tag known ≡ None
        → Within known more → StayNew known more (names operation) → fault operation tag more ≡ None };

    /// It keeps the rules of programs.
    ghost keeps: { (operation : Self) (tag : List ℕ) (program : Program)
        → IsProgram program → fault operation tag program.known ≡ None
        → IsProgram (written program (writes operation) (names operation)) };

    /// Each cell that it writes is one of an identity that is known or that it names.
    ghost owned: { (operation : Self) (tag : List ℕ) (program : Program)
        → IsProgram program → fault operation tag program.known ≡ None
        → AreOwned program.known (writes operation) (names operation) } = { λ operation tag program rules fits.
            rules-owned program (writes operation) (names operation) (keeps operation tag program rules fits) };
}

/// Applies two operations, one after the other. They apply in either order and leave the same. For want of
/// memory the table is left as it was or after the first.
///
/// Both apply, they write no cell in common, and have no new identity in common.
pub fn apply_both<A: Operation, B: Operation>(
    alloc: Global,
    first: &A,
    first_tag: Tag,
    second: &B,
    second_tag: Tag,
    table: &mut Table,
) -> Result<(), OutOfMemory>
    requires first { A.fault first.now first_tag table.old.known ≡ None }
    requires second { B.fault second.now second_tag table.old.known ≡ None }
    requires apart { AreApart table.old.known (A.writes first.now) (A.names first.now) (B.writes second.now) (B.names second.now) }
    ensures in_turn { OnOk result
        (table.new
        ≡ written (written table.old (A.writes first.now) (A.names first.now)) (B.writes second.now) (B.names second.now)) }
    ensures turned { OnOk result
        (table.new
        ≡ written (written table.old (B.writes second.now) (B.names second.now)) (A.writes first.now) (A.names first.now)) }
    ensures still { OnOk result (A.fault first.now first_tag (know_all table.old.known (B.names second.now)) ≡ None) }
    ensures follows { OnOk result (B.fault second.now second_tag (know_all table.old.known (A.names first.now)) ≡ None) }
    ensures known { OnOk result (Within table.old.known table.new.known) }
    ensures err { OnErr result
        ((table.new ≡ table.old) ⊎ (table.new ≡ written table.old (A.writes first.now) (A.names first.now))) }
{
    apply_fitting(alloc, first, first_tag, table)?;
    apply_fitting(alloc, second, second_tag, table)?;
    Ok(())
}

/// Applies an operation that applies. For want of memory the table stays as it was.
pub fn apply_fitting<A: Operation>(
    alloc: Global,
    operation: &A,
    tag: Tag,
    table: &mut Table,
) -> Result<(), OutOfMemory>
    requires { A.fault operation.now tag table.old.known ≡ None }
    ensures ok { OnOk result (table.new ≡ written table.old (A.writes operation.now) (A.names operation.now)) }
    ensures err { OnErr result (table.new ≡ table.old) }
{
    match operation.apply(alloc, tag, table) {
        Ok(()) => Ok(()),
        Err(ApplyFault::OutOfMemory) => Err(OutOfMemory),
        Err(ApplyFault::Refused(_)) => unreachable!(),
    }
}
