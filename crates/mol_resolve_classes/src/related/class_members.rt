//! The members of a class, to be asked for what others are beside them.
ghost use Rattle.std.specs.Prelude.{◌≡◌, List, IfOk, ℕ, filter, map};
ghost use Rattle.mol_resolve_faults.specs.beside.Between.{faulty_below, faulty_here};
ghost use Rattle.mol_resolve_faults.specs.beside.Kept.{faulty_of};
ghost use Rattle.mol_resolve_members.specs.members.Rows.{kept_row};
ghost use Rattle.mol_resolve_classes.specs.related.Compared.{AreKept, StandInOrder, differing, is_kind};
ghost use Rattle.mol_resolve_classes.specs.related.Compared.{seen_declaration, seen_declared, seen_row, seen_signature};
ghost use Rattle.mol_resolve_classes.specs.signatures.Repeats.{kind_of as signature_kind};
ghost use Rattle.mol_resolve_rules.specs.MemberFaults.{Row, a_method};

use crate::namesakes::{Declaration, Differences, Namesakes};
use crate::related::methods::faulty_beside;
use crate::related::rows::{declaration, is_kind, signature};
use crate::signatures::{MemberKind, Signature, Signatures};
use jav_tree::Member;
use mol_base::OutOfMemory;
use mol_resolve_faults::Faulty;
use mol_resolve_members::MemberRow;
use std::alloc::Global;

/// The members of a class.
#[derive(Drop)]
pub(crate) struct ClassMembers<'a> {
    signatures: Signatures<'a>,
    methods: Namesakes<'a>,
    constructors: Namesakes<'a>,
}

impl<'a> ClassMembers<'a> {
    /// Those of these rows, which stand in the class in this order.
    pub fn new(alloc: Global, rows: &'a [MemberRow<'a>]) -> Result<ClassMembers<'a>, OutOfMemory>
        requires { StandInOrder (map kept_row rows.now) }
        ensures { IfOk result (λ members. AreKept members (map kept_row rows.now)) }
    {
        let listed = signatures_of(alloc, rows)?;
        let signatures = Signatures::new(listed)?;
        let methods = namesakes_of(alloc, rows, MemberKind::Method)?;
        let constructors = namesakes_of(alloc, rows, MemberKind::Constructor)?;
        Ok(ClassMembers {
            signatures,
            methods,
            constructors,
        })
    }

    /// The faults of a member of this class beside the others. It takes no memory.
    pub fn faulty_here(&self, row: &'a MemberRow<'a>) -> Faulty
        ensures { (rows : List (Row ℕ)) → AreKept self.now rows
            → faulty_of result ≡ faulty_here (kept_row row.now).kind rows (kept_row row.now) }
    {
        let duplicate = self.signatures.is_repeated(&signature(row));
        let differences = self.differences_before(row);
        Faulty {
            duplicate,
            overload: differences.types,
            result: differences.result,
            hides_static: false,
        }
    }

    /// In what the namesakes that stand before a member of this class differ from it. The results of constructors do not count.
    fn differences_before(&self, row: &'a MemberRow<'a>) -> Differences
        ensures { (rows : List (Row ℕ)) → AreKept self.now rows
            → result ≡ differing (faulty_here (kept_row row.now).kind rows (kept_row row.now)) }
    {
        match row.member {
            Member::Field(_) => Differences {
                types: false,
                result: false,
            },
            Member::Method(_) => self.methods.differences_before(&declaration(row)),
            Member::Ctor(_) => Differences {
                types: self
                    .constructors
                    .differences_before(&declaration(row))
                    .types,
                result: false,
            },
        }
    }

    /// The faults of a method of a class of which this is an ancestor, beside the methods here. It takes no memory.
    pub fn faulty_below(&self, row: &'a MemberRow<'a>) -> Faulty
        ensures { (rows : List (Row ℕ)) → AreKept self.now rows
            → faulty_of result ≡ faulty_below a_method rows (kept_row row.now) }
    {
        faulty_beside(&self.methods, row)
    }
}

/// The members by what tells them apart.
fn signatures_of<'a>(
    alloc: Global,
    rows: &'a [MemberRow<'a>],
) -> Result<Vec<Signature<'a>>, OutOfMemory>
    ensures { IfOk result (λ signatures. map seen_signature signatures.items ≡ map seen_row (map kept_row rows.now)) }
{
    let mut signatures = Vec::new(alloc);
    for row in rows {
        signatures.push(signature(row))?;
    }
    Ok(signatures)
}

/// The namesakes among the members of a kind.
fn namesakes_of<'a>(
    alloc: Global,
    rows: &'a [MemberRow<'a>],
    kind: MemberKind,
) -> Result<Namesakes<'a>, OutOfMemory>
    requires { StandInOrder (map kept_row rows.now) }
    ensures { IfOk result (λ namesakes. map seen_declaration namesakes
        ≡ map seen_declared (filter (is_kind (signature_kind kind)) (map kept_row rows.now))) }
{
    let declared = declared(alloc, rows, kind)?;
    Namesakes::new(alloc, declared)
}

/// The members of a kind by what their namesakes are compared with them by.
fn declared<'a>(
    alloc: Global,
    rows: &'a [MemberRow<'a>],
    kind: MemberKind,
) -> Result<Vec<Declaration<'a>>, OutOfMemory>
    ensures { IfOk result (λ declared. map seen_declaration declared.items
        ≡ map seen_declared (filter (is_kind (signature_kind kind)) (map kept_row rows.now))) }
{
    let mut declared = Vec::new(alloc);
    for row in rows {
        if is_kind(row, kind) {
            declared.push(declaration(row))?;
        }
    }
    Ok(declared)
}
