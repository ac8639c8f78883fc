//! The faults between members.
ghost use Rattle.std.specs.Prelude.{◌≡◌, ◌<◌, IfOk, IfSome, Some, flat_map, length, slice_get};
ghost use Rattle.jav_scope.specs.declared.source.SourceUnit.{SourceUnit};
ghost use Rattle.mol_resolve_faults.specs.beside.Between.{faulty_below, faulty_here};
ghost use Rattle.mol_resolve_faults.specs.beside.Classes.{either, rows_above, rows_of};
ghost use Rattle.mol_resolve_faults.specs.beside.Kept.{faulty_of};
ghost use Rattle.mol_resolve_members.specs.members.Rows.{kept_row};
ghost use Rattle.mol_resolve_faults.specs.First.{all_noted};
ghost use Rattle.mol_resolve_classes.specs.related.Tables.{AreKeptOf};
ghost use Rattle.mol_resolve_members.specs.sources.Sources.{file_of, files_of};
ghost use Rattle.mol_resolve_rules.specs.FaultLists.{faults_beside};
ghost use Rattle.mol_resolve_rules.specs.MemberFaults.{a_method};
ghost use Rattle.mol_resolve_rules.specs.ResolveFaults.{rows as all_rows, rows_in};

use crate::namesakes::Namesakes;
use crate::related::class_members::ClassMembers;
use crate::related::methods::{faulty_beside, has_fault, methods_if_deep};
use crate::related::rows::place_of;
use jav_scope::{Scope, next_up};
use jav_tree::Member;
use mol_base::{OutOfMemory, number_of};
use mol_resolve_faults::{Faulty, FirstFault};
use mol_resolve_members::{MemberRow, Members};
use std::alloc::Global;
use std::marker::Model;

/// The members of source files, to be asked for the faults between them. Contracts see the files.
#[derive(Drop)]
pub struct Related<'a> {
    scope: &'a Scope<'a>,
    members: &'a Members<'a>,
    /// Of each file those of its class.
    classes: Vec<ClassMembers<'a>>,
    /// Those of all classes, where some class has more than a few ancestors.
    methods: Option<Namesakes<'a>>,
}

impl<'a> Model for Related<'a> {
    ghost use Rattle.std.specs.Prelude.{List};
    ghost use Rattle.std.specs.Coded.{coded_list};
    ghost use Rattle.jav_scope.specs.contracts.source.SourceUnit as source;
    ghost use Rattle.jav_scope.specs.declared.source.SourceUnit.{SourceUnit};
    ghost use Rattle.mol_resolve_classes.specs.related.Tables.{AreRelated};

    ghost Value = { List SourceUnit };

    ghost coded = { coded_list source.the_row.coded };

    ghost view = { λ related. related.scope.now };

    ghost invariant = { λ related. AreRelated related.scope.now related.members.now related.classes.items related.methods };
}

impl<'a> Related<'a> {
    /// The members of so many files, of which a scope is made. The time is near-linear. `Err` is want of memory.
    pub fn new(
        alloc: Global,
        scope: &'a Scope<'a>,
        members: &'a Members<'a>,
        count: usize,
    ) -> Result<Related<'a>, OutOfMemory>
        requires same { members.now ≡ scope.now }
        requires count { count ≡ length scope.now }
        ensures { IfOk result (λ related. related ≡ scope.now) }
    {
        let count = number_of(count)?;
        let classes = classes_of(alloc, members, count)?;
        let methods = methods_if_deep(alloc, scope, members, count)?;
        Ok(Related {
            scope,
            members,
            classes,
            methods,
        })
    }

    /// Notes the faults of the members of the file of this number, beside the others of their class and beside those of its ancestors
    /// (JLS 8.3, 8.4.2, 8.4.8, 8.8.2). It takes no memory. The time is that of a few look-ups for each member. A method takes one more for
    /// each ancestor of its class where, in any class, some method of its name and number of parameters is static or has other types.
    pub fn note(&self, faults: &mut FirstFault, unit: u32)
        requires { unit < length self.now }
        ensures { (source : SourceUnit) → slice_get self.now unit ≡ Some source → faults.new
            ≡ all_noted faults.old (flat_map (faults_beside (files_of self.now)) (rows_in (files_of self.now) (unit, file_of source))) }
    {
        let rows = self.members.of_file(unit);
        for row in rows {
            let faulty = self.faulty(unit, row);
            faulty.note(faults, place_of(row.member));
        }
    }

    /// The faults of a member of the class of this number.
    fn faulty(&self, unit: u32, row: &'a MemberRow<'a>) -> Faulty
        requires { unit < length self.now }
        ensures { faulty_of result ≡ either
            (faulty_here (kept_row row.now).kind (rows_of (files_of self.now) unit) (kept_row row.now))
            (faulty_below (kept_row row.now).kind (rows_above (files_of self.now) unit) (kept_row row.now)) }
    {
        let here = self.faulty_in(unit, row);
        match row.member {
            Member::Field(_) => here,
            Member::Method(_) => here.or(&self.faulty_above(unit, row)),
            Member::Ctor(_) => here,
        }
    }

    /// Its faults beside the members of that class.
    fn faulty_in(&self, unit: u32, row: &'a MemberRow<'a>) -> Faulty
        requires { unit < length self.now }
        ensures { faulty_of result ≡ faulty_here (kept_row row.now).kind (rows_of (files_of self.now) unit) (kept_row row.now) }
    {
        self.classes[unit as usize].faulty_here(row)
    }

    /// The faults of a method beside the methods of the ancestors of its class.
    fn faulty_above(&self, unit: u32, row: &'a MemberRow<'a>) -> Faulty
        ensures { faulty_of result ≡ faulty_below a_method (rows_above (files_of self.now) unit) (kept_row row.now) }
    {
        // To go up from each method of a long chain of classes would take the square of its length. Most methods are as all their
        // namesakes are, and so need it not.
        match self.faulty_among_all(row) {
            Some(among_all) => {
                if has_fault(&among_all) {
                    self.faulty_upwards(unit, row)
                } else {
                    among_all
                }
            },
            None => self.faulty_upwards(unit, row),
        }
    }

    /// The faults that a method would have if all classes were ancestors of its class, where the methods of all are kept.
    fn faulty_among_all(&self, row: &'a MemberRow<'a>) -> Option<Faulty>
        ensures { IfSome result (λ faulty. faulty_of faulty ≡ faulty_below a_method (all_rows (files_of self.now)) (kept_row row.now)) }
    {
        match &self.methods {
            Some(methods) => Some(faulty_beside(methods, row)),
            None => None,
        }
    }

    /// The faults of a method beside the methods of one ancestor of its class after another.
    fn faulty_upwards(&self, unit: u32, row: &'a MemberRow<'a>) -> Faulty
        ensures { faulty_of result ≡ faulty_below a_method (rows_above (files_of self.now) unit) (kept_row row.now) }
    {
        let mut faulty = Faulty {
            duplicate: false,
            overload: false,
            result: false,
            hides_static: false,
        };
        let mut at = unit;
        // As many steps as there are classes lead past each ancestor.
        let steps = self.classes.len();
        for _step in 0..steps {
            match next_up(self.scope, unit, at) {
                None => return faulty,
                Some(next) => {
                    faulty = faulty.or(&self.faulty_below(next, row));
                    at = next;
                },
            }
        }
        faulty
    }

    /// The faults of a method beside those of the class of this number, which is an ancestor of its class.
    fn faulty_below(&self, unit: u32, row: &'a MemberRow<'a>) -> Faulty
        requires { unit < length self.now }
        ensures { faulty_of result ≡ faulty_below a_method (rows_of (files_of self.now) unit) (kept_row row.now) }
    {
        self.classes[unit as usize].faulty_below(row)
    }
}

/// The members of each of so many files.
fn classes_of<'a>(
    alloc: Global,
    members: &'a Members<'a>,
    count: u32,
) -> Result<Vec<ClassMembers<'a>>, OutOfMemory>
    requires { count ≡ length members.now }
    ensures size { IfOk result (λ classes. length classes.items ≡ count) }
    ensures kept { IfOk result (λ classes. AreKeptOf members.now classes.items) }
{
    let mut classes = Vec::new(alloc);
    for unit in 0..count {
        let rows = members.of_file(unit);
        let of_class = ClassMembers::new(alloc, rows)?;
        classes.push(of_class)?;
    }
    Ok(classes)
}
