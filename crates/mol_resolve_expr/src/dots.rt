//! Names, and names after a dot (JLS 6.5.6, 15.11).
ghost use Rattle.std.specs.Prelude.{◌≡◌, ℕ, IfOk, Option, [], None, Some};
ghost use Rattle.jav_tree.specs.declared.expr.ExprNode.TheVariants as node;
ghost use Rattle.jav_names.specs.DottedNames.{Dotted, Names as NameList};
ghost use Rattle.jav_names.specs.LookUps.{field_on};
ghost use Rattle.mol_resolve_expr.specs.Parts.{dot_of};
ghost use Rattle.mol_resolve_expr.specs.Stands.{stand_of};
ghost use Rattle.mol_resolve_readings.specs.locals.Scoped.{locals_of};
ghost use Rattle.mol_resolve_readings.specs.meant.Kept.{view_part};
ghost use Rattle.mol_resolve_readings.specs.reads.Chains.{chain_of};
ghost use Rattle.mol_resolve_readings.specs.reads.Reads.{Reads, names_of};
ghost use Rattle.mol_resolve_rules.specs.Outcomes.{Outcome, TreeFault, over};
ghost use Rattle.mol_resolve_rules.specs.ReadTrees as trees;
ghost use Rattle.mol_resolve_rules.specs.ReadTrees.{Mode, followers};

use crate::expr_reader::ExprReader;
use crate::stand::Stand;
use jav_tree::Expr;
use mol_base::{OutOfMemory, Text};
use mol_resolve_faults::{FaultKind, FirstFault};
use mol_resolve_readings::{Chain, ClassPath, Meant, Names};

impl<N: Names> ExprReader<'_, N> {
    /// A name.
    pub(crate) fn name(
        &self,
        faults: &mut FirstFault,
        at: u32,
        name: &Text,
        stand: Stand,
    ) -> Result<Option<Meant>, OutOfMemory>
        ensures { let reader = N.reader self.now.names.now in
            let locals = locals_of self.now.locals.now in
            IfOk result (λ value. (mode : Mode)
            → stand ≡ stand_of reader locals (Some (record { first = name.now; rest = [] })) mode
            → Reads (trees.name_meant reader at name.now locals mode) (view_part value) faults.old faults.new) }
    {
        match stand {
            Stand::Alone => self
                .names
                .name_alone(self.alloc, self.locals, faults, at, name),
            Stand::Before(chain) => self.first_name(name, chain),
        }
    }

    /// A name before a dot, with what it begins: where that is the name of a class, it is no value. It has no fault of its own.
    fn first_name(&self, name: &Text, chain: Chain) -> Result<Option<Meant>, OutOfMemory>
        ensures { let reader = N.reader self.now.names.now in
            let locals = locals_of self.now.locals.now in
            IfOk result (λ value. (at : ℕ) (follow : NameList) (faults : Option TreeFault)
            → chain ≡ chain_of reader locals (Some (record { first = name.now; rest = [] })) follow
            → Reads (trees.name_meant reader at name.now locals (Some follow)) (view_part value) faults faults) }
    {
        match chain {
            Chain::NoClass => self.names.name_before(self.alloc, self.locals, name),
            _ => Ok(None),
        }
    }

    /// A name after a dot, which is the whole expression `e`.
    #[cycle(read_expr)]
    pub(crate) fn dot(
        &self,
        faults: &mut FirstFault,
        e: &Expr,
        on: &Expr,
        name: &Text,
        stand: Stand,
    ) -> Result<Option<Meant>, OutOfMemory>
        requires { e.now.node ≡ node.Dot on.now name.now }
        ensures { let reader = N.reader self.now.names.now in
            let locals = locals_of self.now.locals.now in
            IfOk result (λ value. (mode : Mode) → stand ≡ stand_of reader locals (names_of reader e.now) mode
            → Reads (dot_of reader locals on.now name.now mode e.now.at) (view_part value) faults.old faults.new) }
    {
        let chain = self.chain_at(e, stand)?.before_last();
        match chain.path() {
            ClassPath::Whole(class) => self
                .names
                .static_field(self.alloc, faults, e.at, class, name),
            ClassPath::Front => {
                self.note_front(faults, e.at, stand);
                Ok(None)
            },
            ClassPath::NoPath => {
                let value = self.value(faults, on, Stand::Before(chain))?;
                self.field_of(faults, e.at, name, value)
            },
        }
    }

    /// What an expression begins with, together with the names that follow it.
    fn chain_at(&self, e: &Expr, stand: Stand) -> Result<Chain, OutOfMemory>
        ensures { let reader = N.reader self.now.names.now in
            let locals = locals_of self.now.locals.now in
            IfOk result (λ chain. (mode : Mode) → stand ≡ stand_of reader locals (names_of reader e.now) mode
            → chain ≡ chain_of reader locals (names_of reader e.now) (followers mode)) }
    {
        match stand {
            Stand::Alone => self.names.chain(self.alloc, self.locals, e),
            Stand::Before(chain) => Ok(chain),
        }
    }

    /// Notes names that are the front of the name of a class, where they stand alone.
    fn note_front(&self, faults: &mut FirstFault, at: u32, stand: Stand)
        ensures { let reader = N.reader self.now.names.now in
            (names : Option Dotted) (mode : Mode) → stand ≡ stand_of reader (locals_of self.now.locals.now) names mode
            → Reads (trees.front_meant reader at mode) None faults.old faults.new }
    {
        match stand {
            Stand::Alone => faults.note(FaultKind::UnknownMember, at),
            Stand::Before(_) => {},
        }
    }

    /// A field of what stands before a dot.
    fn field_of(
        &self,
        faults: &mut FirstFault,
        at: u32,
        name: &Text,
        value: Option<Meant>,
    ) -> Result<Option<Meant>, OutOfMemory>
        ensures { let reader = N.reader self.now.names.now in
            IfOk result (λ field. (on : Outcome (trees.Meant ℕ)) (first : Option TreeFault)
            → Reads on (view_part value) first faults.old
            → Reads (over on (λ value. trees.field_meant reader at name.now value (field_on reader.view name.now value.static_type)))
            (view_part field) first faults.new) }
    {
        match value {
            Some(value) => self.names.field_on(self.alloc, faults, at, name, value),
            None => Ok(None),
        }
    }
}
