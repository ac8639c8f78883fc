//! A table with each kind of entity: the classes `:1` Cart, `:2` Desk and `:3` Till, which extends Desk; the static method
//! `:9` tax, which `:5` declares in Cart, with the parameter `:10`; the method `:11` label, which `:6` declares in Desk and
//! `:7` in Till; the constructor `:12` of Till, which `:8` declares, with the parameter `:13`; and the field `:4` of Cart, whose
//! first value is a creation by this constructor.
ghost use Rattle.std.specs.Prelude.{IsTrue, IfOk};
ghost use Rattle.mol_table_rules.specs.ExpressionForms.{is_initial};

use crate::changes::apply;
use crate::fault::CaseFault;
use crate::forms::{
    base_id, class_type, empty_body, literal_of, name_of, no_notes, no_words, package,
    single_param, superclass,
};
use mol_base::List;
use mol_op::{AddClass, AddConstructor, AddField, AddMethod, AddOverride};
use mol_table::Table;
use mol_values_types::{Argument, IExpr, IType, MethodKind};
use std::alloc::Global;

/// Adds a class, below another one of the base or none.
fn add_class(
    alloc: Global,
    table: &mut Table,
    num: u32,
    name: &str,
    parent: Option<u32>,
) -> Result<(), CaseFault> {
    let package = package(alloc)?;
    let name = name_of(alloc, name)?;
    let operation = AddClass {
        class: base_id(num),
        package,
        name,
        parent: superclass(parent),
        words: no_words(alloc),
        notes: no_notes(alloc),
    };
    apply(alloc, table, &operation)
}

/// Adds the three classes.
fn add_classes(alloc: Global, table: &mut Table) -> Result<(), CaseFault> {
    add_class(alloc, table, 1, "Cart", None)?;
    add_class(alloc, table, 2, "Desk", None)?;
    add_class(alloc, table, 3, "Till", Some(2))
}

/// Adds `static void tax(int amount) { }`.
#[tactic(auto, using(crate::proofs::Types::void_result))]
fn add_tax(alloc: Global, table: &mut Table) -> Result<(), CaseFault> {
    let name = name_of(alloc, "tax")?;
    let params = single_param(alloc, base_id(10), "amount", None, "0")?;
    let operation = AddMethod {
        method: base_id(9),
        decl: base_id(5),
        owner: base_id(1),
        name,
        kind: MethodKind::Static,
        result: IType::Void,
        params,
        words: no_words(alloc),
        notes: no_notes(alloc),
        body: Some(empty_body(alloc)),
    };
    apply(alloc, table, &operation)
}

/// Adds `abstract void label();` to Desk.
#[tactic(auto, using(crate::proofs::Types::void_result))]
fn add_label(alloc: Global, table: &mut Table) -> Result<(), CaseFault> {
    let name = name_of(alloc, "label")?;
    let operation = AddMethod {
        method: base_id(11),
        decl: base_id(6),
        owner: base_id(2),
        name,
        kind: MethodKind::Instance,
        result: IType::Void,
        params: List::new(alloc),
        words: no_words(alloc),
        notes: no_notes(alloc),
        body: None,
    };
    apply(alloc, table, &operation)
}

/// Adds `void label() { }` to Till.
fn override_label(alloc: Global, table: &mut Table) -> Result<(), CaseFault> {
    let operation = AddOverride {
        decl: base_id(7),
        method: base_id(11),
        owner: base_id(3),
        words: no_words(alloc),
        notes: no_notes(alloc),
        body: Some(empty_body(alloc)),
    };
    apply(alloc, table, &operation)
}

/// Adds `Till(Desk desk) { }`.
fn add_constructor(alloc: Global, table: &mut Table) -> Result<(), CaseFault> {
    let params = single_param(alloc, base_id(13), "desk", Some(2), "null")?;
    let operation = AddConstructor {
        method: base_id(12),
        decl: base_id(8),
        owner: base_id(3),
        params,
        words: no_words(alloc),
        notes: no_notes(alloc),
        body: Some(empty_body(alloc)),
    };
    apply(alloc, table, &operation)
}

/// `new Till(null)`
#[tactic(auto, using(crate::proofs::Shapes::shape_new, crate::proofs::Shapes::shape_lit))]
fn new_till(alloc: Global) -> Result<IExpr, CaseFault>
    ensures { IfOk result (λ e. IsTrue (is_initial e)) }
{
    let value = IExpr::Lit(literal_of(alloc, "null")?);
    let mut arguments = List::new(alloc);
    arguments.add(Argument {
        param: base_id(13),
        value,
    })?;
    Ok(IExpr::New(base_id(12), arguments))
}

/// Adds `Till till = new Till(null);`.
fn add_field(alloc: Global, table: &mut Table) -> Result<(), CaseFault> {
    let name = name_of(alloc, "till")?;
    let value = new_till(alloc)?;
    let operation = AddField {
        field: base_id(4),
        owner: base_id(1),
        name,
        words: no_words(alloc),
        notes: no_notes(alloc),
        ty: class_type(3),
        value: Some(value),
    };
    apply(alloc, table, &operation)
}

/// The table.
pub fn shop(alloc: Global) -> Result<Table, CaseFault> {
    let mut table = Table::new(alloc);
    add_classes(alloc, &mut table)?;
    add_tax(alloc, &mut table)?;
    add_label(alloc, &mut table)?;
    override_label(alloc, &mut table)?;
    add_constructor(alloc, &mut table)?;
    add_field(alloc, &mut table)?;
    Ok(table)
}
