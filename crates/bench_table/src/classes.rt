//! Tables of classes.
ghost use Rattle.std.specs.Prelude.{◌≡◌, ◌≢◌, ◌≤◌, ℕ, [], ◌∷◌, Some, None, IfOk, OnOk};
ghost use Rattle.std.specs.FinMap as map;
ghost use Rattle.mol_base.specs.declared.ident.Id.{Id as Identity};
ghost use Rattle.mol_values_types.specs.declared.known.Known.TheVariants as knowns;
ghost use Rattle.bench_table.specs.Classes as spec;

use mol_base::{Id, List, OutOfMemory, Tag, Text};
use mol_table::Table;
use mol_table_rules::NewEntity;
use mol_values_types::{Cell, Kind, Notes, Slot, Value, Words};
use std::alloc::Global;

/// A living class of this name, without superclass, words and comments.
fn named_class(
    alloc: Global,
    id: Id,
    in_package: Text,
    name: Text,
) -> Result<NewEntity, OutOfMemory>
    ensures { IfOk result (λ entity. entity ≡ spec.named_class id in_package name) }
{
    let values = vec![in alloc;
        Value::Live(true),
        Value::Package(in_package),
        Value::Name(name),
        Value::Super(None),
        Value::Words(Words {
            texts: List::new(alloc)
        }),
        Value::Notes(Notes {
            front: List::new(alloc),
            head: List::new(alloc),
            tail: List::new(alloc),
        }),
    ]?;
    Ok(NewEntity {
        id,
        kind: Kind::Class,
        values: List::from_vec(values),
    })
}

/// The class `p.C`.
fn class_entity(alloc: Global, id: Id) -> Result<NewEntity, OutOfMemory>
    ensures { IfOk result (λ entity. entity ≡ spec.class_entity id) }
{
    let package = Text::from_str(alloc, "p")?;
    let name = Text::from_str(alloc, "C")?;
    named_class(alloc, id, package, name)
}

/// So many classes of a tag, numbered from 1 on.
fn classes(alloc: Global, tag: Tag, count: u32) -> Result<List<NewEntity>, OutOfMemory>
    ensures { IfOk result (λ entities. entities ≡ spec.classes tag count) }
{
    let mut entities = List::new(alloc);
    for index in 0..count {
        let id = Id {
            tag,
            num: index + 1,
        };
        entities.add(class_entity(alloc, id)?)?;
    }
    Ok(entities)
}

/// Adds so many classes of a tag of which nothing is known, in one call.
pub fn fill(alloc: Global, table: &mut Table, tag: Tag, count: u32) -> Result<(), OutOfMemory>
    requires { (number : ℕ) → map.get table.old.known (spec.id_of tag number) ≡ None }
    ensures known { OnOk result ((number : ℕ) → 1 ≤ number → number ≤ count → map.get table.new.known (spec.id_of tag number) ≡ Some knowns.Class) }
    ensures elsewhere { OnOk result ((id : Identity) → id.tag ≢ tag → map.get table.new.known id ≡ map.get table.old.known id) }
{
    // That the rules of programs hold is a clause of `ids`.
    let _known = table.ids();
    table.add(classes(alloc, tag, count)?)
}

/// The list of the class `p.C` alone.
fn single_class(alloc: Global, id: Id) -> Result<List<NewEntity>, OutOfMemory>
    ensures { IfOk result (λ entities. entities ≡ spec.class_entity id ∷ []) }
{
    let mut entities = List::new(alloc);
    entities.add(class_entity(alloc, id)?)?;
    Ok(entities)
}

/// Adds a class of which nothing is known.
fn add_class(alloc: Global, table: &mut Table, tag: Tag, number: u32) -> Result<(), OutOfMemory>
    requires { map.get table.old.known (spec.id_of tag number) ≡ None }
    ensures { OnOk result ((id : Identity) → id ≢ spec.id_of tag number → map.get table.new.known id ≡ map.get table.old.known id) }
{
    // That the rules of programs hold is a clause of `ids`.
    let _known = table.ids();
    table.add(single_class(alloc, Id { tag, num: number })?)
}

/// Adds so many classes of a tag of which nothing is known, each in a call of its own.
pub fn fill_each(alloc: Global, table: &mut Table, tag: Tag, count: u32) -> Result<(), OutOfMemory>
    requires { (number : ℕ) → map.get table.old.known (spec.id_of tag number) ≡ None }
{
    for index in 0..count {
        add_class(alloc, table, tag, index + 1)?;
    }
    Ok(())
}

/// The cell of the name of a base's class.
pub fn name_of(number: u32) -> Cell
    ensures { result ≡ spec.name_of number }
{
    Cell {
        id: Id {
            tag: Tag::base(),
            num: number,
        },
        slot: Slot::Name,
    }
}

/// Gives a class of the base the name `D`.
fn rename(alloc: Global, table: &mut Table, number: u32) -> Result<(), OutOfMemory>
    requires { map.get table.old.known (spec.id_of [] number) ≡ Some knowns.Class }
    ensures known { table.new.known ≡ table.old.known }
{
    // That the rules of programs hold is a clause of `ids`.
    let _known = table.ids();
    let name = Value::Name(Text::from_str(alloc, "D")?);
    table.set(name_of(number), name)
}

/// Gives each class of the base, numbered up to this number, the name `D`.
pub fn rename_all(alloc: Global, table: &mut Table, count: u32) -> Result<(), OutOfMemory>
    requires { (number : ℕ) → 1 ≤ number → number ≤ count → map.get table.old.known (spec.id_of [] number) ≡ Some knowns.Class }
{
    for index in 0..count {
        rename(alloc, table, index + 1)?;
    }
    Ok(())
}
