//! Classes, and the same numbered as those of a base are.
ghost use Rattle.std.specs.Prelude.{◌≡◌, ◌++◌, [], ◌∷◌, IfOk, OnOk};
ghost use Rattle.mol_table_rules.specs.Program.{nothing};
ghost use Rattle.mol_table_rules.specs.Writes.{with_entities};
ghost use Rattle.test_table.specs.Classes as spec;

use mol_base::{Id, List, OutOfMemory, Tag, Text};
use mol_table::Table;
use mol_table_numbers::renumber;
use mol_table_rules::NewEntity;
use mol_values_types::{Kind, Notes, Value, Words};
use std::alloc::Global;

/// The identity of the base with this number.
fn class_id(num: u32) -> Id
    ensures { result ≡ spec.class_id num }
{
    Id {
        tag: Tag::base(),
        num,
    }
}

/// A living class, without superclass, modifiers and comments.
fn class(alloc: Global, num: u32, in_package: &str, name: &str) -> Result<NewEntity, OutOfMemory>
    ensures { IfOk result (λ entity. entity ≡ spec.class num in_package.now name.now) }
{
    let in_package = Text::from_str(alloc, in_package)?;
    let name = Text::from_str(alloc, name)?;
    let values = vec![in alloc;
        Value::Live(true),
        Value::Package(in_package),
        Value::Name(name),
        Value::Super(None),
        Value::Words(Words {
            texts: List::new(alloc)
        }),
        Value::Notes(Notes {
            front: List::new(alloc),
            head: List::new(alloc),
            tail: List::new(alloc),
        }),
    ]?;
    Ok(NewEntity {
        id: class_id(num),
        kind: Kind::Class,
        values: List::from_vec(values),
    })
}

/// Adds a living class to a list.
fn add_class(
    alloc: Global,
    entities: &mut List<NewEntity>,
    num: u32,
    in_package: &str,
    name: &str,
) -> Result<(), OutOfMemory>
    ensures { OnOk result (entities.new ≡ entities.old ++ (spec.class num in_package.now name.now ∷ [])) }
{
    let class = class(alloc, num, in_package, name)?;
    entities.add(class)
}

/// Puts `:7` shop.Till, `:4` shop.Cart and `:9` bank.Desk into an empty list.
fn add_classes(alloc: Global, entities: &mut List<NewEntity>) -> Result<(), OutOfMemory>
    requires { entities.old ≡ [] }
    ensures { OnOk result (entities.new ≡ spec.classes) }
{
    add_class(alloc, entities, 7, "shop", "Till")?;
    add_class(alloc, entities, 4, "shop", "Cart")?;
    add_class(alloc, entities, 9, "bank", "Desk")
}

/// These classes.
fn classes(alloc: Global) -> Result<List<NewEntity>, OutOfMemory>
    ensures { IfOk result (λ entities. entities ≡ spec.classes) }
{
    let mut entities = List::new(alloc);
    add_classes(alloc, &mut entities)?;
    Ok(entities)
}

/// The table of these classes.
pub fn recorded_classes(alloc: Global) -> Result<Table, OutOfMemory>
    ensures { IfOk result (λ table. table ≡ with_entities nothing spec.classes) }
{
    let mut table = Table::new(alloc);
    table.add(classes(alloc)?)?;
    Ok(table)
}

/// The table of these classes, numbered as a base is.
pub fn numbered_classes(alloc: Global) -> Result<Table, OutOfMemory> {
    renumber(alloc, &recorded_classes(alloc)?)
}
