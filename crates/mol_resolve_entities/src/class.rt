//! Classes as entities.
ghost use Rattle.std.specs.Prelude.{◌≡◌, ◌∷◌, [], true, IfOk};
ghost use Rattle.mol_resolve_entities.specs.Parts.{class_entity, class_notes, words_value};
ghost use Rattle.mol_values_types.specs.declared.kind.Kind.TheVariants as kinds;
ghost use Rattle.mol_values_types.specs.declared.value.Value.TheVariants as values;

use crate::words::words_value;
use jav_tree::Unit;
use mol_base::{Id, List, OutOfMemory};
use mol_table_rules::NewEntity;
use mol_values_types::{IType, Kind, Notes, Value, copy_texts};
use std::alloc::Global;

/// What the cells of a class hold that its file says word by word.
#[derive(Drop)]
struct Header {
    package: Value,
    name: Value,
    words: Value,
    notes: Value,
}

/// The class of a source file by its identity, with the type that it extends, if it extends one. The time is linear in its comments and
/// modifiers. `Err` is want of memory.
pub fn class_entity(
    alloc: Global,
    id: Id,
    source: &Unit,
    superclass: Option<IType>,
) -> Result<NewEntity, OutOfMemory>
    ensures { IfOk result (λ entity. entity ≡ class_entity id source.now superclass) }
{
    let header = header_of(alloc, source)?;
    with_superclass(alloc, id, header, superclass)
}

/// The package, the name, the modifiers and the comments of the class of a source file.
fn header_of(alloc: Global, source: &Unit) -> Result<Header, OutOfMemory>
    ensures package { IfOk result (λ header. header.«package» ≡ values.Package source.now.«package») }
    ensures name { IfOk result (λ header. header.name ≡ values.Name source.now.class.name) }
    ensures words { IfOk result (λ header. header.words ≡ words_value source.now.class.words) }
    ensures notes { IfOk result (λ header. header.notes ≡ values.Notes (class_notes source.now)) }
{
    let class = &source.class;
    Ok(Header {
        package: Value::Package(source.package.copy(alloc)?),
        name: Value::Name(class.name.copy(alloc)?),
        words: words_value(alloc, class.words.items())?,
        notes: Value::Notes(notes_of(alloc, source)?),
    })
}

/// The comments of the class of a source file.
fn notes_of(alloc: Global, source: &Unit) -> Result<Notes, OutOfMemory>
    ensures { IfOk result (λ notes. notes ≡ class_notes source.now) }
{
    Ok(Notes {
        front: copy_texts(alloc, source.class.front.items())?,
        head: copy_texts(alloc, source.head.items())?,
        tail: copy_texts(alloc, source.class.tail.items())?,
    })
}

/// A class with these values and the type that it extends.
fn with_superclass(
    alloc: Global,
    id: Id,
    header: Header,
    superclass: Option<IType>,
) -> Result<NewEntity, OutOfMemory>
    ensures { IfOk result (λ entity. entity ≡ record {
      id = id;
      kind = kinds.Class;
      values = values.Live true ∷ header.«package» ∷ header.name ∷ values.Super superclass ∷ header.words ∷ header.notes ∷ [];
    }) }
{
    let values = vec![in alloc;
        Value::Live(true),
        header.package,
        header.name,
        Value::Super(superclass),
        header.words,
        header.notes,
    ]?;
    Ok(NewEntity {
        id,
        kind: Kind::Class,
        values: List::from_vec(values),
    })
}
