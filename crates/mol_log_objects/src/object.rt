//! Objects of JSON that are made member after member.
ghost use Rattle.std.specs.Prelude.{◌≡◌, IfOk};
ghost use Rattle.serde_json.specs.Data.{object, no_members, put, string, null};
ghost use Rattle.serde_json.specs.View.{view};
ghost use Rattle.mol_log_rows.specs.lines.Objects.{texts_data};
ghost use Rattle.mol_log_rows.specs.rows.RowData.{id_data};
ghost use Rattle.mol_log_objects.specs.Members.{members_in};

use mol_base::{Id, OutOfMemory, Text};
use serde_json::{Map, Value};
use std::alloc::Global;

/// An object (RFC 8259) that is made member after member. Its keys are in the order of their bytes, whatever order they come in.
///
/// A call that puts a part at a key puts it in place of what stood there. `Err` is want of memory; nothing is said then of the
/// members.
#[derive(Drop)]
pub struct Object {
    alloc: Global,
    members: Map<String, Value>,
}

impl Object {
    ghost use Rattle.std.specs.Prelude.{OnOk};

    /// An object without members. It takes no memory.
    pub fn new(alloc: Global) -> Object
        ensures { members_in result ≡ no_members }
    {
        Object {
            alloc,
            members: Map::new(alloc),
        }
    }

    /// Where its members have their memory from.
    pub fn alloc(&self) -> Global {
        self.alloc
    }

    /// Puts a value at the key.
    pub fn add(&mut self, key: &str, value: Value) -> Result<(), OutOfMemory>
        ensures { OnOk result (members_in self.new ≡ put key.now (view value) (members_in self.old)) }
    {
        let name = String::from_str(self.alloc, key)?;
        drop(self.members.insert(name, value)?);
        Ok(())
    }

    /// Puts `null` at the key.
    pub fn null(&mut self, key: &str) -> Result<(), OutOfMemory>
        ensures { OnOk result (members_in self.new ≡ put key.now null (members_in self.old)) }
    {
        self.add(key, Value::Null)
    }

    /// Puts a text at the key.
    pub fn text(&mut self, key: &str, text: &str) -> Result<(), OutOfMemory>
        ensures { OnOk result (members_in self.new ≡ put key.now (string text.now) (members_in self.old)) }
    {
        let value = text_value(self.alloc, text)?;
        self.add(key, value)
    }

    /// Puts the text of an identity at the key.
    pub fn id(&mut self, key: &str, id: &Id) -> Result<(), OutOfMemory>
        ensures { OnOk result (members_in self.new ≡ put key.now (id_data id.now) (members_in self.old)) }
    {
        let value = id_value(self.alloc, id)?;
        self.add(key, value)
    }

    /// Puts a list of texts at the key.
    pub fn texts(&mut self, key: &str, texts: &[Text]) -> Result<(), OutOfMemory>
        ensures { OnOk result (members_in self.new ≡ put key.now (texts_data texts.now) (members_in self.old)) }
    {
        let value = texts_value(self.alloc, texts)?;
        self.add(key, value)
    }

    /// The object as a value. It takes no memory.
    pub fn into_value(self) -> Value
        ensures { view result ≡ object (members_in self) }
    {
        let Object { alloc: _, members } = self;
        Value::Object(members)
    }
}

/// A text as a string.
pub fn text_value(alloc: Global, text: &str) -> Result<Value, OutOfMemory>
    ensures { IfOk result (λ value. view value ≡ string text.now) }
{
    Ok(Value::try_from_str(alloc, text)?)
}

/// The text of an identity as a string.
pub fn id_value(alloc: Global, id: &Id) -> Result<Value, OutOfMemory>
    ensures { IfOk result (λ value. view value ≡ id_data id.now) }
{
    let text = id.write(alloc)?;
    text_value(alloc, text.as_str())
}

/// The texts as a list.
pub fn texts_value(alloc: Global, texts: &[Text]) -> Result<Value, OutOfMemory>
    ensures { IfOk result (λ value. view value ≡ texts_data texts.now) }
{
    let mut items = Vec::new(alloc);
    for text in texts {
        items.push(Value::try_from_str(alloc, text.as_str())?)?;
    }
    Ok(Value::Array(items))
}
