//! The members of an object, taken one after the other.
#![tactic(auto, unfolding(crate::specs::lines::Reader::and_then))]

ghost use Rattle.std.specs.Prelude.{◌≡◌, MatchResult};
ghost use Rattle.serde_json.specs.Data.{no_members};
ghost use Rattle.serde_json.specs.Find.{as_object, as_str};
ghost use Rattle.serde_json.specs.View.{view};
ghost use Rattle.mol_log_rows.specs.lines.Reader.{Reads, ReadsData, ReadsKnown, members_left, nothing_left, part};
ghost use Rattle.mol_log_rows.specs.lines.Reader.{id_from, stamp_from, same_from, texts_from, maybe_from};

use crate::lines::{ObjectFault, parts};
use mol_base::{Id, List, Stamp, Text};
use serde_json::Value;
use std::alloc::Global;
use std::collections::btree_map::IntoIter;

/// The members of an object that are not taken yet, in the order of their keys.
///
/// Each call takes the next one, at the key that is named, and refuses it where it has another key or another
/// form. After an error nothing is promised of those that are left.
#[derive(Drop)]
pub struct Members {
    rest: IntoIter<String, Value>,
}

impl Members {
    /// The members of an object.
    pub fn of(value: Value) -> Result<Members, ObjectFault>
        ensures { MatchResult result
            (λ members. as_object (view value) ≡ Some (members_left members))
            (λ _. as_object (view value) ≡ None) }
    {
        match value {
            Value::Object(members) => Ok(Members {
                rest: members.into_iter(),
            }),
            _ => Err(ObjectFault::WrongForm),
        }
    }

    /// What stands at this key, which is the next one.
    #[tactic(auto, unfolding(crate::specs::lines::Reader::part))]
    pub fn part(&mut self, key: &str) -> Result<Value, ObjectFault>
        ensures { ReadsData (part key.now Some (members_left self.old)) result (members_left self.new) }
    {
        match self.rest.next() {
            Some((name, value)) => {
                if name.as_str() == key {
                    Ok(value)
                } else {
                    Err(ObjectFault::WrongForm)
                }
            }
            None => Err(ObjectFault::WrongForm),
        }
    }

    /// Nothing, where no member is left.
    pub fn end(mut self) -> Result<(), ObjectFault>
        ensures { ReadsKnown tt (nothing_left (members_left self)) result no_members }
    {
        match self.rest.next() {
            Some(_) => Err(ObjectFault::WrongForm),
            None => Ok(()),
        }
    }

    /// A text.
    pub fn text(&mut self, key: &str) -> Result<Text, ObjectFault>
        ensures { Reads (part key.now as_str (members_left self.old)) result (members_left self.new) }
    {
        parts::text(self.part(key)?)
    }

    /// Nothing, where this text stands at the key.
    pub fn same_text(&mut self, key: &str, wanted: &str) -> Result<(), ObjectFault>
        ensures { ReadsKnown wanted.now (part key.now (same_from wanted.now) (members_left self.old)) result (members_left self.new) }
    {
        let text = self.text(key)?;
        if text.as_str() == wanted {
            Ok(())
        } else {
            Err(ObjectFault::WrongForm)
        }
    }

    /// A stamp.
    pub fn stamp(&mut self, key: &str) -> Result<Stamp, ObjectFault>
        ensures { Reads (part key.now stamp_from (members_left self.old)) result (members_left self.new) }
    {
        let text = self.text(key)?;
        Stamp::parse(text.bytes()).ok_or(ObjectFault::WrongForm)
    }

    /// An identity.
    pub fn id(&mut self, key: &str) -> Result<Id, ObjectFault>
        ensures { Reads (part key.now id_from (members_left self.old)) result (members_left self.new) }
    {
        let text = self.text(key)?;
        Id::parse(text.bytes()).ok_or(ObjectFault::WrongForm)
    }

    /// A list of texts.
    pub fn texts(&mut self, alloc: Global, key: &str) -> Result<List<Text>, ObjectFault>
        ensures { Reads (part key.now texts_from (members_left self.old)) result (members_left self.new) }
    {
        parts::texts(alloc, self.part(key)?)
    }

    /// A list of texts, or `null`.
    pub fn maybe_texts(
        &mut self,
        alloc: Global,
        key: &str,
    ) -> Result<Option<List<Text>>, ObjectFault>
        ensures { Reads (part key.now maybe_from (members_left self.old)) result (members_left self.new) }
    {
        parts::maybe_texts(alloc, self.part(key)?)
    }
}
