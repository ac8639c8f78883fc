//! What is left of a line.
use crate::fault::CaseFault;
use mol_base::{Id, Tag};

/// What is left of a line, whose words are separated by single spaces. Where a word is missing or is none of those that are
/// read, something else stands in for it and the line is spoilt, which `end` finds.
#[derive(Drop)]
pub struct Line<'a> {
    rest: &'a str,
    is_spoilt: bool,
}

impl<'a> Line<'a> {
    /// All of a line.
    pub fn new(rest: &'a str) -> Line<'a> {
        Line {
            rest,
            is_spoilt: false,
        }
    }

    /// The next word; for a missing one the empty text.
    pub fn word(&mut self) -> &'a str {
        let (word, rest) = self.rest.split_once(' ').unwrap_or((self.rest, ""));
        self.rest = rest;
        if word.is_empty() {
            self.is_spoilt = true;
        }
        word
    }

    /// Spoils the line.
    pub fn spoil(&mut self) {
        self.is_spoilt = true;
    }

    /// Takes this word.
    pub fn take(&mut self, wanted: &str) {
        if self.word() != wanted {
            self.spoil();
        }
    }

    /// The end of a line that is not spoilt.
    pub fn end(&self) -> Result<(), CaseFault> {
        if self.is_spoilt || !self.rest.is_empty() {
            return Err(CaseFault::Unread);
        }
        Ok(())
    }

    /// The identity that the next word spells.
    pub fn id(&mut self) -> Id {
        match Id::parse(self.word().as_bytes()) {
            Some(id) => id,
            None => {
                self.spoil();
                Id {
                    tag: Tag::base(),
                    num: 0,
                }
            }
        }
    }

    /// The tag that the next word spells; `-` stands for that of the base.
    pub fn tag(&mut self) -> Tag {
        let word = self.word();
        if word == "-" {
            return Tag::base();
        }
        match Tag::parse(word.as_bytes()) {
            Ok(tag) => tag,
            Err(_) => {
                self.spoil();
                Tag::base()
            }
        }
    }

    /// The number that the next word spells.
    pub fn number(&mut self) -> u32 {
        match self.word().parse() {
            Ok(number) => number,
            Err(_) => {
                self.spoil();
                0
            }
        }
    }

    /// Whether the next word is `true`; it is that or `false`.
    pub fn truth(&mut self) -> bool {
        match self.word() {
            "true" => true,
            "false" => false,
            _ => {
                self.spoil();
                false
            }
        }
    }
}
