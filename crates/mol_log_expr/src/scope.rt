//! Local variables in scope.
ghost use Rattle.std.specs.Prelude.{◌≡◌, OnOk, length, not};
ghost use Rattle.mol_log_expr.specs.Scope as spec;
ghost use Rattle.mol_log_words.specs.Reader.{take};
ghost use Rattle.mol_log_words.specs.Reads.{Reads};

use mol_base::OutOfMemory;
use mol_log_words::{Cursor, Fault, counts};
use std::alloc::Global;
use std::marker::Model;

/// The locals in scope, by number, and the number of the next one.
#[derive(Drop)]
pub struct Scope {
    next: u32,
    locals: Vec<u32>,
}

impl Model for Scope {
    ghost use Rattle.mol_log_expr.specs.Scope as spec;

    ghost Value = { spec.Scope };

    ghost view = { λ scope. record { next = scope.next; locals = scope.locals.items } };

    ghost invariant = { λ scope. spec.AreInOrder scope.locals.items scope.next };
}

impl Scope {
    /// No local in scope. It takes no memory.
    pub fn new(alloc: Global) -> Scope
        ensures { result ≡ spec.no_locals }
    {
        let locals = Vec::new(alloc);
        Scope { next: 0, locals }
    }

    /// How many locals are in scope.
    pub fn count(&self) -> usize
        ensures { result ≡ length self.now.locals }
    {
        self.locals.len()
    }

    /// Whether a local is in scope.
    pub fn has_any(&self) -> bool
        ensures { result ≡ spec.any self.now.locals }
    {
        !self.locals.is_empty()
    }

    /// Whether the local of this number is in scope.
    fn has(&self, local: u32) -> bool
        ensures { result ≡ spec.has local self.now.locals }
    {
        self.locals.binary_search(&local).is_ok()
    }

    /// The number of a local in scope that the word spells.
    fn local_of(&self, word: &[u8]) -> Option<u32>
        ensures { result ≡ spec.local_of self.now.locals word.now }
    {
        let count = counts(word)?;
        let next = self.next as u64;
        if next <= count {
            return None;
        }
        let number = count as u32;
        self.has(number).then_some(number)
    }

    /// Takes the number of a local in scope. `Fault::Bad` where the next word is none, or none is left.
    pub fn local(&self, words: &mut Cursor<'_>) -> Result<u32, Fault>
        ensures { Reads (take (spec.local_of self.now.locals) words.old) result words.new }
    {
        let found = self.local_of(words.next_word()?.bytes());
        words.accept(found)
    }

    /// One more local. Where numbers run out, so does memory.
    pub fn declare(&mut self) -> Result<(), OutOfMemory>
        ensures { OnOk result (self.new ≡ spec.declaring self.old) }
    {
        let next = self.next.checked_add(1).ok_or(OutOfMemory)?;
        self.locals.push(self.next)?;
        self.next = next;
        Ok(())
    }

    /// Leaves a block before which there were `count` locals in scope.
    pub fn close(&mut self, count: usize)
        ensures { self.new ≡ spec.cut count self.old }
    {
        self.locals.truncate(count);
    }
}
