//! Several names with dots between them.
ghost use Rattle.std.specs.Prelude.{◌≡◌, ◌≤◌, ◌∷◌, IfOk, length, option_map};
ghost use Rattle.jav_names.specs.DottedNames.{Name, Names};
ghost use Rattle.jav_names.specs.Leftmost.{Leftmost as Read};
ghost use Rattle.mol_base.specs.declared.ident.Id.{Id as Identity};
ghost use Rattle.mol_faults_names.specs.Kept.{leftmost_of, locals_at, program_at, reader_at, reads_of, IsFirst, IsPlace};
ghost use Rattle.mol_faults_names.specs.Reads.{names_read};
ghost use Rattle.mol_scope.specs.first_names.Readings.{IsRead};

use crate::class_path::spelled;
use crate::first::First;
use crate::place::InsteadPlace;
use crate::reads::Reads;
use mol_base::{OutOfMemory, Text};
use mol_scope::{Leftmost, leftmost};

impl<'b> InsteadPlace<'_, '_, 'b> {
    /// What the leftmost of these names reads as.
    pub(crate) fn first(&self, names: &[Text]) -> First<'b>
        requires some { 1 ≤ length names.now }
        requires at { IsPlace self.now }
        ensures { (name : Name) (rest : Names) → names.now ≡ name ∷ rest → IsFirst self.now result name rest }
    {
        match leftmost(&self.names.variables, self.names.imports, names) {
            Leftmost::Variable(variable) => First::Variable(variable),
            Leftmost::Type(first) => First::of(&first),
        }
    }

    /// What a name and those after it read as, by what the leftmost of them and of those that follow reads as. The time is that of the
    /// look-up of a field for each of them.
    pub(crate) fn names_read(
        &self,
        first: &First<'b>,
        name: &'b Text,
        rest: &'b [Text],
    ) -> Result<Option<Reads<'b>>, OutOfMemory>
        ensures { IfOk result (λ kept. (read : Read Identity Identity) → IsRead (leftmost_of first.now) read → option_map reads_of kept
            ≡ names_read (program_at self.now) (reader_at self.now) (locals_at self.now) name.now rest.now read) }
    {
        let Ok(start) = self.first_read(first, name) else {
            return Err(OutOfMemory);
        };
        let mut read = start;
        for (at, further) in rest.iter().enumerate() {
            let path = spelled(first, at + 1);
            read = self.next_read(further, &path, &read);
        }
        Ok(read)
    }
}
