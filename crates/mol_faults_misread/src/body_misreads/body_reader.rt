//! Where the names in bodies are read.
ghost use Rattle.std.specs.Prelude.{◌≡◌, OnOk};
ghost use Rattle.mol_spell_places.specs.body_locals.Kept.{locals_of};
ghost use Rattle.mol_faults_misread.specs.body_misreads.CellPlaces.{IsReadAt};
ghost use Rattle.mol_faults_expr.specs.Noted.{noted_after};
ghost use Rattle.mol_faults_expr.specs.Places.{AreReadAt};
ghost use Rattle.mol_spell_rules.specs.SpelledStatements.{spelled_body};

use crate::body_misreads::cell_place::CellPlace;
use mol_base::OutOfMemory;
use mol_faults_expr::{Misreads, NamePlace, VariablePlace};
use mol_spell_places::{BodyLocals, Places};
use mol_values_types::IBody;
use std::alloc::Global;

/// Reads the names in a cell of a program as they are printed: how they are written is asked of `places`, and they are read at this place,
/// which is the same one. `Err` of its calls is want of memory.
#[derive(Clone, Copy)]
pub struct BodyReader<'a, 'n, P> {
    pub alloc: Global,
    pub places: &'n P,
    pub place: CellPlace<'a, 'n>,
}

impl<'a, P: Places> BodyReader<'a, '_, P> {
    /// Notes the names of a body, in the order in which they print. The time is linear in its size, but for what names cost.
    pub fn note_body(&self, misreads: &mut Misreads, body: &'a IBody) -> Result<(), OutOfMemory>
        requires { IsReadAt (P.writer self.now.places.now) self.now.place }
        ensures { let writer = P.writer self.now.places.now in
            OnOk result (misreads.new ≡ noted_after writer misreads.old (spelled_body writer body.now).references) }
    {
        let mut locals = BodyLocals::new(self.alloc);
        self.note_block(misreads, &mut locals, &body.block)
    }
    /// The place beside these locals. It takes no memory.
    pub(crate) fn place_beside<'l>(&'l self, locals: &'l BodyLocals<'a>) -> NamePlace<'a, 'l>
        requires { IsReadAt (P.writer self.now.places.now) self.now.place }
        ensures { AreReadAt (P.writer self.now.places.now) (locals_of locals.now) result locals.now }
    {
        NamePlace {
            variables: VariablePlace {
                members: self.place.members,
                class: self.place.class,
                locals: locals.names(),
                params: self.place.param_names,
            },
            in_scope: locals.in_scope(),
            params: self.place.params,
            in_constructor: self.place.in_constructor,
            imports: self.place.imports,
        }
    }
}
