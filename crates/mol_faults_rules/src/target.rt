//! Targets of names in faults.
use mol_base::{Id, OutOfMemory, Text};
use std::alloc::Global;

/// What a name is the name of.
#[derive(Drop)]
pub enum Target {
    /// A class, a field, a method or a parameter.
    Entity(Id),
    /// The default constructor of a class (JLS 8.8.9).
    Default(Id),
    /// A local of the body, by its number from 0 in the order of declaration.
    Local(u32),
    /// What is outside, by its text: of an imported type its full name and what follows it, else as it is written, `super` or `[]`.
    Outside(Text),
}

impl Target {
    ghost use Rattle.std.specs.Prelude.{◌≡◌, IfOk};

    /// A target that equals this one. `Err` is want of memory.
    pub fn copy(&self, alloc: Global) -> Result<Target, OutOfMemory>
        ensures { IfOk result (λ copy. copy ≡ self.now) }
    {
        match self {
            Target::Entity(id) => Ok(Target::Entity(*id)),
            Target::Default(class) => Ok(Target::Default(*class)),
            Target::Local(number) => Ok(Target::Local(*number)),
            Target::Outside(text) => Ok(Target::Outside(text.copy(alloc)?)),
        }
    }
}
