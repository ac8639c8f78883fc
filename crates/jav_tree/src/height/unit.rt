ghost use Rattle.std.specs.Prelude.{◌≡◌, ℕ, List, min, map, option_map};
ghost use Rattle.mol_base.specs.Token.{Token};
ghost use Rattle.jav_tree.specs.Height as spec;
ghost use Rattle.jav_tree.specs.Units.{SourceFile};

use crate::height::height_maybe;
use crate::stmt::Block;
use crate::unit::{Member, Unit};

impl Unit {
    /// The height of the highest block of a body or first value of a field, 0 where there is neither.
    /// The greatest `u32` stands for all that is higher.
    pub fn height(&self) -> u32
        ensures value { result ≡ spec.unit_height self.now }
        // It is the height that the grammar speaks of.
        ensures grammar { (most h : ℕ) (ts : List Token) → SourceFile most h self.now ts → result ≡ min h 0xffff_ffff }
    {
        tallest_members(self.class.members.items())
    }
}

fn tallest_members(members: &[Member]) -> u32
    ensures { result ≡ spec.tallest (map spec.member_height members.now) }
{
    let mut most = 0;
    for item in members {
        most = item.height().max(most);
    }
    most
}

impl Member {
    fn height(&self) -> u32
        ensures { result ≡ spec.member_height self.now }
    {
        match self {
            Member::Field(field) => height_maybe(&field.init),
            Member::Method(method) => height_block(&method.block),
            Member::Ctor(ctor) => ctor.block.height(),
        }
    }
}

fn height_block(block: &Option<Block>) -> u32
    ensures { result ≡ spec.tallest_maybe (option_map spec.block_height block.now) }
{
    match block {
        Some(block) => block.height(),
        None => 0,
    }
}
