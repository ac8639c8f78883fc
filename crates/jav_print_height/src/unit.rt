//! Source files and members.
ghost use Rattle.std.specs.Prelude.{◌≡◌, map, option_map};
ghost use Rattle.jav_tree.specs.Height as tree;
ghost use Rattle.jav_tree.specs.WithParens.{unit_printed_height};
ghost use Rattle.jav_print_height.specs.PrintedHeights as spec;

use crate::expr::height_maybe;
use crate::stmt::height_of_block;
use jav_tree::{Block, Member, Unit};

/// How high the tree is that the layout prints of a source file: the height of its highest block of a body or first value
/// of a field. Parentheses that stand in the tree do not count, and those that the layout puts do. So it tells, before a
/// text is printed, whether that keeps a limit on the height of sources.
///
/// It is 0 where there is neither a body nor a first value, and else from 1 on; the greatest `u32` stands for all that is
/// higher. It takes no memory, and the time is linear in the tree.
pub fn printed_height(unit: &Unit) -> u32
    ensures { result ≡ unit_printed_height unit.now }
{
    tallest_members(unit.class.members.items())
}

fn tallest_members(members: &[Member]) -> u32
    ensures { result ≡ tree.tallest (map spec.member_height members.now) }
{
    let mut most = 0;
    for item in members {
        most = height_of_member(item).max(most);
    }
    most
}

fn height_of_member(member: &Member) -> u32
    ensures { result ≡ spec.member_height member.now }
{
    match member {
        Member::Field(field) => height_maybe(&field.init),
        Member::Method(method) => height_of_body(&method.block),
        Member::Ctor(ctor) => height_of_block(&ctor.block),
    }
}

fn height_of_body(block: &Option<Block>) -> u32
    ensures { result ≡ tree.tallest_maybe (option_map spec.block_height block.now) }
{
    match block {
        Some(block) => height_of_block(block),
        None => 0,
    }
}
