//! Literals and operators.
ghost use Rattle.std.specs.Prelude.{◌≡◌};
ghost use Rattle.mol_base.specs.Operators.{binary_level as level_of};
ghost use Rattle.jav_tree.specs.Types as types;
ghost use Rattle.jav_tree.specs.WithParens.{begins_with_digit as is_numeric};
ghost use Rattle.jav_print_height.specs.Measures as spec;

use crate::measure::{Measure, above};
use jav_tree::TypeName;
use mol_base::{Text, binary_level, is_sign, is_step};

/// The measure of a literal.
pub fn literal(text: &Text) -> Measure
    ensures { result ≡ spec.literal text.now }
{
    Measure {
        height: 1,
        level: 15,
        is_signed: false,
        is_number: begins_with_digit(text),
    }
}

/// Whether a literal begins with a digit.
fn begins_with_digit(text: &Text) -> bool
    ensures { result ≡ is_numeric text.now }
{
    match text.bytes() {
        [c, ..] => 48 <= *c && *c <= 57,
        [] => false,
    }
}

/// The measure of a prefix operator and its operand.
pub fn prefix(op: &Text, operand: Measure) -> Measure
    ensures { result ≡ spec.prefix op.now operand }
{
    let level = if is_step(op.bytes()) { 15 } else { 13 };
    Measure {
        height: above(operand.height_from(level)),
        level: 13,
        is_signed: is_sign(op.bytes()),
        is_number: false,
    }
}

/// The measure of two operands with an operator between them.
pub fn binary(left: Measure, op: &Text, right: Measure) -> Measure
    ensures { result ≡ spec.binary (level_of op.now) left right }
{
    match binary_level(op.bytes()) {
        Some(level) => {
            let height = left.height_from(level).max(right.height_from(level + 1));
            Measure::of_level(level, above(height))
        }
        None => {
            let height = left.height_from(15).max(right.height_from(15));
            Measure::of_level(1, above(height))
        }
    }
}

/// The measure of an item of an array.
pub fn element(array: Measure, index: Measure) -> Measure
    ensures { result ≡ spec.element array index }
{
    Measure::tight(above(array.height_from(15).max(index.height)))
}

/// The measure of an assignment.
pub fn assignment(target: Measure, value: Measure) -> Measure
    ensures { result ≡ spec.assignment target value }
{
    Measure::of_level(1, above(target.height_from(15).max(value.height)))
}

/// The measure of `test ? left : right`.
pub fn conditional(test: Measure, left: Measure, right: Measure) -> Measure
    ensures { result ≡ spec.conditional test left right }
{
    let branches = left.height.max(right.height_from(2));
    Measure::of_level(2, above(test.height_from(3).max(branches)))
}

/// The measure of a cast.
pub fn cast(ty: &TypeName, operand: Measure) -> Measure
    ensures { result ≡ spec.cast (types.is_primitive ty.now) operand }
{
    Measure::of_level(13, above(operand.height_in_cast(is_primitive(ty))))
}

/// Whether a type is primitive, and no array of one.
fn is_primitive(ty: &TypeName) -> bool
    ensures { result ≡ types.is_primitive ty.now }
{
    match ty {
        TypeName::Prim(_) => true,
        TypeName::Named(_) => false,
        TypeName::ArrayOf(_) => false,
        TypeName::Void => false,
    }
}
