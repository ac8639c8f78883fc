//! Places make no difference to what is printed.

ghost use Rattle.jav_print_laws.specs.places.Placeless.{BodiesAreAsHigh, ExprsAreAsHigh, UnitsAreAsHigh};
ghost use Rattle.jav_print_laws.specs.places.Placeless.{BodiesPrintAlike, ExprsPrintAlike, UnitsPrintAlike};
ghost use Rattle.jav_print_laws.specs.places.Placeless.{BodiesPrintedAlike, ExprsPrintedAlike, UnitsPrintedAlike};

/// The law of places: trees that are equal but for places have one text, and are equal but for places and equally high as
/// printed. So a text that is read and printed again stays as it is. The call computes nothing.
pub fn places_are_not_printed()
    ensures units { UnitsPrintAlike }
    ensures bodies { BodiesPrintAlike }
    ensures exprs { ExprsPrintAlike }
    ensures unit_trees { UnitsPrintedAlike }
    ensures body_trees { BodiesPrintedAlike }
    ensures expr_trees { ExprsPrintedAlike }
    ensures unit_heights { UnitsAreAsHigh }
    ensures body_heights { BodiesAreAsHigh }
    ensures expr_heights { ExprsAreAsHigh }
{}
