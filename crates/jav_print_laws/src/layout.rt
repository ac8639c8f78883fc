//! What the layout prints parses back.

ghost use Rattle.jav_print_laws.specs.layout.ParsesBack.{BodiesParseBack, ExprsParseBack, TypesParseBack, UnitsParseBack};

/// The law of the layout: the text of a printable tree lexes and parses into the tree as printed. The call
/// computes nothing.
#[tactic(auto, using(crate::proofs::layout_lemmas::Back::units_parse_back, crate::proofs::layout_lemmas::Back::bodies_parse_back, crate::proofs::layout_lemmas::Back::exprs_parse_back, crate::proofs::layout_lemmas::Back::types_parse_back))]
pub fn printed_text()
    ensures units { UnitsParseBack }
    ensures bodies { BodiesParseBack }
    ensures exprs { ExprsParseBack }
    ensures types { TypesParseBack }
{}
