//! A source put together from tokens and white space, which lexes into these tokens again.

ghost use Rattle.std.specs.Prelude.{List};
ghost use Rattle.jav_print_laws.specs.pieces.Pieces.{Piece, Fits, text_of, tokens_from};
ghost use Rattle.mol_base.specs.Source.{IsSource};

/// The law of pieces: where each may stand before what follows it, their text is a source, and its tokens
/// are theirs. The call computes nothing.
#[tactic(auto, using(crate::proofs::pieces_lemmas::Tiled::pieces_lex))]
pub fn pieces_lex()
    ensures { (ps : List Piece) → Fits ps 0 → IsSource (text_of ps) (tokens_from 0 ps) }
{}
