//! Each tree of the grammar is printable, and no wider than the limit of number.

ghost use Rattle.jav_print_laws.specs.printable.GrammarTrees.{BodiesAreNarrow, ExprsAreNarrow, MembersAreNarrow, TypesAreNarrow, UnitsAreNarrow};
ghost use Rattle.jav_print_laws.specs.printable.GrammarTrees.{BodiesArePrintable, ExprsArePrintable, MembersArePrintable};
ghost use Rattle.jav_print_laws.specs.printable.GrammarTrees.{SourcesHaveTokens, TypesArePrintable, UnitsArePrintable};

/// The law of the grammar's trees: what the grammar makes of the tokens of a source is printable, be it a source file, members,
/// a body, an expression or a type. The call computes nothing.
pub fn grammar_is_printable()
    ensures tokens { SourcesHaveTokens }
    ensures units { UnitsArePrintable }
    ensures members { MembersArePrintable }
    ensures bodies { BodiesArePrintable }
    ensures exprs { ExprsArePrintable }
    ensures types { TypesArePrintable }
{}

/// The law of widths: no such tree has more parameters, arguments or pairs of brackets in one place than the grammar allows.
/// The call computes nothing.
pub fn grammar_is_narrow()
    ensures units { UnitsAreNarrow }
    ensures members { MembersAreNarrow }
    ensures bodies { BodiesAreNarrow }
    ensures exprs { ExprsAreNarrow }
    ensures types { TypesAreNarrow }
{}
