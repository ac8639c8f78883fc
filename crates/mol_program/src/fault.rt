//! Why source files are no program.
ghost use Rattle.std.specs.Prelude.{◌≡◌};
ghost use Rattle.mol_program.specs.FaultTexts.{feature, name};

use jav_lex::LexFault;
use jav_parse_unit::{Feature, ParseFault};
use jav_source::TextFault;
use mol_base::{OutOfMemory, Place};
use mol_resolve_faults::ResolveFault;

/// What is wrong with a source file of a program: with its bytes, else with its tokens, else with the names in it.
#[derive(Clone, Copy, Debug, PartialEq, Eq)]
pub enum SourceFault {
    Lex(LexFault),
    Parse(ParseFault),
    Resolve(ResolveFault),
}

/// Why source files are not read as a program.
#[derive(Debug, Drop)]
pub enum ReadFault {
    /// They are none: where the first fault is, and what it is.
    Refused(Place, SourceFault),
    OutOfMemory,
}

impl SourceFault {
    /// Its name in messages: the words of the variant in lower case, joined by `-`. It takes no memory.
    pub fn name(&self) -> &'static str
        ensures { result.now ≡ name self.now }
    {
        match self {
            SourceFault::Lex(fault) => TextFault::Lex(*fault).name(),
            SourceFault::Parse(fault) => TextFault::Parse(*fault).name(),
            SourceFault::Resolve(fault) => fault.name(),
        }
    }

    /// The part of Java that is refused, where it is one. It takes no memory.
    pub fn feature(&self) -> Option<Feature>
        ensures { result ≡ feature self.now }
    {
        match self {
            SourceFault::Lex(_) => None,
            SourceFault::Parse(fault) => TextFault::Parse(*fault).feature(),
            SourceFault::Resolve(_) => None,
        }
    }
}

impl From<OutOfMemory> for ReadFault {
    ghost use Rattle.std.specs.Prelude.{◌≡◌};
    ghost use Rattle.mol_program.specs.declared.fault.ReadFault.TheVariants.{OutOfMemory as Wants};

    ghost from_gives = { λ _ fault. fault ≡ Wants };

    fn from(_: OutOfMemory) -> ReadFault {
        ReadFault::OutOfMemory
    }
}
