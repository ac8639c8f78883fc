//! What the faults between members come to.
ghost use Rattle.mol_resolve_faults.specs.beside.Laws.{BesideNoted};

/// The law of the faults of a member beside all members: noting them comes to noting which kinds there are, beside those of its class
/// and those of the ancestors of its class, by what they ask of each.
#[tactic(auto, using(crate::proofs::beside_lemmas::BesideNoted::beside_noted))]
pub fn beside_noted()
    ensures { BesideNoted }
{}
