//! Laws of the definitions. The functions do nothing: their contracts are the laws.

ghost use Rattle.m161_server.specs.Laws.{HasAnswer, HasOneAnswer, HasOneText};

/// The law that each packet has an answer.
pub fn has_answer()
    ensures { HasAnswer }
{}

/// The law that it has one answer.
#[tactic(auto, using(crate::proofs::One::has_one_answer))]
pub fn has_one_answer()
    ensures { HasOneAnswer }
{}

/// The law that what is written is determined by what is read.
pub fn has_one_text()
    ensures { HasOneText }
{}
