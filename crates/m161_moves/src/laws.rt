//! Laws of the definitions. The functions do nothing: their contracts are the laws.

ghost use Rattle.m161_moves.specs.Moves.{HasBackwards, HasForwards, HasOneBackwards, HasOneForwards, StepIsTakenBack};

/// The law that a move forwards stops.
#[tactic(auto, using(crate::proofs::Answering::has_forwards))]
pub fn has_forwards()
    ensures { HasForwards }
{}

/// The law that it stops at one place, for one reason.
pub fn has_one_forwards()
    ensures { HasOneForwards }
{}

/// The law that a move backwards stops.
#[tactic(auto, using(crate::proofs::Answering::has_backwards))]
pub fn has_backwards()
    ensures { HasBackwards }
{}

/// The law that it stops at one place, for one reason.
pub fn has_one_backwards()
    ensures { HasOneBackwards }
{}

/// The law that a move backwards in which a processor makes a Step, behind one forwards that stopped
/// since it had made one, goes to the place before that Step, if this touches no watch.
#[tactic(auto, using(crate::proofs::Answering::step_is_taken_back))]
pub fn step_is_taken_back()
    ensures { StepIsTakenBack }
{}
