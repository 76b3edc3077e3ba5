//! The law of the words of a view. The function does nothing: its contract is the law.

ghost use Rattle.m161_alike.specs.WordsLaw.{ViewLaw, WordsLaw};

/// The law of the words of a view. Two states of machines of one configuration, whose lists have their
/// sizes, have the same words exactly if their views are the same.
pub fn words_tell_a_view()
    ensures views { ViewLaw }
    ensures words { WordsLaw }
{}
