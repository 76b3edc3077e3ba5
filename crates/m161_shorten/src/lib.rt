//! Shorter lists of events that still go wrong, so that a person can read which switches of
//! processors matter.
//!
//! ```text
//! judge    says of a list of events what its verdict is, if it has one, and how many events that
//!          needs; what is wrong with a list, and on which machine, is the judge's own
//! block    neighbouring Steps of one processor, or one other event
//! join     block i and the next one of its processor, with no Key and no Done between: the Steps of
//!          the other one come to block i, or those of block i go to the other one
//! trial    the list after a join; it is taken where its verdict has the same kind, and cut behind it
//! pass     trials at each block, from the first on; at a block again while one is taken there
//! end      a pass that takes nothing, or 2,000 trials
//! ```
//!
//! No join moves a Step past a Key or a Done. Trials are made in the list itself, so no more memory
//! is needed. All of this is this project's own.
#![tactic(auto)]

mod judge;
mod judged;
mod laws;
mod passes;
mod ranges;
mod trial;

pub use judge::Judge;
pub use judged::Judgement;
pub use laws::ends_with_one;
pub use m161_machine::Event;
pub use passes::shorten;
