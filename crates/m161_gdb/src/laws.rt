//! Laws of the definitions. The functions do nothing: their contracts are the laws.

ghost use Rattle.m161_gdb.specs.Frames.{FramesAreRead, HasItems, HasOneReading, ItemsStay};

/// The law that any bytes are read as some items.
#[tactic(auto, using(crate::proofs::Readings::has_items))]
pub fn has_items()
    ensures { HasItems }
{}

/// The law that they are read as these alone.
pub fn has_one_reading()
    ensures { HasOneReading }
{}

/// The law that bytes which follow change none of the items before them.
pub fn items_stay()
    ensures { ItemsStay }
{}

/// The law that a frame which is written is read as its body, with a right sum, if the body has no
/// `#` and no `$` and is at most 16,384 bytes long.
#[tactic(auto, using(crate::proofs::Readings::frames_are_read))]
pub fn frames_are_read()
    ensures { FramesAreRead }
{}
