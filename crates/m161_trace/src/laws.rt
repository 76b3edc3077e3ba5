//! Laws of a line. The functions do nothing: their contracts are the laws.

ghost use Rattle.m161_trace.specs.Law.{ItemsTell, LoadsTell};

use m161_cpu::uses_tell_the_step;

/// The items of a Step tell what it changed: each shows its part's value after the Step, and a part
/// without an item has the value that it had: of RAM each word but the one that was stored to, of
/// the console the byte in its latch, the bytes that wait and those that were sent. Aside are only
/// the counts of Steps and of events, Random and Count, and where the processor continues.
pub fn items_tell()
    ensures { ItemsTell }
{}

/// Where loads are shown, the line of a Step that loads, and runs, has the word of RAM that has the
/// bytes, as it was before the Step, or what a register got of a slot; no other line has one. A load
/// of a slot to register 0 is the one that isn't told.
pub fn loads_tell()
    ensures { LoadsTell }
{
    uses_tell_the_step();
}
