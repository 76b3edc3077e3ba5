//! What a session asks of a run.

ghost use Rattle.std.specs.Prelude.{◌≡◌, ◌<◌, ◌≤◌, None, Some, IfErr, IfOk, MatchOption, string_bytes};

use m161_moves::{Doing, Run};
use std::alloc::{AllocError, Global};

/// A run that tells what is seen at the place where it stands. No method but those of `Run` changes
/// anything.
pub trait Target: Run {
    ghost use Rattle.std.specs.Prelude.{◌≡◌, ◌<◌, ◌≤◌, None, Some, IfErr, IfOk, MatchOption, string_bytes};

    /// How many processors there are.
    fn processors(&self) -> u32
        ensures value { result ≡ (Self.course self.now).scene.processors }
        ensures some { 1 ≤ result }
        ensures most { result ≤ 32 };

    /// How many events the run's list has.
    fn count(&self) -> usize
        ensures { result ≡ (Self.course self.now).scene.count };

    /// What a processor does.
    fn doing(&self, processor: u32) -> Doing
        requires { processor < (Self.course self.now).scene.processors }
        ensures { result ≡ (Self.course self.now).scene.doing (Self.place self.now) processor };

    /// A word of a processor: r0 to r31, Status, lo, hi, BadVAddr, Cause, pc, 34 that it doesn't have,
    /// Index, Random, EntryLo, Context, Count, EntryHi, Compare, EPC and PRId.
    fn register(&self, processor: u32, number: u32) -> Option<u32>
        requires processor { processor < (Self.course self.now).scene.processors }
        requires number { number < 81 }
        ensures { result ≡ (Self.course self.now).scene.register (Self.place self.now) processor number };

    /// The byte of RAM at a virtual address of a processor: in kseg0 and kseg1 the physical byte,
    /// elsewhere that of the lowest row that matches, if it is valid. The mode doesn't count.
    fn byte(&self, processor: u32, address: u32) -> Option<u8>
        requires { processor < (Self.course self.now).scene.processors }
        ensures { result ≡ (Self.course self.now).scene.byte (Self.place self.now) processor address };

    /// What the console has shown.
    fn console(&self) -> &[u8]
        ensures { result.now ≡ (Self.course self.now).scene.console (Self.place self.now) };

    /// The next event, as in a schedule; or what ends the run here: `off`, `conflict P I J`, `end`, or
    /// `refused N NAME`. No line's end is behind it.
    ///
    /// # Errors
    /// Memory was refused.
    fn next_text(&self, alloc: Global) -> Result<String, AllocError>
        ensures { IfOk result (λ text. string_bytes text
            ≡ (Self.course self.now).scene.next (Self.place self.now)) };

    /// The events before this place, as a schedule.
    ///
    /// # Errors
    /// Memory was refused.
    fn schedule_text(&self, alloc: Global) -> Result<String, AllocError>
        ensures { IfOk result (λ text. string_bytes text
            ≡ (Self.course self.now).scene.schedule_text (Self.place self.now)) };

    /// A trace's lines of the last events before this place, this number or all.
    ///
    /// # Errors
    /// The run can't be gone along.
    fn trace_text(&self, alloc: Global, number: u32) -> Result<String, Self::Error>
        ensures ok { IfOk result (λ text. string_bytes text
            ≡ (Self.course self.now).scene.trace_text (Self.place self.now) number) }
        ensures err { IfErr result (Self.fails (Self.course self.now)) };

    /// Where the processors are.
    ///
    /// # Errors
    /// Memory was refused.
    fn where_text(&self, alloc: Global) -> Result<String, AllocError>
        ensures { IfOk result (λ text. string_bytes text
            ≡ (Self.course self.now).scene.where_text (Self.place self.now)) };

    /// The registers of a processor.
    ///
    /// # Errors
    /// Memory was refused.
    fn registers_text(&self, alloc: Global, processor: u32) -> Result<String, AllocError>
        requires { processor < (Self.course self.now).scene.processors }
        ensures { IfOk result (λ text. string_bytes text
            ≡ (Self.course self.now).scene.registers_text (Self.place self.now) processor) };

    /// Those of its coprocessor.
    ///
    /// # Errors
    /// Memory was refused.
    fn cop0_text(&self, alloc: Global, processor: u32) -> Result<String, AllocError>
        requires { processor < (Self.course self.now).scene.processors }
        ensures { IfOk result (λ text. string_bytes text
            ≡ (Self.course self.now).scene.cop0_text (Self.place self.now) processor) };

    /// Its TLB.
    ///
    /// # Errors
    /// Memory was refused.
    fn tlb_text(&self, alloc: Global, processor: u32) -> Result<String, AllocError>
        requires { processor < (Self.course self.now).scene.processors }
        ensures { IfOk result (λ text. string_bytes text
            ≡ (Self.course self.now).scene.tlb_text (Self.place self.now) processor) };

    /// Words of memory from an address on; `None` if these aren't all in RAM, or aren't shown for
    /// another reason that the debugger calls a bad argument.
    ///
    /// # Errors
    /// Memory was refused.
    fn memory_text(
        &self,
        alloc: Global,
        address: u32,
        number: u32,
    ) -> Result<Option<String>, AllocError>
        ensures { IfOk result (λ found. MatchOption found
            ((Self.course self.now).scene.memory_text (Self.place self.now) address number ≡ None)
            (λ text. (Self.course self.now).scene.memory_text (Self.place self.now) address number
            ≡ Some (string_bytes text))) };
}
