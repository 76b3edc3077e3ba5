//! A trace: a line for each event of a run, which says what it did.
//!
//! ```text
//! K P PC WORD TEXT  ITEMS   a Step: its number, its processor, the address, the word that it
//!                           fetched and that word's text
//! K P PC -  ITEMS           a Step that fetched none: it was idle, took an interrupt, or the fetch
//!                           trapped
//! K k 41                    a typed byte
//! K o                       the console's byte was sent
//!
//! Items, in this order, each where it differs from before the Step; words have eight digits:
//! (00003000)=00005600       where loads are shown: the word that the Step loaded from
//! state=waiting             what the processor is doing
//! r1= .. r31= hi= lo=       its registers: at= .. ra= for r1= .. r31= where the style names them
//! index= entrylo= context= badvaddr= entryhi= compare= status= cause= epc=
//! tlb 53=00400140 00005600  a row of its TLB, as the words in EntryHi and EntryLo
//! [00003000]=00005600       the word of RAM that the Step stored to, also if it has the same value
//! link=00003000             the first byte of the unit that the processor is linked to
//! unlink 1                  a processor whose link ended
//! latch=41 waiting=2        the byte that the console is sending, and how many typed bytes wait
//! wirq= rirq= irqe= cpue= cirqe 1= cipi 1= cram 1 0=
//! trap 2 80000000, idle, off, conflict 3 5  the outcome
//! starts 1                  a processor that the Step started
//! ```
//!
//! With symbols in its style, a line has the place of its address behind it: `80010008 <loop+8>`, and
//! so has a branch's target in the text. An address of RAM in an item has that of the same byte in
//! kseg0: `[00001000 <total>]=00000004`.
//!
//! The line is one definition over the two states and the outcome. `Tracer` is a second state of the
//! machine, one event behind it, so what it takes doesn't grow with the run. The form is this
//! project's own.
#![tactic(auto)]

mod laws;
mod line;
mod loads;
mod places;
mod processor;
mod shared;
mod text;
mod touched;
mod tracer;

pub use laws::{items_tell, loads_tell};
pub use line::write_line;
pub use loads::{loaded, word_around};
pub use m161_dis::{Naming, Style};
pub use touched::Touched;
pub use tracer::Tracer;
