//! Displays of a machine's state, as lines of text: the registers of a processor, its coprocessor 0,
//! its TLB, words of memory, instructions, and where the processors are. Each printed line ends with a
//! line feed. The texts are this project's own.
#![tactic(auto)]

mod code;
mod cop0;
mod fetched;
mod memory;
mod regs;
mod started;
mod tlb;

pub use code::show_code;
pub use cop0::show_cop0;
pub use fetched::show_fetched;
pub use memory::show_mem;
pub use regs::show_regs;
pub use started::show_where;
pub use tlb::show_tlb;
