//! The texts of a machine's log and of a schedule of events; `verify`, which replays a log on a
//! machine that it boots, and finds the first entry that differs.
//!
//! ```text
//! schedule  # machine RAM CPUS    the machine line, a comment; there may be none. With ` line`
//!                      behind it where a link is a line, then ` strict` for a strict machine
//!           s P        a Step of processor P
//!           s P N      N Steps of it, 1 to 1,000,000
//!           k HH       a byte is typed
//!           o          the console has sent its byte
//!           #...       a comment; an empty line is ignored too
//!
//! log       # machine RAM CPUS DIGEST    the machine line, a comment; there may be none
//!           #...                         any comments
//!           m161 log 2 word              the unit of a link; or: m161 log 2 line; of a strict
//!                                        machine: m161 log 3 word strict, or:
//!                                        m161 log 3 line strict; then a line for each entry:
//!           s P ran                      an instruction was executed
//!           s P trap CODE VECTOR         a trap was entered
//!           s P idle                     no instruction was executed
//!           s P off                      the instruction switched the machine off
//!           s P conflict I J             only in format 3: row I stayed as it was, since it would
//!                                        have overlapped row J, and the machine is off
//!           k HH taken    o taken        an input was accepted
//! ```
//!
//! A tail, the end of a log, begins with `m161 tail 2 word N`, `m161 tail 2 line N`,
//! `m161 tail 3 word strict N` or `m161 tail 3 line strict N` instead, where N is how many entries
//! were dropped before it. The first line of a log of format 1 is `m161 log 1`, its links are
//! words, and its machine isn't strict; such a log is read, but no longer written.
//!
//! A schedule is written with neighbouring Steps of one processor in one line: `s P` for one Step,
//! else `s P N`; where there are more than 1,000,000, full lines come first, and then the rest.
//!
//! P, N, CODE, I, J, RAM and CPUS are decimal without leading zeros; P, RAM and CPUS are below
//! 2^32, CODE is 0 to 12 as in Cause, I and J are 0 to 63 and different. HH is two, VECTOR eight
//! and DIGEST 64 lower case hexadecimal digits. One space separates the parts of a line, with no
//! space before or after them. Each line ends with a line feed; the last one may lack it. A
//! schedule has at most 16,777,216 events. A fault has the number of the first bad line, from 1,
//! where comments count; the line that exceeds the limit is bad, and so is the line after the end
//! of a log's text without any line but comments. The texts are this project's own.
#![tactic(auto)]

mod comments;
mod fault;
mod laws;
mod line;
mod log;
mod machine;
mod mode;
mod schedule;
mod shown;
mod size;
mod verdict;
mod written;

pub use fault::TextFault;
pub use laws::{
    log_behind_machine_line, log_without_comments, schedule_behind_size_line, written_log_is_read,
    written_schedule_is_read,
};
pub use log::{LogText, entry_line, read_log, write_log, write_tail};
pub use m161_isa::LinkUnit;
pub use m161_machine::{BootError, Conf, Entry, Event, Events, Exception, Outcome};
pub use machine::{MachineLine, machine_line, read_machine};
pub use mode::Mode;
pub use schedule::read_schedule;
pub use size::{MachineSize, read_size, size_line};
pub use verdict::{Comparison, verify, verify_with};
pub use written::write_schedule;
