//! The session of GDB's remote serial protocol, over a run that it doesn't know.
//!
//! ```text
//! session   stops, the general processor, those in control, how much of the console was told, the last stop
//! answer    packets for the client's user, and behind them one for the client
//! ```
//!
//! The run is fixed before the first packet: what a client sends moves along it, and never changes it.
#![tactic(auto)]

mod answering;
mod choosing;
mod description;
mod fault;
mod laws;
mod monitor;
mod moving;
mod outgoing;
mod registers;
mod reply;
mod serving;
mod session;
mod stops;
mod streams;
mod target;
mod texts;
mod words;

pub use answering::answer;
pub use fault::ServerFault;
pub use laws::{has_answer, has_one_answer, has_one_text};
pub use reply::Reply;
pub use serving::serve;
pub use session::{LastStop, Session};
pub use target::Target;
