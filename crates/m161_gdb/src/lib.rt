//! The lowest part of a server of GDB's remote serial protocol: frames in a stream of bytes, their
//! acknowledgements, and the packets that frames have as their bodies.
//!
//! ```text
//! frame     `$`, a body, `#`, and two hexadecimal digits: the sum of the body's bytes modulo 256
//! between   `+` and `-` acknowledge, 03 interrupts, and any other byte is ignored
//! ```
//!
//! A `$` in a body begins a new frame, and the bytes before it are dropped. The two bytes behind `#`
//! belong to the frame whatever they are. A body above 16,384 bytes isn't kept.
#![tactic(auto)]

mod actions;
mod body;
mod frames;
mod hex;
mod laws;
mod link;
mod motions;
mod number;
mod outgoing;
mod packet;
mod stops;
mod table;

pub use body::Body;
pub use frames::{Item, Reader};
pub use laws::{frames_are_read, has_items, has_one_reading, items_stay};
pub use link::{Duty, Link};
pub use motions::{motions_by_actions, motions_by_control};
pub use outgoing::frame;
pub use packet::{Action, Actions, Change, Kind, Motion, Packet, Thread};
pub use stops::{Breakpoint, StopError, Stops, Watch};
pub use table::packet_of;
