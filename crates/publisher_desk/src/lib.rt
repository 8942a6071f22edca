//! A publisher that several threads use: its book behind one lock, and seats for sessions, each of which keeps a
//! receipt for each of its commits and what it read.
#![tactic(auto)]

mod auditing;
mod closing;
mod connection_state;
mod desk;
mod history;
mod laws;
mod moved;
mod naming;
mod note;
mod opening;
mod permit;
mod publisher;
mod read_fault;
mod receipt;
mod seat;
mod seats;
mod sight;
mod slot_event;
mod slot_history;
mod slot_sight;
mod slot_task;
mod step;
mod stepping;
mod stream_task;
mod viewer;

pub use closing::Closing;
pub use connection_state::ConnectionState;
pub use laws::threads_share_publishers;
pub use naming::Publishing;
pub use note::{Note, Reading};
pub use opening::Opening;
pub use permit::Permit;
pub use publisher::Publisher;
pub use read_fault::ReadFault;
pub use receipt::Receipt;
pub use seat::Seat;
pub use seats::Seats;
pub use slot_event::{Acquisition, Advance, Confirmation, Release, SlotEvent};
pub use slot_task::SlotTask;
pub use step::SenderStep;
pub use stream_task::StreamTask;
pub use viewer::Viewer;
