//! Connections of a publisher that threads serve: for each, one thread sends and another listens. Also what a
//! connection is read from and written to, and its result; and the closing comparison, by which one list of
//! transactions explains what all sessions were answered and what all connections took. The crate of the sessions,
//! `publisher_desk`, is re-exported.
//!
//! A connection: `serving` (from start to end), `running` (its two threads), `listening`, `sending` and `speaking` (the
//! first and the last frame). The closing comparison: `closing`, by `gathering`, `numbering`, `replaying`, `readings`,
//! `taken` and `reaching`.
#![tactic(auto)]

mod beginning;
mod clock;
mod close_error;
mod closed;
mod closing;
mod confirming;
mod connection;
mod end;
mod failed;
mod flushing;
mod gate;
mod gathering;
mod laws;
mod listener;
mod listener_end;
mod listening;
mod next;
mod numbering;
mod outcome;
mod reaching;
mod readings;
mod refusing;
mod replaying;
mod running;
mod sender_end;
mod sending;
mod served;
mod serving;
mod sink;
mod slot_tasks;
mod source;
mod speaking;
mod taken;

pub use close_error::CloseError;
pub use closed::Closed;
pub use closing::close;
pub use connection::{Conn, run_all};
pub use end::End;
pub use failed::Failed;
pub use gate::{Gate, OpenGate};
pub use laws::{
    clients_of_connections_follow, closed_publishers_were_followed, served_streams_tell_the_log,
};
pub use publisher_desk::{
    Closing, Note, Opening, Permit, Publisher, Publishing, ReadFault, Reading, Receipt, Seat,
    Seats, Viewer, threads_share_publishers,
};
pub use served::Served;
pub use serving::serve;
pub use sink::{Sink, ToWrite};
pub use source::{FromRead, Source};
