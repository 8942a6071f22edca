//! Frames of a replication connection, which is in the COPY BOTH state once it streams: how bytes are cut into them,
//! and what CopyData carries.
#![tactic(auto)]

mod copy_mode;
mod deframer;
mod fault;
mod frame;
mod front;
mod keepalive;
mod laws;
mod numbers;
mod room;
mod status;
mod xlog_data;

pub use copy_mode::{append_copy_both_response, append_copy_done};
pub use deframer::Deframer;
pub use fault::FrameFault;
pub use frame::Frame;
pub use keepalive::{Keepalive, append_keepalive, read_keepalive};
pub use laws::{bodies_are_read_as_spelled, bytes_make_frames, pieces_make_frames};
pub use room::{put, put_int32, put_text};
pub use status::{Status, append_status, read_status};
pub use xlog_data::{XLogData, append_xlog_data, read_xlog_data};
