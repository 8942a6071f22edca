//! The publisher's end of a replication connection: the command that starts a stream, and what the stream is.
#![tactic(auto)]

mod answer;
mod command_text;
mod ear;
mod error_response;
mod event;
mod frames;
mod framing;
mod front;
mod heard;
mod hearing;
mod laws;
mod link;
mod link_fault;
mod listening;
mod names;
mod option_value;
mod phase;
mod quoted;
mod refusal;
mod replies;
mod session;
mod sql_state;
mod start_command;
mod start_order;
mod stream_start;
mod stream_state;
mod taken;
mod token;
mod tokens;
mod voice;

pub use answer::{StartAnswer, answer_start};
pub use copy_frames::{Deframer, Frame, FrameFault};
pub use ear::Ear;
pub use error_response::append_error_response;
pub use heard::Heard;
pub use laws::{
    ears_change_slots, frames_are_heard, links_say_streams, streams_grow,
    streams_tell_transactions, voices_go_to_other_threads, voices_say_streams,
};
pub use link::Link;
pub use link_fault::LinkFault;
pub use refusal::{Refusal, Words};
pub use sql_state::SqlState;
pub use start_command::{OptionValue, StartCommand, StartOption};
pub use start_order::{Offer, find_slot, start_refusal};
pub use stream_start::StreamStart;
pub use stream_state::first_sent;
pub use taken::Taken;
pub use voice::Voice;
