//! Laws about the streams through which subscribers follow a publisher's tables: that a first part of a stream is cut
//! into its frames, that each of its messages has room, which tokens a command has, that a subscriber's command is read
//! and answered as requested, and that a subscriber that is fed a first part of its stream has its shard.
#![tactic(auto)]

mod laws;

pub use laws::{
    commands_are_read, fed_subscribers_follow, first_parts_are_cut, logs_fit_layouts,
    starts_are_answered, streams_can_be_sent, subscribers_follow_streams, tokens_are_spelled,
};
