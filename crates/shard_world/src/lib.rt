//! The world of a publisher and its subscribers, and laws about the worlds that events lead to. The laws about streams
//! are those of `stream_laws`.
#![tactic(auto)]

mod answer;
mod event;
mod halted;
mod laws;
mod opening;
mod peer;
mod view;
mod world;

pub use answer::Answer;
pub use event::{Event, PeerEvent};
pub use laws::{
    checked_catalogs_publish, connections_step_as_the_world, refused_connections_are_lost,
    subscribers_are_heard, subscribers_catch_up, subscribers_divide_the_tables,
};
pub use stream_laws::{
    commands_are_read, fed_subscribers_follow, first_parts_are_cut, logs_fit_layouts,
    starts_are_answered, subscribers_follow_streams,
};
pub use view::{SubscriberView, View};
pub use world::World;
