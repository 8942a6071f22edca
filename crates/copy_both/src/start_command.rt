//! The command that starts a stream.

use filter_tree::{Items, Text};
use tables_log::Lsn;

/// What a START_REPLICATION command for a logical slot requests ("55.4. Streaming Replication Protocol").
#[derive(Debug, Drop)]
pub struct StartCommand {
    pub slot: Text,
    /// A place in the log: the commits from there on are requested.
    pub position: Lsn,
    pub options: Items<StartOption>,
}

/// An option of the output plugin ("55.5. Logical Streaming Replication Protocol").
#[derive(Debug, Drop)]
pub struct StartOption {
    pub name: Text,
    pub value: OptionValue,
}

/// What the value of an option means ("55.5.1. Logical Streaming Replication Parameters").
#[derive(Debug, Drop)]
pub enum OptionValue {
    /// There is no option of this name, or its value is missing, or it cannot have this value.
    Wrong,
    /// A version of the protocol other than 1, or a feature that is not supported is on.
    Unsupported,
    /// Version 1 of the protocol.
    Version,
    /// The names of the publications.
    Publications(Items<Text>),
    /// A feature that is not supported is off.
    Off,
}
