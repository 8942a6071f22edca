//! Frames.

use bytes::Bytes;

/// A frame: one byte for its kind, and the body, which comes after the length ("55.7. Message Formats").
#[derive(Drop)]
pub struct Frame {
    pub kind: u8,
    pub body: Bytes,
}
