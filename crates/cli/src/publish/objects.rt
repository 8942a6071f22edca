//! Reports of connections as JSON objects, one per line.

use crate::publish::sent::Sent;
use serde_json::{Value, json};
use std::alloc::{AllocError, Global};
use std::time::Clock;

/// The time in milliseconds since 1970-01-01, in UTC; 0 if the clock cannot be read.
pub(crate) fn time_now<R: Clock>(rt: &R) -> u64 {
    let Ok(time) = rt.since_1970() else {
        return 0;
    };
    let seconds = time.as_secs().saturating_mul(1_000);
    seconds.saturating_add(u64::from(time.subsec_millis()))
}

/// The line of an object.
fn line_of(alloc: Global, object: &Value) -> Result<String, AllocError> {
    let mut line = object.to_string(alloc)?;
    line.push('\n')?;
    Ok(line)
}

/// That a connection of this client was accepted.
pub(crate) fn accepted_line(alloc: Global, time: u64, client: &str) -> Result<String, AllocError> {
    let object = json!(in alloc; {"client": client, "event": "accepted", "time": time})?;
    line_of(alloc, &object)
}

/// That a connection of this client has ended, why, and what it was sent.
pub(crate) fn ended_line(
    alloc: Global,
    time: u64,
    client: &str,
    sent: Option<&Sent>,
    reason: &str,
) -> Result<String, AllocError> {
    let Some(sent) = sent else {
        let object = json!(in alloc; {
            "client": client, "event": "ended", "reason": reason, "subscription": null, "time": time
        })?;
        return line_of(alloc, &object);
    };
    let object = json!(in alloc; {
        "client": client, "event": "ended", "from": sent.from.as_str(), "reason": reason,
        "subscription": sent.name.as_str(), "time": time, "to": sent.to.as_str()
    })?;
    line_of(alloc, &object)
}

/// A failure.
pub(crate) fn fault_line(alloc: Global, time: u64, fault: &str) -> Result<String, AllocError> {
    let object = json!(in alloc; {"event": "fault", "fault": fault, "time": time})?;
    line_of(alloc, &object)
}
