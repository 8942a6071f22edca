//! The clock of streams.

ghost use Rattle.std.specs.Prelude.{◌<◌, ◌^◌};

use std::time::Clock;

/// How many seconds after 1970-01-01 2000-01-01 is.
const SECONDS_TO_2000: u64 = 946_684_800;

/// The time in microseconds since 2000-01-01, as messages have it; 0 where the clock cannot be read.
///
/// PostgreSQL 15, 55.4. Streaming Replication Protocol.
pub(crate) fn clock<R: Clock>(rt: &R) -> u64
    ensures { result < 2 ^ 64 }
{
    let Ok(time) = rt.since_1970() else {
        return 0;
    };
    let seconds = time.as_secs().saturating_sub(SECONDS_TO_2000);
    seconds
        .saturating_mul(1_000_000)
        .saturating_add(u64::from(time.subsec_micros()))
}
