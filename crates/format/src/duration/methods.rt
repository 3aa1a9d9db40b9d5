//! Making a duration, and its parts.
ghost use Rattle.std.specs.Prelude.{◌≡◌};
ghost use Rattle.format.specs.Durations.{made_duration, duration_parts};
ghost use Rattle.format.specs.Refusals.{answer, value_refusal};

use super::Duration;
use crate::error::ValueError;

const NANOS_PER_SEC: u32 = 1_000_000_000;

impl Duration {
    /// The duration of so many seconds and nanoseconds, whole seconds carried out of the nanoseconds, or `InvalidDuration`.
    pub fn new(secs: u64, nanos: u32) -> Result<Duration, ValueError>
        ensures { answer value_refusal duration_parts result ≡ made_duration secs nanos }
    {
        let total = secs
            .checked_add((nanos / NANOS_PER_SEC) as u64)
            .ok_or(ValueError::InvalidDuration { secs, nanos })?;
        Ok(Duration {
            secs: total,
            nanos: nanos % NANOS_PER_SEC,
        })
    }

    /// Its whole seconds.
    pub fn as_secs(self) -> u64
        ensures { result ≡ self.secs }
    {
        self.secs
    }

    /// Its nanoseconds beside the whole seconds.
    pub fn subsec_nanos(self) -> u32
        ensures { result ≡ self.nanos }
    {
        self.nanos
    }
}
