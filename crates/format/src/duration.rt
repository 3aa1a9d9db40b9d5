//! The span of time. By a rule of this project it is a type of its own, and not `std::time::Duration`.
ghost use Rattle.std.specs.Prelude.{◌<◌};

pub mod methods;

/// A span of time: whole seconds, and fewer than 1,000,000,000 nanoseconds beside them.
#[derive(Clone, Copy, PartialEq, Eq, PartialOrd, Ord, Debug)]
pub struct Duration {
    secs: u64,
    nanos: u32,
    ghost ok: { nanos < 1000000000 },
}
