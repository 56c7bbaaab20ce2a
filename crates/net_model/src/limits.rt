/// The most inputs, and the most outputs.
pub const MOST_PORTS: usize = 64;

/// The most bytes of a name.
pub const MOST_NAME_BYTES: usize = 32;

/// The most of `min`, `max` and `lt` together.
pub const MOST_JOINS: u32 = 16384;

/// The most `inc`.
pub const MOST_DELAYS: u32 = 16384;

/// The most nested operators.
pub const MOST_NESTING: u32 = 64;

/// The greatest span of a let or an output, in cycles.
pub const MOST_SPAN: u32 = 1000000;
