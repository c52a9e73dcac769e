// The sizes of a head of spindles.

/// The spindles of a head.
pub const SPINDLES: usize = 4;

/// The places that the spindles of a head have together.
pub const STORE: usize = 64;
