// The size of a stack.

/// The places of a stack.
pub const PLACES: usize = 32;
