// The layout of a node record.

// Kinds of nodes.

/// Where a scheme begins; it may be marked as the handler.
pub const BEGIN: u8 = 0;

/// Where a scheme ends.
pub const END: u8 = 1;

/// Writes a mask, and may call a scheme.
pub const OPERATION: u8 = 2;

/// Goes on by a bit of the word.
pub const CONDITION: u8 = 3;

/// Calls a scheme, and goes on by its result.
pub const FUNCTION: u8 = 4;

// Which byte of a node record holds what; the mask has four.

/// The kind, 0 to 4.
pub const KIND: usize = 0;

/// The scheme that the node is of, 1 to 16.
pub const SCHEME: usize = 1;

/// The scheme called, a condition's number 0 to 15, or the mark of a Begin, 0 or 1.
pub const ARGUMENT: usize = 2;

/// The next node, or the next on a 0.
pub const NEXT0: usize = 3;

/// The next node on a 1.
pub const NEXT1: usize = 4;

/// The result of an operation, 0 to 2.
pub const RESULT: usize = 5;

/// The first byte of an operation's mask, which is its highest.
pub const MASK: usize = 6;
