// Tick codes. A call adds the number called to its own; a call that drops all open schemes has one code.

/// A tick that calls no scheme.
pub const PLAIN_CODE: u8 = 0x00;

/// A return to the scheme beneath.
pub const RETURN_CODE: u8 = 0x03;

/// A tick at home.
pub const HOME_CODE: u8 = 0x04;

/// A call by an operation, with the number called added.
pub const OPERATION_CALL_CODE: u8 = 0x10;

/// A call by a function, likewise.
pub const FUNCTION_CALL_CODE: u8 = 0x40;

/// A call that drops all open schemes.
pub const DROP_CODE: u8 = 0x60;
