// The layout of image frames, and tick kinds.

// Byte 0 of a frame says what it is.

/// The byte with the frame's kind.
pub const FRAME_KIND: usize = 0;

/// The first frame of an image, with its counts.
pub const HEADER: u8 = 15;

/// A frame with the label that a scheme starts with.
pub const ENTRY: u8 = 16;

/// A frame with what is done at a label.
pub const LABEL: u8 = 17;

/// A frame with a step from a label to the next.
pub const ROW: u8 = 18;

// Byte 1 of an entry or a label is its number.

/// The scheme of an entry, the number of a label.
pub const NUMBER: usize = 1;

// The header: H, M, the row count in two bytes, the handler.

/// H, 1 to 16.
pub const SCHEME_COUNT: usize = 1;

/// M, 1 to 255: labels are 0 to M.
pub const LAST_LABEL: usize = 2;

/// The number of rows, its high byte first.
pub const ROW_COUNT: usize = 3;

/// The handler's scheme, 2 to H, or 0 for none.
pub const HANDLER: usize = 5;

// An entry.

/// The label that a scheme starts with.
pub const ENTRY_LABEL: usize = 2;

// A label; its mask has four bytes.

/// The tick kind, 0 to 4.
pub const TICK_KIND: usize = 2;

/// The scheme number called, 0 for none.
pub const CALLED: usize = 3;

/// The scheme that the label is of, 0 for label 1.
pub const OWNER: usize = 4;

/// The result, 0 to 2.
pub const LABEL_RESULT: usize = 5;

/// The highest byte of the mask.
pub const LABEL_MASK: usize = 6;

/// The byte of the mask after it.
pub const LABEL_MASK1: usize = LABEL_MASK + 1;

/// The next of them.
pub const LABEL_MASK2: usize = LABEL_MASK + 2;

/// The lowest byte of the mask.
pub const LABEL_MASK3: usize = LABEL_MASK + 3;

// A row; care mask and values have two bytes each.

/// The label that a row leaves.
pub const FROM: usize = 1;

/// The high byte of the care mask.
pub const CARE: usize = 2;

/// The low byte of the care mask.
pub const CARE1: usize = CARE + 1;

/// The high byte of the values.
pub const VALUES: usize = 4;

/// The low byte of the values.
pub const VALUES1: usize = VALUES + 1;

/// The bit that the function's result has to be, or none.
pub const FUNCTION_BIT: usize = 6;

/// The label that a row leads to.
pub const NEXT: usize = 7;

// Tick kinds.

/// A tick that calls no scheme.
pub const PLAIN: u8 = 0;

/// A call after which the word alone decides.
pub const OPERATION_CALL: u8 = 1;

/// A call after which its result decides too.
pub const FUNCTION_CALL: u8 = 2;

/// The end of every scheme but 1: a return.
pub const RETURN: u8 = 3;

/// The end of scheme 1, which is then performed anew.
pub const HOME: u8 = 4;

/// The function bit of a row that no function decides.
pub const NO_BIT: u8 = 2;

/// Above all labels: no row leads on.
pub const NO_LABEL: u16 = 256;
