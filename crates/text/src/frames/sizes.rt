// The sizes of lines, frames, charts and images.

// A line: its digits, which are eleven bytes, and a line feed.

/// The digits of a line.
pub const DIGITS: usize = 22;

/// The bytes that these are, that of the sum among them.
pub const BYTES: usize = 11;

/// The characters of a line.
pub const LINE: usize = 23;

/// The last of them.
pub const LINE_FEED: u8 = 10;

// The bytes of a frame but for its sum; in a chart they are a node record.

/// The bytes of a frame, but for its sum.
pub const FRAME: usize = 10;

/// The bytes of a node record, which is a frame of a chart.
pub const RECORD: usize = FRAME;

// The most nodes and schemes of a chart, and labels, rows and frames of an image.

/// The most nodes of a chart.
pub const NODES: usize = 256;

/// The most schemes of a chart.
pub const SCHEMES: usize = 16;

/// The most labels of an image.
pub const LABELS: usize = 256;

/// The most rows of an image.
pub const ROWS: usize = 1024;

/// The most frames of an image: the header, entries, labels and rows.
pub const FRAMES: usize = 1 + SCHEMES + LABELS + ROWS;

// The longest texts of a chart and of an image, in characters; the records of the one and the table of the other, in bytes.

/// The longest text of a chart, in characters.
pub const CHART_TEXT: usize = NODES * LINE;

/// Its records, in bytes.
pub const RECORDS: usize = NODES * RECORD;

/// The longest text of an image, in characters.
pub const IMAGE_TEXT: usize = FRAMES * LINE;

/// Its table, in bytes.
pub const TABLE: usize = FRAMES * FRAME;
