// Why an entry point refuses: each refusal with what it carries, and the number by which callers from C and printed frames know it.
ghost use Rattle.std.specs.Prelude.{◌≡◌};
ghost use Rattle.text.specs.frames.Refusal.{number_of, index_of, ticks_of};

// Of a text, of records and of frames.

/// A length of 0, one that leaves a part of a unit over, or one above the most.
pub const BAD_LENGTH: u8 = 1;

/// A frame with a character that is no digit, or without a line feed at its end.
pub const BAD_CHARACTER: u8 = 2;

/// A frame whose bytes do not sum to 0 modulo 256.
pub const BAD_SUM: u8 = 3;

// Of a chart: its nodes, schemes, arcs and rows.

/// A node with a field outside its values.
pub const BAD_FIELD: u8 = 4;

/// A scheme with no Begin or no End, or with two.
pub const BAD_SCHEME: u8 = 5;

/// A node with an arc to no node, into another scheme or to a Begin.
pub const BAD_ARC: u8 = 6;

/// A node that calls scheme 1 or one that there is not, or a function that calls none.
pub const BAD_CALL: u8 = 7;

/// A condition on a circle of conditions.
pub const CIRCLE: u8 = 8;

/// A node to which no path leads from the Begin of its scheme.
pub const CUT_OFF: u8 = 9;

/// More rows than an image has room for.
pub const MANY_ROWS: u8 = 10;

// Of an image: its header, where frames stand, and what they hold.

/// A header that no image of so many frames has.
pub const BAD_HEADER: u8 = 11;

/// A frame of another kind or number than its position asks for, or a row behind one of a higher label.
pub const STRAY_FRAME: u8 = 12;

/// An entry, a label or a row with a field outside its values.
pub const BAD_CONTENT: u8 = 13;

// Of a state: its stack size, and whether it fits the image.

/// A stack of no place, or of more than there are.
pub const BAD_SIZE: u8 = 14;

/// A state that does not fit the image.
pub const UNFIT: u8 = 15;

// Of a buffer.

/// A buffer with less room than all that is to be written.
pub const NO_ROOM: u8 = 16;

// Of a tick.

/// A call that finds the stack full and does not drop to a handler.
pub const FULL: u8 = 17;

/// A word that no row of the label matches.
pub const NO_ROW: u8 = 18;

// Of the marks of a handler, and of calls that lead back to their scheme.

/// A handler's mark where scheme 1 begins, or more than one.
pub const BAD_MARKS: u8 = 19;

/// A circle of calls that scheme 1 leads to.
pub const CALLS_ITSELF: u8 = 20;

// Of a cause, of a rebinding, of labels that are joined, and of a little chart.

/// A tick that takes no row, so that no condition is its cause.
pub const ROWLESS: u8 = 21;

/// A number that is never called or the handler's, or a scheme that cannot be called.
pub const BAD_REBINDING: u8 = 22;

/// A label whose rows leave some word out, or match it twice.
pub const UNEVEN: u8 = 23;

/// A little chart that there is not.
pub const NO_LITTLE_CHART: u8 = 24;

// Of spindles: their number and their places.

/// A spindle that there is not.
pub const NO_SPINDLE: u8 = 25;

/// A call that finds all places of the spindles taken.
pub const NO_PLACE: u8 = 26;

// Of a priced run, and of lists of words to count.

/// More words than a priced run has.
pub const MANY_WORDS: u8 = 27;

/// More lists of words than are counted.
pub const MANY_LISTS: u8 = 28;

/// Why an entry point refuses. One that names a frame or a node carries its index from 0, one that stops a tick how many ticks were finished
/// before it.
#[derive(Clone, Copy)]
pub enum Refusal {
    BadLength,
    BadCharacter(usize),
    BadSum(usize),
    BadField(usize),
    BadScheme,
    BadArc(usize),
    BadCall(usize),
    Circle(usize),
    CutOff(usize),
    ManyRows,
    BadHeader,
    StrayFrame(usize),
    BadContent(usize),
    BadSize,
    Unfit,
    NoRoom,
    Full { ticks: usize },
    NoRow { ticks: usize },
    BadMarks,
    CallsItself,
    Rowless,
    BadRebinding,
    Uneven,
    NoLittleChart,
    NoSpindle,
    NoPlace,
    ManyWords,
    ManyLists,
}

impl Refusal {
    /// Its number, 1 to 28.
    pub fn number(self) -> u8
        ensures { result ≡ number_of self }
    {
        match self {
            Refusal::BadLength => BAD_LENGTH,
            Refusal::BadCharacter(_) => BAD_CHARACTER,
            Refusal::BadSum(_) => BAD_SUM,
            Refusal::BadField(_) => BAD_FIELD,
            Refusal::BadScheme => BAD_SCHEME,
            Refusal::BadArc(_) => BAD_ARC,
            Refusal::BadCall(_) => BAD_CALL,
            Refusal::Circle(_) => CIRCLE,
            Refusal::CutOff(_) => CUT_OFF,
            Refusal::ManyRows => MANY_ROWS,
            Refusal::BadHeader => BAD_HEADER,
            Refusal::StrayFrame(_) => STRAY_FRAME,
            Refusal::BadContent(_) => BAD_CONTENT,
            Refusal::BadSize => BAD_SIZE,
            Refusal::Unfit => UNFIT,
            Refusal::NoRoom => NO_ROOM,
            Refusal::Full { .. } => FULL,
            Refusal::NoRow { .. } => NO_ROW,
            Refusal::BadMarks => BAD_MARKS,
            Refusal::CallsItself => CALLS_ITSELF,
            Refusal::Rowless => ROWLESS,
            Refusal::BadRebinding => BAD_REBINDING,
            Refusal::Uneven => UNEVEN,
            Refusal::NoLittleChart => NO_LITTLE_CHART,
            Refusal::NoSpindle => NO_SPINDLE,
            Refusal::NoPlace => NO_PLACE,
            Refusal::ManyWords => MANY_WORDS,
            Refusal::ManyLists => MANY_LISTS,
        }
    }

    /// The frame or node that it names, 0 where it names none.
    pub fn index(self) -> usize
        ensures { result ≡ index_of self }
    {
        match self {
            Refusal::BadCharacter(frame)
            | Refusal::BadSum(frame)
            | Refusal::StrayFrame(frame)
            | Refusal::BadContent(frame) => frame,
            Refusal::BadField(node)
            | Refusal::BadArc(node)
            | Refusal::BadCall(node)
            | Refusal::Circle(node)
            | Refusal::CutOff(node) => node,
            _ => 0,
        }
    }

    /// How many ticks were finished before it, 0 where it stops none.
    pub fn ticks(self) -> usize
        ensures { result ≡ ticks_of self }
    {
        match self {
            Refusal::Full { ticks } | Refusal::NoRow { ticks } => ticks,
            _ => 0,
        }
    }
}
