// Text of frames, 22 hexadecimal characters and a line feed each: its length, how it is written, and why an entry point refuses.

mod check;
pub mod codes;
pub mod refusals;
pub mod sizes;
mod write;

pub use check::bad_length;
pub use refusals::Refusal;
pub use write::{put_bytes, put_frame, put_text, ten_at};
