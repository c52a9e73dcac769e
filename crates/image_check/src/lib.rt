//! The image check: refusals 1 to 3 and 11 to 13 of an image's text (`read`), 11 to 13 of a decoded table (`check`).
//! `positions` tries the header (11) and the order of frames (12), `image_strays` one frame's kind and number (12), `image_fields` its
//! fields (13), and `image_faults` finds the lowest frame that 12 or 13 refuses.
#![tactic(auto)]

mod check;
pub mod image_faults;
pub mod image_fields;
pub mod image_strays;
mod positions;
mod read;

pub use positions::bad_header;
pub use read::{check_image, read_image};
