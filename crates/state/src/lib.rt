//! The state of the stack machine, as the struct of bytes that C keeps: a fresh one (`fresh`, with refusal 14), and one read and changed
//! in place (`changes`).
#![tactic(auto)]

ghost use Rattle.state.specs.StoredBack.{StateBack, FreshBack};

use crate::layout::PLACES;
use text::frames::sizes::SCHEMES;
use text::frames::{Refusal, sizes};

mod changes;
mod fresh;
pub mod layout;

pub use fresh::bad_size;

/// 130 bytes. Places (the paper's word for the entries of the stack) hold labels, the bottom first, up to the depth, and 0 above it;
/// beside each stand the number of the call that filled it and the scheme open there. Number h's result, where 0 is false and any other
/// byte is true, and the scheme that serves h stand at h - 1.
#[repr(C)]
#[derive(Clone, Copy)]
pub struct State {
    pub size: u8,
    pub depth: u8,
    pub places: [u8; PLACES],
    pub results: [u8; SCHEMES],
    pub serving: [u8; SCHEMES],
    pub numbers: [u8; PLACES],
    pub servers: [u8; PLACES],
}

/// What a call that hands back a state answers, and the state.
#[derive(Drop)]
pub struct StateReport {
    pub answer: Result<usize, Refusal>,
    pub state: State,
}

impl State {
    /// The places of a stack at most.
    pub const PLACES: usize = layout::PLACES;

    /// The labels of an image at most.
    pub const LABELS: usize = sizes::LABELS;

    /// The rows of an image at most.
    pub const ROWS: usize = sizes::ROWS;

    /// The schemes of a chart at most.
    pub const SCHEMES: usize = sizes::SCHEMES;
}

/// A state that was stored is viewed as itself, a fresh one too.
pub fn a_written_state_is_read_back()
    ensures state { StateBack }
    ensures fresh { FreshBack }
{}
