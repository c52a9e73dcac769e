//! What belongs to no subject: lists, ranges of numbers and lent buffers (`lists`, laws alone), words and masks by their bits (`bits`), and
//! marks on numbered nodes that spread over arcs (`graph`).
#![tactic(auto)]

pub mod bits;
pub mod graph;
