//! The entry points for C, as the header has them: a slice is a pointer and a length, a reference is a pointer, and a state is the header's
//! struct. Each stands in the module of its subject (`.._for_c`); `telling` turns answers into the header's number, index (`at`) and count
//! (`made`). The static library is made of this crate.
#![tactic(auto)]

pub mod causes_for_c;
pub mod charts_for_c;
pub mod damage_for_c;
pub mod dry_runs_for_c;
pub mod fillings_for_c;
pub mod images_for_c;
pub mod minimising_for_c;
pub mod prices_for_c;
pub mod rebinding_for_c;
pub mod runs_for_c;
pub mod spindles_for_c;
pub mod telling;
pub mod translating_for_c;
pub mod version_for_c;
