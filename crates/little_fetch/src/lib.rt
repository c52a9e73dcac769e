//! The little chart of a number, as text.
//! Node records are numbered, and `little_numbers` says which are tried at a place; `little_nodes` bars those that begin no accepted chart,
//! `little_seek` counts down the charts found, and `fetching` is the entry point, with refusals 24 and 16.
#![tactic(auto)]

pub mod fetching;
mod little_nodes;
mod little_numbers;
mod little_seek;
