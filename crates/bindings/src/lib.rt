//! Which scheme serves each scheme number; definitions, no function.
#![tactic(auto)]
