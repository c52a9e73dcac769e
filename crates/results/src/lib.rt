//! The result bits, one for each scheme number; definitions and laws, no function.
#![tactic(auto)]
