//! Stored cases of the calls that seat a committee over bins: reads one from a text, runs the call, and compares all that it left.
#![tactic(auto)]

mod call;
mod lists;

pub use call::{Answer, BinsSampler, quorum_agrees};
