//! What is promised of every committee of FA1 over bins.
#![tactic(auto)]

mod theorems;

pub use theorems::committees_are_fair;
