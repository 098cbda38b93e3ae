//! Draws from the words of any source.
#![tactic(auto)]

mod below;
mod fraction;
mod shuffle;
pub mod theorems;
mod weighted;

pub use below::draw_below;
pub use fraction::draw_fraction;
pub use shuffle::shuffle_list;
pub use weighted::{Place, Weights, draw_weighted, running_sums, walked_place};
