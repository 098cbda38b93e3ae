//! Two wrappers of u64: the stake of a validator, and its index in the list of validators.
#![tactic(auto)]

mod decimal;
pub mod stake;
pub mod validator_index;

pub use decimal::write_decimal;
pub use stake::Stake;
pub use validator_index::ValidatorIndex;
