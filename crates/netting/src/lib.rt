// Repo-style transactions under a master netting agreement: a netting set by value, the refusals of its fields and positions, and the
// exposure after netting from signed nets of each security and each currency (02: L6; CRE22.71 to CRE22.73).

#![tactic(auto)]

mod accepted;
mod add_ons;
mod agreement;
mod amounts;
mod exposure;
pub mod fields;
mod group;
mod haircuts;
mod nets;
pub mod position;
pub mod refusal;
pub mod set;
pub mod terms;
