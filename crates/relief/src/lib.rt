// Relief of a deal: what its collateral, guarantees and swaps are worth, what they leave of the exposure, and the report of it
// (01: From items to the weighted amount; Grounds for leaving an item out; Reporting a deal).

#![tactic(auto)]

pub mod bare;
pub mod collateral;
pub mod exposure;
pub mod factors;
pub mod ground;
pub mod guarantee;
pub mod guarantees;
pub mod maturity;
pub mod outcome;
pub mod portions;
pub mod report;
pub mod weight;
