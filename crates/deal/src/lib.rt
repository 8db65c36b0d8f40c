// A deal's record, and the operations that make one: opening it, adding collateral, adding a guarantee.
// A record may come from anywhere and hold any numbers; `Deal::accepted` tells whether it is one that operations accept.

#![tactic(auto)]

pub mod asset;
pub mod checks;
pub mod collateral;
pub mod deal;
pub mod fields;
pub mod guarantee;
pub mod instrument;
pub mod list;
pub mod party;
pub mod ranges;
pub mod refusal;
pub mod terms;
