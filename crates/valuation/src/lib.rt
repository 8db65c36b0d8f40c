// From amounts to values: haircuts summed, protection and the exposure volatility-adjusted (01: From items to the weighted
// amount). Every rounding goes against the bank: values down, the exposure and the weighted amount up. Amounts are plain numbers here, and their
// limit is a clause of each function.

#![tactic(auto)]

pub mod exposure;
pub mod haircuts;
pub mod protection;
pub mod restructuring;
