// How protection covers an exposure: in rising order of risk weight, equal weights in order of adding (01: From items to
// the weighted amount, 4 and 5).

#![tactic(auto)]

pub mod cover;
mod precedence;
pub mod protection;
