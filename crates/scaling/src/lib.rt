// Haircuts for other holding periods than ten business days (CRE22.60 to CRE22.65; 01: Holding periods).

#![tactic(auto)]

pub mod factor;
pub mod period;
pub mod scaling;
pub mod stored;
