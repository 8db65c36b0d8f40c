// The tables of CRE20 and CRE22 (2019) as document 01 reads them, and those of 2023 as document 02 lists them: which goods are eligible,
// their haircuts, and the risk weights of counterparties and protection providers. Haircuts are in millionths, risk weights in percent.

#![tactic(auto)]

pub mod classes;
pub mod editions;
pub mod eligibility;
pub mod goods;
pub mod haircuts;
pub mod kinds;
pub mod version;
pub mod version_2019;
pub mod version_2023;
pub mod weights;
