// What follows from the definitions of values and reports, for every table and every record (proofs/): where nothing got worse the weighted
// amount is no higher, each ground is given exactly where it is due, and portions and rest make up the exposure. It needs no code of its own.

#![tactic(auto)]
