// What follows from the definition of cover (specs/, proofs/): it is one pass in rising order of weight, and the weighted sum by layers of
// weight, which more protection never raises. It needs no code of its own.

#![tactic(auto)]
