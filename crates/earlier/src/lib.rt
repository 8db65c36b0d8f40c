// Old answers stand: for a rule that a request has moved, the definitions over what moved (specs/), and that what was accepted before keeps
// its answer (proofs/). It needs no code of its own.

#![tactic(auto)]
