// The betterments of a netting set and the theorem about them, and its add-ons by number of security and currency (specs/, proofs/). It needs no code
// of its own.

#![tactic(auto)]
