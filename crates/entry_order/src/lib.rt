// Entry order: the same items keyed in any order, or a cash item in two parts, give the same figures (specs/, proofs/). It needs no code of its own.

#![tactic(auto)]
