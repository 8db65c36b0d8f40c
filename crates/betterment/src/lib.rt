// The rule on betterments: a definition and a theorem about reporting (specs/, proofs/). It needs no code of its own.

#![tactic(auto)]
