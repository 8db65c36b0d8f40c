// Definitions that every layer uses, in specs/, and their laws, in proofs/. It needs no code of its own.

#![tactic(auto)]
