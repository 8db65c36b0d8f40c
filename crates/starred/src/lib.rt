// The starred figures of document 01: a definition and a theorem about the definitions (specs/, proofs/). It needs no code of its own.

#![tactic(auto)]
