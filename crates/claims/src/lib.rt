// What the letter demands, one file for each demand, and what a request promises of answers given before it, with the theorems that answer
// them. It needs no code of its own.

#![tactic(auto)]
