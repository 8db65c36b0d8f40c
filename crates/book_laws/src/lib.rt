// What follows from the definition of a book's answers (specs/, proofs/): a deal's answer depends on its own lines alone, is never a 40, each
// refusal of a book is given exactly where it is due, and a number that is written reads back. It needs no code of its own.

#![tactic(auto)]
