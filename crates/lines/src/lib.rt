// Reading a line of a book: the numbers in its fields, and what it says.

#![tactic(auto)]

mod fields;
pub mod line;
mod number;
mod sovereign;
