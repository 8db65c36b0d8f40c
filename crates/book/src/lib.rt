// Answering a book: its deals are found, each is read line by line, and its answer is written into a lent list.

#![tactic(auto)]

pub mod answer;
mod deals;
pub mod heading;
pub mod reading;
pub mod refusal;
pub mod reply;
mod results;
