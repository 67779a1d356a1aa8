// Numbers and lines as text: a line is a form, read by one loop and written by one.
#![tactic(auto)]

mod decimal;
mod hex;
pub mod keys;
pub mod line;
pub mod lines;
mod value;
pub mod words;
