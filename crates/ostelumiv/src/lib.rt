// The C functions: what a panel programmer links (include/ostelumiv.h is their header). Each takes numbers and byte slices, calls the
// codec and answers with a struct of numbers. A refusal is a number in it: with one, and where nothing is found, its other numbers are
// 0, and no byte was written.
#![tactic(auto)]

pub mod answers;
pub mod command;
pub mod dcf;
pub mod request;
pub mod sequence;
