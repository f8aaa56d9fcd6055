// The codec: refusals, the sequence header, the command, the request readers and the concise DCF, as document 01 has them under
// "Numbers that refuse" and "Bytes". Every function is total: bad input gets a refusal, and then not one byte is written.
#![tactic(auto)]

pub mod command;
pub mod dcf;
pub mod octets;
pub mod refusal;
pub mod request;
pub mod sequence;
