// Values: a line for each read of a trace that ends Complete. Its stdin and stdout beside src/ are a sample of the repository's answers.
#![tactic(auto)]

use std::env::{Env, FillError};
use std::io;

fn main(rt: HostRuntime) -> io::Result<()> {
    // a file's name is no input, and without this values would wait for records
    let mut start = [0u8; 1];
    if !matches!(rt.arg(1, &mut start), Err(FillError::NotPresent)) {
        return rt.eprintln("values takes no arguments: records on standard input");
    }
    replay_run::replay::values(&rt, &mut rt.stdin())
}
