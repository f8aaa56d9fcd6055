// The replay. Its stdin and stdout beside src/ are document 01's run.
#![tactic(auto)]

use std::env::{Env, FillError};
use std::io;

fn main(rt: HostRuntime) -> io::Result<()> {
    // a file's name is no input, and without this the replay would wait for records
    let mut start = [0u8; 1];
    if !matches!(rt.arg(1, &mut start), Err(FillError::NotPresent)) {
        return rt.eprintln("replay takes no arguments: records on standard input");
    }
    replay_run::replay::replay(&rt, &mut rt.stdin())
}
