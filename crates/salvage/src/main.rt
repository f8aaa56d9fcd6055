// Salvage: a DCF on standard input, the repaired one on standard output, what came of it on standard error. Its stdin and stdout beside src/ are the
// DCF of traces/cut-dcf.txt, which lost its last byte, and what is left of it.
#![tactic(auto)]

use std::env::{Env, FillError};
use std::io;

fn main(rt: HostRuntime) -> io::Result<()> {
    // a file's name is no input, and without this salvage would wait for a DCF
    let mut start = [0u8; 1];
    if !matches!(rt.arg(1, &mut start), Err(FillError::NotPresent)) {
        return rt.eprintln("salvage takes no arguments: a DCF on standard input");
    }
    salvage_run::one::salvage_one(&rt, &mut rt.stdin())
}
