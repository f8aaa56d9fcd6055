// Salvages: the repair of many DCFs, for comparisons. Its stdin and stdout beside src/ are a sample of the repository's answers.
#![tactic(auto)]

use std::io;

fn main(rt: HostRuntime) -> io::Result<()> {
    salvage_run::many::salvage_many(&rt, &mut rt.stdin())
}
