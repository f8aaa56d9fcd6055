// The replay with parameters and states, on the repository's answers with timeout 3 and retries 0 (docs/TRACES.md).
#![tactic(auto)]

use std::io;

fn main(rt: HostRuntime) -> io::Result<()> {
    replay_run::replay::replay_states(&rt, &mut rt.stdin())
}
