// next_action_time: when the host should call tick next.
ghost use Rattle.std.specs.Prelude.{◌≡◌};
ghost use Rattle.manager.specs.Calls.{least_deadline};
ghost use Rattle.man_table.specs.Table.{live};

use man_table::types::SdoClientManager;

// The least deadline of the connections held, or none. It may change with every start, reply, tick and ask.
pub fn next_action_time(m: SdoClientManager) -> Option<u64>
    ensures { result ≡ least_deadline (live m) }
{
    m.held().iter().filter_map(|c| c.waiting.deadline).min()
}
