// The client that the host owns: the manager, with the store and the output that it lends to each call. What each call tells, and what it leaves of
// these three, is what comes of the manager's call by value.
ghost use Rattle.std.specs.Prelude.{◌≡◌, []};
ghost use Rattle.manager.specs.Calls.{called, starts, turns, replies, reads, loads, least_deadline};
ghost use Rattle.man_table.specs.Table.{live};
ghost use Rattle.man_lent.specs.Lent.{told_of};

use codec::command::SdoCommand;
use codec::sequence::SequenceLayerHeader;
use con_rec::{Mode, Now};
use man_lent::types::Told;
use man_table::types::{STORE_SIZE, SdoClientManager, Turn};
use manager::types::OUTPUT_SIZE;

#[derive(Drop)]
pub(crate) struct Client {
    pub manager: SdoClientManager,
    pub store: [u8; STORE_SIZE],
    pub output: [u8; OUTPUT_SIZE],
}

impl Client {
    pub(crate) fn new() -> Client {
        Client {
            manager: SdoClientManager::new(),
            store: [0; STORE_SIZE],
            output: [0; OUTPUT_SIZE],
        }
    }

    pub(crate) fn load(&mut self, target: u8, mode: Mode, dcf: &[u8], when: Now) -> Told
        ensures value { result ≡ told_of (called self.old.manager self.old.store [] (starts target (loads mode dcf.now) «when»)).done }
        ensures manager_after { self.new.manager ≡ (called self.old.manager self.old.store [] (starts target (loads mode dcf.now) «when»)).done.manager }
        ensures store_after { self.new.store ≡ (called self.old.manager self.old.store [] (starts target (loads mode dcf.now) «when»)).store }
        ensures output_unchanged { self.new.output ≡ self.old.output }
    {
        let (m, store) = (&mut self.manager, &mut self.store);
        man_lent::start_configuration_download(m, target, mode, dcf, when, store)
    }

    pub(crate) fn read(
        &mut self,
        target: u8,
        mode: Mode,
        index: u16,
        sub_index: u8,
        when: Now,
    ) -> Told
        ensures value { result ≡ told_of (called self.old.manager self.old.store [] (starts target (reads mode index sub_index) «when»)).done }
        ensures manager_after { self.new.manager ≡ (called self.old.manager self.old.store [] (starts target (reads mode index sub_index) «when»)).done.manager }
        ensures rest_unchanged { (self.new.store ≡ self.old.store) × (self.new.output ≡ self.old.output) }
    {
        let (m, store) = (&mut self.manager, &self.store);
        man_lent::read_object_by_index(m, target, mode, index, sub_index, when, store)
    }

    pub(crate) fn reply(
        &mut self,
        source: u8,
        seq: SequenceLayerHeader,
        cmd: SdoCommand,
        payload: &[u8],
    ) -> Told
        ensures value { result ≡ told_of (called self.old.manager self.old.store [] (replies source seq cmd payload.now)).done }
        ensures manager_after { self.new.manager ≡ (called self.old.manager self.old.store [] (replies source seq cmd payload.now)).done.manager }
        ensures store_after { self.new.store ≡ (called self.old.manager self.old.store [] (replies source seq cmd payload.now)).store }
        ensures output_unchanged { self.new.output ≡ self.old.output }
    {
        let (m, store) = (&mut self.manager, &mut self.store);
        man_lent::handle_response(m, source, seq, cmd, payload, store)
    }

    pub(crate) fn ask(&mut self, when: Now) -> Told
        ensures value { result ≡ told_of (called self.old.manager self.old.store self.old.output (turns Turn.Asking «when»)).done }
        ensures manager_after { self.new.manager ≡ (called self.old.manager self.old.store self.old.output (turns Turn.Asking «when»)).done.manager }
        ensures output_after { self.new.output ≡ (called self.old.manager self.old.store self.old.output (turns Turn.Asking «when»)).output }
        ensures store_unchanged { self.new.store ≡ self.old.store }
    {
        let (m, store, output) = (&mut self.manager, &self.store, &mut self.output);
        man_lent::get_pending_request(m, when, store, output)
    }

    pub(crate) fn tick(&mut self, when: Now) -> Told
        ensures value { result ≡ told_of (called self.old.manager self.old.store self.old.output (turns Turn.Ticking «when»)).done }
        ensures manager_after { self.new.manager ≡ (called self.old.manager self.old.store self.old.output (turns Turn.Ticking «when»)).done.manager }
        ensures output_after { self.new.output ≡ (called self.old.manager self.old.store self.old.output (turns Turn.Ticking «when»)).output }
        ensures store_unchanged { self.new.store ≡ self.old.store }
    {
        let (m, store, output) = (&mut self.manager, &self.store, &mut self.output);
        man_lent::tick(m, when, store, output)
    }

    pub(crate) fn next_action_time(&self) -> Option<u64>
        ensures { result ≡ least_deadline (live self.now.manager) }
    {
        man_lent::next_action_time(&self.manager)
    }
}
