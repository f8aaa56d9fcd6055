// A host of the manager: what a panel programmer copies. It owns the clock, the wire, the store and the manager, and lends the manager to
// each call. Here the wire leads to a simulated cell (cell), and what happens is written to standard output (print), which is held
// to the file stdout. docs/CONTRIBUTING.md, "Your own host", has the steps of a copy under another name.
//
// WARNING. The flag bits of a command are the repository's (response 0x10, abort 0x20, segmentation x 64), not those of EPSG DS 301
// (0x80, 0x40, x 16). A node that follows EPSG DS 301 aborts with flags C0; the client reads these as Complete without the abort mark, so that
// a write which the node refused ends Complete, in published mode too. docs/DIFFERENCES.md says what a host at such a node has to do. The cell here has the
// repository's bits.
#![tactic(auto)]

use cell::Cell;
use client::Client;
use codec::octets::part;
use con_rec::{Mode, Now};
use manager::types::{Answer, SentTo};
use std::io;

// Count, index, sub-index and size, and the table.
const TABLE_SIZE: usize = 1461;

mod cell;
mod client;
mod print;

// The host: its client, the cell at the other end of the wire, and the answer to the reply of the last turn, Nothing where none came.
#[derive(Drop)]
struct Host {
    client: Client,
    cell: Cell,
    answer: Answer,
}

// The time, with timeout and retries absent: document 01 takes 15 seconds and 2 then.
fn at(time: u64) -> Now {
    Now {
        time,
        timeout: None,
        retries: None,
    }
}

// The mode of a node's jobs, which each start chooses. A panel knows from its list of transmitters which of them need the published one: those whose
// stack drops a Complete that follows an Expedited, so that in repository mode a transfer of 1,453 to 1,456 bytes never loads. Here node 6 is one.
fn mode_of(node: u8) -> Mode {
    match node {
        6 => Mode::Published,
        _ => Mode::Repository,
    }
}

impl Host {
    fn new() -> Host {
        Host {
            client: Client::new(),
            cell: Cell::new(),
            answer: Answer::Nothing,
        }
    }

    // A job is started: its DCF is copied into the store, and nothing goes out yet.
    fn start(&mut self, rt: &impl Print, node: u8, dcf: &[u8], time: u64) -> io::Result<()> {
        let told = self.client.load(node, mode_of(node), dcf, at(time));
        print::told(rt, told, &[])
    }

    // A read is started: the store is only looked at, and nothing goes out yet.
    fn start_read(
        &mut self,
        rt: &impl Print,
        node: u8,
        index: u16,
        sub_index: u8,
        time: u64,
    ) -> io::Result<()> {
        let told = self
            .client
            .read(node, mode_of(node), index, sub_index, at(time));
        print::told(rt, told, &[])
    }

    // A frame can go out: the manager is asked what is to be sent.
    fn ask(&mut self, rt: &impl Print, time: u64) -> io::Result<Answer> {
        let told = self.client.ask(at(time));
        print::told(rt, told, &self.client.output)?;
        Ok(told.answer)
    }

    // A command goes to the cell, and the cell's answer to the manager.
    fn answered(&mut self, rt: &impl Print, sent: SentTo) -> io::Result<()> {
        let a = self
            .cell
            .answer(sent, print::payload_of(sent.command, &self.client.output));
        let payload = print::payload_of(a.command, &a.data);
        print::frame(rt, "from", sent.node, a.sequence, a.command, payload)?;
        let told = self.client.reply(sent.node, a.sequence, a.command, payload);
        self.answer = told.answer;
        print::told(rt, told, &[])
    }

    // A turn with a cell that answers.
    fn turn(&mut self, rt: &impl Print, time: u64) -> io::Result<()> {
        self.answer = Answer::Nothing;
        if let Answer::Sent(sent) = self.ask(rt, time)? {
            self.answered(rt, sent)?;
        }
        Ok(())
    }

    // Nothing came: the clock goes on to the next action time, and tick is called there.
    fn later(&mut self, rt: &impl Print) -> io::Result<()> {
        let due = self.client.next_action_time();
        print::next(rt, due)?;
        let Some(time) = due else {
            return Ok(());
        };
        let told = self.client.tick(at(time));
        print::told(rt, told, &self.client.output)
    }

    // A load: a job is started, and then there are as many turns as an opening and two commands take.
    fn load(&mut self, rt: &impl Print, node: u8, dcf: &[u8], time: u64) -> io::Result<()> {
        self.start(rt, node, dcf, time)?;
        for _ in 0..3 {
            self.turn(rt, time)?;
        }
        Ok(())
    }

    // A read: a job is started, and then there are as many turns as an opening and a value of one frame take. What it brought is in the store: it is
    // handed out before the next call, which may use its bytes again. A read that failed brought none.
    fn read(&mut self, rt: &impl Print, index: u16, sub_index: u8, time: u64) -> io::Result<()> {
        self.start_read(rt, 5, index, sub_index, time)?;
        for _ in 0..2 {
            self.turn(rt, time)?;
        }
        if let Answer::Value(place) = self.answer {
            print::value(
                rt,
                index,
                sub_index,
                man_lent::value_in(&self.client.store, place),
            )?;
        }
        Ok(())
    }

    // Nobody answers: two repeats, the abort command, and then there is nothing to wait for.
    fn silent(&mut self, rt: &impl Print, dcf: &[u8], time: u64) -> io::Result<()> {
        self.start(rt, 7, dcf, time)?;
        self.ask(rt, time)?;
        for _ in 0..4 {
            self.later(rt)?;
        }
        Ok(())
    }
}

// A DCF with a table of 1,450 bytes for 2100:01: it is sent as 1,454 bytes.
fn table() -> [u8; TABLE_SIZE] {
    let mut dcf = [7; TABLE_SIZE];
    dcf[..11].copy_from_slice(b"\x01\0\0\0\x00\x21\x01\xAA\x05\0\0");
    dcf
}

// Document 01's P7, two entries, and the first read back; P8, its last byte dropped: the second entry is not readable, and the job ends Cut
// with the one that was delivered; and a table that straddles 1,452, at a node in published mode: it goes out as Initiate and Complete.
fn main(rt: HostRuntime) -> io::Result<()> {
    let dcf = b"\x02\0\0\0\x00\x21\x01\x02\0\0\0\x01\x04\x01\x21\x00\0\0\0\0";
    let mut host = Host::new();
    println!(rt; "node 5, a DCF of two entries")?;
    host.load(&rt, 5, dcf, 0)?;
    print::objects(&rt, &host.cell)?;
    println!(rt; "node 5, a read of 2100:01")?;
    host.read(&rt, 0x2100, 1, 500000)?;
    println!(rt; "node 5, the same DCF without its last byte")?;
    host.load(&rt, 5, part(dcf, 0, 19), 1000000)?;
    println!(rt; "node 6, a table of 1,450 bytes, in published mode")?;
    host.load(&rt, 6, &table(), 1500000)?;
    println!(rt; "node 7, which does not answer")?;
    host.silent(&rt, dcf, 2000000)
}
