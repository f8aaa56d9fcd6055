// For the replay's loop, which keeps the manager where it is; a panel uses start, turn, reply and next. A change, and the manager after it.
ghost use Rattle.std.specs.Prelude.{◌≡◌};
ghost use Rattle.manager.specs.Change.{
  same as same_of,
  putting as putting_of,
  taking as taking_of,
  leaving as leaving_of,
  entered_at,
  number_after,
  change_done,
};
ghost use Rattle.man_table.specs.Table.{live};

use crate::enter::{first_of, insert, replace};
use crate::types::{Answer, Change, Done};
use con_rec::numbers::next_transaction;
use man_table::held::lived;
use man_table::sweep::{any_end, ends_of, swept};
use man_table::types::{Entry, SdoClientManager, no_ends};

// Nothing changes.
pub fn same(answer: Answer) -> Change
    ensures { result ≡ same_of answer }
{
    Change {
        entry: Entry::Nowhere,
        numbers: false,
        sweeps: false,
        answer,
    }
}

// A tick, an ask or a reply puts a connection somewhere, and those that have ended are removed.
pub(crate) fn putting(entry: Entry, answer: Answer) -> Change
    ensures { result ≡ putting_of entry answer }
{
    Change {
        entry,
        numbers: false,
        sweeps: true,
        answer,
    }
}

// A start enters a connection, or is refused, and takes a number.
pub(crate) fn taking(entry: Entry, answer: Answer) -> Change
    ensures { result ≡ taking_of entry answer }
{
    Change {
        entry,
        numbers: true,
        sweeps: false,
        answer,
    }
}

// The number after a change.
pub fn number_after(change: Change, number: u8) -> u8
    ensures { result ≡ number_after change number }
{
    if change.numbers {
        return next_transaction(number);
    }
    number
}

// The manager with a connection entered; in a full table none is.
fn entered(m: SdoClientManager, entry: Entry, number: u8) -> SdoClientManager
    ensures { result ≡ entered_at m entry number }
{
    match entry {
        Entry::Nowhere => SdoClientManager {
            next_transaction_id: number,
            ..m
        },
        Entry::At(place, c) => replace(m, place, c, number),
        Entry::New(c) => {
            if lived(m) < 8 {
                return insert(m, c, number);
            }
            m
        }
    }
}

// A call that went through: the ended connections are removed and reported. Mostly none has ended, and then the table isn't filled anew.
pub(crate) fn leaving(m: SdoClientManager, answer: Answer) -> Done
    ensures { result ≡ leaving_of (live m) m.next_transaction_id answer }
{
    if any_end(m) {
        return Done {
            manager: swept(m),
            answer,
            ends: ends_of(m),
        };
    }
    let n = lived(m);
    let connections = first_of(m, n);
    let manager = SdoClientManager {
        connections,
        count: n,
        next_transaction_id: m.next_transaction_id,
    };
    Done {
        manager,
        answer,
        ends: no_ends(),
    }
}

// A change, done: the manager after it, what its call answers, and the ends.
pub(crate) fn apply_change(m: SdoClientManager, change: Change) -> Done
    ensures { result ≡ change_done m change }
{
    let entry = change.entry;
    let answer = change.answer;
    let number = number_after(change, m.next_transaction_id);
    if change.sweeps {
        let after = entered(m, entry, number);
        return leaving(after, answer);
    }
    Done {
        manager: entered(m, entry, number),
        answer,
        ends: no_ends(),
    }
}
