// What a reply answers (document 02, CR 1): the part of the store with what a read brought, where the reply ended it Complete.
ghost use Rattle.std.specs.Prelude.{◌≡◌};
ghost use Rattle.manager.specs.Value.{value_for, value_of};

use crate::types::Answer;
use codec::request::ReadByIndexRequest;
use con_rec::SdoClientConnection;
use man_value::{is_complete, uploaded_part};

// A read has a value, a write or a DCF none.
fn value_for(pending: Option<ReadByIndexRequest>, c: SdoClientConnection) -> Answer
    ensures { result ≡ value_for pending c }
{
    match pending {
        Some(_) => Answer::Value(uploaded_part(c)),
        None => Answer::Nothing,
    }
}

// What a reply answers, by the connection after it.
pub(crate) fn value_of(c: SdoClientConnection) -> Answer
    ensures { result ≡ value_of c }
{
    // no `?`: nothing is a case of the answer
    let Some(why) = c.outcome else {
        return Answer::Nothing;
    };
    if is_complete(why) {
        return value_for(c.job.pending_read, c);
    }
    Answer::Nothing
}
