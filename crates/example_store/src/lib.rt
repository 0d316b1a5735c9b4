//! An example: a transaction of a store is committed, and begun again if it dies.
#![tactic(auto)]

ghost use Rattle.std.specs.Prelude.{◌≡◌};

use pc_bases::Base;
use pc_shared::{CallAnswer, Opened, Session, Shared, pause};
use pc_tie::StoreName;
use pc_types::{Key, Lsn, Refusal, Value};
use std::alloc::Global;
use std::hash::RandomState;
use std::sync::Wait;

/// A transaction that dies is begun again; this is the greatest number of attempts.
pub const MOST_TRIES: u32 = 100;

/// A store of 2 sessions, with room for 1,000 keys, on an empty base of run 1.
pub fn open(alloc: Global, seed: RandomState) -> Result<Opened, Refusal> {
    Opened::new(alloc, Base::start(1, Vec::new(alloc)), 2, 1_000, seed)
}

/// Sells a pear in the store, and closes it; the number of the sale's entry in the log. `use_store::<Brand, _>(..)` names the store.
pub fn use_store<N: StoreName, R: Wait>(
    rt: &R,
    alloc: Global,
    opened: Opened,
) -> Result<Lsn, Refusal>
    requires { opened ≡ N.name }
{
    let (shared, mut sessions, checkpointer, pass) = opened.named::<N>()?; // `shared` may go to all threads
    let Some(session) = sessions.first_mut() else {
        return Err(Refusal::NoSession);
    };
    let sold = sell(rt, alloc, &shared, session);
    let closed = shared.close(sessions, checkpointer, Vec::new(alloc), pass); // base, log, exact receipts
    drop(closed);
    sold
}

// Begins the sale until it doesn't die.
fn sell<N: StoreName, R: Wait>(
    rt: &R,
    alloc: Global,
    shared: &Shared<N>,
    session: &mut Session<N>,
) -> Result<Lsn, Refusal> {
    for tries in 1..=MOST_TRIES {
        shared.begin(rt, session)?;
        match attempt(rt, alloc, shared, session) {
            Ok(Some(entry)) => return Ok(entry),
            Ok(None) => shared.abort(rt, session)?, // a request has died: all of it is undone
            Err(why) => return shared.abort(rt, session).and(Err(why)),
        }
        pause(tries); // lets the other transaction end
    }
    Err(Refusal::MustAbort)
}

// The good that is sold, and its quantity; each call waits for the lock of its key, or its request dies.
fn attempt<N: StoreName, R: Wait>(
    rt: &R,
    alloc: Global,
    shared: &Shared<N>,
    session: &mut Session<N>,
) -> Result<Option<Lsn>, Refusal> {
    let put = shared.put(
        rt,
        session,
        Key::new(alloc, b"last")?,
        Value::new(alloc, b"pear")?,
    )?;
    if put == CallAnswer::Died {
        return Ok(None);
    }
    let added = shared.add(rt, session, Key::new(alloc, b"sold")?, 1)?; // `Sum` of all that were sold
    if added == CallAnswer::Died {
        return Ok(None);
    }
    Ok(Some(shared.commit(rt, session)?))
}
