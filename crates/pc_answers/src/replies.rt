//! The reply that represents a call's answer.
ghost use Rattle.std.specs.Prelude.{◌≡◌};
ghost use Rattle.pc_answers.specs.Replies.{begin_reply, get_reply, write_reply, add_reply, commit_reply, abort_reply, take_reply};

use crate::answers::{AddAnswer, GetAnswer, TakeAnswer};
use pc_types::{Lsn, Outcome, Refusal, Reply, TxnNo};

/// The reply to a begin that is answered so: the transaction's number, or a refusal.
pub fn begin_reply(answer: Result<TxnNo, Refusal>) -> Reply
    ensures { result ≡ begin_reply answer }
{
    match answer {
        Ok(number) => Reply::Begun(number),
        Err(why) => Reply::Refused(why),
    }
}

/// The reply to a get that is answered so.
pub fn get_reply(answer: Result<GetAnswer, Refusal>) -> Reply
    ensures { result ≡ get_reply answer }
{
    match answer {
        Ok(GetAnswer::Found(value)) => Reply::Found(value),
        Ok(GetAnswer::Absent) => Reply::Absent,
        Ok(GetAnswer::Wait) => Reply::Wait,
        Ok(GetAnswer::Died) => Reply::Died,
        Err(why) => Reply::Refused(why),
    }
}

/// The reply to a put or a del whose lock request is answered so, or which is refused.
pub fn write_reply(answer: Result<Outcome, Refusal>) -> Reply
    ensures { result ≡ write_reply answer }
{
    match answer {
        Ok(Outcome::Granted) => Reply::Ok,
        Ok(Outcome::Queued) => Reply::Wait,
        Ok(Outcome::Died) => Reply::Died,
        Err(why) => Reply::Refused(why),
    }
}

/// The reply to an add that is answered so.
pub fn add_reply(answer: Result<AddAnswer, Refusal>) -> Reply
    ensures { result ≡ add_reply answer }
{
    match answer {
        Ok(AddAnswer::Sum(sum)) => Reply::Sum(sum),
        Ok(AddAnswer::Wait) => Reply::Wait,
        Ok(AddAnswer::Died) => Reply::Died,
        Err(why) => Reply::Refused(why),
    }
}

/// The reply to a commit that is answered so: the number of its entry in the log, or a refusal.
pub fn commit_reply(answer: Result<Lsn, Refusal>) -> Reply
    ensures { result ≡ commit_reply answer }
{
    match answer {
        Ok(number) => Reply::Committed(number),
        Err(why) => Reply::Refused(why),
    }
}

/// The reply to an abort that is made or refused.
pub fn abort_reply(answer: Result<(), Refusal>) -> Reply
    ensures { result ≡ abort_reply answer }
{
    match answer {
        Ok(()) => Reply::Aborted,
        Err(why) => Reply::Refused(why),
    }
}

/// The reply to a take that is answered so.
pub fn take_reply(answer: Result<TakeAnswer, Refusal>) -> Reply
    ensures { result ≡ take_reply answer }
{
    match answer {
        Ok(TakeAnswer::Took(key, content)) => Reply::Took(key, content),
        Ok(TakeAnswer::NoneLeft) => Reply::NoneLeft,
        Err(why) => Reply::Refused(why),
    }
}
