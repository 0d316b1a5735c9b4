//! A shared store of two sessions, a checkpointer and a logger, all of which one thread plays.
ghost use Rattle.std.specs.Prelude.{◌≡◌, IfOk};

use crate::again::again;
use crate::sessions::{Ask, Asker, Told};
use pc_bases::Base;
use pc_shared::{
    CallAnswer, CheckpointerSeat, Closed, LogPass, Opened, PartTicket, Session, Shared,
};
use pc_tie::StoreName;
use pc_types::{FileNo, Phase, Refusal, Reply};
use std::alloc::Global;
use std::hash::RandomState;
use std::marker::Brand;
use std::sync::Wait;
use std::test::Fail;

// Keys and values that take memory of their own.
const A: &[u8] = b"a word of 20 letters";

const B: &[u8] = b"b word of 20 letters";

const ONE: &[u8] = b"1 word of 20 letters";

const TWO: &[u8] = b"2 word of 20 letters!";

const OK: Told = Told::Answer(CallAnswer::Ok);

const FOUND: Told = Told::Answer(CallAnswer::Found);

const ABSENT: Told = Told::Answer(CallAnswer::Absent);

// Before the first point: of each session, by its place, what is asked and answered.
const FIRST: [(usize, Ask, Told); 13] = [
    (0, Ask::Begin, Told::Begun(1)),
    (0, Ask::Get(A), ABSENT),
    (0, Ask::Put(A, ONE), OK),
    (0, Ask::Get(A), FOUND),
    (0, Ask::Del(B), OK),
    (0, Ask::Commit, Told::Committed(1)),
    (1, Ask::Begin, Told::Begun(2)),
    (1, Ask::Get(A), FOUND),
    (1, Ask::Get(B), ABSENT),
    (1, Ask::Put(B, TWO), OK),
    (1, Ask::Abort, Told::Aborted),
    (1, Ask::Abort, Told::Refused(Refusal::NoTransaction)),
    (0, Ask::Commit, Told::Refused(Refusal::NoTransaction)),
];

// Before the second one.
const SECOND: [(usize, Ask, Told); 5] = [
    (1, Ask::Begin, Told::Begun(3)),
    (1, Ask::Get(A), FOUND),
    (1, Ask::Put(A, TWO), OK),
    (1, Ask::Put(B, TWO), OK),
    (1, Ask::Commit, Told::Committed(7)),
];

// After it, open till the end.
const LAST: [(usize, Ask, Told); 2] = [(0, Ask::Begin, Told::Begun(4)), (0, Ask::Del(A), OK)];

// What two sessions that add are asked and answered: keys that are new, that the transaction has written, and that have a record.
const ADDS: [(usize, Ask, Told); 25] = [
    (0, Ask::Begin, Told::Begun(1)),
    (0, Ask::Add(A, 5), Told::Sum(5)),
    (0, Ask::Add(A, -7), Told::Sum(-2)),
    (0, Ask::Get(A), FOUND),
    (0, Ask::Put(B, ONE), OK),
    (0, Ask::Add(B, 1), Told::Refused(Refusal::NotNumber)),
    (0, Ask::Add(A, i64::MIN), Told::Refused(Refusal::OutOfRange)),
    (0, Ask::Commit, Told::Committed(1)),
    (1, Ask::Begin, Told::Begun(2)),
    (1, Ask::Add(B, 1), Told::Refused(Refusal::NotNumber)),
    (1, Ask::Get(B), FOUND),
    (1, Ask::Add(A, 3), Told::Sum(1)),
    (1, Ask::Del(B), OK),
    (1, Ask::Add(B, -9), Told::Sum(-9)),
    (1, Ask::Commit, Told::Committed(2)),
    (0, Ask::Begin, Told::Begun(3)),
    (0, Ask::Add(A, 1), Told::Sum(2)),
    (1, Ask::Begin, Told::Begun(4)),
    (1, Ask::Add(A, 1), Told::Answer(CallAnswer::Died)),
    (1, Ask::Add(A, 1), Told::Refused(Refusal::MustAbort)),
    (1, Ask::Abort, Told::Aborted),
    (0, Ask::Abort, Told::Aborted),
    (1, Ask::Begin, Told::Begun(5)),
    (1, Ask::Add(A, 1), Told::Sum(2)),
    (1, Ask::Commit, Told::Committed(3)),
];

// What they leave of receipts: an add is no read.
const ADDED: Receipts = [Some((1, 0, 2)), None, Some((2, 1, 2)), Some((3, 0, 1))];

// The phases of a point.
const PHASES: [Phase; 3] = [Phase::Prepare, Phase::Resolve, Phase::Capture];

// The number of entries that the log has in the end: two commits, and five phases of each of two points.
const ENTRIES: usize = 12;

// Everybody at a store.
#[derive(Drop)]
struct Table<'a, N: StoreName, R: Wait> {
    rt: &'a R,
    alloc: Global,
    shared: Shared<N>,
    sessions: Vec<Session<N>>,
    checkpointer: CheckpointerSeat<N>,
    pass: LogPass<N>,
}

impl<'a, N: StoreName, R: Wait> Table<'a, N, R> {
    // The number of the first row, from 1 on, that is answered otherwise, or 0.
    fn first_wrong(&mut self, rows: &[(usize, Ask, Told)]) -> usize {
        let asker = Asker {
            rt: self.rt,
            alloc: self.alloc,
            shared: &self.shared,
        };
        for (at, row) in rows.iter().enumerate() {
            let Some(session) = self.sessions.get_mut(row.0) else {
                return at + 1;
            };
            if asker.answer_again(session, row.1) != row.2 {
                return at + 1;
            }
        }
        0
    }

    // What the checkpointer is answered; asked again if an allocation failed.
    fn advance(&mut self) -> Result<Reply, Refusal> {
        again(|| unrefused(self.shared.advance(self.rt, &mut self.checkpointer)))
    }

    fn take(&mut self) -> Result<Reply, Refusal> {
        again(|| unrefused(self.shared.take(self.rt, &mut self.checkpointer)))
    }

    // Whether the phases follow one another up to the capture.
    fn captures(&mut self) -> bool {
        for phase in PHASES {
            match self.advance() {
                Ok(Reply::Phase(now, _)) if now == phase => {}
                _ => return false,
            }
        }
        true
    }

    // Takes two keys, and then none; whether the part has that many entries, and the cycle ends.
    fn completes(&mut self) -> bool {
        for _ in 0..2 {
            let Ok(Reply::Took(_, _)) = self.take() else {
                return false;
            };
        }
        let Ok(Reply::NoneLeft) = self.take() else {
            return false;
        };
        let Ok(Reply::PartDone(_, _, 2)) = self.advance() else {
            return false;
        };
        matches!(self.advance(), Ok(Reply::Phase(Phase::Rest, _)))
    }

    // The ticket of the file of this number; asked again if an allocation failed.
    fn ticket(&mut self, number: FileNo) -> Result<PartTicket<N>, Refusal> {
        let (rt, seat) = (self.rt, &mut self.checkpointer);
        again(|| self.shared.take_part(rt, seat, number))
    }

    // The logger is handed the entries, two or so at a time; whether these are all, and no refused call has moved its pass.
    fn logs(&mut self) -> bool {
        for _ in 0..2 * ENTRIES {
            let before = self.pass.len();
            let told = self.shared.log_next(self.rt, &mut self.pass, 64);
            if told.is_err() && self.pass.len() != before {
                return false;
            }
        }
        self.pass.len() == ENTRIES
    }

    // The store is closed, with the tickets.
    fn close(self, tickets: Vec<PartTicket<N>>) -> Closed<N> {
        let Table {
            rt: _,
            alloc: _,
            shared,
            sessions,
            checkpointer,
            pass,
        } = self;
        shared.close(sessions, checkpointer, tickets, pass)
    }
}

// What the checkpointer is answered, if it isn't refused.
fn unrefused(reply: Reply) -> Result<Reply, Refusal> {
    match reply {
        Reply::Refused(why) => Err(why),
        reply => Ok(reply),
    }
}

// The join of both; asked again if an allocation failed, of both as they were handed back.
fn join<N: StoreName>(
    first: PartTicket<N>,
    second: PartTicket<N>,
) -> Result<PartTicket<N>, Refusal> {
    let joined = match first.join(second) {
        Err((Refusal::OutOfMemory, first, second)) => first.join(second),
        joined => joined,
    };
    joined.map_err(|(why, _first, _second)| why)
}

// A list of the ticket; made again if an allocation failed.
fn listed<N: StoreName>(
    alloc: Global,
    ticket: PartTicket<N>,
) -> Result<Vec<PartTicket<N>>, Refusal> {
    let mut tickets = match Vec::with_capacity(alloc, 1) {
        Ok(tickets) => tickets,
        Err(_) => Vec::with_capacity(alloc, 1)?,
    };
    tickets.push_reserved(ticket);
    Ok(tickets)
}

// The first two receipts of each session, as their numbers, reads and writes.
type Receipts = [Option<(u32, usize, usize)>; 4];

// What is left of a store: the receipts; the entries of the log, and those that were handed out; and of the joined part its last
// point and its entries.
type Left = (Receipts, usize, usize, u16, usize);

const LEFT: Left = (
    [Some((1, 1, 2)), None, Some((7, 1, 2)), None],
    ENTRIES,
    ENTRIES,
    2,
    2,
);

fn receipt<N: StoreName>(
    closed: &Closed<N>,
    session: usize,
    place: usize,
) -> Option<(u32, usize, usize)> {
    let receipt = closed.receipt(session, place)?;
    Some((
        receipt.number.0,
        receipt.reads.len(),
        receipt.writes().len(),
    ))
}

fn receipts<N: StoreName>(closed: &Closed<N>) -> Receipts {
    [
        receipt(closed, 0, 0),
        receipt(closed, 0, 1),
        receipt(closed, 1, 0),
        receipt(closed, 1, 1),
    ]
}

fn left<N: StoreName>(closed: &Closed<N>) -> Left {
    let (last, entries) = match closed.parts.first() {
        Some(ticket) => (
            ticket.part().complete_to().map_or(0, |point| point.0),
            ticket.part().entries().len(),
        ),
        None => (0, 0),
    };
    (
        receipts(closed),
        closed.log().len(),
        closed.logged,
        last,
        entries,
    )
}

// All that is done: the numbers of the first wrong rows, whether both points and the log were taken, and what is left.
type Played = ([usize; 3], bool, Left);

fn play<N: StoreName, R: Wait>(mut table: Table<N, R>) -> Result<Played, Refusal> {
    let first = table.first_wrong(&FIRST);
    let mut taken = table.captures() && table.completes();
    let second = table.first_wrong(&SECOND);
    taken = taken && table.captures() && table.completes();
    let last = table.first_wrong(&LAST);
    let one = table.ticket(FileNo(1))?;
    let two = table.ticket(FileNo(2))?;
    let joined = join(one, two)?;
    taken = taken && table.logs();
    let tickets = listed(table.alloc, joined)?;
    Ok(([first, second, last], taken, left(&table.close(tickets))))
}

// All participants of the store; `None` if the allocation of its name failed.
fn named<N: StoreName, R: Wait>(rt: &R, alloc: Global, opened: Opened) -> Option<Table<'_, N, R>>
    requires { opened ≡ N.name }
{
    let Ok((shared, sessions, checkpointer, pass)) = opened.named::<N>() else {
        return None;
    };
    Some(Table {
        rt,
        alloc,
        shared,
        sessions,
        checkpointer,
        pass,
    })
}

// The results of the play with the store; `None` if the allocation of its name failed.
fn play_named<N: StoreName, R: Wait>(
    rt: &R,
    alloc: Global,
    opened: Opened,
) -> Result<Option<Played>, Refusal>
    requires { opened ≡ N.name }
{
    match named::<N, R>(rt, alloc, opened) {
        Some(table) => Ok(Some(play(table)?)),
        None => Ok(None),
    }
}

// The number of the first wrong row of the adds, and the receipts.
type PlayedAdds = (usize, Receipts);

// The results of the play with adds; `None` if the allocation of the store's name failed.
fn add_named<N: StoreName, R: Wait>(rt: &R, alloc: Global, opened: Opened) -> Option<PlayedAdds>
    requires { opened ≡ N.name }
{
    let mut table = named::<N, R>(rt, alloc, opened)?;
    let wrong = table.first_wrong(&ADDS);
    let closed = table.close(Vec::new(alloc));
    Some((wrong, receipts(&closed)))
}

fn open(alloc: Global, seed: RandomState) -> Result<Opened, Refusal> {
    let base = Base::start(1, Vec::new(alloc));
    Opened::new(alloc, base, 2, 2, seed)
}

fn play_opened<R: Wait>(
    rt: &R,
    alloc: Global,
    seed: RandomState,
) -> Result<Option<Played>, Refusal> {
    let opened = again(|| open(alloc, seed))?;
    play_named::<Brand, _>(rt, alloc, opened)
}

fn add_opened<R: Wait>(
    rt: &R,
    alloc: Global,
    seed: RandomState,
) -> Result<Option<PlayedAdds>, Refusal> {
    let opened = again(|| open(alloc, seed))?;
    Ok(add_named::<Brand, _>(rt, alloc, opened))
}

// Whichever growth is refused, each call that is refused leaves its session as it was, and made again answers as with ample memory:
// no add is made twice.
#[test]
fn sessions_add_the_same_at_each_refused_growth(rt: HostRuntime) -> Result<(), Fail> {
    let seed = RandomState::new(&rt)?;
    let played = match add_opened(&rt, rt.alloc(), seed)? {
        None => add_opened(&rt, rt.alloc(), seed)?,
        played => played,
    };
    assert_eq!(rt; played, Some((0, ADDED)));
    Ok(())
}

// Whichever growth is refused, each call that is refused leaves its session and its pass as they were, and made again answers as
// with ample memory, and so does all after it.
#[test]
fn a_shared_store_answers_the_same_at_each_refused_growth(rt: HostRuntime) -> Result<(), Fail> {
    let seed = RandomState::new(&rt)?;
    let played = match play_opened(&rt, rt.alloc(), seed)? {
        None => play_opened(&rt, rt.alloc(), seed)?,
        played => played,
    };
    assert_eq!(rt; played, Some(([0, 0, 0], true, LEFT)));
    Ok(())
}
