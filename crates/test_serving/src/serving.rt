//! What a served store answers, and what it leaves wherever a device fails.
use crate::devices::{Files, MemoryLog, Output, Pieces};
use pc_bases::Base;
use pc_engine::World;
use pc_io::Tally;
use pc_part::Part;
use pc_recover::recover;
use pc_server::{CutOff, ServeFault, Service, Stopped, serve_input};
use pc_types::Refusal;
use std::alloc::Global;
use std::hash::RandomState;
use std::io::BufReader;
use std::test::Fail;

// Two sessions, of which the second waits and is granted its lock; a line that isn't one, and lines of serving.
const LINES: &[u8] =
    b"run\nbegin 1\nput 1 fig 7\nbegin 2\nadd 1 n 5\ncommit 1\nget 2 fig\nbegin 1\nget 1 pear\nput 2 pear 1\ncommit 1\ncommit 2\r\npoint\nstats\n\nfoo\n\n\n\n\n\n\n\n\n\n\n\nbegin 3\nquit\nbegin 2\n";

const ANSWERS: &[u8] =
    b"run 9\nbegun 1\nok\nbegun 2\nsum 5\ncommitted 1\n= 7\nbegun 3\nabsent\nwait\ncommitted 2\ngranted 2\ncommitted 3\nrefused WrongPhase\nentries=3 commits=3 points=0 open=0 bytes=71 pairs=2\nbad line\nrefused NoSession\n";

// The header of the log of run 9.
const HEADER: &[u8] = b"PCALCL02\0\0\0\0\0\0\0\x09\0\0\0\0";

// What a store that was served leaves.
#[derive(Drop)]
struct Left {
    ended: Result<Stopped, ServeFault>,
    log: MemoryLog,
    sent: Vec<u8>,
    files: Vec<Vec<u8>>,
}

fn device(alloc: Global, calls: usize) -> MemoryLog {
    MemoryLog {
        bytes: Vec::new(alloc),
        kept: Vec::new(alloc),
        calls,
    }
}

fn keeper(alloc: Global, room: usize) -> Files {
    let texts = Vec::new(alloc);
    Files { alloc, texts, room }
}

// How a store is served: which lines, by which pieces the input comes, with how many calls of the log, bytes of answers and files of points that
// succeed, how many commits between two points, and with how many entries of the log the generation is full.
#[derive(Clone, Copy)]
struct Case {
    lines: &'static [u8],
    step: usize,
    calls: usize,
    room: usize,
    files: usize,
    every: u64,
    lag: usize,
    roll: usize,
}

const SOUND: Case = Case {
    lines: LINES,
    step: 4096,
    calls: 1_000_000,
    room: 1_000_000,
    files: 1_000,
    every: 0,
    lag: 0,
    roll: 1_000_000,
};

fn served(rt: &HostRuntime, case: Case) -> Result<Left, Fail> {
    let alloc = rt.alloc();
    let base = Base::start(9, Vec::new(alloc));
    let world = World::new(alloc, base, 2, 100, RandomState::new(rt)?)?;
    let out = Output {
        bytes: Vec::new(alloc),
        room: case.room,
    };
    let log = device(alloc, case.calls);
    let mut service = Service::new(alloc, world, case.every, case.lag, log, Tally::new(out));
    let input = Pieces {
        rest: case.lines,
        step: case.step,
    };
    let mut input = BufReader::new(alloc, input)?;
    let mut files = keeper(alloc, case.files);
    let ended = serve_input(alloc, &mut service, &mut input, &mut files, case.roll);
    let (log, out) = service.into_devices();
    Ok(Left {
        ended,
        log,
        sent: out.into_inner().bytes,
        files: files.texts,
    })
}

#[test]
fn answers_are_the_same_in_pieces_of_any_size(rt: HostRuntime) -> Result<(), Fail> {
    for step in [1, 2, 7, 64, 4096] {
        let left = served(&rt, Case { step, ..SOUND })?;
        assert_eq!(rt; left.ended, Ok(Stopped::Ended));
        assert_eq!(rt; left.sent.as_slice(), ANSWERS);
        assert_eq!(rt; left.log.kept.last(), Some(&left.log.bytes.len()));
        // `stats` has printed how many bytes the log has then.
        assert_eq!(rt; HEADER.len() + left.log.bytes.len(), 71);
    }
    Ok(())
}

// A line that was truncated is none, though what is there of it would be one.
#[test]
fn line_without_its_end_is_not_asked(rt: HostRuntime) -> Result<(), Fail> {
    let lines = b"begin 1\nput 1 fig 7\ncommit 1\nbegin 1\ncommit 1";
    for step in [1, 4096] {
        let left = served(
            &rt,
            Case {
                lines,
                step,
                ..SOUND
            },
        )?;
        assert_eq!(rt; left.ended, Ok(Stopped::Ended));
        assert_eq!(rt;
            left.sent.as_slice(),
            b"begun 1\nok\ncommitted 1\nbegun 2\n".as_slice()
        );
        assert_eq!(rt; left.log.kept.len(), 1);
    }
    Ok(())
}

// A generation that is full leaves the rest of the input: here after the third commit, if no transaction is open.
#[test]
fn filled_generation_leaves_the_rest(rt: HostRuntime) -> Result<(), Fail> {
    let left = served(&rt, Case { roll: 3, ..SOUND })?;
    assert_eq!(rt; left.ended, Ok(Stopped::Filled));
    assert!(rt; ANSWERS.starts_with(&left.sent));
    assert!(rt; left.sent.ends_with(b"committed 3\n"));
    assert_eq!(rt; left.log.kept.last(), Some(&left.log.bytes.len()));
    Ok(())
}

// The number of commits answered.
pub(crate) fn commits_in(sent: &[u8]) -> usize {
    let mut commits = 0usize;
    for line in sent.split(|byte| *byte == b'\n') {
        if line.starts_with(b"committed ") {
            commits = commits.saturating_add(1);
        }
    }
    commits
}

// The log's device fails at each of its calls in turn, an append and a sync for each commit: a prefix of the answers was sent, and each
// commit that was answered is kept.
#[test]
fn no_answer_goes_before_its_log(rt: HostRuntime) -> Result<(), Fail> {
    for calls in 0..6 {
        let (step, calls) = (1, calls);
        let left = served(
            &rt,
            Case {
                step,
                calls,
                ..SOUND
            },
        )?;
        assert_eq!(rt; left.ended, Err(ServeFault::CutOff(CutOff::Log)));
        assert!(rt; ANSWERS.starts_with(&left.sent));
        assert_eq!(rt; commits_in(&left.sent), calls / 2);
        assert_eq!(rt; left.log.kept.len(), calls / 2);
    }
    let left = served(&rt, Case { calls: 6, ..SOUND })?;
    assert_eq!(rt; left.ended, Ok(Stopped::Ended));
    Ok(())
}

// The output fails after each of its bytes in turn: they are all that was sent, and each commit that was answered is kept.
#[test]
fn answers_are_cut_off_behind_their_log(rt: HostRuntime) -> Result<(), Fail> {
    for room in 0..ANSWERS.len() {
        let (step, room) = (1, room);
        let left = served(
            &rt,
            Case {
                step,
                room,
                ..SOUND
            },
        )?;
        assert_eq!(rt; left.ended, Err(ServeFault::CutOff(CutOff::Answers)));
        assert_eq!(rt; left.sent.as_slice(), &ANSWERS[..room]);
        assert!(rt; commits_in(&left.sent) <= left.log.kept.len());
    }
    Ok(())
}

// Three entries are as many as may not be kept, or one more: then the last answer waits for a flush, which fails. At the end all must be
// kept, so that a log which isn't is reported then.
#[test]
fn as_many_entries_as_the_lag_are_not_kept(rt: HostRuntime) -> Result<(), Fail> {
    let (step, calls) = (1, 3);
    let all = served(
        &rt,
        Case {
            step,
            calls,
            lag: 3,
            ..SOUND
        },
    )?;
    assert_eq!(rt; all.ended, Err(ServeFault::CutOff(CutOff::Log)));
    assert_eq!(rt; all.sent.as_slice(), ANSWERS);
    assert_eq!(rt; all.log.kept.len(), 0);
    let some = served(
        &rt,
        Case {
            step,
            calls,
            lag: 2,
            ..SOUND
        },
    )?;
    assert_eq!(rt; some.ended, Err(ServeFault::CutOff(CutOff::Log)));
    assert_eq!(rt; commits_in(&some.sent), 2);
    Ok(())
}

// How many bytes the first entries of the log have, of one that was kept after each.
fn first_bytes(whole: &Left, entries: usize) -> usize {
    match entries.checked_sub(1) {
        Some(last) => whole.log.kept.get(last).copied().unwrap_or(usize::MAX),
        None => 0,
    }
}

// The log's device fails at each of its calls in turn, with each lag: each commit that was answered is written, and all of them but as
// many as the lag are kept.
#[test]
fn lag_delays_no_write(rt: HostRuntime) -> Result<(), Fail> {
    let whole = served(&rt, Case { step: 1, ..SOUND })?;
    assert_eq!(rt; whole.log.kept.len(), 3);
    for lag in 0..5 {
        for calls in 0..8 {
            let (step, lag, calls) = (1, lag, calls);
            let left = served(
                &rt,
                Case {
                    step,
                    calls,
                    lag,
                    ..SOUND
                },
            )?;
            let answered = commits_in(&left.sent);
            assert!(rt; whole.log.bytes.starts_with(&left.log.bytes));
            assert!(rt; first_bytes(&whole, answered) <= left.log.bytes.len());
            let kept = left.log.kept.last().copied().unwrap_or(0);
            assert!(rt; first_bytes(&whole, answered.saturating_sub(lag)) <= kept);
        }
    }
    Ok(())
}

// The number of pairs that the first commits of `LINES` leave, by how many they are: `fig` and `n` are written by the first one, and
// nothing else.
const PAIRS: [usize; 4] = [0, 2, 2, 2];

// How many pairs are recovered of the base, the files of points, and of the log what was kept.
fn recovered(rt: &HostRuntime, left: &Left) -> Result<usize, Fail> {
    let alloc = rt.alloc();
    let mut base = Tally::new(Vec::new(alloc));
    Base::start(9, Vec::new(alloc)).encode(&mut base)?;
    let mut parts: Vec<&[u8]> = Vec::new(alloc);
    for text in &left.files {
        parts.push(text)?;
    }
    let mut log = Vec::new(alloc);
    log.extend_from_slice(HEADER)?;
    let kept = left.log.kept.last().copied().unwrap_or(0);
    log.extend_from_slice(left.log.bytes.get(..kept).unwrap_or(&[]))?;
    let found = recover(alloc, &base.into_inner(), &parts, &log)?;
    Ok(found.pairs.len())
}

// The log's device fails at each of its calls in turn, with points between the lines: of what was kept each commit that was answered is
// recovered, and nothing that wasn't asked.
#[test]
fn what_was_answered_is_recovered(rt: HostRuntime) -> Result<(), Fail> {
    for calls in 0..40 {
        let (step, every) = (1, 1);
        let left = served(
            &rt,
            Case {
                step,
                calls,
                every,
                ..SOUND
            },
        )?;
        let answered = commits_in(&left.sent);
        let least = PAIRS.get(answered).copied().unwrap_or(2);
        let pairs = recovered(&rt, &left)?;
        assert!(rt; least <= pairs);
        assert!(rt; pairs <= 2);
    }
    Ok(())
}

// Points are taken between the lines, and each file is kept, or the refusal is returned.
#[test]
fn files_of_points_are_kept(rt: HostRuntime) -> Result<(), Fail> {
    let left = served(&rt, Case { every: 1, ..SOUND })?;
    assert_eq!(rt; left.ended, Ok(Stopped::Ended));
    assert_eq!(rt; left.files.len(), 2);
    for (place, text) in left.files.iter().enumerate() {
        let part = Part::decode(rt.alloc(), text)?;
        assert_eq!(rt; part.run(), 9);
        assert_eq!(rt; part.ranges().len(), 1);
        assert_eq!(rt;
            part.ranges().first().map(|range| usize::from(range.low.0)),
            Some(place + 1)
        );
    }
    assert_eq!(rt; commits_in(&left.sent), 3);
    let lost = served(
        &rt,
        Case {
            every: 1,
            files: 0,
            ..SOUND
        },
    )?;
    assert_eq!(rt; lost.ended, Err(ServeFault::Refused(Refusal::Device)));
    Ok(())
}
