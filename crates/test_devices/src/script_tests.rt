//! Scripts whose reader or whose output fails, or for which there is no memory.
use crate::sink::{Sink, went_out};
use crate::tape::{Tape, TornOnce};
use pc_io::Tally;
use pc_script::{EndedScript, Setup, run_script};
use pc_texts::Unread;
use pc_types::Refusal;
use std::alloc::Global;
use std::hash::RandomState;
use std::io::{self, Read};
use std::test::Fail;

const SETUP: Setup = Setup {
    run: 1,
    sessions: 8,
    capacity: 1024,
};

// What scripts are run with.
#[derive(Clone, Copy)]
struct Runner {
    alloc: Global,
    seed: RandomState,
}

impl Runner {
    fn new(rt: &HostRuntime) -> io::Result<Runner> {
        Ok(Runner {
            alloc: rt.alloc(),
            seed: RandomState::new(rt)?,
        })
    }

    // The status of the script, and whether its output takes the expected text, and just this is reported; of a reader that is
    // handed back one read has failed, and one is handed back if and only if `Device` is reported.
    fn run<R: Read + Drop>(
        &self,
        name: &str,
        opened: Result<R, Refusal>,
        out: Sink,
        told: &[u8],
    ) -> (u8, bool) {
        let Runner { alloc, seed } = *self;
        let mut out = Tally::new(out);
        let mut errors = Tally::new(Sink::of(told));
        let ended = run_script(alloc, SETUP, seed, name, opened, &mut out, &mut errors);
        let is_read_told = failed_reads(&ended) == u64::from(told.ends_with(b": Device\n"));
        let is_told = went_out(out) && went_out(errors);
        (ended.status, is_told && is_read_told)
    }

    // Whether a script that can't be read is reported by its name, with the status 1 and nothing else.
    fn is_told<R: Read + Drop>(&self, name: &str, opened: Result<R, Refusal>, told: &[u8]) -> bool {
        self.run(name, opened, Sink::of(b""), told) == (1, true)
    }

    // The status of a script, and how much it prints and reports.
    fn outcome_of(&self, script: &[u8]) -> (u8, usize, usize) {
        let Runner { alloc, seed } = *self;
        let mut out = Tally::new(Vec::new(alloc));
        let mut errors = Tally::new(Vec::new(alloc));
        let ended = run_script(alloc, SETUP, seed, "s", Ok(script), &mut out, &mut errors);
        let (printed, told) = (out.into_inner().len(), errors.into_inner().len());
        (ended.status, printed, told)
    }
}

// The number of reads of the script that failed, if it is handed back for that; otherwise 0.
fn failed_reads<R>(ended: &EndedScript<R>) -> u64 {
    match &ended.unread {
        Some(Unread::Failed(reader)) => reader.failures(),
        _ => 0,
    }
}

#[test]
fn tells_of_a_script_that_cannot_be_read(rt: HostRuntime) -> Result<(), Fail> {
    let runner = Runner::new(&rt)?;
    let torn = Ok(Tape::new(b"bbb", true));
    assert!(rt; runner.is_told("a b", torn, b"pcalc: a\\x20b: Device\n"));
    let missing: Result<Tape, Refusal> = Err(Refusal::NoFile);
    assert!(rt; runner.is_told("c", missing, b"pcalc: c: NoFile\n"));
    Ok(())
}

// A read that fails isn't tried again, though it would succeed, and no line is answered.
#[test]
fn tells_of_a_reader_that_fails_once(rt: HostRuntime) -> Result<(), Fail> {
    let torn = Ok(TornOnce::new(b"begin 1\n", b"begin 2\n"));
    assert!(rt; Runner::new(&rt)?.is_told("s", torn, b"pcalc: s: Device\n"));
    Ok(())
}

const SCRIPT: &[u8] = b"begin 1\nfrob\ncommit 1\n";

const PRINTED: &[u8] = b"begun 1\nbad line\ncommitted 1\n";

// What the script prints goes out as far as the writer takes it, and nothing is reported.
#[test]
fn stops_where_the_output_fails(rt: HostRuntime) -> Result<(), Fail> {
    let runner = Runner::new(&rt)?;
    for room in 0..=PRINTED.len() {
        let status = if room < PRINTED.len() { 1u8 } else { 3 };
        let ran = runner.run("s", Ok(SCRIPT), Sink::new(PRINTED, room), b"");
        assert_eq!(rt; ran, (status, true), "{room}");
    }
    Ok(())
}

// The output takes all, and its flush fails.
#[test]
fn tells_nothing_of_a_flush_that_fails(rt: HostRuntime) -> Result<(), Fail> {
    let out = Sink::unflushed(b"begun 1\n");
    let ran = Runner::new(&rt)?.run("s", Ok(b"begin 1\n".as_slice()), out, b"");
    assert_eq!(rt; ran, (1, true));
    Ok(())
}

// If an allocation fails, each line is answered by its answer or by that refusal, and asking again is allowed.
#[test]
fn asks_again_after_want_of_memory(rt: HostRuntime) -> Result<(), Fail> {
    let script =
        "base a 1\nbase a 1\nbegin 1\nput 1 b 2\nput 1 b 2\nget 1 b\nget 1 b\ncommit 1\ncommit 1\n";
    let (status, printed, told) = Runner::new(&rt)?.outcome_of(script.as_bytes());
    assert!(rt; status == 0 || status == 1);
    assert!(rt; status == 1 || printed > 40);
    assert!(rt; told <= 22);
    Ok(())
}
