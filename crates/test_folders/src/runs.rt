//! Runs into folders in memory, what is recovered of one, and a run that goes on from it.
ghost use Rattle.std.specs.Prelude.{◌≡◌};
ghost use Rattle.test_folders.specs.Left.{HasLeft};

use crate::memory::MemoryFolder;
use pc_io::Tally;
use pc_recover::{Recovered, recover};
use pc_restore::Folder;
use pc_runs::{Crew, Finished, NamedFolder, Origin, RunContext, RunFolder, Start, run_workload};
use pc_texts::{FileName, NamedFile};
use pc_types::{OpenGate, Point, Refusal};
use std::alloc::Global;
use std::hash::RandomState;
use std::sync::Wait;
use std::test::Fail;
use std::thread::Threads;

// Two clients, each with keys of its own, and two points.
const WORKLOAD: &[u8] =
    b"points 2\nclient 1\nfill a 20 x\nclient 2\nfill b 20 y\ntxn\ndel b000003\nend\n";

const PRINTED: &[u8] =
    b"commits 41\ngave up 0\npoints 2\ncollapsed 1-2 entries 40\nstate pairs 39\ncheck ok\n";

// Runs the workload into a folder in memory, by two workers and two collapsers.
fn run_into<'a, H: Threads + Wait + Sync>(
    rt: &H,
    alloc: Global,
    seed: RandomState,
    text: &'a [u8],
    out: &mut Tally<Vec<u8>>,
    errors: &mut Tally<Vec<u8>>,
) -> Finished<&'a [u8], &'a [u8], MemoryFolder, Vec<u8>>
    ensures { result.status ≡ 0 → HasLeft text.now result.folder }
{
    let opened: Result<&'a [u8], Refusal> = Ok(text);
    let workload = NamedFile {
        name: Vec::new(alloc),
        opened,
    };
    let start: Start<&'a [u8]> = Start::Empty(1);
    let origin = Origin {
        start,
        capacity: 100,
    };
    let crew = Crew {
        workers: 2,
        collapsers: 2,
        lag: 4,
        every: None,
        gate: &OpenGate,
    };
    let files = Ok(MemoryFolder::new(alloc));
    let folder = RunFolder {
        name: Vec::new(alloc),
        files,
    };
    let context = RunContext { alloc, seed, crew };
    run_workload(rt, &context, workload, origin, Some(folder), out, errors)
}

// What is recovered of the base, the two parts and the log, if all of them are there.
fn recovered(alloc: Global, folder: &MemoryFolder) -> Result<Option<Recovered>, Refusal> {
    let (Some(base), Some(log)) = (folder.text(FileName::Base), folder.text(FileName::Log)) else {
        return Ok(None);
    };
    let (Some(first), Some(second)) = (
        folder.text(FileName::Part(Point(1))),
        folder.text(FileName::Part(Point(2))),
    ) else {
        return Ok(None);
    };
    Ok(Some(recover(alloc, base, &[first, second], log)?))
}

// Whether these are the pairs of both fills but the one that was removed, and all of both files and of the log was used.
fn is_whole(found: &Recovered) -> bool {
    let counts = (
        found.point,
        found.entries,
        found.pairs.len(),
        found.skipped.len(),
    );
    counts == (Point(2), 51, 39, 0) && found.fault.is_none()
}

#[test]
fn a_run_leaves_what_it_committed(rt: HostRuntime) -> Result<(), Fail> {
    let alloc = rt.alloc();
    let seed = RandomState::new(&rt)?;
    let mut out = Tally::new(Vec::new(alloc));
    let mut errors = Tally::new(Vec::new(alloc));
    let finished = run_into(&rt, alloc, seed, WORKLOAD, &mut out, &mut errors);
    assert!(rt; out.into_inner().as_slice() == PRINTED);
    assert!(rt; errors.into_inner().is_empty());
    let folder = finished.folder.ok_or("no folder")?;
    let found = recovered(alloc, &folder)?.ok_or("a file is missing")?;
    assert!(rt; is_whole(&found));
    Ok(())
}

// A run that goes on from OLD: five keys more, and a point.
const NEXT_WORKLOAD: &[u8] = b"points 1\nclient 1\nfill c 5 z\n";

const NEXT_PRINTED: &[u8] =
    b"commits 5\ngave up 0\npoints 1\ncollapsed 1 entries 5\nstate pairs 44\ncheck ok\n";

// The files of the folder but the part of point 1: without it that of point 2 is skipped.
fn without_first_part<'a>(
    alloc: Global,
    folder: &'a MemoryFolder,
) -> Result<Folder<&'a [u8]>, Refusal> {
    let mut parts = Vec::new(alloc);
    let name = Vec::from_slice(alloc, b"part-00002.pcp")?;
    let opened = text_of(folder, FileName::Part(Point(2)));
    parts.push(NamedFile { name, opened })?;
    Ok(Folder {
        base: text_of(folder, FileName::Base),
        parts: Ok(parts),
        log: text_of(folder, FileName::Log),
    })
}

fn text_of(folder: &MemoryFolder, name: FileName) -> Result<&[u8], Refusal> {
    match folder.text(name) {
        Some(text) => Ok(text),
        None => Err(Refusal::NoFile),
    }
}

// Runs the next workload from the folder `old` into a new one in memory, by one worker and one collapser.
fn run_from<'a, H: Threads + Wait + Sync>(
    rt: &H,
    alloc: Global,
    old: NamedFolder<&'a [u8]>,
    seed: RandomState,
    out: &mut Tally<Vec<u8>>,
    errors: &mut Tally<Vec<u8>>,
) -> Finished<&'a [u8], &'a [u8], MemoryFolder, Vec<u8>> {
    let opened: Result<&'a [u8], Refusal> = Ok(NEXT_WORKLOAD);
    let workload = NamedFile {
        name: Vec::new(alloc),
        opened,
    };
    let origin = Origin {
        start: Start::Folder(old),
        capacity: 100,
    };
    let crew = Crew {
        workers: 1,
        collapsers: 1,
        lag: 4,
        every: None,
        gate: &OpenGate,
    };
    let folder = RunFolder {
        name: Vec::new(alloc),
        files: Ok(MemoryFolder::new(alloc)),
    };
    let context = RunContext { alloc, seed, crew };
    run_workload(rt, &context, workload, origin, Some(folder), out, errors)
}

// How a run has ended: its status, whether it hands back a folder, and its output and its messages.
#[derive(Drop)]
struct Ended {
    status: u8,
    has_folder: bool,
    printed: Vec<u8>,
    told: Vec<u8>,
}

// How the run from the folder `old` has ended, which has these files without the part of point 1.
fn ended_from<H: Threads + Wait + Sync>(
    rt: &H,
    alloc: Global,
    left: &MemoryFolder,
    accepts_damage: bool,
    seed: RandomState,
) -> Result<Ended, Refusal> {
    let old = NamedFolder {
        name: Vec::from_slice(alloc, b"old")?,
        folder: without_first_part(alloc, left)?,
        accepts_damage,
    };
    let mut out = Tally::new(Vec::new(alloc));
    let mut errors = Tally::new(Vec::new(alloc));
    let finished = run_from(rt, alloc, old, seed, &mut out, &mut errors);
    Ok(Ended {
        status: finished.status,
        has_folder: finished.folder.is_some(),
        printed: out.into_inner(),
        told: errors.into_inner(),
    })
}

// What a first run has left.
fn left_by_a_run<H: Threads + Wait + Sync>(
    rt: &H,
    alloc: Global,
    seed: RandomState,
) -> Option<MemoryFolder> {
    let mut out = Tally::new(Vec::new(alloc));
    let mut errors = Tally::new(Vec::new(alloc));
    run_into(rt, alloc, seed, WORKLOAD, &mut out, &mut errors).folder
}

#[test]
fn a_run_does_not_start_from_a_damaged_folder(rt: HostRuntime) -> Result<(), Fail> {
    let alloc = rt.alloc();
    let left = left_by_a_run(&rt, alloc, RandomState::new(&rt)?).ok_or("no folder")?;
    let ended = ended_from(&rt, alloc, &left, false, RandomState::new(&rt)?)?;
    assert!(rt; ended.status == 1 && !ended.has_folder && ended.printed.is_empty());
    let told: &[u8] = b"skipped part-00002.pcp Gap 1\npcalc: old: Damaged\n";
    assert!(rt; ended.told.as_slice() == told);
    Ok(())
}

#[test]
fn a_run_starts_from_a_damaged_folder_where_that_is_accepted(rt: HostRuntime) -> Result<(), Fail> {
    let alloc = rt.alloc();
    let left = left_by_a_run(&rt, alloc, RandomState::new(&rt)?).ok_or("no folder")?;
    let ended = ended_from(&rt, alloc, &left, true, RandomState::new(&rt)?)?;
    assert!(rt; ended.status == 0 && ended.has_folder);
    assert!(rt; ended.printed.as_slice() == NEXT_PRINTED);
    let told: &[u8] = b"skipped part-00002.pcp Gap 1\n";
    assert!(rt; ended.told.as_slice() == told);
    Ok(())
}
