//! A run of a workload: its files, its progress, and its final report.
use crate::gate::RunGate;
use crate::run_folder::Claim;
use crate::showing::run_shown;
use pc_commands::{is_same_file, open_named};
use pc_disk::{
    Causes, FoundFolder, LateFile, Noted, ReadFolder, Target, folder_of, output_before,
    tell_unopened,
};
use pc_explanations::{About, Explainer, explain_output, is_explained};
use pc_folders::{RecoveredFolder, open_start};
use pc_io::Tally;
use pc_jobs::{WorkloadReading, read_workload};
use pc_options::RunOptions;
use pc_progress::{Asked, Behind, Progress};
use pc_reasons::{put_workload_fault, workload_fault};
use pc_runs::{Crew, NamedFolder, Origin, RunContext, Start, run_workload};
use pc_texts::{NamedFile, read_opened, report, report_words};
use pc_types::Refusal;
use std::alloc::{AllocError, Global};
use std::fs::File;
use std::hash::RandomState;
use std::io;
use std::io::{BufWriter, Read, Write};
use std::string::String;
use std::sync::Wait;
use std::thread::Threads;

/// The status of a run that failed.
const FAILED: u8 = 1;

/// The status of a run that was asked for in a way that can't be.
const MISUSED: u8 = 2;

/// The status of a run whose workload has a bad line.
const BAD_LINE: u8 = 3;

/// The inputs of a run besides its options.
#[derive(Drop)]
pub struct Setting<'a> {
    rt: &'a HostRuntime,
    causes: &'a Causes,
    /// Its counts, which may be shown.
    pub progress: &'a Progress<'a>,
    // The folder from whose state it starts, if any.
    from: Option<&'a RecoveredFolder>,
    // Whether faults are explained.
    is_explained: bool,
}

/// Runs the workload as the options say, and writes the reports that were asked for; the status.
pub fn run_clients<H: Threads + Wait + Sync>(
    rt: &HostRuntime,
    threads: &H,
    options: &RunOptions<'_>,
) -> io::Result<u8> {
    let causes = Causes::new(rt.alloc())?;
    let is_on = is_explained(rt, options.is_explained);
    let progress = Progress::new(rt, asked(options, is_on))?;
    let found = found_start(rt, &causes, options)?;
    let from = found.as_ref();
    let setting = Setting {
        rt,
        causes: &causes,
        progress: &progress,
        from,
        is_explained: is_on,
    };
    run_told(&setting, threads, options)
}

// The folder from whose state it starts, if any.
fn found_start(
    rt: &HostRuntime,
    causes: &Causes,
    options: &RunOptions<'_>,
) -> Result<Option<RecoveredFolder>, AllocError> {
    match options.from {
        Some(path) => Ok(Some(RecoveredFolder::find(ReadFolder { rt, path, causes })?)),
        None => Ok(None),
    }
}

// Runs the workload, and reports its faults; the status.
fn run_told<H: Threads + Wait + Sync>(
    setting: &Setting<'_>,
    threads: &H,
    options: &RunOptions<'_>,
) -> io::Result<u8> {
    let rt = setting.rt;
    let explainer = Explainer::new(
        rt,
        setting.causes,
        about(setting, options),
        setting.is_explained,
    );
    let stderr = rt.stderr();
    let behind = Behind::new(setting.progress, threads, io::writer(&stderr));
    let mut errors = explainer.errors(behind);
    let is_told = is_from_told(setting, options, &mut errors)?;
    if is_told {
        explainer.tell_truncated(&mut errors);
    }
    let status = match options.times {
        _ if !is_told => FAILED,
        Some(path) => run_timed(setting, threads, options, path, &mut errors)?,
        None => run_shown(setting, threads, options, &mut errors)?,
    };
    explain_output(&explainer, &mut errors);
    Ok(status)
}

// Reports what is lacking of the folder from whose state it starts, if there is one; whether it can start.
fn is_from_told<E: Write>(
    setting: &Setting<'_>,
    options: &RunOptions<'_>,
    errors: &mut Tally<E>,
) -> Result<bool, AllocError> {
    let (Some(from), Some(path)) = (setting.from, options.from) else {
        return Ok(true);
    };
    let named = ReadFolder {
        rt: setting.rt,
        path,
        causes: setting.causes,
    };
    from.tell(named, options.accepts_damage, errors)
}

// The subject of its faults.
fn about<'a>(setting: &Setting<'a>, options: &RunOptions<'_>) -> About<'a> {
    match setting.from {
        Some(from) => About::Start(from.path.as_str(), options.capacity),
        None => About::Run,
    }
}

// The counts that are asked for.
fn asked(options: &RunOptions<'_>, is_explained: bool) -> Asked {
    Asked {
        is_quiet: options.is_quiet,
        has_log: options.folder.is_some(),
        is_reported: options.is_reported || is_explained,
        is_timed: options.times.is_some(),
    }
}

// Runs the workload, and writes its times to the file of this path, which is made before and gets its name in the end, if all else
// was done.
fn run_timed<H: Threads + Wait + Sync, E: Write>(
    setting: &Setting<'_>,
    threads: &H,
    options: &RunOptions<'_>,
    path: &str,
    errors: &mut Tally<E>,
) -> io::Result<u8> {
    let rt = setting.rt;
    if let Some(words) = why_not_times(setting, options, path) {
        let _ = report_words(path.as_bytes(), words, errors);
        return Ok(MISUSED);
    }
    let mut target = Target::new(rt, setting.causes, String::from_str(rt.alloc(), path)?);
    let file = match target.make() {
        Ok(file) => file,
        Err(why) => {
            let _ = report(path.as_bytes(), why, errors);
            return Ok(FAILED);
        }
    };
    let status = match run_shown(setting, threads, options, errors) {
        Ok(0) => put_times(setting, options, &mut target, file, errors),
        other => other,
    };
    target.discard();
    status
}

// Why the times aren't written to this file, if they aren't: it is the workload, or is among the files of a run.
fn why_not_times(
    setting: &Setting<'_>,
    options: &RunOptions<'_>,
    path: &str,
) -> Option<&'static [u8]> {
    let rt = setting.rt;
    if path == options.workload || is_same_file(rt, path, options.workload) {
        return Some(b"the workload has this name");
    }
    let folder = folder_of(path);
    if let Some(dir) = options.folder {
        if is_same_file(rt, folder, dir) {
            return Some(b"it would stand in the folder of --dir");
        }
    }
    if let Some(from) = setting.from {
        if is_same_file(rt, folder, from.path.as_str()) {
            return Some(b"it would stand in the folder of --from");
        }
    }
    None
}

// Writes the times, and gives their file its name; the status.
fn put_times<'a, E: Write>(
    setting: &Setting<'_>,
    options: &RunOptions<'_>,
    target: &mut Target<'a>,
    file: Noted<'a, File>,
    errors: &mut Tally<E>,
) -> io::Result<u8> {
    let mut kept = BufWriter::new(setting.rt.alloc(), file)?;
    let written = match write_times(setting.progress, &mut kept) {
        Ok(()) => target.finish(kept.get_ref(), options.is_synced),
        Err(_) => Err(Refusal::Device),
    };
    match written {
        Ok(()) => Ok(0),
        Err(why) => {
            let _ = report(target.path().as_bytes(), why, errors);
            Ok(FAILED)
        }
    }
}

fn write_times<W: Write>(progress: &Progress<'_>, out: &mut W) -> io::Result<()> {
    progress.put_times(out)?;
    out.flush()
}

// The start of a run: the seed of the hashes of its store, its hold on its folder, if there is one, and its workload.
#[derive(Drop)]
struct Source<'a, R> {
    seed: RandomState,
    claim: Option<&'a Claim<'a>>,
    opened: Result<R, Refusal>,
}

/// Runs the workload in its folder, if there is one, which is claimed before all else; the status.
pub fn run<H: Threads + Wait + Sync, E: Write>(
    setting: &Setting<'_>,
    threads: &H,
    options: &RunOptions<'_>,
    errors: &mut Tally<E>,
) -> io::Result<u8> {
    // The seed is drawn before anything is opened.
    let seed = RandomState::new(setting.rt)?;
    let Some(path) = options.folder else {
        return run_opened(setting, threads, options, seed, None, errors);
    };
    let dir = ReadFolder {
        rt: setting.rt,
        path,
        causes: setting.causes,
    };
    let Ok(claim) = Claim::new(dir, options.is_synced) else {
        let _ = report(path.as_bytes(), Refusal::OutOfMemory, errors);
        return Ok(FAILED);
    };
    let status = run_opened(setting, threads, options, seed, Some(&claim), errors);
    claim.end();
    status
}

// Runs the workload. If faults are explained it is read before, since it may be a pipe, and the reason for its bad line is printed.
fn run_opened<H: Threads + Wait + Sync, E: Write>(
    setting: &Setting<'_>,
    threads: &H,
    options: &RunOptions<'_>,
    seed: RandomState,
    claim: Option<&Claim<'_>>,
    errors: &mut Tally<E>,
) -> io::Result<u8> {
    let opened = open_named(setting.rt, setting.causes, options.workload);
    if !setting.is_explained {
        let source = Source {
            seed,
            claim,
            opened,
        };
        return run_in(setting, threads, options, source, errors);
    }
    let text = match read_opened(setting.rt.alloc(), opened) {
        Ok(text) => text,
        Err(why) => {
            let opened: Result<&[u8], Refusal> = Err(why.refusal());
            let source = Source {
                seed,
                claim,
                opened,
            };
            return run_in(setting, threads, options, source, errors);
        }
    };
    let opened = Ok(text.as_slice());
    let source = Source {
        seed,
        claim,
        opened,
    };
    let status = run_in(setting, threads, options, source, errors)?;
    if status == BAD_LINE {
        let _ = tell_bad_line(setting.rt.alloc(), options.workload, &text, errors);
    }
    Ok(status)
}

// Reports why the first bad line of the workload is bad.
fn tell_bad_line<E: Write>(
    alloc: Global,
    name: &str,
    text: &[u8],
    errors: &mut Tally<E>,
) -> Result<(), Refusal> {
    let WorkloadReading::BadLine(number) = read_workload(alloc, text)? else {
        return Ok(());
    };
    match workload_fault(alloc, text, number)? {
        Some(fault) => put_workload_fault(name.as_bytes(), number, fault, errors),
        None => Ok(()),
    }
}

// Runs the workload, and prints what it leaves, and its report if that is asked for.
fn run_in<R: Read + Drop, H: Threads + Wait + Sync, E: Write>(
    setting: &Setting<'_>,
    threads: &H,
    options: &RunOptions<'_>,
    source: Source<'_, R>,
    errors: &mut Tally<E>,
) -> io::Result<u8> {
    let (rt, progress) = (setting.rt, setting.progress);
    let alloc = rt.alloc();
    let Source {
        seed,
        claim,
        opened,
    } = source;
    let writer = Behind::new(progress, threads, io::writer(rt));
    let mut out = Tally::new(output_before(rt, setting.causes, writer)?);
    let folder = match claim {
        Some(claim) => Some(claim.folder()?),
        None => None,
    };
    let name = Vec::from_slice(alloc, options.workload.as_bytes())?;
    let file = NamedFile { name, opened };
    let origin = origin_of(setting, options, errors)?;
    let gate = RunGate { progress };
    let crew = Crew {
        workers: options.workers,
        collapsers: options.collapsers,
        lag: options.lag,
        every: options.every,
        gate: &gate,
    };
    let context = RunContext { alloc, seed, crew };
    let finished = run_workload(threads, &context, file, origin, folder, &mut out, errors);
    let status = finished.status;
    progress.end(threads);
    if status == 0 && options.is_reported {
        progress.put_report(&mut out)?;
        out.flush()?;
    } else if status == 0 && setting.is_explained {
        let _ = progress.put_causes(errors);
    }
    Ok(status)
}

// The start of the store. Of a folder, parts whose names are no UTF-8 are reported.
fn origin_of<'a, E: Write>(
    setting: &Setting<'a>,
    options: &RunOptions<'_>,
    errors: &mut Tally<E>,
) -> Result<Origin<LateFile<'a>>, AllocError> {
    let start = match setting.from {
        Some(from) => {
            let path = from.path.as_str();
            let dir = ReadFolder {
                rt: setting.rt,
                path,
                causes: setting.causes,
            };
            let FoundFolder { folder, unopened } = open_start(dir)?;
            tell_unopened(&unopened, errors);
            let name = Vec::from_slice(setting.rt.alloc(), path.as_bytes())?;
            Start::Folder(NamedFolder {
                name,
                folder,
                accepts_damage: options.accepts_damage,
            })
        }
        None => Start::Empty(u64::from(options.run)),
    };
    let capacity = options.capacity;
    Ok(Origin { start, capacity })
}
