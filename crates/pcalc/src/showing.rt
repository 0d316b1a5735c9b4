//! A run, and a concurrent thread that shows its progress.
use crate::running::{Setting, run};
use pc_io::Tally;
use pc_options::RunOptions;
use std::io::Write;
use std::sync::Wait;
use std::thread::Threads;
use std::{io, thread};

/// Runs the workload as the options say; the status. If a line is to be shown on a terminal, a thread of its own shows it until the run
/// has ended; if that thread can't be started, nothing is shown.
pub fn run_shown<H: Threads + Wait + Sync, E: Write>(
    setting: &Setting<'_>,
    threads: &H,
    options: &RunOptions<'_>,
    errors: &mut Tally<E>,
) -> io::Result<u8> {
    let progress = setting.progress;
    if !progress.is_shown() {
        return run(setting, threads, options, errors);
    }
    thread::scope(thread::scope_env(), threads, |scope| -> io::Result<u8> {
        let _ = scope.spawn(move || progress.show_until_ended(threads));
        let ended = run(setting, threads, options, errors);
        progress.end(threads);
        ended
    })
}
