//! The program `pcalc`: it runs workloads, loads pairs, and hands all other commands to their crates.
#![tactic(auto)]

mod gate;
mod loading;
mod run_folder;
mod running;
mod showing;

use clap::Error;
use clap::error::ErrorKind;
use loading::load_folder;
use pc_commands::{dump_folder, join_parts, recover_folder, show_log, step_script, verify_paths};
use pc_disk::fill_places;
use pc_explanations::tell_ended;
use pc_options::{Task, task_of, unreadable};
use pc_serve::serve_folder;
use running::run_clients;
use std::process::ExitCode;
use std::sync::Wait;
use std::thread::Threads;
use std::{env, io};

fn main(rt: HostRuntime) -> ExitCode {
    match run_command(&rt, &rt) {
        Ok(status) => ExitCode::from(status),
        Err(_) => ExitCode::from(1),
    }
}

fn run_command<H: Threads + Wait + Sync>(rt: &HostRuntime, threads: &H) -> io::Result<u8> {
    let alloc = rt.alloc();
    let _places = fill_places(rt)?;
    let mut texts = Vec::new(alloc);
    match env::args(rt) {
        Ok(args) => {
            for text in args {
                texts.push(text)?;
            }
        }
        Err(e) if e.kind() == io::ErrorKind::InvalidData => return tell(rt, unreadable(alloc)),
        Err(e) => return Err(e),
    }
    let mut words: Vec<&str> = Vec::new(alloc);
    for text in &texts {
        words.push(text.as_str())?;
    }
    match task_of(alloc, &words) {
        Ok(Some(task)) => tell_ended(rt, task.name(), run_task(rt, threads, task)),
        Ok(None) => Ok(2),
        Err(e) => tell(rt, Err(e)),
    }
}

// Prints the fault of usage, or the help or the version that was asked for; the status. A fault of usage has its own, also if it can't
// be told.
fn tell(rt: &HostRuntime, told: Result<Error, Error>) -> io::Result<u8> {
    let e = match told {
        Ok(e) => e,
        Err(e) => e,
    };
    if e.kind() == ErrorKind::OutOfMemory {
        return Ok(1);
    }
    let printed = e.print(rt);
    if e.use_stderr() {
        return Ok(2);
    }
    printed?;
    Ok(0)
}

fn run_task<H: Threads + Wait + Sync>(rt: &HostRuntime, threads: &H, task: Task) -> io::Result<u8> {
    match task {
        Task::Step(options) => step_script(rt, &options),
        Task::Run(options) => run_clients(rt, threads, &options),
        Task::Collapse(options) => join_parts(rt, &options),
        Task::Recover(options) => recover_folder(rt, &options),
        Task::Log(options) => show_log(rt, &options),
        Task::Verify(options) => verify_paths(rt, &options),
        Task::Dump(options) => dump_folder(rt, &options),
        Task::Load(options) => load_folder(rt, &options),
        Task::Serve(options) => serve_folder(rt, &options),
    }
}
