//! The line that begins a row.
ghost use Rattle.std.specs.Prelude.{◌≤◌};

use pc_script::Setup;
use pc_types::{MOST_KEYS, MOST_SESSIONS};
use std::alloc::Global;
use std::str;

/// What a row is.
#[derive(Clone, Copy)]
pub enum RowHead {
    /// A script.
    Step(ScriptStep),
    /// A folder to be recovered.
    Folder(FolderRow),
}

/// How a folder is recovered.
#[derive(Clone, Copy)]
pub struct FolderRow {
    /// With each prefix of its log, and not with all of it alone.
    pub has_cuts: bool,
    /// Strictly, and what is lacking is printed.
    pub is_strict: bool,
}

/// What a script's store is made with, and whether the end of its last line is left out.
#[derive(Clone, Copy)]
pub struct ScriptStep {
    pub setup: Setup,
    pub is_bare: bool,
}

/// What the line says; `None` if it has a word that isn't known, or a number out of its range, or an allocation failed.
pub fn head_of(alloc: Global, line: &[u8]) -> Option<RowHead> {
    let line = line.strip_suffix(b"\n").unwrap_or(line);
    let words: Vec<&[u8]> = line.split(|byte| *byte == b' ').collect(alloc).ok()?;
    match words.as_slice() {
        [_, _, b"step", options @ ..] => Some(RowHead::Step(step_of(options)?)),
        [_, _, b"recover", options @ ..] => Some(RowHead::Folder(folder_of(false, options)?)),
        [_, _, b"cuts", options @ ..] => Some(RowHead::Folder(folder_of(true, options)?)),
        _ => None,
    }
}

fn folder_of(has_cuts: bool, options: &[&[u8]]) -> Option<FolderRow> {
    let is_strict = match options {
        [] => false,
        [b"--strict"] => true,
        _ => return None,
    };
    Some(FolderRow {
        has_cuts,
        is_strict,
    })
}

// What an option's word is followed by.
#[derive(Clone, Copy)]
enum Next {
    Option,
    Sessions,
    Capacity,
    Run,
}

fn step_of(options: &[&[u8]]) -> Option<ScriptStep> {
    let (mut run, mut sessions, mut capacity, mut is_bare) = (1u32, 8u32, 1024u32, false);
    let mut next = Next::Option;
    for word in options {
        match next {
            Next::Sessions => sessions = number(word)?,
            Next::Capacity => capacity = number(word)?,
            Next::Run => run = number(word)?,
            Next::Option => is_bare = is_bare || *word == b"--bare".as_slice(),
        }
        next = after(next, word)?;
    }
    let setup = setup_of(run, sessions, capacity)?;
    Some(ScriptStep { setup, is_bare })
}

// What comes after the word; `None` after an option that isn't known.
fn after(next: Next, word: &[u8]) -> Option<Next> {
    if !matches!(next, Next::Option) {
        return Some(Next::Option);
    }
    match word {
        b"--sessions" => Some(Next::Sessions),
        b"--capacity" => Some(Next::Capacity),
        b"--run" => Some(Next::Run),
        b"--bare" => Some(Next::Option),
        _ => None,
    }
}

fn setup_of(run: u32, sessions: u32, capacity: u32) -> Option<Setup> {
    let sessions = u8::try_from(sessions).ok()?;
    if capacity < 1 || MOST_KEYS < capacity || sessions < 1 || MOST_SESSIONS < sessions {
        return None;
    }
    Some(Setup {
        run,
        sessions,
        capacity,
    })
}

fn number(word: &[u8]) -> Option<u32> {
    str::from_utf8(word).ok()?.parse::<u32>().ok()
}
