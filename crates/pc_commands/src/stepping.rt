//! A script that is run against a store.
use crate::parts::open_named;
use pc_disk::{Causes, Noted, output_before};
use pc_explanations::{About, Explainer, explain_output};
use pc_io::Tally;
use pc_options::StepOptions;
use pc_reasons::put_script_faults;
use pc_script::{Setup, run_script};
use pc_texts::read_opened;
use pc_types::Refusal;
use std::fs::File;
use std::hash::RandomState;
use std::io;
use std::io::{Read, Write};

/// The status of a script that has a bad line.
const BAD_LINES: u8 = 3;

/// Runs the script as the options say; the status. The seed of the hashes of its store is drawn before anything is opened; if the
/// system gives none, it is an error, and nothing is printed.
pub fn step_script(rt: &HostRuntime, options: &StepOptions<'_>) -> io::Result<u8> {
    let causes = Causes::new(rt.alloc())?;
    let explainer = Explainer::new(
        rt,
        &causes,
        About::Script(options.script),
        options.is_explained,
    );
    let stderr = rt.stderr();
    let mut errors = explainer.errors(io::writer(&stderr));
    let status = step_opened(&explainer, options, &mut errors)?;
    explain_output(&explainer, &mut errors);
    Ok(status)
}

fn step_opened<E: Write>(
    explainer: &Explainer<'_>,
    options: &StepOptions<'_>,
    errors: &mut Tally<E>,
) -> io::Result<u8> {
    let seed = RandomState::new(explainer.rt)?;
    let opened = open_named(explainer.rt, explainer.causes, options.script);
    if explainer.is_on {
        step_told(explainer, options, seed, opened, errors)
    } else {
        step(explainer, options, seed, opened, errors)
    }
}

// The setup of the store.
fn setup_of(options: &StepOptions<'_>) -> Setup {
    Setup {
        run: options.run,
        sessions: options.sessions,
        capacity: options.capacity,
    }
}

fn step<R: Read + Drop, E: Write>(
    explainer: &Explainer<'_>,
    options: &StepOptions<'_>,
    seed: RandomState,
    opened: Result<R, Refusal>,
    errors: &mut Tally<E>,
) -> io::Result<u8> {
    let rt = explainer.rt;
    let mut out = Tally::new(output_before(rt, explainer.causes, io::writer(rt))?);
    let setup = setup_of(options);
    let ended = run_script(
        rt.alloc(),
        setup,
        seed,
        options.script,
        opened,
        &mut out,
        errors,
    );
    Ok(ended.status)
}

// The same; then the reason for each bad line is printed. The script is read before, since it may be a pipe.
fn step_told<E: Write>(
    explainer: &Explainer<'_>,
    options: &StepOptions<'_>,
    seed: RandomState,
    opened: Result<Noted<'_, File>, Refusal>,
    errors: &mut Tally<E>,
) -> io::Result<u8> {
    let alloc = explainer.rt.alloc();
    match read_opened(alloc, opened) {
        Ok(text) => {
            let status = step(explainer, options, seed, Ok(text.as_slice()), errors)?;
            if status == BAD_LINES {
                let _ = put_script_faults(alloc, options.script.as_bytes(), &text, errors);
            }
            Ok(status)
        }
        Err(why) => {
            let unread: Result<&[u8], Refusal> = Err(why.refusal());
            step(explainer, options, seed, unread, errors)
        }
    }
}
