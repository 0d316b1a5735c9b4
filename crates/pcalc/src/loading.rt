//! A folder that is made of lines of pairs, or whose served store gets them.
use crate::run_folder::{Claim, NewFolder};
use pc_bases::Base;
use pc_commands::{BadPair, form_of, open_named};
use pc_disk::{BASE, Causes, LOG, ReadFolder};
use pc_explanations::{About, Explainer, explain_output};
use pc_folders::{Filling, fill_store, has_store};
use pc_io::Tally;
use pc_options::LoadOptions;
use pc_pairs::{Unloaded, load_base};
use pc_runs::{NewFiles, RunFolder, Unusable};
use pc_texts::{FileName, end_output, read_opened, report, report_words};
use pc_types::Refusal;
use std::io;
use std::io::Write;

/// The status of a load that failed.
const FAILED: u8 = 1;

/// The status of one with a line at fault.
const BAD_LINE: u8 = 3;

/// Makes the files of a run that has the pairs of the lines, or begins a served store's next generation with them, as the options
/// say; the status.
pub fn load_folder(rt: &HostRuntime, options: &LoadOptions<'_>) -> io::Result<u8> {
    let causes = Causes::new(rt.alloc())?;
    let explainer = Explainer::new(
        rt,
        &causes,
        About::Script(options.file),
        options.is_explained,
    );
    let stderr = rt.stderr();
    let mut errors = explainer.errors(io::writer(&stderr));
    let status = load(&explainer, options, &mut errors)?;
    explain_output(&explainer, &mut errors);
    Ok(status)
}

// Reads the lines, and makes the files if none is at fault.
fn load<E: Write>(
    explainer: &Explainer<'_>,
    options: &LoadOptions<'_>,
    errors: &mut Tally<E>,
) -> io::Result<u8> {
    let (rt, causes) = (explainer.rt, explainer.causes);
    let alloc = rt.alloc();
    let opened = open_named(rt, causes, options.file);
    let text = match read_opened(alloc, opened) {
        Ok(text) => text,
        Err(why) => return Ok(failed(options.file, why.refusal(), errors)),
    };
    let form = form_of(options.is_json);
    match load_base(alloc, u64::from(options.run), form, &text) {
        Ok(Some(base)) => keep(explainer, options, base, errors),
        Ok(None) => Ok(failed(options.dir, Refusal::Full, errors)),
        Err(Unloaded::NoMemory) => Ok(failed(options.file, Refusal::OutOfMemory, errors)),
        Err(Unloaded::Line(number, fault)) => {
            let bad = BadPair {
                form,
                text: &text,
                number,
                fault,
            };
            let _ = bad.tell(alloc, options.file, explainer.is_on, errors);
            Ok(BAD_LINE)
        }
    }
}

// Reports why the file of this name can't be read or made; the status.
fn failed<E: Write>(name: &str, why: Refusal, errors: &mut Tally<E>) -> u8 {
    let _ = report(name.as_bytes(), why, errors);
    FAILED
}

// Keeps the pairs in the folder: as the next generation of a served store, if it is the folder of one, or else as the files of a run.
fn keep<E: Write>(
    explainer: &Explainer<'_>,
    options: &LoadOptions<'_>,
    base: Base,
    errors: &mut Tally<E>,
) -> io::Result<u8> {
    let dir = ReadFolder {
        rt: explainer.rt,
        path: options.dir,
        causes: explainer.causes,
    };
    if has_store(dir) {
        let merges = options.merges;
        return fill_store(Filling { dir, merges }, base, errors);
    }
    let claim = Claim::new(dir, true)?;
    let made = make_in(&claim, &base, errors);
    claim.end();
    made
}

// Makes the files in the folder that was claimed.
fn make_in<E: Write>(claim: &Claim<'_>, base: &Base, errors: &mut Tally<E>) -> io::Result<u8> {
    let RunFolder { name, files } = claim.folder()?;
    let made = match files {
        Ok(mut folder) => make_files(claim, &mut folder, base),
        Err(Unusable::NotEmpty) => {
            let _ = report_words(&name, b"NotEmpty", errors);
            return Ok(FAILED);
        }
        Err(Unusable::Unlisted(why)) => {
            let _ = report(&name, why, errors);
            return Ok(FAILED);
        }
    };
    match made {
        Ok(()) => Ok(0),
        Err((file, why)) => Ok(failed(file, why, errors)),
    }
}

// Makes the log first, which has no entry, then the base; gives the file that can't be made, and why.
fn make_files(
    claim: &Claim<'_>,
    folder: &mut NewFolder<'_>,
    base: &Base,
) -> Result<(), (&'static str, Refusal)> {
    if let Err(why) = claim.head_log(base.run()) {
        return Err((LOG, why));
    }
    match make_base(folder, base) {
        Ok(()) => Ok(()),
        Err(why) => Err((BASE, why)),
    }
}

fn make_base(folder: &mut NewFolder<'_>, base: &Base) -> Result<(), Refusal> {
    let mut file = Tally::new(folder.make(&FileName::Base)?);
    let put = base.encode(&mut file);
    end_output(put, &mut file)?;
    folder.finish(&FileName::Base, file.into_inner())
}
