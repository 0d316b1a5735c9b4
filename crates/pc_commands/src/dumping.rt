//! The pairs recovered from a folder's files, a line for each.
ghost use Rattle.std.specs.Prelude.{◌≡◌, if◌then◌else◌};

use pc_disk::{Causes, FoundFolder, ReadFolder, open_folder, output_before, tell_unopened};
use pc_explanations::{About, Explainer, explain_output};
use pc_folders::RecoveredFolder;
use pc_io::Tally;
use pc_lines::text_of;
use pc_options::DumpOptions;
use pc_pairs::{Choice, Form, Undumped, run_dump};
use pc_restore::{tell_lost, tell_reason};
use pc_texts::report_words;
use pc_types::Point;
use std::borrow::CowSlice;
use std::io;
use std::io::Write;

/// The status of a dump of which not all went out.
const FAILED: u8 = 1;

/// The status of a dump with an invalid option.
const MISUSED: u8 = 2;

/// Prints the pairs of the folder as the options say; the status.
pub fn dump_folder<'a>(rt: &'a HostRuntime, options: &DumpOptions<'a>) -> io::Result<u8> {
    let causes = Causes::new(rt.alloc())?;
    let named = ReadFolder {
        rt,
        path: options.dir,
        causes: &causes,
    };
    let found = RecoveredFolder::find(named)?;
    dump_in(named, options, &found)
}

// Prints the pairs of the folder that was found; the status.
fn dump_in<'a>(
    named: ReadFolder<'a>,
    options: &DumpOptions<'_>,
    found: &'a RecoveredFolder,
) -> io::Result<u8> {
    let path = found.path.as_str();
    let about = About::Folder(path);
    let explainer = Explainer::new(named.rt, named.causes, about, options.is_explained);
    let stderr = named.rt.stderr();
    let mut errors = explainer.errors(io::writer(&stderr));
    let prefix = options.prefix.unwrap_or("-").as_bytes();
    let status = match text_of(named.rt.alloc(), prefix)? {
        Some(prefix) => {
            if found.tell(named, options.accepts_damage, &mut errors)? {
                dump(&explainer, path, options, &prefix, &mut errors)?
            } else {
                FAILED
            }
        }
        None => {
            let _ = report_words(b"--prefix", b"no word of bytes", &mut errors);
            MISUSED
        }
    };
    explain_output(&explainer, &mut errors);
    Ok(status)
}

fn dump<E: Write>(
    explainer: &Explainer<'_>,
    path: &str,
    options: &DumpOptions<'_>,
    prefix: &CowSlice<'_, u8>,
    errors: &mut Tally<E>,
) -> io::Result<u8> {
    let (rt, causes) = (explainer.rt, explainer.causes);
    let mut out = Tally::new(output_before(rt, causes, io::writer(rt))?);
    let dir = ReadFolder { rt, path, causes };
    if options.point.is_none() {
        explainer.tell_truncated(errors);
    }
    let choice = Choice {
        point: options.point.map(|point| Point(point)),
        space: options.space,
        prefix: prefix.as_slice(),
        form: form_of(options.is_json),
    };
    dump_to(dir, &choice, options.accepts_damage, &mut out, errors)
}

/// The form of lines, JSON or not.
pub fn form_of(is_json: bool) -> Form
    ensures { result ≡ (if is_json then Form.Json else Form.Words) }
{
    if is_json { Form::Json } else { Form::Words }
}

fn dump_to<W: Write, E: Write>(
    dir: ReadFolder<'_>,
    choice: &Choice<'_>,
    accepts_damage: bool,
    out: &mut Tally<W>,
    errors: &mut Tally<E>,
) -> io::Result<u8> {
    let FoundFolder { folder, unopened } = open_folder(dir)?;
    tell_unopened(&unopened, errors);
    let alloc = dir.rt.alloc();
    match run_dump(alloc, folder, choice, accepts_damage, out, errors) {
        None => Ok(0),
        Some(undumped) => {
            tell_undumped(dir.path.as_bytes(), &undumped, errors);
            Ok(FAILED)
        }
    }
}

// Writes the line that says why not all lines of the folder of this name were written.
fn tell_undumped<R, E: Write>(dir: &[u8], undumped: &Undumped<R>, errors: &mut Tally<E>) {
    match undumped {
        Undumped::Lost(lost) => tell_lost(dir, lost, errors),
        Undumped::NoPoint => {
            let _ = tell_reason(dir, b"NoPoint", errors);
        }
    }
}
