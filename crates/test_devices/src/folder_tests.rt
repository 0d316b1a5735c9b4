//! Recoveries of folders whose files can't be opened or read, or whose output fails.
use crate::sink::{Sink, is_answered, went_out};
use crate::tape::{Tape, TornOnce};
use pc_io::Tally;
use pc_restore::{Folder, Lost, RecoveryMode, recover_base, run_recover, tell_lost};
use pc_texts::{NamedFile, Unread};
use pc_types::Refusal;
use std::alloc::{AllocError, Global};
use std::io::Read;
use std::test::Fail;
use test_support::{EMPTY_BASE, ONE_KEY, SIX_ENTRIES, THIRD_POINT, TWO_KEYS};

type Parts<'a> = Vec<NamedFile<Tape<'a>>>;

// The parts: of each its name, its bytes, or why it can't be opened, and whether it is torn after them.
fn parts_of<'a>(
    alloc: Global,
    files: &[(&str, Result<&'a [u8], Refusal>, bool)],
) -> Result<Parts<'a>, AllocError> {
    let mut parts = Vec::new(alloc);
    for (name, bytes, is_torn) in files {
        let name = Vec::from_slice(alloc, name.as_bytes())?;
        let opened = match *bytes {
            Ok(bytes) => Ok(Tape::new(bytes, *is_torn)),
            Err(why) => Err(why),
        };
        parts.push(NamedFile { name, opened })?;
    }
    Ok(parts)
}

// The folder with these parts, and nothing wrong else.
fn with_parts(parts: Result<Parts<'static>, Refusal>) -> Folder<Tape<'static>> {
    Folder {
        base: Ok(Tape::new(&EMPTY_BASE, false)),
        parts,
        log: Ok(Tape::new(&SIX_ENTRIES, false)),
    }
}

// The folder of a base alone.
fn alone<R>(alloc: Global, base: R) -> Folder<R> {
    Folder {
        base: Ok(base),
        parts: Ok(Vec::new(alloc)),
        log: Err(Refusal::NoFile),
    }
}

// The status of the recovery of the folder `d d`, and whether its output takes the expected text, and just this is reported; what is
// lacking is handed back if and only if the status isn't 1.
fn recover_as<R: Read + Drop>(
    alloc: Global,
    folder: Folder<R>,
    is_strict: bool,
    out: Sink,
    told: &str,
) -> (u8, bool) {
    let mut out = Tally::new(out);
    let mut errors = Tally::new(Sink::of(told.as_bytes()));
    let mode = RecoveryMode {
        is_strict,
        has_pairs: true,
    };
    let ended = run_recover(alloc, "d d", folder, mode, &mut out, &mut errors);
    let is_told = went_out(out) && went_out(errors);
    (
        ended.status,
        is_told && ended.lacks.is_some() == (ended.status != 1),
    )
}

fn recover<R: Read + Drop>(alloc: Global, folder: Folder<R>, out: Sink, told: &str) -> (u8, bool) {
    recover_as(alloc, folder, false, out, told)
}

// Whether the recovery of the folder has the status 1, prints nothing and reports this.
fn is_told<R: Read + Drop>(alloc: Global, folder: Folder<R>, told: &str) -> bool {
    recover(alloc, folder, Sink::of(b""), told) == (1, true)
}

// The folder of files' prefixes of the given number of bytes, of which one is torn: 1 is the base, 2 and 3 are the parts, and 4 is
// the log.
fn beginnings(alloc: Global, length: usize, torn: u8) -> Result<Folder<Tape<'static>>, AllocError> {
    let length = length.min(24);
    let files = [
        ("part-00001.pcp", Ok(&ONE_KEY[..length]), torn == 2),
        ("part-00002.pcp", Ok(&ONE_KEY[..length]), torn == 3),
    ];
    Ok(Folder {
        parts: Ok(parts_of(alloc, &files)?),
        base: Ok(Tape::new(&EMPTY_BASE[..length], torn == 1)),
        log: Ok(Tape::new(&SIX_ENTRIES[..length], torn == 4)),
    })
}

// The number of reads of a file that failed, if it is handed back for that; otherwise 0.
fn failed_reads<R>(lost: &Option<Lost<R>>) -> u64 {
    let unread = match lost {
        Some(Lost::Base(unread)) => unread,
        Some(Lost::Part(_, unread)) => unread,
        Some(Lost::Log(unread)) => unread,
        _ => return 0,
    };
    match unread {
        Unread::Failed(reader) => reader.failures(),
        _ => 0,
    }
}

// The number of reads that failed of the file that a recovery of the folder hands back.
fn failed_reads_of<R: Read + Drop>(alloc: Global, folder: Folder<R>) -> u64 {
    let mut out = Tally::new(Sink::of(b""));
    let mut errors = Tally::new(Sink::of(b""));
    let mode = RecoveryMode {
        is_strict: false,
        has_pairs: true,
    };
    let ended = run_recover(alloc, "d d", folder, mode, &mut out, &mut errors);
    failed_reads(&ended.lost)
}

// A file whose read failed is handed back, and has counted that one read.
#[test]
fn hands_back_a_reader_that_fails(rt: HostRuntime) -> Result<(), Fail> {
    for torn in 0..=4u8 {
        let folder = beginnings(rt.alloc(), 21, torn)?;
        let failed = u64::from(torn != 0);
        assert_eq!(rt; failed_reads_of(rt.alloc(), folder), failed, "{torn}");
    }
    Ok(())
}

// Each file is read whole, and its bytes before the failure don't count.
#[test]
fn tells_of_a_reader_that_fails(rt: HostRuntime) -> Result<(), Fail> {
    for (torn, told) in [
        (1u8, "pcalc: base.pcb: Device\n"),
        (2, "pcalc: part-00001.pcp: Device\n"),
        (3, "pcalc: part-00002.pcp: Device\n"),
        (4, "pcalc: log.pcl: Device\n"),
    ] {
        for length in [0usize, 21] {
            let folder = beginnings(rt.alloc(), length, torn)?;
            assert!(rt; is_told(rt.alloc(), folder, told), "{told} {length}");
        }
    }
    Ok(())
}

#[test]
fn tells_of_a_folder_that_cannot_be_listed(rt: HostRuntime) {
    for (why, told) in [
        (Refusal::NoFile, "pcalc: d\\x20d: NoFile\n"),
        (Refusal::Device, "pcalc: d\\x20d: Device\n"),
    ] {
        let folder = with_parts(Err(why));
        assert!(rt; is_told(rt.alloc(), folder, told), "{told}");
    }
}

#[test]
fn tells_of_a_part_that_cannot_be_opened(rt: HostRuntime) -> Result<(), Fail> {
    for (why, told) in [
        (Refusal::NoFile, "pcalc: x.pcp: NoFile\n"),
        (Refusal::Device, "pcalc: x.pcp: Device\n"),
    ] {
        let parts = parts_of(rt.alloc(), &[("x.pcp", Err(why), false)])?;
        let folder = with_parts(Ok(parts));
        assert!(rt; is_told(rt.alloc(), folder, told), "{told}");
    }
    Ok(())
}

// A log that is there and can't be opened is no missing log.
#[test]
fn tells_of_a_log_that_cannot_be_opened(rt: HostRuntime) {
    let mut folder = with_parts(Ok(Vec::new(rt.alloc())));
    folder.log = Err(Refusal::Device);
    assert!(rt; is_told(rt.alloc(), folder, "pcalc: log.pcl: Device\n"));
}

// A read that fails isn't tried again, though it would succeed.
#[test]
fn tells_of_a_reader_that_fails_once(rt: HostRuntime) {
    let (before, behind) = EMPTY_BASE.split_at(12);
    let folder = alone(rt.alloc(), TornOnce::new(before, behind));
    let recovered = recover(
        rt.alloc(),
        folder,
        Sink::of(b""),
        "pcalc: base.pcb: Device\n",
    );
    assert_eq!(rt; recovered, (1, true));
}

// The output takes all of a recovery, and its flush fails.
#[test]
fn tells_nothing_of_a_flush_that_fails(rt: HostRuntime) {
    let folder = alone(rt.alloc(), Tape::new(&EMPTY_BASE, false));
    let out = Sink::unflushed(b"point 0\nentries 0\npairs 0\n");
    assert_eq!(rt; recover(rt.alloc(), folder, out, ""), (1, true));
}

// A log up to its first token, whose phase there isn't.
const PHASE_FIVE: [u8; 49] = *b"PCALCL02\
    \x00\x00\x00\x00\x00\x00\x00\x01\x00\x00\x00\x00\
    \x00\x00\x00\x0f\x01\x01\x00\x01\x00\x01\x00\x00a\x01\x00\x00\x00\x011\
    \x00\x00\x00\x06\x02\x05\x00\x00\x00\x01";

// The folder with the parts of two keys and of the third point, and that log.
fn damaged(alloc: Global) -> Result<Folder<Tape<'static>>, AllocError> {
    let files = [
        ("part-00001.pcp", Ok(TWO_KEYS.as_slice()), false),
        ("part-00003.pcp", Ok(THIRD_POINT.as_slice()), false),
    ];
    let mut folder = with_parts(Ok(parts_of(alloc, &files)?));
    folder.log = Ok(Tape::new(&PHASE_FIVE, false));
    Ok(folder)
}

// What is recovered of them.
const RECOVERED: [u8; 75] = *b"point 1\nentries 1\nlog BadKind\n\
    skipped part-00003.pcp Gap 2\npairs 2\na 1\nb 1\n";

// What they lack: the log ends before the token of the recovered point, too.
const LACKED: [u8; 54] = *b"log unused 1\nlog BadKind\nskipped part-00003.pcp Gap 2\n";

// If fewer bytes go out than there are, the status is 1, else it is 0, or 4 of a strict recovery; nothing is reported.
#[test]
fn stops_where_the_output_fails(rt: HostRuntime) -> Result<(), Fail> {
    for (is_strict, whole) in [(false, 0u8), (true, 4)] {
        for room in 0..=RECOVERED.len() {
            let status = if room < RECOVERED.len() { 1 } else { whole };
            let folder = damaged(rt.alloc())?;
            let out = Sink::new(&RECOVERED, room);
            let recovered = recover_as(rt.alloc(), folder, is_strict, out, "");
            assert_eq!(rt; recovered, (status, true), "{room}");
        }
    }
    Ok(())
}

// The base of the run after that of the parts of two keys, with the state recovered from them.
const NEXT_BASE: [u8; 44] = *b"PCALCB02\
    \x00\x00\x00\x00\x00\x00\x00\x02\
    \x00\x00\x00\x00\x00\x00\x00\x02\
    \x00\x01\x00\x00a\x00\x00\x00\x011\
    \x00\x01\x00\x00b\x00\x00\x00\x011";

// Whether the base is made of the damaged folder, and what that lacks goes out as far as a writer with this much room takes it.
fn is_made(alloc: Global, folder: Folder<Tape>, room: usize) -> bool {
    let mut errors = Tally::new(Sink::new(&LACKED, room));
    let Ok(base) = recover_base(alloc, folder, true, &mut errors) else {
        return false;
    };
    let mut out = Tally::new(Sink::of(&NEXT_BASE));
    let encoded = base.encode(&mut out).err();
    went_out(errors) && is_answered(out, encoded)
}

// A writer that takes less of that than there is keeps no base from being made.
#[test]
fn makes_a_base_of_a_damaged_folder(rt: HostRuntime) -> Result<(), Fail> {
    for room in 0..LACKED.len() + 2 {
        let folder = damaged(rt.alloc())?;
        assert!(rt; is_made(rt.alloc(), folder, room), "{room}");
    }
    Ok(())
}

// Whether no base is made of the folder if damage isn't accepted, and just this is reported of that, by the name `d d`.
fn is_refused(alloc: Global, folder: Folder<Tape>, told: &str) -> bool {
    let mut errors = Tally::new(Sink::of(told.as_bytes()));
    let Err(lost) = recover_base(alloc, folder, false, &mut errors) else {
        return false;
    };
    tell_lost(b"d d", &lost, &mut errors);
    matches!(lost, Lost::Damaged) && went_out(errors)
}

// Damage is reported before.
#[test]
fn makes_no_base_of_a_damaged_folder(rt: HostRuntime) -> Result<(), Fail> {
    let told = "log unused 1\nlog BadKind\nskipped part-00003.pcp Gap 2\npcalc: d\\x20d: Damaged\n";
    assert!(rt; is_refused(rt.alloc(), damaged(rt.alloc())?, told));
    Ok(())
}

// The folder of a base and the given number of first bytes of a log.
fn with_log(alloc: Global, length: usize) -> Folder<Tape<'static>> {
    let mut folder = alone(alloc, Tape::new(&EMPTY_BASE, false));
    folder.log = Ok(Tape::new(&SIX_ENTRIES[..length.min(SIX_ENTRIES.len())], false));
    folder
}

// A log that isn't there is damage as one that ends in its header is.
#[test]
fn makes_no_base_beside_a_log_without_its_header(rt: HostRuntime) {
    let folder = alone(rt.alloc(), Tape::new(&EMPTY_BASE, false));
    let told = "log NoFile\npcalc: d\\x20d: Damaged\n";
    assert!(rt; is_refused(rt.alloc(), folder, told));
    for length in [0usize, 1, 19] {
        let folder = with_log(rt.alloc(), length);
        let told = "log Short\npcalc: d\\x20d: Damaged\n";
        assert!(rt; is_refused(rt.alloc(), folder, told), "{length}");
    }
}

// Whether a base is made of the folder if damage isn't accepted, and just this is reported.
fn is_taken(alloc: Global, folder: Folder<Tape>, told: &str) -> bool {
    let mut errors = Tally::new(Sink::of(told.as_bytes()));
    recover_base(alloc, folder, false, &mut errors).is_ok() && went_out(errors)
}

// A log that is truncated is no damage, at whatever byte after its header.
#[test]
fn makes_a_base_beside_a_log_that_is_cut_off(rt: HostRuntime) {
    for length in 20..=SIX_ENTRIES.len() {
        let folder = with_log(rt.alloc(), length);
        assert!(rt; is_taken(rt.alloc(), folder, ""), "{length}");
    }
}

// Nor is one that ends before the token of the point whose part is there, but that is reported.
#[test]
fn makes_a_base_of_a_point_whose_token_is_cut_off(rt: HostRuntime) -> Result<(), Fail> {
    let parts = parts_of(rt.alloc(), &[("part-00001.pcp", Ok(&TWO_KEYS), false)])?;
    let mut folder = with_log(rt.alloc(), 20);
    folder.parts = Ok(parts);
    assert!(rt; is_taken(rt.alloc(), folder, "log unused 0\n"));
    Ok(())
}

// An empty base of the last run that there may be.
const LAST_RUN: [u8; 24] = *b"PCALCB02\
    \xff\xff\xff\xff\xff\xff\xff\xff\
    \x00\x00\x00\x00\x00\x00\x00\x00";

// Why no base is made of the folder of a base alone, if that is a fault of the folder, and whether nothing is reported.
fn why_unmade(alloc: Global, base: &'static [u8]) -> (Option<Refusal>, bool) {
    let mut errors = Tally::new(Sink::of(b""));
    let folder = alone(alloc, Tape::new(base, false));
    let made = recover_base(alloc, folder, false, &mut errors);
    let why = match &made {
        Err(Lost::Folder(why)) => Some(*why),
        _ => None,
    };
    (why, went_out(errors))
}

// Though the log isn't there either, which is reported last.
#[test]
fn makes_no_base_behind_the_last_run(rt: HostRuntime) {
    for (base, why) in [
        (&LAST_RUN[..], Refusal::Full),
        (&LAST_RUN[..23], Refusal::Short),
    ] {
        assert_eq!(rt; why_unmade(rt.alloc(), base), (Some(why), true));
    }
}
