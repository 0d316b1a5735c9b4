//! The state recovered from a base, parts and a log after a crash.

use pc_recover::{Recovered, recover};
use pc_types::{Point, Refusal};
use std::alloc::Global;
use std::test::Fail;
use test_support::{EMPTY_BASE, ONE_KEY, Pair, SIX_ENTRIES, THIRD_POINT, TWO_KEYS, are_pairs};

// At point 2, `a` was `2`.
const SECOND: [u8; 49] = *b"PCALCP02\
    \x00\x00\x00\x00\x00\x00\x00\x01\
    \x00\x00\x00\x01\x00\x00\x00\x02\x00\x00\x00\x02\
    \x00\x01\x00\x00a\x00\x00\x00\x02\x01\x00\x00\x00\x012\
    \x00\x00\x00\x00\x00\x01";

// At point 1, a key too long to be kept inline was a value of the same bytes.
const LONG: [u8; 81] = *b"PCALCP02\
    \x00\x00\x00\x00\x00\x00\x00\x01\
    \x00\x00\x00\x01\x00\x00\x00\x01\x00\x00\x00\x01\
    \x00\x11\x00\x000123456789abcdefg\x00\x00\x00\x01\x01\x00\x00\x00\x110123456789abcdefg\
    \x00\x00\x00\x00\x00\x01";

// A commit of the same key as such a value.
const LONG_LOG: [u8; 71] = *b"PCALCL02\
    \x00\x00\x00\x00\x00\x00\x00\x01\x00\x00\x00\x00\
    \x00\x00\x00\x2f\x01\x01\x00\x01\x00\x11\x00\x000123456789abcdefg\x01\x00\x00\x00\x11gfedcba9876543210";

// The part of another run, in format 01.
const OF_RUN_TWO: [u8; 47] = *b"PCALCP01\
    \x00\x00\x00\x00\x00\x00\x00\x02\
    \x00\x00\x00\x01\x00\x00\x00\x01\x00\x00\x00\x01\
    \x00\x01a\x00\x00\x00\x01\x01\x00\x00\x00\x011\
    \x00\x00\x00\x00\x00\x01";

// The part with one entry too many in its count.
const MISCOUNTED: [u8; 49] = *b"PCALCP02\
    \x00\x00\x00\x00\x00\x00\x00\x01\
    \x00\x00\x00\x01\x00\x00\x00\x01\x00\x00\x00\x01\
    \x00\x01\x00\x00a\x00\x00\x00\x01\x01\x00\x00\x00\x011\
    \x00\x00\x00\x00\x00\x02";

// A part of format 01 with another first byte.
const UNMARKED: [u8; 60] = *b"QCALCP01\
    \x00\x00\x00\x00\x00\x00\x00\x01\
    \x00\x00\x00\x01\x00\x00\x00\x01\x00\x00\x00\x01\
    \x00\x01a\x00\x00\x00\x01\x01\x00\x00\x00\x011\
    \x00\x01b\x00\x00\x00\x01\x01\x00\x00\x00\x019\
    \x00\x00\x00\x00\x00\x02";

// The log whose first token has a phase that there isn't.
const PHASE_FIVE: [u8; 98] = *b"PCALCL02\
    \x00\x00\x00\x00\x00\x00\x00\x01\x00\x00\x00\x00\
    \x00\x00\x00\x0f\x01\x01\x00\x01\x00\x01\x00\x00a\x01\x00\x00\x00\x011\
    \x00\x00\x00\x06\x02\x05\x00\x00\x00\x01\
    \x00\x00\x00\x06\x02\x02\x00\x00\x00\x01\
    \x00\x00\x00\x0f\x01\x01\x00\x01\x00\x01\x00\x00a\x01\x00\x00\x00\x013\
    \x00\x00\x00\x06\x02\x03\x00\x00\x00\x01\
    \x00\x00\x00\x06\x02\x04\x00\x00\x00\x01";

// The part of point 1 in format 01 without its last byte.
const CUT_PART: [u8; 46] = *b"PCALCP01\
    \x00\x00\x00\x00\x00\x00\x00\x01\
    \x00\x00\x00\x01\x00\x00\x00\x01\x00\x00\x00\x01\
    \x00\x01a\x00\x00\x00\x01\x01\x00\x00\x00\x011\
    \x00\x00\x00\x00\x00";

// The first two entries of the log of six, in format 01.
const OLD_LOG: [u8; 47] = *b"PCALCL01\
    \x00\x00\x00\x00\x00\x00\x00\x01\x00\x00\x00\x00\
    \x00\x00\x00\x0d\x01\x01\x00\x01\x00\x01a\x01\x00\x00\x00\x011\
    \x00\x00\x00\x06\x02\x01\x00\x00\x00\x01";

const LONG_KEY: &[u8] = b"0123456789abcdefg";

// Parts and the given number of first bytes of a log: the point and the entries that are found, the part that is skipped
// with its place, the log's fault, and the pairs.
struct RecoveryRow {
    parts: &'static [&'static [u8]],
    log: &'static [u8],
    cut: usize,
    point: u16,
    entries: usize,
    skipped: Option<(usize, Refusal)>,
    fault: Option<Refusal>,
    pairs: &'static [Pair],
}

const ROWS: [RecoveryRow; 17] = [
    RecoveryRow {
        parts: &[&CUT_PART, &TWO_KEYS],
        log: &OLD_LOG,
        cut: 46,
        point: 1,
        entries: 1,
        skipped: Some((0, Refusal::Short)),
        fault: Some(Refusal::Short),
        pairs: &[(b"a", b"1"), (b"b", b"1")],
    },
    RecoveryRow {
        parts: &[&ONE_KEY],
        log: &SIX_ENTRIES,
        cut: 98,
        point: 1,
        entries: 6,
        skipped: None,
        fault: None,
        pairs: &[(b"a", b"3")],
    },
    RecoveryRow {
        parts: &[&ONE_KEY],
        log: &SIX_ENTRIES,
        cut: 60,
        point: 1,
        entries: 3,
        skipped: None,
        fault: Some(Refusal::Short),
        pairs: &[(b"a", b"1")],
    },
    RecoveryRow {
        parts: &[&ONE_KEY],
        log: &SIX_ENTRIES,
        cut: 0,
        point: 1,
        entries: 0,
        skipped: None,
        fault: None,
        pairs: &[(b"a", b"1")],
    },
    RecoveryRow {
        parts: &[&ONE_KEY],
        log: &PHASE_FIVE,
        cut: 98,
        point: 1,
        entries: 1,
        skipped: None,
        fault: Some(Refusal::BadKind),
        pairs: &[(b"a", b"1")],
    },
    RecoveryRow {
        parts: &[&ONE_KEY, &UNMARKED],
        log: &SIX_ENTRIES,
        cut: 98,
        point: 1,
        entries: 6,
        skipped: Some((1, Refusal::BadMagic)),
        fault: None,
        pairs: &[(b"a", b"3")],
    },
    RecoveryRow {
        parts: &[&UNMARKED, &ONE_KEY],
        log: &SIX_ENTRIES,
        cut: 98,
        point: 1,
        entries: 6,
        skipped: Some((0, Refusal::BadMagic)),
        fault: None,
        pairs: &[(b"a", b"3")],
    },
    RecoveryRow {
        parts: &[&MISCOUNTED],
        log: &SIX_ENTRIES,
        cut: 98,
        point: 0,
        entries: 6,
        skipped: Some((0, Refusal::BadLength)),
        fault: None,
        pairs: &[(b"a", b"3")],
    },
    RecoveryRow {
        parts: &[&CUT_PART],
        log: &SIX_ENTRIES,
        cut: 49,
        point: 0,
        entries: 2,
        skipped: Some((0, Refusal::Short)),
        fault: None,
        pairs: &[(b"a", b"1")],
    },
    RecoveryRow {
        parts: &[&OF_RUN_TWO],
        log: &SIX_ENTRIES,
        cut: 20,
        point: 0,
        entries: 0,
        skipped: Some((0, Refusal::OtherRun)),
        fault: None,
        pairs: &[],
    },
    RecoveryRow {
        parts: &[&OF_RUN_TWO, &ONE_KEY],
        log: &SIX_ENTRIES,
        cut: 20,
        point: 1,
        entries: 0,
        skipped: Some((0, Refusal::OtherRun)),
        fault: None,
        pairs: &[(b"a", b"1")],
    },
    RecoveryRow {
        parts: &[&TWO_KEYS, &THIRD_POINT],
        log: &SIX_ENTRIES,
        cut: 0,
        point: 1,
        entries: 0,
        skipped: Some((1, Refusal::Gap(Point(2)))),
        fault: None,
        pairs: &[(b"a", b"1"), (b"b", b"1")],
    },
    RecoveryRow {
        parts: &[&THIRD_POINT, &TWO_KEYS],
        log: &SIX_ENTRIES,
        cut: 0,
        point: 1,
        entries: 0,
        skipped: Some((0, Refusal::Gap(Point(2)))),
        fault: None,
        pairs: &[(b"a", b"1"), (b"b", b"1")],
    },
    RecoveryRow {
        parts: &[&SECOND, &TWO_KEYS],
        log: &SIX_ENTRIES,
        cut: 0,
        point: 2,
        entries: 0,
        skipped: None,
        fault: None,
        pairs: &[(b"a", b"2"), (b"b", b"1")],
    },
    RecoveryRow {
        parts: &[&ONE_KEY, &ONE_KEY],
        log: &SIX_ENTRIES,
        cut: 98,
        point: 1,
        entries: 6,
        skipped: None,
        fault: None,
        pairs: &[(b"a", b"3")],
    },
    RecoveryRow {
        parts: &[&LONG],
        log: &LONG_LOG,
        cut: 71,
        point: 1,
        entries: 1,
        skipped: None,
        fault: None,
        pairs: &[(LONG_KEY, LONG_KEY)],
    },
    RecoveryRow {
        parts: &[&OF_RUN_TWO],
        log: &LONG_LOG,
        cut: 71,
        point: 0,
        entries: 1,
        skipped: Some((0, Refusal::OtherRun)),
        fault: None,
        pairs: &[(LONG_KEY, b"gfedcba9876543210")],
    },
];

fn recover_again(alloc: Global, parts: &[&[u8]], log: &[u8]) -> Result<Recovered, Refusal> {
    match recover(alloc, &EMPTY_BASE, parts, log) {
        Ok(recovered) => Ok(recovered),
        Err(Refusal::OutOfMemory) => recover(alloc, &EMPTY_BASE, parts, log),
        Err(why) => Err(why),
    }
}

// Whether the one part that was skipped, or none, is this.
fn is_skipped(recovered: &Recovered, wanted: Option<(usize, Refusal)>) -> bool {
    let found = recovered
        .skipped
        .first()
        .map(|part| (part.place, part.reason));
    recovered.skipped.len() < 2 && found == wanted
}

// What is found otherwise than the row has it.
fn wrong_in(recovered: &Recovered, row: &RecoveryRow) -> &'static str {
    if recovered.point != Point(row.point) || recovered.entries != row.entries {
        return "the point or the entries";
    }
    if !is_skipped(recovered, row.skipped) {
        return "what is skipped";
    }
    if recovered.fault != row.fault {
        return "the fault";
    }
    if are_pairs(&recovered.pairs, row.pairs) {
        "nothing"
    } else {
        "the pairs"
    }
}

fn wrong_of(alloc: Global, row: &RecoveryRow) -> Result<&'static str, Refusal> {
    let log = &row.log[..row.cut.min(row.log.len())];
    let recovered = recover_again(alloc, row.parts, log)?;
    Ok(wrong_in(&recovered, row))
}

// Whichever growth is refused, asked again the recovered state is the same.
#[test]
fn files_recover_the_same_at_each_refused_growth(rt: HostRuntime) -> Result<(), Fail> {
    for (i, row) in ROWS.iter().enumerate() {
        assert_eq!(rt; wrong_of(rt.alloc(), row)?, "nothing", "row {i}");
    }
    Ok(())
}
