//! The meanings of the words that report faults.

/// The meaning of the word, as the end of a sentence about a file or a call; `None` for a word that reports only a
/// failure of the system.
pub fn meaning_of(word: &[u8]) -> Option<&'static [u8]> {
    for (name, meaning) in MEANINGS {
        if word == name {
            return Some(meaning);
        }
    }
    None
}

const MEANINGS: [(&[u8], &[u8]); 26] = [
    (b"Short", b"the bytes end within a field"),
    (
        b"BadMagic",
        b"the first eight bytes are not those of such a file",
    ),
    (b"BadRanges", b"points that such a file can't have"),
    (b"KeyOrder", b"a key that is not above the one before it"),
    (b"BadKind", b"a kind that there is none of"),
    (b"BadLength", b"a length or a count that can't be"),
    (b"Trailing", b"bytes behind its end"),
    (b"NotCovered", b"an entry of another point than the file's"),
    (b"TokenOrder", b"a change of the phase out of its turn"),
    (b"OtherRun", b"of another run than the file before it"),
    (b"Conflict", b"a key has two contents at one point"),
    (b"Full", b"more keys than there is room for: see --capacity"),
    (
        b"LogFull",
        b"the log has 16777216 entries, and takes no more",
    ),
    (
        b"PointsFull",
        b"65535 points were taken, and there are no more",
    ),
    (
        b"ShelfFull",
        b"there are 65536 files, and no more can be made",
    ),
    (b"OutOfMemory", b"the system gave no memory for it"),
    (
        b"NoThread",
        b"the system starts no further thread: see --workers and --collapsers",
    ),
    (
        b"NotEmpty",
        b"it has files of a run, whose names are base.pcb, log.pcl or end in .pcp",
    ),
    (b"Busy", b"another process serves it"),
    (
        b"Moved",
        b"it was renamed or replaced while it was served, or its file `lock` was: what was answered is in what it was",
    ),
    (
        b"Mixed",
        b"it has the files of a run beside the generations of a served store, which has other pairs",
    ),
    (
        b"NoStore",
        b"it has no generation that counts: --create begins one",
    ),
    (b"NoFile", b"there is no such file"),
    (
        b"NoPoint",
        b"neither its parts nor its log reach the point of --point",
    ),
    (b"Device", b"it can't be used"),
    (
        b"Damaged",
        b"a part of it was skipped, or its log is missing or damaged: --damaged starts from it all the same",
    ),
];
