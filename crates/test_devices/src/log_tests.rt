//! Logs go out as far as the writer takes them.
ghost use Rattle.std.specs.Prelude.{◌≡◌, true};
ghost use Rattle.pc_model.specs.FewWrites.{HasFewWrites};

use crate::sink::{Sink, stops_at};
use pc_io::Tally;
use pc_log::{encode_entry, encode_header, encode_log, read_log};
use pc_types::{Entry, MOST_WRITES, Phase, Point, Refusal};
use std::test::Fail;
use test_support::SIX_ENTRIES;

// Run 258, with one token.
const ONE_TOKEN: [u8; 30] = *b"PCALCL02\x00\x00\x00\x00\x00\x00\x01\x02\x00\x00\x00\x00\
    \x00\x00\x00\x06\x02\x01\x00\x00\x00\x01";

fn has_few_writes(entry: &Entry) -> bool
    ensures { result ≡ true → HasFewWrites entry.now }
{
    match entry {
        Entry::Commit(_, writes) => writes.len() <= MOST_WRITES,
        Entry::Token(_, _) => true,
    }
}

fn put_entries(out: &mut Tally<Sink>, entries: &[Entry]) -> Result<(), Refusal> {
    encode_header(out, 1)?;
    for entry in entries {
        if has_few_writes(entry) {
            encode_entry(out, entry)?;
        }
    }
    Ok(())
}

// The writer takes each number of bytes in turn: that many of them go out, and a failure is returned.
#[test]
fn a_log_goes_out_as_far_as_the_writer_takes_it(rt: HostRuntime) -> Result<(), Fail> {
    let text = read_log(rt.alloc(), &SIX_ENTRIES)?;
    assert_eq!(rt;
        stops_at(&SIX_ENTRIES, |out| put_entries(out, &text.entries)),
        None
    );
    Ok(())
}

#[test]
fn a_whole_log_goes_out(rt: HostRuntime) {
    let entries = [Entry::Token(Phase::Prepare, Point(1))];
    assert_eq!(rt;
        stops_at(&ONE_TOKEN, |out| encode_log(out, 258, &entries)),
        None
    );
}
