//! Texts of parts that are read piece by piece, and joined as they are read.
use crate::again::again;
use crate::collapses::{JOINED, TEXTS};
use pc_io::Tally;
use pc_merge::Entries;
use pc_stream_join::stream_join;
use pc_streams::PartReader;
use pc_types::Refusal;
use std::alloc::Global;
use std::test::Fail;

// More bytes than the join has, so that the output itself asks for no memory while it is written.
const ROOM: usize = 256;

// Whether a reader gives the two entries of the first part and then ends.
fn gives_all(alloc: Global) -> Result<bool, Refusal> {
    let mut reader = PartReader::new(alloc, Tally::new(TEXTS[0]));
    for count in 0..3 {
        let next = reader.next(Vec::new(alloc))?;
        if next.is_some() != (count < 2) {
            return Ok(false);
        }
    }
    Ok(reader.failures() == 0)
}

// Whether the texts are joined to the text of their join. If that is refused less than all of it may have gone out.
fn joins_all(alloc: Global) -> Result<bool, Refusal> {
    let mut out = Tally::new(Vec::with_capacity(alloc, ROOM)?);
    let mut inputs = Vec::new(alloc);
    for text in TEXTS {
        inputs.push(PartReader::new(alloc, Tally::new(text)))?;
    }
    let answer = stream_join(alloc, &mut inputs, &mut out);
    let is_whole = out.into_inner().as_slice() == JOINED;
    match answer {
        Ok(joined) => Ok(is_whole && joined.entries == 2 && joined.points.as_slice().len() == 3),
        Err(why) => {
            if is_whole {
                return Ok(false);
            }
            Err(why)
        }
    }
}

// Whichever growth is refused, a further reader gives the entries.
#[test]
fn a_text_is_read_at_each_refused_growth(rt: HostRuntime) -> Result<(), Fail> {
    assert!(rt; again(|| gives_all(rt.alloc()))?);
    Ok(())
}

// Whichever growth is refused, the text isn't whole then, and a further call writes it.
#[test]
fn texts_are_joined_at_each_refused_growth(rt: HostRuntime) -> Result<(), Fail> {
    assert!(rt; again(|| joins_all(rt.alloc()))?);
    Ok(())
}
