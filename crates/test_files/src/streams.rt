//! Parts that are joined as they are read.
use crate::found::put_refusal;
use crate::items::put_part;
use crate::kinds::Kind;
use crate::sweeps::put_read;
use crate::unions::put_text;
use pc_io::Tally;
use pc_part::Part;
use pc_stream_join::stream_join;
use pc_streams::PartReader;
use pc_types::Refusal;
use std::alloc::Global;
use std::io::Write;

/// Prints the join of the parts that the texts hold, as it is written while they are read; or why it isn't, and what is read of what
/// was written.
pub fn put_streamed<W: Write>(
    alloc: Global,
    texts: &[Vec<u8>],
    out: &mut Tally<W>,
) -> Result<(), Refusal> {
    let mut inputs = Vec::new(alloc);
    for text in texts {
        inputs.push(PartReader::new(alloc, Tally::new(text.as_slice())))?;
    }
    let mut written = Tally::new(Vec::new(alloc));
    match stream_join(alloc, &mut inputs, &mut written) {
        Ok(joined) => {
            let text = written.into_inner();
            let part = Part::decode(alloc, &text)?;
            let points = part.points(alloc)?;
            if points.as_slice() != joined.points.as_slice()
                || part.entries().len() as u64 != u64::from(joined.entries)
            {
                out.put(b"another number of points or entries was told\n")?;
            }
            put_part(alloc, &part, out)?;
            put_text(alloc, &text, out)
        }
        Err(refusal) => {
            put_refusal(alloc, refusal, out)?;
            put_read(alloc, Kind::Part, &written.into_inner(), out)
        }
    }
}
