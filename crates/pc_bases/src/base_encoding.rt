//! The text of a base file goes out.
ghost use Rattle.std.specs.Prelude.{◌≡◌, OnOk};
ghost use Rattle.std.specs.List.{All, flat_map};
ghost use Rattle.pc_io.specs.Tallies.{Puts};
ghost use Rattle.pc_bases.specs.Lawful.{IsPair, IsBaseFile};
ghost use Rattle.pc_bases.specs.Texts.{base_head_text, base_pair_text, base_text};

use crate::base::Base;
use byteorder::{BigEndian, ByteOrder};
use pc_io::Tally;
use pc_types::{Key, Refusal, SPACE_BYTES, Value};
use std::io::Write;

const MAGIC: [u8; 8] = *b"PCALCB02";

impl Base {
    /// Writes the text of the base in format 02, from which `decode` reads the same base. It allocates no memory, and refuses
    /// with `Device` if and only if the device failed; then a prefix of the text went out, and not all of it.
    pub fn encode<W: Write>(&self, out: &mut Tally<W>) -> Result<(), Refusal>
        ensures text { Puts W.contents out.old out.new result (base_text self.now) }
        ensures lawful { OnOk result (IsBaseFile self.now) }
    {
        let run = self.run();
        let point = u32::from(self.point().0);
        let pairs = self.pairs();
        put_head(out, run, point, pairs.len() as u32)?;
        put_pairs(out, pairs)
    }
}

// The header before the pairs.
fn put_head<W: Write>(out: &mut Tally<W>, run: u64, point: u32, count: u32) -> Result<(), Refusal>
    ensures { Puts W.contents out.old out.new result (base_head_text run point count) }
{
    let mut run_bytes = [0u8; 8];
    BigEndian::write_u64(&mut run_bytes, run);
    let mut point_bytes = [0u8; 4];
    BigEndian::write_u32(&mut point_bytes, point);
    let mut count_bytes = [0u8; 4];
    BigEndian::write_u32(&mut count_bytes, count);
    out.put_all(&[&MAGIC, &run_bytes, &point_bytes, &count_bytes])
}

// One pair after the other.
fn put_pairs<W: Write>(out: &mut Tally<W>, pairs: &[(Key, Value)]) -> Result<(), Refusal>
    ensures text { Puts W.contents out.old out.new result (flat_map base_pair_text pairs.now) }
    ensures lawful { OnOk result (All IsPair pairs.now) }
{
    for (key, value) in pairs {
        put_pair(out, key, value)?;
    }
    Ok(())
}

fn put_pair<W: Write>(out: &mut Tally<W>, key: &Key, value: &Value) -> Result<(), Refusal>
    ensures text { Puts W.contents out.old out.new result (base_pair_text (key.now, value.now)) }
    ensures lawful { IsPair (key.now, value.now) }
{
    let key = key.as_bytes();
    let mut key_len = [0u8; 2];
    BigEndian::write_u16(&mut key_len, (key.len() - SPACE_BYTES) as u16);
    let value = value.as_bytes();
    let mut value_len = [0u8; 4];
    BigEndian::write_u32(&mut value_len, value.len() as u32);
    out.put_all(&[&key_len, key, &value_len, value])
}
