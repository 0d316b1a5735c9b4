//! The bytes that were shown last, which may be copied out as often as they are asked for.
ghost use Rattle.std.specs.Prelude.{◌≡◌, drop};
ghost use Rattle.pc_wire.specs.Shown.{key_shown, value_shown, filled};

use crate::answers::{key_of_reply, value_of_reply};
use pc_types::{Items, Reply};

/// The bytes that were shown last.
#[derive(Drop)]
pub enum Shown {
    /// A reply, which may have a key and a value.
    Reply(Reply),
    /// A text.
    Text(Items<u8>),
}

impl Shown {
    // The bytes of the key.
    fn key(&self) -> &[u8]
        ensures { result.now ≡ key_shown self.now }
    {
        match self {
            Shown::Reply(reply) => key_of_reply(reply),
            Shown::Text(_) => &[],
        }
    }

    // The bytes of the value, or of the text.
    fn value(&self) -> &[u8]
        ensures { result.now ≡ value_shown self.now }
    {
        match self {
            Shown::Reply(reply) => value_of_reply(reply),
            Shown::Text(text) => text.as_slice(),
        }
    }

    /// Copies the key, and the value or the text from this byte on, which counts from 0, into the rooms, as far as there is place.
    /// What is after them in a room stays. What was shown stays too.
    pub fn copy_into(&self, from: usize, key_room: &mut [u8], value_room: &mut [u8])
        ensures key { key_room.new ≡ filled (key_shown self.now) key_room.old }
        ensures value { value_room.new ≡ filled (drop from (value_shown self.now)) value_room.old }
    {
        fill(key_room, self.key());
        fill(value_room, behind(self.value(), from));
    }
}

// The bytes from this one on, which counts from 0.
fn behind(bytes: &[u8], from: usize) -> &[u8]
    ensures { result.now ≡ drop from bytes.now }
{
    if from < bytes.len() {
        &bytes[from..]
    } else {
        &[]
    }
}

// Copies as many of the bytes into the room as it has place for.
fn fill(room: &mut [u8], bytes: &[u8])
    ensures { room.new ≡ filled bytes.now room.old }
{
    let count = bytes.len().min(room.len());
    room[..count].copy_from_slice(&bytes[..count]);
}
