//! Writes the text of an entry into a buffer, after the bytes that it has.
ghost use Rattle.std.specs.Prelude.{◌≤◌, length, Some, All};
ghost use Rattle.std.specs.List.{flat_map};
ghost use Rattle.pc_types.specs.declared.Change.TheVariants.{Add};
ghost use Rattle.pc_types.specs.declared.Entry.TheVariants.{Commit, Token};
ghost use Rattle.pc_io.specs.Fields.{content_text};
ghost use Rattle.pc_types.specs.Limits.{IsValue};
ghost use Rattle.pc_log.specs.Texts.{change_text, write_text, commit_head_text, entry_text, IsChange, IsWrite};
ghost use Rattle.pc_kept_log.specs.Placing.{ArePut, HasSpace};

use pc_log::{ABSENCE, ADD, COMMIT, TOKEN, VALUE, number_bytes, phases, writes_size};
use pc_types::{Change, MOST_POINTS, MOST_WRITES, Phase, Point, SPACE_BYTES, SessionNo, Write};

// The text of a commit is put at this place. Returns the place after it.
pub(crate) fn put_commit(room: &mut [u8], at: usize, session: SessionNo, writes: &[Write]) -> usize
    requires few { length writes.now ≤ MOST_WRITES }
    requires space { HasSpace room.old at (length (entry_text (Commit session writes.now))) }
    ensures put { ArePut room.old room.new at (entry_text (Commit session writes.now)) result }
    ensures in_limits { All IsWrite writes.now }
{
    let at = put_commit_head(room, at, session, writes);
    put_writes(room, at, writes)
}

// The text of a token is put at this place. Returns the place after it.
pub(crate) fn put_token(room: &mut [u8], at: usize, phase: Phase, point: Point) -> usize
    requires { HasSpace room.old at (length (entry_text (Token phase point))) }
    ensures put { ArePut room.old room.new at (entry_text (Token phase point)) result }
    ensures limit { point ≤ MOST_POINTS }
{
    let at = put(room, at, &[0, 0, 0, 6, TOKEN, phases::number(phase)]);
    put(room, at, &u32::from(point.0).to_be_bytes())
}

// The length of the body, the kind, the session, and how many writes there are.
fn put_commit_head(room: &mut [u8], at: usize, session: SessionNo, writes: &[Write]) -> usize
    requires few { length writes.now ≤ MOST_WRITES }
    requires space { HasSpace room.old at (length (commit_head_text session writes.now)) }
    ensures { ArePut room.old room.new at (commit_head_text session writes.now) result }
{
    let size = 4 + writes_size(writes);
    let session_bytes = session.0.to_be_bytes();
    let at = put(room, at, &size.to_be_bytes());
    let at = put(room, at, &[COMMIT, session_bytes[3]]);
    put(room, at, &(writes.len() as u16).to_be_bytes())
}

// One write after the other.
fn put_writes(room: &mut [u8], at: usize, writes: &[Write]) -> usize
    requires { HasSpace room.old at (length (flat_map write_text writes.now)) }
    ensures put { ArePut room.old room.new at (flat_map write_text writes.now) result }
    ensures in_limits { All IsWrite writes.now }
{
    let mut end = at;
    for write in writes {
        end = put_write(room, end, write);
    }
    end
}

fn put_write(room: &mut [u8], at: usize, write: &Write) -> usize
    requires { HasSpace room.old at (length (write_text write.now)) }
    ensures put { ArePut room.old room.new at (write_text write.now) result }
    ensures in_limits { IsWrite write.now }
{
    let key = write.key.as_bytes();
    let at = put(room, at, &((key.len() - SPACE_BYTES) as u16).to_be_bytes());
    let at = put(room, at, key);
    match &write.change {
        Change::Remove => put(room, at, &[ABSENCE]),
        Change::Set(value) => put_value(room, at, value.as_bytes()),
        Change::Add(delta) => put_number(room, at, *delta),
    }
}

fn put_value(room: &mut [u8], at: usize, value: &[u8]) -> usize
    requires limit { IsValue value.now }
    requires space { HasSpace room.old at (length (content_text (Some value.now))) }
    ensures { ArePut room.old room.new at (content_text (Some value.now)) result }
{
    let at = put(room, at, &[VALUE]);
    let at = put(room, at, &(value.len() as u32).to_be_bytes());
    put(room, at, value)
}

fn put_number(room: &mut [u8], at: usize, number: i64) -> usize
    requires { HasSpace room.old at (length (change_text (Add number))) }
    ensures put { ArePut room.old room.new at (change_text (Add number)) result }
    ensures in_limits { IsChange (Add number) }
{
    let at = put(room, at, &[ADD]);
    put(room, at, &number_bytes(number))
}

// The bytes are put at this place. Returns the place after them.
fn put(room: &mut [u8], at: usize, bytes: &[u8]) -> usize
    requires { HasSpace room.old at (length bytes.now) }
    ensures { ArePut room.old room.new at bytes.now result }
{
    let end = at + bytes.len();
    room[at..end].copy_from_slice(bytes);
    end
}
