//! The moments of one slot: its key is written in its place, the write is committed or undone, and the key is taken. The side is
//! that of the open set.
ghost use Rattle.std.specs.Prelude.{◌≡◌, ◌==◌, ◌&&◌, ◌||◌, not, ℕ, List, [], length, false, true, Option, None, is_some, option_copied, IfOk};
ghost use Rattle.pc_types.specs.declared.Class.TheVariants as class_of;
ghost use Rattle.pc_types.specs.Phases.{same_class};
ghost use Rattle.pc_model.specs.Locks.{Queue};
ghost use Rattle.pc_dirty.specs.declared.side.Side.TheVariants.{First};
ghost use Rattle.pc_slots.specs.Words.{is_marked, cell_words, chain_in, HaveLinks};
ghost use Rattle.pc_slots.specs.Spares.{with_spare, is_freed};
ghost use Rattle.pc_slots.specs.Slots.{Slot, slot_with, nothing_aside, is_blank, aside_in, writer_in, with_aside, committed, version_or, pinned, is_held, is_kept_slot, keeps_copy, saved, put_slot, settled, undone, taken_slot};

use crate::cells::Cell;
use crate::spares::Spares;
use pc_dirty::Side;
use pc_types::{Class, Point, TxnNo, Value, copy_content};
use std::alloc::{AllocError, Global};
use std::mem;

/// The data of a slot besides the content of its key's place, while an open transaction or a point needs it.
#[derive(Drop)]
pub struct Aside {
    /// The open transaction that has written the key.
    pub(crate) writer: Option<Writer>,
    /// The content of the key before, if it is kept for a point.
    pub(crate) stable: Stable,
    /// The point that the stable version is known to be of, if the key is in the closed set.
    pub(crate) mark: Point,
}

/// The content of a key before, kept for the point.
#[derive(Drop)]
pub(crate) enum Stable {
    /// Nothing is kept.
    Empty,
    /// The value that the key had, or absence.
    Held(Option<Value>),
}

/// The open transaction that has written a key in its place.
#[derive(Drop)]
pub(crate) struct Writer {
    pub(crate) transaction: TxnNo,
    pub(crate) class: Class,
    /// The committed content of the key, which an abort restores.
    pub(crate) before: Option<Value>,
}

/// The progress of the points: the side of the open set, and the point of the last closed one.
#[derive(Clone, Copy)]
pub struct Stage {
    pub side: Side,
    pub point: Point,
}

/// The writer: an open transaction, and its class.
#[derive(Clone, Copy)]
pub struct Author {
    pub transaction: TxnNo,
    pub class: Class,
}

/// A write to be put into a slot, with memory allocated beforehand, so that it takes none itself.
#[derive(Drop)]
pub struct Writing {
    pub author: Author,
    /// A box for what the slot keeps aside, in which nothing is kept yet (`Spares::take_out`).
    pub room: Box<Aside>,
    /// A copy of the slot's content, if one is kept (`copy_to_keep`).
    pub copy: Option<Value>,
    /// The new content, a value or absence.
    pub value: Option<Value>,
}

// Nothing that is kept.
pub(crate) fn nothing_aside() -> Aside
    ensures { result ≡ nothing_aside }
{
    Aside {
        writer: None,
        stable: Stable::Empty,
        mark: Point(0),
    }
}

// The slot's box, or this one if it has none; if it has one, this one is put back.
fn or_room(aside: Option<Box<Aside>>, room: Box<Aside>, spares: &mut Spares) -> Box<Aside>
    requires { room.value ≡ nothing_aside }
    ensures seen { result.value ≡ aside_in aside }
    ensures spares { spares.new ≡ with_spare (is_some aside) spares.old }
{
    match aside {
        Some(aside) => {
            spares.put_back(room);
            aside
        }
        None => room,
    }
}

// The box, which is put back if nothing is kept in it.
fn trimmed(aside: Box<Aside>, spares: &mut Spares) -> Option<Box<Aside>>
    ensures seen { aside_in result ≡ aside.value }
    ensures gone { is_blank aside.value ≡ true → result ≡ None }
    ensures spares { spares.new ≡ with_spare (is_blank aside.value) spares.old }
{
    if is_blank(&aside) {
        spares.put_back(aside);
        None
    } else {
        Some(aside)
    }
}

// Whether nothing is kept.
fn is_blank(aside: &Aside) -> bool
    ensures { result ≡ is_blank aside.now }
{
    aside.writer.is_none() && !is_held(&aside.stable) && aside.mark.0 == 0
}

// The open transaction that has written the slot's key.
fn writer_of(slot: &Cell) -> Option<&Writer>
    ensures { option_copied result ≡ writer_in slot.now }
{
    match &slot.aside {
        Some(aside) => aside.writer.as_ref(),
        None => None,
    }
}

// The committed value of the slot's key.
pub(crate) fn committed_of(slot: &Cell) -> Option<&Value>
    ensures { option_copied result ≡ committed (slot_with First 0 [] slot.now) }
{
    match writer_of(slot) {
        Some(writer) => writer.before.as_ref(),
        None => slot.live.as_ref(),
    }
}

/// A copy of the committed value of the slot's key, `None` if it has none; an error if an allocation fails.
pub fn committed_copy(alloc: Global, slot: &Cell) -> Result<Option<Value>, AllocError>
    ensures { IfOk result (λ copy. copy ≡ committed (slot_with First 0 [] slot.now)) }
{
    match committed_of(slot) {
        Some(value) => Ok(Some(value.copy(alloc)?)),
        None => Ok(None),
    }
}

/// The content of the slot's key at the point, if it is in the closed set; `None` if it has nothing then, or isn't in the set.
pub fn pinned_of(slot: &Cell, side: Side) -> Option<&Value>
    ensures { option_copied result ≡ pinned (slot_with side 0 [] slot.now) }
{
    if !slot.is_in(side.other()) {
        return None;
    }
    match &slot.aside {
        Some(aside) => version_or(&aside.stable, &slot.live),
        None => slot.live.as_ref(),
    }
}

// The version that is held, or else the content of the place.
fn version_or<'a>(stable: &'a Stable, live: &'a Option<Value>) -> Option<&'a Value>
    ensures { option_copied result ≡ version_or stable.now live.now }
{
    match stable {
        Stable::Held(value) => value.as_ref(),
        Stable::Empty => live.as_ref(),
    }
}

// Whether the slot holds a version.
fn has_version(slot: &Cell) -> bool
    ensures { result ≡ is_held (aside_in slot.now.aside).stable }
{
    match &slot.aside {
        Some(aside) => is_held(&aside.stable),
        None => false,
    }
}

/// Whether something keeps the slot: a value, a version, a request, or one of the two sets.
pub fn is_kept(slot: &Cell, side: Side, is_requested: bool) -> bool
    ensures { (id : ℕ) (queue : Queue) → is_requested ≡ not (length queue == 0) → result ≡ is_kept_slot queue (slot_with side id [] slot.now) }
{
    slot.live.is_some()
        || has_version(slot)
        || is_requested
        || slot.is_in(side)
        || slot.is_in(side.other())
}

// The point that the version is known to be of.
fn mark_of(slot: &Cell) -> Point
    ensures { result ≡ (aside_in slot.now.aside).mark }
{
    match &slot.aside {
        Some(aside) => aside.mark,
        None => Point(0),
    }
}

// Whether a version is held.
fn is_held(stable: &Stable) -> bool
    ensures { result ≡ is_held stable.now }
{
    match stable {
        Stable::Held(_) => true,
        Stable::Empty => false,
    }
}

// Whether the class is that of a transaction that began in prepare.
fn is_during(class: Class) -> bool
    ensures { result ≡ same_class class class_of.During }
{
    match class {
        Class::During => true,
        _ => false,
    }
}

/// A copy of the slot's content, if a write of a transaction of the class keeps one; else `None`. An error if an allocation
/// fails.
pub fn copy_to_keep(
    alloc: Global,
    slot: &Cell,
    stage: Stage,
    class: Class,
) -> Result<Option<Value>, AllocError>
    ensures kept { IfOk result (λ copy. (number : ℕ) (key : List ℕ) → keeps_copy stage.point class (slot_with stage.side number key slot.now) ≡ true → copy ≡ slot.now.live) }
    ensures none { IfOk result (λ copy. keeps_copy stage.point class (slot_with stage.side 0 [] slot.now) ≡ false → copy ≡ None) }
{
    if keeps_copy(slot, stage, class) {
        copy_content(alloc, &slot.live)
    } else {
        Ok(None)
    }
}

// Whether a write of a transaction of the class keeps a copy of the slot's content: it is the first of its transaction, and
// `save` keeps the copy.
fn keeps_copy(slot: &Cell, stage: Stage, class: Class) -> bool
    ensures { (number : ℕ) (key : List ℕ) → result ≡ keeps_copy stage.point class (slot_with stage.side number key slot.now) }
{
    if writer_of(slot).is_some() {
        return false;
    }
    match class {
        Class::Before => false,
        Class::During => !has_version(slot),
        Class::After => slot.is_in(stage.side.other()) && mark_of(slot).0 != stage.point.0,
    }
}

// A transaction of the class is about to write the key, which it has not written yet: the copy is one of the content there, if
// one is kept.
fn save(aside: &mut Aside, is_closed: bool, point: Point, class: Class, copy: Option<Value>)
    ensures { (slot : Slot) → slot.is_in_closed_set ≡ is_closed → with_aside aside.new slot ≡ saved point class copy (with_aside aside.old slot) }
{
    match class {
        Class::Before => {}
        Class::During => {
            if let Stable::Empty = aside.stable {
                aside.stable = Stable::Held(copy);
            }
        }
        Class::After => {
            if is_closed && aside.mark.0 != point.0 {
                aside.stable = Stable::Held(copy);
                aside.mark = point;
            }
        }
    }
}

// The transaction writes the key in place of the content before; its first write is noted. The copy is that of `copy_to_keep`.
fn note(
    aside: &mut Aside,
    is_closed: bool,
    point: Point,
    author: Author,
    copy: Option<Value>,
    before: Option<Value>,
)
    ensures { (slot : Slot) (value : Option (List ℕ)) → slot.is_in_closed_set ≡ is_closed → before ≡ slot.live → record (with_aside aside.new slot) { live = value } ≡ put_slot point author.transaction author.class copy value (with_aside aside.old slot) }
{
    if aside.writer.is_none() {
        let Author { transaction, class } = author;
        save(aside, is_closed, point, class, copy);
        aside.writer = Some(Writer {
            transaction,
            class,
            before,
        });
    }
}

/// Puts the write into the slot. The slot keeps the room if it has none, and it is put back if it has one. It allocates no
/// memory.
pub fn put(slot: &mut Cell, stage: Stage, write: Writing, spares: &mut Spares)
    requires { write.room.value ≡ nothing_aside }
    ensures slot { (number : ℕ) (key : List ℕ) → slot_with stage.side number key slot.new ≡ put_slot stage.point write.author.transaction write.author.class write.copy write.value (slot_with stage.side number key slot.old) }
    ensures words { cell_words slot.new ≡ cell_words slot.old }
    ensures ends { chain_in slot.new ≡ chain_in slot.old }
    ensures spares { spares.new ≡ with_spare (is_some slot.old.aside) spares.old }
{
    let Writing {
        author,
        room,
        copy,
        value,
    } = write;
    let is_closed = slot.is_in(stage.side.other());
    let before = mem::replace(&mut slot.live, value);
    let mut aside = or_room(slot.aside.take(), room, spares);
    note(&mut aside, is_closed, stage.point, author, copy, before);
    slot.aside = Some(aside);
}

// The write of the writer, if there is one, is committed: true if there is.
fn commit(aside: &mut Aside, is_closed: bool, point: Point) -> bool
    ensures slot { (slot : Slot) → slot.is_in_closed_set ≡ is_closed → with_aside aside.new (record slot { is_in_open_set = result || slot.is_in_open_set }) ≡ settled point (with_aside aside.old slot) }
    ensures written { result ≡ is_some aside.old.writer }
{
    let Some(writer) = aside.writer.take() else {
        return false;
    };
    if is_during(writer.class) {
        if is_closed {
            aside.mark = point;
        } else {
            aside.stable = Stable::Empty;
        }
    }
    true
}

/// Commits the write in the slot, if there is one. True if the slot was not in the open set, and is in it now. A box in which
/// nothing is kept any more is put back. It allocates no memory.
pub fn settle(slot: &mut Cell, stage: Stage, spares: &mut Spares) -> bool
    ensures slot { (number : ℕ) (key : List ℕ) → slot_with stage.side number key slot.new ≡ settled stage.point (slot_with stage.side number key slot.old) }
    ensures links { HaveLinks slot.old slot.new }
    ensures ends { chain_in slot.new ≡ chain_in slot.old }
    ensures fresh { result ≡ (is_some (writer_in slot.old) && not (is_marked stage.side slot.old)) }
    ensures spares { spares.new ≡ with_spare (is_freed slot.old slot.new) spares.old }
{
    let Some(mut aside) = slot.aside.take() else {
        return false;
    };
    let is_closed = slot.is_in(stage.side.other());
    let is_written = commit(&mut aside, is_closed, stage.point);
    slot.aside = trimmed(aside, spares);
    if !is_written {
        return false;
    }
    let is_new = !slot.is_in(stage.side);
    slot.put_mark(stage.side, true);
    is_new
}

// The write of the writer, if there is one, is undone: the content that it found is restored.
fn withdraw(aside: &mut Aside, live: &mut Option<Value>, is_closed: bool, point: Point)
    ensures { (slot : Slot) → slot.is_in_closed_set ≡ is_closed → with_aside aside.new (record slot { live = live.new }) ≡ undone point (with_aside aside.old (record slot { live = live.old })) }
{
    if let Some(writer) = aside.writer.take() {
        *live = writer.before;
        let is_available = is_closed && aside.mark.0 == point.0;
        if is_during(writer.class) && !is_available {
            aside.stable = Stable::Empty;
        }
    }
}

/// Undoes the write in the slot, if there is one. A box in which nothing is kept any more is put back. It allocates no memory.
pub fn undo(slot: &mut Cell, stage: Stage, spares: &mut Spares)
    ensures slot { (number : ℕ) (key : List ℕ) → slot_with stage.side number key slot.new ≡ undone stage.point (slot_with stage.side number key slot.old) }
    ensures words { cell_words slot.new ≡ cell_words slot.old }
    ensures ends { chain_in slot.new ≡ chain_in slot.old }
    ensures spares { spares.new ≡ with_spare (is_freed slot.old slot.new) spares.old }
{
    let is_closed = slot.is_in(stage.side.other());
    if let Some(mut aside) = slot.aside.take() {
        withdraw(&mut aside, &mut slot.live, is_closed, stage.point);
        slot.aside = trimmed(aside, spares);
    }
}

/// The key of the slot is taken: the slot is no more in the closed set, and what was kept for the point goes. A box in which
/// nothing is kept any more is put back. It allocates no memory.
pub fn take(slot: &mut Cell, side: Side, spares: &mut Spares)
    ensures slot { (number : ℕ) (key : List ℕ) → slot_with side number key slot.new ≡ taken_slot (slot_with side number key slot.old) }
    ensures links { HaveLinks slot.old slot.new }
    ensures ends { chain_in slot.new ≡ chain_in slot.old }
    ensures spares { spares.new ≡ with_spare (is_freed slot.old slot.new) spares.old }
{
    slot.put_mark(side.other(), false);
    if let Some(mut aside) = slot.aside.take() {
        aside.stable = Stable::Empty;
        aside.mark = Point(0);
        slot.aside = trimmed(aside, spares);
    }
}
