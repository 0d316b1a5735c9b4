//! Slots: what the table's rows have, each with its number and its key. The requests of a slot are those of the locks' queue
//! at its number, whose ends the slot keeps.
ghost use Rattle.std.specs.Prelude.{◌≡◌, ◌==◌, ◌≤◌, ◌++◌, [], false, map, length, IfOk, IfErr, OnOk, OnErr, None, Some, List, ℕ};
ghost use Rattle.pc_model.specs.Maps.{get};
ghost use Rattle.pc_model.specs.Database.{KeysRise, database_of};
ghost use Rattle.pc_locks.specs.States.{Queues};
ghost use Rattle.pc_table.specs.Rows.{slot_of, in_slot, why_refused, HasRow, IsNewSlot, AreInSlots, with_row, with_record};
ghost use Rattle.pc_dirty.specs.declared.side.Side.{Side};
ghost use Rattle.pc_dirty.specs.declared.side.Side.TheVariants.{First};
ghost use Rattle.pc_records.specs.Rows.{record_of, stored};
ghost use Rattle.pc_records.specs.Ends.{ends_in};
ghost use Rattle.pc_records.specs.SetLists.{KeepSets, IsUnmarked, IsListed, open_keys, closed_keys, entering};
ghost use Rattle.pc_slots.specs.Slots.{nothing_aside, base_cell, put_slot, settled, undone, taken_slot};
ghost use Rattle.pc_records.specs.Slots.{slots_in, with_optional_entry, content_in, cells_in, base_row, contents_of, rows_of, at_number};

use pc_dirty::{Dirty, Side};
use pc_replay::first_of_each;
use pc_slots::{Cell, Spares, Stage, Writing, cell_with};
use pc_table::Table;
use pc_types::{Key, MOST_KEYS, Point, Refusal, SlotId, Value};
use std::alloc::{AllocError, Global};
use std::hash::RandomState;

// A table with a slot for each pair.
pub(crate) fn table_of(
    alloc: Global,
    capacity: u32,
    pairs: &[(Key, Value)],
    seed: RandomState,
) -> Result<Table<Cell>, AllocError>
    requires rise { KeysRise pairs.now }
    requires capacity { capacity ≤ MOST_KEYS }
    ensures capacity { IfOk result (λ table. table.capacity ≡ capacity) }
    ensures cells { IfOk result (λ table. cells_in table.rows ≡ map base_row pairs.now) }
    ensures slots { IfOk result (λ table. AreInSlots table) }
{
    let mut table = Table::new(alloc, capacity, seed)?;
    for pair in pairs {
        add(alloc, &mut table, &pair.0, &pair.1)?;
    }
    // The call tells that each row has a slot of its own.
    let _capacity = table.capacity();
    Ok(table)
}

// A slot of the key, which has none, with the value.
fn add(alloc: Global, table: &mut Table<Cell>, key: &Key, value: &Value) -> Result<(), AllocError>
    requires { slot_of table.old.rows key.now ≡ None }
    ensures { OnOk result ((id : ℕ) × (table.new ≡ with_row table.old key.now id (base_cell (Some value.now)))) }
{
    let value = value.copy(alloc)?;
    match table.make(alloc, key) {
        Ok(id) => {
            let cell = table.get_mut(id);
            *cell = cell_with(Some(value));
            Ok(())
        }
        Err(_) => Err(AllocError),
    }
}

// A slot of the key, which has none and gets one; it is refused with `Full` if there is no free slot, and otherwise only if
// an allocation failed.
pub(crate) fn make(alloc: Global, table: &mut Table<Cell>, key: &Key) -> Result<SlotId, Refusal>
    requires { slot_of table.old.rows key.now ≡ None }
    ensures made { IfOk result (λ id. table.new ≡ with_row table.old key.now id (base_cell None)) }
    ensures fresh { IfOk result (IsNewSlot table.old) }
    ensures slot { IfOk result (λ id. slot_of table.new.rows key.now ≡ Some id) }
    ensures row { IfOk result (HasRow table.new.rows) }
    ensures changed { IfOk result (λ id. (cell : Cell) → with_record table.new id cell ≡ with_row table.old key.now id cell) }
    ensures room { IfOk result (λ id. (length table.old.rows == table.old.capacity) ≡ false) }
    ensures refusal { IfErr result (λ e. e ≡ why_refused table.old) }
    ensures err { OnErr result (table.new ≡ table.old) }
    ensures before { AreInSlots table.old }
    ensures after { AreInSlots table.new }
{
    table.make(alloc, key)
}

// The pairs of the slots that have a committed value, ascending by key.
pub(crate) fn committed_pairs(
    alloc: Global,
    table: &Table<Cell>,
) -> Result<Vec<(Key, Value)>, AllocError>
    ensures rise { IfOk result (λ pairs. KeysRise pairs.items) }
    ensures contents { IfOk result (λ pairs. (side : Side) (queues : Queues) (key : List ℕ) → get (database_of pairs.items) key ≡ stored (record_of (rows_of queues (slots_in side table.now.rows)) key)) }
{
    let contents = contents_in(alloc, table)?;
    let mut pairs = Vec::new(alloc);
    for (key, content) in contents {
        push_value(&mut pairs, key, content)?;
    }
    Ok(pairs)
}

// Adds the key with its value, if it has one.
fn push_value(
    pairs: &mut Vec<(Key, Value)>,
    key: Key,
    content: Option<Value>,
) -> Result<(), AllocError>
    ensures { OnOk result (pairs.new.items ≡ pairs.old.items ++ with_optional_entry key content []) }
{
    if let Some(value) = content {
        pairs.push((key, value))?;
    }
    Ok(())
}

// The committed content of each slot's key, a value or absence, ascending by key.
fn contents_in(alloc: Global, table: &Table<Cell>) -> Result<Vec<(Key, Option<Value>)>, AllocError>
    ensures contents { IfOk result (λ contents. contents.items ≡ contents_of (slots_in First table.now.rows)) }
    ensures slots { AreInSlots table.now }
{
    let mut contents = Vec::new(alloc);
    for id in 0..table.capacity() {
        push_content(alloc, &mut contents, table, SlotId(id))?;
    }
    first_of_each(alloc, &contents)
}

// Adds what the slot's key has that is committed, if the slot has a row.
fn push_content(
    alloc: Global,
    contents: &mut Vec<(Key, Option<Value>)>,
    table: &Table<Cell>,
    id: SlotId,
) -> Result<(), AllocError>
    ensures { OnOk result (contents.new.items ≡ contents.old.items ++ content_in (in_slot table.now.rows id)) }
{
    if let Some((key, cell)) = table.get_if_taken(id) {
        let key = key.copy(alloc)?;
        let content = pc_slots::committed_copy(alloc, cell)?;
        contents.push((key, content))?;
    }
    Ok(())
}

// The key of the slot is taken.
pub(crate) fn mark_taken(table: &mut Table<Cell>, spares: &mut Spares, side: Side, id: SlotId)
    requires { HasRow table.old.rows id }
    ensures slots { slots_in side table.new.rows ≡ map (at_number taken_slot id) (slots_in side table.old.rows) }
    ensures row { HasRow table.new.rows id }
    ensures marks { IsUnmarked side id table.old.rows table.new.rows }
    ensures before { AreInSlots table.old }
    ensures capacity { table.new.capacity ≡ table.old.capacity }
    ensures ends { ends_in table.new.rows ≡ ends_in table.old.rows }
{
    pc_slots::take(table.get_mut(id), side, spares);
}

// Puts the write into the slot.
pub(crate) fn put_at(
    table: &mut Table<Cell>,
    spares: &mut Spares,
    stage: Stage,
    id: SlotId,
    write: Writing,
)
    requires row { HasRow table.old.rows id }
    requires room { write.room.value ≡ nothing_aside }
    ensures slots { slots_in stage.side table.new.rows ≡ map (at_number (put_slot stage.point write.author.transaction write.author.class write.copy write.value) id) (slots_in stage.side table.old.rows) }
    ensures capacity { table.new.capacity ≡ table.old.capacity }
    ensures ends { ends_in table.new.rows ≡ ends_in table.old.rows }
    ensures sets { KeepSets table.old.rows table.new.rows }
{
    pc_slots::put(table.get_mut(id), stage, write, spares);
}

// Commits the write in the slot, and puts the slot into the open set if it isn't in it.
pub(crate) fn settle_slot(
    table: &mut Table<Cell>,
    sets: &mut Dirty,
    spares: &mut Spares,
    id: SlotId,
    point: Point,
)
    requires row { HasRow table.old.rows id }
    requires listed { IsListed table.old.rows sets.old }
    ensures slots { slots_in sets.old.side table.new.rows ≡ map (at_number (settled point) id) (slots_in sets.old.side table.old.rows) }
    ensures capacity { table.new.capacity ≡ table.old.capacity }
    ensures ends { ends_in table.new.rows ≡ ends_in table.old.rows }
    ensures side { sets.new.side ≡ sets.old.side }
    ensures listed { IsListed table.new.rows sets.new }
    ensures opened { open_keys table.new.rows sets.new ≡ open_keys table.old.rows sets.old ++ entering sets.old.side (in_slot table.old.rows id) }
    ensures closed { closed_keys table.new.rows sets.new ≡ closed_keys table.old.rows sets.old }
{
    let side = sets.open_side();
    let stage = Stage { side, point };
    let is_new = pc_slots::settle(table.get_mut(id), stage, spares);
    if is_new {
        sets.add_new(table, id);
    }
}

// Undoes the write in the slot.
pub(crate) fn undo_slot(table: &mut Table<Cell>, spares: &mut Spares, stage: Stage, id: SlotId)
    requires { HasRow table.old.rows id }
    ensures slots { slots_in stage.side table.new.rows ≡ map (at_number (undone stage.point) id) (slots_in stage.side table.old.rows) }
    ensures capacity { table.new.capacity ≡ table.old.capacity }
    ensures ends { ends_in table.new.rows ≡ ends_in table.old.rows }
    ensures sets { KeepSets table.old.rows table.new.rows }
{
    pc_slots::undo(table.get_mut(id), stage, spares);
}
