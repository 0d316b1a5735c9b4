//! A store for programs in C and in languages that call it: the functions of the border, over a handle that the program keeps.
#![tactic(auto)]

ghost use Rattle.std.specs.Prelude.{◌≡◌, None};
ghost use Rattle.pc_border.specs.Handled.{IsCallAnswered, IsTextShown, IsCopied, IsGivenTo, IsOpenedBy};
ghost use Rattle.pc_c.specs.Handles.{store_of, IsSummaryReturned};

mod handle;
mod unboxed;

use handle::{Handle, put, take, take_or_new};
use pc_border::{Options, RecoverySummary};
use pc_types::Refusal;
use pc_wire::{Answer, Call, codes, plain, refusal_number, refused};
use std::alloc::Global;

/// Adds a text to the sources of the store's recovery, as `Store::give`.
#[unsafe(no_mangle)]
pub extern "C" fn pcalc_give(
    alloc: Global,
    handle: &mut Handle,
    what: u32,
    bytes: &[u8],
    answer: &mut Answer,
) -> u32
    ensures given { IsGivenTo (store_of handle.old.value) what bytes.now answer.new (store_of handle.new.value) }
    ensures kind { result ≡ answer.new.kind }
{
    let Some(mut store) = take_or_new(handle, alloc) else {
        *answer = refused(&Refusal::OutOfMemory);
        return answer.kind;
    };
    *answer = store.give(alloc, what, bytes);
    put(handle, alloc, store);
    answer.kind
}

/// Recovers the state from what was given, as `Store::recover`: it returns 0, or the number of the refusal.
#[unsafe(no_mangle)]
pub extern "C" fn pcalc_recover(
    alloc: Global,
    handle: &mut Handle,
    summary: &mut RecoverySummary,
) -> u32
    ensures summary { IsSummaryReturned (store_of handle.old.value) result summary.old summary.new }
    ensures kept { store_of handle.new.value ≡ store_of handle.old.value }
{
    let Some(store) = take_or_new(handle, alloc) else {
        return refusal_number(&Refusal::OutOfMemory);
    };
    let found = store.recover(alloc);
    put(handle, alloc, store);
    match found {
        Ok(found) => {
            *summary = found;
            0
        }
        Err(why) => refusal_number(&why),
    }
}

/// Opens the store over what was given, as `Store::open`.
#[unsafe(no_mangle)]
pub extern "C" fn pcalc_open(
    alloc: Global,
    handle: &mut Handle,
    options: &Options,
    answer: &mut Answer,
) -> u32
    ensures opened { IsOpenedBy (store_of handle.old.value) options.now answer.new (store_of handle.new.value) }
    ensures kind { result ≡ answer.new.kind }
{
    let Some(mut store) = take_or_new(handle, alloc) else {
        *answer = refused(&Refusal::OutOfMemory);
        return answer.kind;
    };
    *answer = store.open(alloc, options);
    put(handle, alloc, store);
    answer.kind
}

/// Answers a call, as `Store::call`.
#[unsafe(no_mangle)]
pub extern "C" fn pcalc_call(
    alloc: Global,
    handle: &mut Handle,
    call: &Call,
    key: &[u8],
    value: &[u8],
    answer: &mut Answer,
) -> u32
    ensures answered { IsCallAnswered (store_of handle.old.value) call.now key.now value.now answer.new (store_of handle.new.value) }
    ensures kind { result ≡ answer.new.kind }
{
    let Some(mut store) = take(handle, alloc) else {
        *answer = plain(codes::CLOSED);
        return answer.kind;
    };
    *answer = store.call(alloc, call, key, value);
    put(handle, alloc, store);
    answer.kind
}

/// Shows a text, as `Store::show`.
#[unsafe(no_mangle)]
pub extern "C" fn pcalc_show(
    alloc: Global,
    handle: &mut Handle,
    what: u32,
    number: u32,
    answer: &mut Answer,
) -> u32
    ensures shown { IsTextShown (store_of handle.old.value) what number answer.new (store_of handle.new.value) }
    ensures kind { result ≡ answer.new.kind }
{
    let Some(mut store) = take(handle, alloc) else {
        *answer = plain(codes::CLOSED);
        return answer.kind;
    };
    *answer = store.show(alloc, what, number);
    put(handle, alloc, store);
    answer.kind
}

/// Copies what was shown last, as `Store::copy_shown`. It stays shown.
#[unsafe(no_mangle)]
pub extern "C" fn pcalc_copy(
    alloc: Global,
    handle: &mut Handle,
    from: usize,
    key_room: &mut [u8],
    value_room: &mut [u8],
)
    ensures copied { IsCopied (store_of handle.old.value) from key_room.old key_room.new value_room.old value_room.new }
    ensures kept { handle.new.value ≡ handle.old.value }
{
    if let Some(store) = take(handle, alloc) {
        store.copy_shown(from, key_room, value_room);
        put(handle, alloc, store);
    }
}

/// Ends the store of the handle, which then has nothing.
#[unsafe(no_mangle)]
pub extern "C" fn pcalc_close(alloc: Global, handle: &mut Handle)
    ensures { handle.new.value ≡ None }
{
    let _ = take(handle, alloc);
}
