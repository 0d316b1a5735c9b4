//! A handle that C keeps: nothing, or a store.
ghost use Rattle.std.specs.Prelude.{◌≡◌, Option, None, Some, option_map, IfSome};
ghost use Rattle.pc_c.specs.Held.{box_or_null};
ghost use Rattle.pc_c.specs.Handles.{store_of};
ghost use Rattle.pc_border.specs.declared.store.Store.{Store};
ghost use Rattle.pc_border.specs.contracts.store.Store.{the_row};

use crate::unboxed::Unboxed;
use pc_border::Store;
use std::alloc::Global;
use std::marker::Model;
use std::{mem, ptr};

/// A handle that C keeps in a place of its own. It is null if it has nothing.
#[repr(C)]
pub struct Handle {
    at: *mut u8,
    ghost value: { Option Store },
}

impl Model for Handle {
    ghost also_owns = { λ l. box_or_null the_row l.at l.value };
}

unsafe impl Send for Handle {}

impl Handle {
    // A handle that has nothing.
    fn none() -> Handle
        ensures { result.value ≡ None }
    {
        let at = ptr::null_mut();
        Handle { at }
    }

    // A handle of a box that was taken apart.
    fn keep(unboxed: Unboxed<Store, Global>) -> Handle
        ensures { result.value ≡ Some unboxed.value }
    {
        let Unboxed { alloc: _, at } = unboxed;
        let at = at as *mut u8;
        Handle { at }
    }

    // The handle's store, as a box that was taken apart.
    fn give_up(self, alloc: Global) -> Option<Unboxed<Store, Global>>
        ensures { self.value ≡ option_map (λ u. u.value) result }
    {
        let Handle { at } = self;
        if at.is_null() {
            return None;
        }
        let at = at as *mut Store;
        Some(Unboxed { alloc, at })
    }
}

/// Takes the store out, and leaves nothing.
pub fn take(handle: &mut Handle, alloc: Global) -> Option<Box<Store>>
    ensures some { IfSome result (λ b. handle.old.value ≡ Some b.value) }
    ensures none { result ≡ None → handle.old.value ≡ None }
    ensures left { handle.new.value ≡ None }
{
    match mem::replace(handle, Handle::none()).give_up(alloc) {
        Some(unboxed) => Some(unboxed.boxed()),
        None => None,
    }
}

/// Takes the store out, and leaves nothing; if there is none, a new one is made, or none if an allocation failed.
pub fn take_or_new(handle: &mut Handle, alloc: Global) -> Option<Box<Store>>
    ensures some { IfSome result (λ b. store_of handle.old.value ≡ b.value) }
    ensures none { result ≡ None → handle.old.value ≡ None }
    ensures left { handle.new.value ≡ None }
{
    match take(handle, alloc) {
        Some(store) => Some(store),
        None => Box::new(alloc, Store::new(alloc)).ok(),
    }
}

/// Puts the store in. What was there before is dropped.
pub fn put(handle: &mut Handle, alloc: Global, store: Box<Store>)
    ensures { handle.new.value ≡ Some store.value }
{
    let old = mem::replace(handle, Handle::keep(Unboxed::of(store)));
    if let Some(old) = old.give_up(alloc) {
        drop(old.boxed());
    }
}
