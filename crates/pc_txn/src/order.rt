//! The places of items in the ascending order of their keys.
ghost use Rattle.std.specs.Prelude.{◌≡◌, ◌≤◌, ◌+◌, length, insert, vec_len, vec_capacity};

// Adds a place, for which there is room.
#[tactic(auto, using(crate::proofs::Orders::insert_last))]
pub(crate) fn add(order: &mut Vec<usize>, at: usize, place: usize)
    requires at { at ≤ length order.old.items }
    requires room { vec_len order.old + 1 ≤ vec_capacity order.old }
    ensures { order.new.items ≡ insert order.old.items at place }
{
    if at == order.len() {
        order.push_reserved(place);
    } else if order.insert(at, place).is_err() {
        unreachable!();
    }
}
