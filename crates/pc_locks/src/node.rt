//! The form of requests in the slab.
ghost use Rattle.std.specs.Prelude.{◌≡◌, ◌≢◌, ◌||◌, not, ℕ, option_map};
ghost use Rattle.pc_model.specs.Locks.{is_exclusive, are_compatible};
ghost use Rattle.pc_locks.specs.Lines.{HasLink, next_id};
ghost use Rattle.pc_locks.specs.Tables.{Placed, node_at, links_in, own_links_in, passes, KeepOwnLinks, KeepQueueLinks};

use pc_chain::Links;
use pc_types::{Mode, Request, TxnNo};
use slab::Slab;

/// A request and its slot, what is after it in the slot's queue, and what is after it in its transaction's chain.
#[derive(Clone, Copy)]
pub(crate) struct Node {
    pub(crate) request: Request,
    pub(crate) slot: u32,
    pub(crate) next: Option<usize>,
    pub(crate) next_own: Option<usize>,
}

/// Marks the links of the slots' queues.
pub(crate) struct ByQueue;

/// Marks the links of the transactions' chains.
pub(crate) struct ByOwner;

impl Links<ByQueue> for Slab<Node> {
    ghost use Rattle.std.specs.Prelude.{◌≡◌, refl};
    ghost use Rattle.std.proofs.Common.{◌∙◌};
    ghost use Rattle.pc_locks.specs.Lines.{HasLink, next_id};
    ghost use Rattle.pc_locks.specs.Tables.{links_in, KeepOwnLinks};

    type Id = usize;

    ghost has = { λ slab id. HasLink (links_in slab.slots) id };

    ghost next_of = { λ slab id. next_id (links_in slab.slots) id };

    ghost beside = { λ a b. KeepOwnLinks a.slots b.slots };

    fn next(&self, id: usize) -> Option<usize> {
        match self.get(id) {
            Some(node) => node.next,
            None => None,
        }
    }

    fn set_next(&mut self, id: usize, next: Option<usize>)
        requires { HasLink (links_in self.old.slots) id }
        ensures set { next_id (links_in self.new.slots) id ≡ next }
        ensures others { (other : ℕ) → other ≢ id → next_id (links_in self.new.slots) other ≡ next_id (links_in self.old.slots) other }
        ensures has { (other : ℕ) → HasLink (links_in self.old.slots) other → HasLink (links_in self.new.slots) other }
        ensures beside { KeepOwnLinks self.old.slots self.new.slots }
    {
        if let Some(node) = self.get_mut(id) {
            node.next = next;
        }
    }

    ghost beside_same = { λ a. record { nodes = λ id. refl; own = refl } };

    ghost beside_then = { λ a b c p q. record { nodes = λ id. q.nodes id ∙ p.nodes id; own = q.own ∙ p.own } };
}

impl Links<ByOwner> for Slab<Node> {
    ghost use Rattle.std.specs.Prelude.{◌≡◌, refl};
    ghost use Rattle.std.proofs.Common.{◌∙◌};
    ghost use Rattle.pc_locks.specs.Lines.{HasLink, next_id};
    ghost use Rattle.pc_locks.specs.Tables.{own_links_in, KeepQueueLinks};

    type Id = usize;

    ghost has = { λ slab id. HasLink (own_links_in slab.slots) id };

    ghost next_of = { λ slab id. next_id (own_links_in slab.slots) id };

    ghost beside = { λ a b. KeepQueueLinks a.slots b.slots };

    fn next(&self, id: usize) -> Option<usize> {
        match self.get(id) {
            Some(node) => node.next_own,
            None => None,
        }
    }

    fn set_next(&mut self, id: usize, next: Option<usize>)
        requires { HasLink (own_links_in self.old.slots) id }
        ensures set { next_id (own_links_in self.new.slots) id ≡ next }
        ensures others { (other : ℕ) → other ≢ id → next_id (own_links_in self.new.slots) other ≡ next_id (own_links_in self.old.slots) other }
        ensures has { (other : ℕ) → HasLink (own_links_in self.old.slots) other → HasLink (own_links_in self.new.slots) other }
        ensures beside { KeepQueueLinks self.old.slots self.new.slots }
    {
        if let Some(node) = self.get_mut(id) {
            node.next_own = next;
        }
    }

    ghost beside_same = { λ a. record { nodes = λ id. refl; queue = refl } };

    ghost beside_then = { λ a b c p q. record { nodes = λ id. q.nodes id ∙ p.nodes id; queue = q.queue ∙ p.queue } };
}

/// Changes the request of an id.
pub(crate) fn put_request(nodes: &mut Slab<Node>, id: usize, request: Request)
    ensures written { node_at nodes.new.slots id ≡ option_map (λ (n : Placed). record n { request = request }) (node_at nodes.old.slots id) }
    ensures others { (other : ℕ) → other ≢ id → node_at nodes.new.slots other ≡ node_at nodes.old.slots other }
    ensures links { links_in nodes.new.slots ≡ links_in nodes.old.slots }
    ensures own { own_links_in nodes.new.slots ≡ own_links_in nodes.old.slots }
{
    if let Some(node) = nodes.get_mut(id) {
        node.request = request;
    }
}

/// A question about a request.
#[derive(Clone, Copy)]
pub(crate) enum Test {
    /// Whether it is the transaction's.
    Of(TxnNo),
    /// Whether it conflicts with this one: both may not be granted together.
    Conflicts(Request),
    /// Whether the transaction isn't older.
    NotYounger(TxnNo),
    /// Whether it is granted to another transaction.
    HeldBeside(TxnNo),
}

impl Test {
    /// Whether the request passes.
    pub(crate) fn passes(&self, r: &Request) -> bool
        ensures { result ≡ passes self.now r.now }
    {
        match self {
            Test::Of(transaction) => r.transaction == *transaction,
            Test::Conflicts(own) => !are_compatible(own, r),
            Test::NotYounger(transaction) => !(transaction.0 < r.transaction.0),
            Test::HeldBeside(transaction) => r.granted && r.transaction != *transaction,
        }
    }
}

// Whether the two may be granted together.
fn are_compatible(a: &Request, b: &Request) -> bool
    ensures { result ≡ are_compatible a.now b.now }
{
    a.transaction == b.transaction || (!is_exclusive(a.mode) && !is_exclusive(b.mode))
}

/// Whether the mode is exclusive.
pub(crate) fn is_exclusive(mode: Mode) -> bool
    ensures { result ≡ is_exclusive mode }
{
    match mode {
        Mode::Shared => false,
        Mode::Exclusive => true,
    }
}

/// Whether a lock of one mode covers a request of the other.
pub(crate) fn covers(own: Mode, mode: Mode) -> bool
    ensures { result ≡ (is_exclusive own || not (is_exclusive mode)) }
{
    is_exclusive(own) || !is_exclusive(mode)
}

/// An id of a list, and the one before it.
#[derive(Clone, Copy)]
pub(crate) struct FoundId {
    pub(crate) previous: Option<usize>,
    pub(crate) id: usize,
}
