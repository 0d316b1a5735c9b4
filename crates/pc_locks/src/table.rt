//! The requests of all slots, each linked into its slot's queue and into its transaction's chain.
ghost use Rattle.std.specs.Prelude.{◌&&◌, ◌||◌, ◌==◌, not, ◌≡◌, ◌≢◌, ◌<◌, ◌≤◌, ◌++◌, ◌∷◌, [], ℕ, List, true, false, length, option_map, IfOk, OnOk, OnErr, IfSome, IfNone, IsOk, None, Some};
ghost use Rattle.std.specs.List.{list_any};
ghost use Rattle.pc_model.specs.Locks.{is_exclusive, outcome_of_new, outcome_of_upgrade, outcome_beside, queue_after, granted_behind};
ghost use Rattle.pc_model.specs.Queues.{stands_in, AreOnce};
ghost use Rattle.pc_locks.specs.Changes.{HasRoomForRequest, IsRequestAdded, IsFreed};
ghost use Rattle.pc_locks.specs.Lines.{ids_by, next_id, HasLink, IsQueue, AreLines, LineBecomes};
ghost use Rattle.pc_locks.specs.States.{slots_of, first_in_list, rest_of_list, last_in_list, is_listed, queue_at, IsEntered, IsTakenOut, IsRequestAnswered, AreAlike, AreAmong, AreDifferent, AreFilled};
ghost use Rattle.pc_locks.specs.Tables.{Placed, passes, node_at, request_at, slot_at, requests, IsIdFound, IsOwn, IsUnlinked, KeepPlaces, KeepOutside, HaveRequests};
ghost use Rattle.pc_locks.specs.Keepers.{links_of, ids_along, queue_along, queues_of, lists_of, state_of, AreTied};

use crate::ends_row::EndsRow;
use crate::keeper::QueueEnds;
use crate::node::{ByOwner, ByQueue, FoundId, Node, Test, covers, is_exclusive, put_request};
use pc_chain::Chain;
use pc_types::{Mode, Outcome, Request, SlotId, TxnNo};
use slab::Slab;
use std::alloc::{AllocError, Global};
use std::marker::Model;

/// The requests in a slab, each with its links, and the ends of each transaction's chain. The ends of the slots' queues are
/// their keeper's. No id is in the chains of two transactions, and each chain that is kept has an id.
#[derive(Drop)]
pub(crate) struct RequestTable {
    nodes: Slab<Node>,
    ends: EndsRow,
}

impl Model for RequestTable {
    ghost use Rattle.pc_locks.specs.Lines.{entry_ids, AreIdLists};
    ghost use Rattle.pc_locks.specs.Tables.{own_links_in};
    ghost use Rattle.pc_locks.specs.Keepers.{KeptRequests};

    ghost Value = { KeptRequests };

    ghost view = { λ a. record { nodes = a.nodes; entries = entry_ids (own_links_in a.nodes.slots) a.ends } };

    ghost invariant = { λ a. AreIdLists (own_links_in a.nodes.slots) a.ends };
}

impl RequestTable {
    /// No requests. It allocates no memory.
    pub(crate) fn new(alloc: Global) -> RequestTable
        ensures nodes { result.nodes.slots ≡ [] }
        ensures entries { result.entries ≡ [] }
    {
        RequestTable {
            nodes: Slab::new(alloc),
            ends: EndsRow::new(alloc),
        }
    }

    /// The request of an id.
    pub(crate) fn request(&self, id: usize) -> Request
        ensures { result ≡ request_at self.now.nodes.slots id }
    {
        match self.nodes.get(id) {
            Some(node) => node.request,
            None => Request {
                transaction: TxnNo(0),
                mode: Mode::Shared,
                granted: false,
            },
        }
    }

    // The slot of an id.
    fn slot(&self, id: usize) -> u32
        ensures { result ≡ slot_at self.now.nodes.slots id }
    {
        match self.nodes.get(id) {
            Some(node) => node.slot,
            None => 0,
        }
    }

    // The first id of the queue.
    fn first_id(&self, queue: Chain<usize>) -> Option<usize>
        requires { IsQueue (links_of self.now) queue }
        ensures { result ≡ first_in_list (ids_along self.now queue) }
    {
        queue.first::<ByQueue, Slab<Node>>(&self.nodes)
    }

    // No queue has more ids.
    fn most_ids(&self) -> usize
        ensures { length (links_of self.now) ≤ result }
    {
        self.nodes.capacity()
    }

    // The next id in its slot's queue.
    fn next(&self, id: usize) -> Option<usize>
        ensures { result ≡ next_id (links_of self.now) id }
    {
        match self.nodes.get(id) {
            Some(node) => node.next,
            None => None,
        }
    }

    // The first id of the queue whose request passes the test.
    fn find(&self, queue: Chain<usize>, test: Test) -> Option<FoundId>
        requires { IsQueue (links_of self.now) queue }
        ensures none { IfNone result (list_any (passes test) (queue_along self.now queue) ≡ false) }
        ensures some { IfSome result (λ f. IsIdFound self.now.nodes.slots (ids_along self.now queue) test f.previous f.id) }
    {
        let mut previous = None;
        let mut at = self.first_id(queue);
        for _ in 0..self.most_ids() {
            let Some(id) = at else {
                return None;
            };
            if test.passes(&self.request(id)) {
                return Some(FoundId { previous, id });
            }
            previous = Some(id);
            at = self.next(id);
        }
        None
    }

    /// The transaction's first id of the queue. In an empty queue, as most are, nothing is looked for.
    pub(crate) fn find_own(&self, queue: Chain<usize>, transaction: TxnNo) -> Option<FoundId>
        requires { IsQueue (links_of self.now) queue }
        ensures none { IfNone result (stands_in (queue_along self.now queue) transaction ≡ false) }
        ensures some { IfSome result (λ f. IsOwn self.now.nodes.slots (ids_along self.now queue) transaction f.previous f.id) }
    {
        if self.is_empty(queue) {
            return None;
        }
        self.find(queue, Test::Of(transaction))
    }

    // Whether a request of the queue passes the test.
    fn has(&self, queue: Chain<usize>, test: Test) -> bool
        requires { IsQueue (links_of self.now) queue }
        ensures { result ≡ list_any (passes test) (queue_along self.now queue) }
    {
        self.find(queue, test).is_some()
    }

    /// The outcome of a request of a transaction that has none in the queue.
    pub(crate) fn outcome_of_new(
        &self,
        queue: Chain<usize>,
        transaction: TxnNo,
        mode: Mode,
    ) -> Outcome
        requires { IsQueue (links_of self.now) queue }
        ensures { result ≡ outcome_of_new (queue_along self.now queue) transaction mode }
    {
        let request = Request {
            transaction,
            mode,
            granted: true,
        };
        if !self.has(queue, Test::Conflicts(request)) {
            Outcome::Granted
        } else if !self.has(queue, Test::NotYounger(transaction)) {
            Outcome::Queued
        } else {
            Outcome::Died
        }
    }

    // The outcome of an upgrade of the transaction's own request of the queue.
    fn outcome_of_upgrade(&self, queue: Chain<usize>, transaction: TxnNo) -> Outcome
        requires { IsQueue (links_of self.now) queue }
        ensures { result ≡ outcome_of_upgrade (queue_along self.now queue) transaction }
    {
        if self.has(queue, Test::HeldBeside(transaction)) {
            Outcome::Died
        } else {
            Outcome::Granted
        }
    }

    /// The outcome of a request of a transaction whose own request of the queue was found.
    pub(crate) fn outcome_again(
        &self,
        queue: Chain<usize>,
        found: FoundId,
        transaction: TxnNo,
        mode: Mode,
    ) -> Outcome
        requires { IsQueue (links_of self.now) queue }
        ensures { result ≡ outcome_beside (queue_along self.now queue) transaction mode (Some (request_at self.now.nodes.slots found.id)) }
    {
        let own = self.request(found.id);
        if covers(own.mode, mode) {
            return Outcome::Granted;
        }
        self.outcome_of_upgrade(queue, transaction)
    }

    // Adds a request, which is in no queue, at the end of its transaction's chain, and returns its id. It asks for memory only
    // if the slab has no room or the transaction no entry, and before the first change: if an allocation failed nothing changed.
    fn add(&mut self, request: Request, slot: u32) -> Result<usize, AllocError>
        ensures added { IfOk result (IsRequestAdded self.old self.new (record { request = request; slot = slot })) }
        ensures room { HasRoomForRequest self.old request.transaction → IsOk result }
        ensures nodes { OnErr result (self.new.nodes.slots ≡ self.old.nodes.slots) }
        ensures entries { OnErr result (self.new.entries ≡ self.old.entries) }
    {
        let transaction = request.transaction.0;
        self.nodes.reserve(1)?;
        let at = self.ends.keep(transaction)?;
        let id = self.nodes.insert_reserved(Node {
            request,
            slot,
            next: None,
            next_own: None,
        });
        let mut ends = self.ends.get(at);
        ends.push_back::<ByOwner, Slab<Node>>(&mut self.nodes, id);
        self.ends.put(at, transaction, ends);
        Ok(id)
    }

    // Links an id, which is in no queue, to the end of the slot's, which is this one.
    fn link<K, E: QueueEnds<K>>(
        &mut self,
        keeper: &mut E,
        slot: SlotId,
        queue: Chain<usize>,
        id: usize,
    )
        requires has { E.has keeper.old slot }
        requires queue { queue ≡ E.ends_of keeper.old slot }
        requires here { HasLink (links_of self.old) id }
        requires lines { AreLines (links_of self.old) (E.ends_of keeper.old) }
        requires fresh { (other : ℕ) → is_listed (ids_by (links_of self.old) (E.ends_of keeper.old) other) id ≡ false }
        ensures linked { LineBecomes (links_of self.old) (links_of self.new) (E.ends_of keeper.old) (E.ends_of keeper.new) slot (ids_by (links_of self.old) (E.ends_of keeper.old) slot ++ id ∷ []) }
        ensures nodes { (other : ℕ) → node_at self.new.nodes.slots other ≡ node_at self.old.nodes.slots other }
        ensures entries { self.new.entries ≡ self.old.entries }
        ensures beside { E.beside keeper.old keeper.new }
    {
        let mut ends = queue;
        ends.push_back::<ByQueue, Slab<Node>>(&mut self.nodes, id);
        keeper.set_ends(slot, ends);
    }

    // Adds a request at the end of the slot's queue, which is this one, and of its transaction's chain. It asks for memory only
    // if there is no room, and before the first change: if an allocation failed nothing changed.
    fn enter<K, E: QueueEnds<K>>(
        &mut self,
        keeper: &mut E,
        slot: SlotId,
        queue: Chain<usize>,
        transaction: TxnNo,
        mode: Mode,
        granted: bool,
    ) -> Result<(), AllocError>
        requires tied { AreTied (E.ends_of keeper.old) self.old }
        requires has { E.has keeper.old slot }
        requires queue { queue ≡ E.ends_of keeper.old slot }
        ensures tied { AreTied (E.ends_of keeper.new) self.new }
        ensures entered { OnOk result (IsEntered (state_of (E.ends_of keeper.old) self.old) (state_of (E.ends_of keeper.new) self.new) slot (record { transaction = transaction; mode = mode; granted = granted })) }
        ensures room { HasRoomForRequest self.old transaction → IsOk result }
        ensures err { OnErr result (AreAlike (state_of (E.ends_of keeper.new) self.new) (state_of (E.ends_of keeper.old) self.old)) }
        ensures keeper { OnErr result (keeper.new ≡ keeper.old) }
        ensures beside { E.beside keeper.old keeper.new }
    {
        let request = Request {
            transaction,
            mode,
            granted,
        };
        let id = self.add(request, slot.0)?;
        self.link(keeper, slot, queue, id);
        Ok(())
    }

    /// Answers a transaction's first request of the slot, which has this queue; an empty one grants it immediately. If an
    /// allocation failed nothing changed.
    pub(crate) fn first<K, E: QueueEnds<K>>(
        &mut self,
        keeper: &mut E,
        slot: SlotId,
        queue: Chain<usize>,
        transaction: TxnNo,
        mode: Mode,
    ) -> Result<Outcome, AllocError>
        requires tied { AreTied (E.ends_of keeper.old) self.old }
        requires has { E.has keeper.old slot }
        requires queue { queue ≡ E.ends_of keeper.old slot }
        requires fresh { stands_in (queue_at (queues_of (E.ends_of keeper.old) self.old) slot) transaction ≡ false }
        ensures tied { AreTied (E.ends_of keeper.new) self.new }
        ensures answered { IfOk result (IsRequestAnswered (state_of (E.ends_of keeper.old) self.old) (state_of (E.ends_of keeper.new) self.new) transaction slot mode) }
        ensures err { OnErr result (AreAlike (state_of (E.ends_of keeper.new) self.new) (state_of (E.ends_of keeper.old) self.old)) }
        ensures keeper { OnErr result (keeper.new ≡ keeper.old) }
        ensures beside { E.beside keeper.old keeper.new }
    {
        if self.is_empty(queue) {
            self.enter(keeper, slot, queue, transaction, mode, true)?;
            return Ok(Outcome::Granted);
        }
        let answer = self.outcome_of_new(queue, transaction, mode);
        match answer {
            Outcome::Died => Ok(answer),
            Outcome::Granted => {
                self.enter(keeper, slot, queue, transaction, mode, true)?;
                Ok(answer)
            }
            Outcome::Queued => {
                self.enter(keeper, slot, queue, transaction, mode, false)?;
                Ok(answer)
            }
        }
    }

    /// Answers a request of a transaction whose own request of the queue was found, and is granted.
    pub(crate) fn again(
        &mut self,
        queue: Chain<usize>,
        found: FoundId,
        transaction: TxnNo,
        mode: Mode,
    ) -> Outcome
        requires line { IsQueue (links_of self.old) queue }
        requires held { HaveRequests self.old.nodes.slots (ids_along self.old queue) }
        requires once { AreOnce (queue_along self.old queue) }
        requires own { IsOwn self.old.nodes.slots (ids_along self.old queue) transaction found.previous found.id }
        ensures told { result ≡ outcome_beside (queue_along self.old queue) transaction mode (Some (request_at self.old.nodes.slots found.id)) }
        ensures queue { requests self.new.nodes.slots (ids_along self.old queue) ≡ queue_after (queue_along self.old queue) transaction mode result }
        ensures places { KeepPlaces self.old.nodes.slots self.new.nodes.slots }
        ensures others { KeepOutside (ids_along self.old queue) self.old.nodes.slots self.new.nodes.slots }
        ensures links { links_of self.new ≡ links_of self.old }
        ensures entries { self.new.entries ≡ self.old.entries }
    {
        let own = self.request(found.id);
        if covers(own.mode, mode) {
            return Outcome::Granted;
        }
        match self.outcome_of_upgrade(queue, transaction) {
            Outcome::Granted => {
                let upgraded = Request {
                    mode: Mode::Exclusive,
                    ..own
                };
                self.write(found.id, upgraded);
                Outcome::Granted
            }
            answer => answer,
        }
    }

    /// The last id of the transaction.
    pub(crate) fn last(&self, transaction: TxnNo) -> Option<usize>
        ensures { result ≡ last_in_list (slots_of self.now.entries transaction) }
    {
        let (_, last) = self.ends.ends_of(transaction.0).ends();
        last
    }

    /// Whether the queue has no request.
    pub(crate) fn is_empty(&self, queue: Chain<usize>) -> bool
        requires { IsQueue (links_of self.now) queue }
        ensures { result ≡ (length (ids_along self.now queue) == 0) }
    {
        self.first_id(queue).is_none()
    }

    // Changes the request of an id.
    fn write(&mut self, id: usize, request: Request)
        ensures written { node_at self.new.nodes.slots id ≡ option_map (λ (n : Placed). record n { request = request }) (node_at self.old.nodes.slots id) }
        ensures others { (other : ℕ) → other ≢ id → node_at self.new.nodes.slots other ≡ node_at self.old.nodes.slots other }
        ensures links { links_of self.new ≡ links_of self.old }
        ensures entries { self.new.entries ≡ self.old.entries }
    {
        put_request(&mut self.nodes, id, request);
    }

    /// Grants requests from the front of the queue, up to the first that conflicts with one before it.
    pub(crate) fn grant(&mut self, queue: Chain<usize>)
        requires line { IsQueue (links_of self.old) queue }
        requires held { HaveRequests self.old.nodes.slots (ids_along self.old queue) }
        requires once { AreOnce (queue_along self.old queue) }
        ensures granted { requests self.new.nodes.slots (ids_along self.old queue) ≡ granted_behind [] (queue_along self.old queue) }
        ensures places { KeepPlaces self.old.nodes.slots self.new.nodes.slots }
        ensures others { KeepOutside (ids_along self.old queue) self.old.nodes.slots self.new.nodes.slots }
        ensures links { links_of self.new ≡ links_of self.old }
        ensures entries { self.new.entries ≡ self.old.entries }
    {
        let mut is_first = true;
        let mut are_shared = true;
        let mut at = self.first_id(queue);
        for _ in 0..self.most_ids() {
            let Some(id) = at else {
                return;
            };
            let request = self.request(id);
            are_shared = stay_shared(are_shared, request.mode);
            if !fits(is_first, are_shared) {
                return;
            }
            let granted = Request {
                granted: true,
                ..request
            };
            self.write(id, granted);
            is_first = false;
            at = self.next(id);
        }
    }

    // Takes the first id out of the transaction's chain; `None` if it has none. No request changes.
    fn pop(&mut self, transaction: u64) -> Option<usize>
        ensures given { result ≡ first_in_list (slots_of self.old.entries transaction) }
        ensures rest { slots_of self.new.entries transaction ≡ rest_of_list (slots_of self.old.entries transaction) }
        ensures others { (other : ℕ) → other ≢ transaction → slots_of self.new.entries other ≡ slots_of self.old.entries other }
        ensures filled { AreFilled self.new.entries }
        ensures nodes { self.new.nodes ≡ self.old.nodes }
        ensures none { IfNone result (self.new ≡ self.old) }
    {
        let at = self.ends.find(transaction)?;
        let mut ends = self.ends.get(at);
        let id = ends.pop_front::<ByOwner, Slab<Node>>(&self.nodes)?;
        if ends.first::<ByOwner, Slab<Node>>(&self.nodes).is_some() {
            self.ends.put(at, transaction, ends);
        } else {
            self.ends.forget(at);
        }
        Some(id)
    }

    // Takes the first id out of the slot's queue, which is this one. No link changes.
    fn unlink_first<K, E: QueueEnds<K>>(&self, keeper: &mut E, slot: SlotId, queue: Chain<usize>)
        requires has { E.has keeper.old slot }
        requires queue { queue ≡ E.ends_of keeper.old slot }
        requires lines { AreLines (links_of self.now) (E.ends_of keeper.old) }
        ensures unlinked { LineBecomes (links_of self.now) (links_of self.now) (E.ends_of keeper.old) (E.ends_of keeper.new) slot (rest_of_list (ids_by (links_of self.now) (E.ends_of keeper.old) slot)) }
        ensures beside { E.beside keeper.old keeper.new }
    {
        let mut ends = queue;
        ends.pop_front::<ByQueue, Slab<Node>>(&self.nodes);
        keeper.set_ends(slot, ends);
    }

    // Takes the id after `previous` out of the slot's queue, which is this one; the first one if `previous` is `None`.
    fn unlink_behind<K, E: QueueEnds<K>>(
        &mut self,
        keeper: &mut E,
        slot: SlotId,
        queue: Chain<usize>,
        previous: Option<usize>,
    )
        requires has { E.has keeper.old slot }
        requires queue { queue ≡ E.ends_of keeper.old slot }
        requires lines { AreLines (links_of self.old) (E.ends_of keeper.old) }
        requires stands { (before rest : List ℕ) × (ids_by (links_of self.old) (E.ends_of keeper.old) slot ≡ before ++ rest) × (previous ≡ last_in_list before) }
        ensures unlinked { (before rest : List ℕ) → ids_by (links_of self.old) (E.ends_of keeper.old) slot ≡ before ++ rest → previous ≡ last_in_list before → LineBecomes (links_of self.old) (links_of self.new) (E.ends_of keeper.old) (E.ends_of keeper.new) slot (before ++ rest_of_list rest) }
        ensures nodes { (other : ℕ) → node_at self.new.nodes.slots other ≡ node_at self.old.nodes.slots other }
        ensures entries { self.new.entries ≡ self.old.entries }
        ensures beside { E.beside keeper.old keeper.new }
    {
        let mut ends = queue;
        ends.unlink_after::<ByQueue, Slab<Node>>(&mut self.nodes, previous);
        keeper.set_ends(slot, ends);
    }

    // Takes the transaction's request, which has this id, out of the slot's queue. If it is the first, as it mostly is, nothing
    // is looked for.
    fn unlink<K, E: QueueEnds<K>>(
        &mut self,
        keeper: &mut E,
        slot: SlotId,
        transaction: TxnNo,
        id: usize,
    )
        requires has { E.has keeper.old slot }
        requires lines { AreLines (links_of self.old) (E.ends_of keeper.old) }
        requires stands { stands_in (queue_at (queues_of (E.ends_of keeper.old) self.old) slot) transaction ≡ true }
        requires own { ((request_at self.old.nodes.slots id).transaction == transaction) ≡ true }
        ensures lines { AreLines (links_of self.new) (E.ends_of keeper.new) }
        ensures unlinked { IsUnlinked self.old.nodes.slots (ids_by (links_of self.old) (E.ends_of keeper.old)) (ids_by (links_of self.new) (E.ends_of keeper.new)) slot transaction }
        ensures nodes { (other : ℕ) → node_at self.new.nodes.slots other ≡ node_at self.old.nodes.slots other }
        ensures entries { self.new.entries ≡ self.old.entries }
        ensures beside { E.beside keeper.old keeper.new }
    {
        let queue = keeper.ends(slot);
        if self.first_id(queue) == Some(id) {
            self.unlink_first(keeper, slot, queue);
        } else if let Some(found) = self.find(queue, Test::Of(transaction)) {
            self.unlink_behind(keeper, slot, queue, found.previous);
        }
    }

    // Frees the id, which is in no transaction's chain.
    fn free(&mut self, id: usize)
        requires { (transaction : ℕ) → is_listed (slots_of self.old.entries transaction) id ≡ false }
        ensures { IsFreed self.old self.new id }
    {
        self.nodes.try_remove(id);
    }

    /// Takes the first request of the transaction out, and returns its slot.
    pub(crate) fn take<K, E: QueueEnds<K>>(
        &mut self,
        keeper: &mut E,
        transaction: TxnNo,
    ) -> Option<SlotId>
        requires tied { AreTied (E.ends_of keeper.old) self.old }
        requires held { AreAmong (E.has keeper.old) (queues_of (E.ends_of keeper.old) self.old) }
        requires once { (slot : ℕ) → AreOnce (queue_at (queues_of (E.ends_of keeper.old) self.old) slot) }
        requires different { AreDifferent (slots_of (lists_of self.old) transaction) }
        ensures tied { AreTied (E.ends_of keeper.new) self.new }
        ensures given { result ≡ first_in_list (slots_of (lists_of self.old) transaction) }
        ensures taken { IfSome result (IsTakenOut (state_of (E.ends_of keeper.old) self.old) (state_of (E.ends_of keeper.new) self.new) transaction) }
        ensures has { IfSome result (λ slot. E.has keeper.new slot) }
        ensures none { IfNone result ((self.new ≡ self.old) × (keeper.new ≡ keeper.old)) }
        ensures beside { E.beside keeper.old keeper.new }
    {
        let id = self.pop(transaction.0)?;
        let slot = SlotId(self.slot(id));
        self.unlink(keeper, slot, transaction, id);
        self.free(id);
        Some(slot)
    }
}

// Whether requests are all shared, with one more.
fn stay_shared(are_shared: bool, mode: Mode) -> bool
    ensures { result ≡ (are_shared && not (is_exclusive mode)) }
{
    are_shared && !is_exclusive(mode)
}

// Whether a request fits all before it: it is the first, or all are shared with it.
fn fits(is_first: bool, are_shared: bool) -> bool
    ensures { result ≡ (is_first || are_shared) }
{
    is_first || are_shared
}
