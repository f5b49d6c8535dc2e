//! The requests that have no reply yet, of both sides (JSON-RPC 2.0, section 5).
ghost use Rattle.std.specs.Prelude.{◌≡◌, ◌==◌, ◌+◌, ◌^◌, ◌<◌, ◌≤◌, ◌||◌, not, pos, Ok, Err, None, option_copied, option_map, IfOk, IfErr, OnOk, OnErr, if◌then◌else◌};
ghost use Rattle.std.specs.FinMap as map;
ghost use Rattle.std.specs.List.{list_any};
ghost use Rattle.serde_json.specs.Data.{depth};
ghost use Rattle.serde_json.specs.Read.{max_depth};
ghost use Rattle.serde_json.specs.View.{view};
ghost use Rattle.lsp_message.specs.Converted.{IsTreeOf};
ghost use Rattle.lsp_message.specs.Id.{Id, number, id_cmp, same_id};
ghost use Rattle.lsp_message.specs.View.{response_view};
ghost use Rattle.lsp_queue.specs.Queue.{pending_of, count_of, all_ids, cancelled, ids_where};
ghost use Rattle.lsp_queue.specs.Registering.{IsFaultOf};

use crate::error::RegisterFault;
use lsp_message::{ErrorCode, Request, RequestId, Response};
use serde::Serialize;
use serde_json::Value;
use std::alloc::{AllocError, Global};
use std::collections::BTreeMap;
use std::marker::Model;

/// The requests that have no reply yet, of both sides. A request is pending from `register` until `complete` or
/// `cancel`.
#[derive(Debug, Drop)]
pub struct ReqQueue<I, O> {
    /// The other side's requests, which this side has to answer.
    pub incoming: Incoming<I>,
    /// This side's requests, which the other side has to answer.
    pub outgoing: Outgoing<O>,
}

impl<I, O> ReqQueue<I, O> {
    /// Makes empty queues. It does not allocate.
    pub fn default(alloc: Global) -> ReqQueue<I, O>
        ensures incoming { result.incoming ≡ map.empty }
        ensures outgoing { result.outgoing ≡ (map.empty, 0) }
    {
        ReqQueue {
            incoming: Incoming::default(alloc),
            outgoing: Outgoing::after(alloc, 0),
        }
    }

    /// Returns whether a request of either side is pending.
    pub fn has_pending(&self) -> bool
        ensures { result
            ≡ (not (map.len self.now.incoming == 0) || not (map.len (pending_of self.now.outgoing)
            == 0)) }
    {
        self.incoming.has_pending() || self.outgoing.has_pending()
    }
}

/// The other side's requests that have no reply yet. Each is kept under its id, with data of your own.
#[derive(Debug, Drop)]
pub struct Incoming<I> {
    alloc: Global,
    pending: BTreeMap<RequestId, I>,
}

impl<I> Model for Incoming<I> {
    ghost use Rattle.std.specs.FinMap as map;
    ghost use Rattle.lsp_message.specs.Id.{id_cmp};
    ghost use Rattle.lsp_message.specs.IdKeys.{coded_id};

    ghost Value = { map.FinMap id_cmp I };

    ghost coded = { map.code coded_id I.code };

    ghost view = { λ queue. map.from_entries queue.pending.entries };
}

impl<I> Incoming<I> {
    fn default(alloc: Global) -> Incoming<I>
        ensures { result ≡ map.empty }
    {
        Incoming {
            alloc,
            pending: BTreeMap::new(alloc),
        }
    }

    /// Returns whether no request is pending under this id. It is true also if there never was one.
    pub fn is_completed(&self, id: &RequestId) -> bool
        ensures { result ≡ not (map.contains_key self.now id.now) }
    {
        !self.pending.contains_key(id)
    }

    /// Returns whether any request is pending.
    pub fn has_pending(&self) -> bool
        ensures { result ≡ not (map.len self.now == 0) }
    {
        self.pending.len() != 0
    }

    /// Returns the ids of all pending requests. An `Err` means that an allocation failed.
    pub fn ids(&self) -> Result<Vec<RequestId>, AllocError>
        ensures { IfOk result (λ ids. (id : Id)
            → list_any (same_id id) ids.items ≡ map.contains_key self.now id) }
    {
        let mut ids = Vec::new(self.alloc);
        for id in self.pending.keys() {
            let id = id.clone()?;
            ids.push(id)?;
        }
        Ok(ids)
    }

    /// Returns the data of a pending request.
    pub fn data(&self, id: &RequestId) -> Option<&I>
        ensures { option_copied result ≡ map.get self.now id.now }
    {
        self.pending.get(id)
    }

    /// Takes a request out and returns its data, or `None` if it was not pending.
    pub fn complete(&mut self, id: &RequestId) -> Option<I>
        ensures value { result ≡ map.get self.old id.now }
        ensures removed { self.new ≡ map.remove self.old id.now }
    {
        self.pending.remove(id)
    }
}

impl<I: Drop> Incoming<I> {
    /// Makes a request pending with this data. If one is pending under the same id, its data is replaced and dropped.
    ///
    /// The only fault is `RegisterFault::Memory`. It returns the data, and the queue is unchanged.
    pub fn register(&mut self, id: RequestId, data: I) -> Result<(), RegisterFault<I>>
        ensures ok { OnOk result (self.new ≡ map.insert self.old id «data») }
        ensures err { OnErr result (self.new ≡ self.old) }
        ensures handed_back { IfErr result (λ fault. fault ≡ RegisterFault.Memory «data») }
    {
        match keep(&mut self.pending, id, data) {
            Ok(()) => Ok(()),
            Err(back) => Err(RegisterFault::Memory(back)),
        }
    }

    /// Cancels a pending request (LSP 3.17, "Cancellation Support"): it drops its data, and returns the reply to send,
    /// which has code -32800 and the text `canceled by client`.
    ///
    /// `Ok(None)` means that no such request is pending. If the allocation of the text fails, the queue is unchanged.
    pub fn cancel(&mut self, id: RequestId) -> Result<Option<Response>, AllocError>
        ensures reply { IfOk result (λ reply.
            option_map response_view reply ≡ option_map (λ _. cancelled id) (map.get self.old id)) }
        ensures absent { map.get self.old id ≡ None → result ≡ Ok None }
        ensures removed { OnOk result (self.new ≡ map.remove self.old id) }
        ensures err { OnErr result (self.new ≡ self.old) }
    {
        if self.is_completed(&id) {
            return Ok(None);
        }
        let message = String::from_str(self.alloc, "canceled by client")?;
        self.complete(&id);
        let code = ErrorCode::RequestCanceled.number();
        Ok(Some(Response::new_err(id, code, message)))
    }
}

/// How many ids there are: 0 to 2147483647.
const ALL_IDS: u32 = 2147483648;

/// This side's requests that have no reply yet. Each is kept under its id, with data of your own.
#[derive(Debug, Drop)]
pub struct Outgoing<O> {
    alloc: Global,
    next: u32,
    pending: BTreeMap<RequestId, O>,
}

impl<O> Model for Outgoing<O> {
    ghost use Rattle.std.specs.Prelude.{ℕ, ◌≤◌, ◌^◌};
    ghost use Rattle.std.specs.FinMap as map;
    ghost use Rattle.std.specs.Coded.{coded×, coded_ℕ};
    ghost use Rattle.lsp_message.specs.Id.{id_cmp};
    ghost use Rattle.lsp_message.specs.IdKeys.{coded_id};

    ghost Value = { map.FinMap id_cmp O × ℕ };

    ghost coded = { coded× (map.code coded_id O.code) coded_ℕ };

    ghost view = { λ queue. (map.from_entries queue.pending.entries, queue.next) };

    ghost invariant = { λ queue. queue.next ≤ 2 ^ 31 };
}

impl<O> Outgoing<O> {
    /// Makes a queue that has used `count` ids, at most 2147483648. None of their requests is pending. It does not
    /// allocate.
    ///
    /// The next request gets the id `count`. So a server can go on where an earlier queue of the same session stopped,
    /// and a test can reach the last ids.
    pub fn after(alloc: Global, count: u32) -> Outgoing<O>
        requires { count ≤ all_ids }
        ensures { result ≡ (map.empty, count) }
    {
        Outgoing {
            alloc,
            next: count,
            pending: BTreeMap::new(alloc),
        }
    }

    /// Returns whether no request is pending under this id. It is true also if there never was one.
    pub fn is_completed(&self, id: &RequestId) -> bool
        ensures { result ≡ not (map.contains_key (pending_of self.now) id.now) }
    {
        !self.pending.contains_key(id)
    }

    /// Returns whether any request is pending.
    pub fn has_pending(&self) -> bool
        ensures { result ≡ not (map.len (pending_of self.now) == 0) }
    {
        self.pending.len() != 0
    }

    /// Takes a request out and returns its data, or `None` if it was not pending.
    pub fn complete(&mut self, id: RequestId) -> Option<O>
        ensures value { result ≡ map.get (pending_of self.old) id }
        ensures removed { self.new ≡ (map.remove (pending_of self.old) id, count_of self.old) }
    {
        self.pending.remove(&id)
    }

    /// Returns the data of a pending request.
    pub fn data(&self, id: &RequestId) -> Option<&O>
        ensures { option_copied result ≡ map.get (pending_of self.now) id.now }
    {
        self.pending.get(id)
    }
}

impl<O: PartialEq> Outgoing<O> {
    /// Returns the ids of the pending requests whose data equals `wanted`, in ascending order. An `Err` means that an
    /// allocation failed.
    pub fn ids_of(&self, wanted: &O) -> Result<Vec<RequestId>, AllocError>
        ensures { IfOk result (λ ids.
            ids.items ≡ ids_where (λ kept. O.eq kept wanted.now) (pending_of self.now)) }
    {
        let mut ids = Vec::new(self.alloc);
        for (id, kept) in self.pending.iter() {
            if *kept == *wanted {
                let id = id.clone()?;
                ids.push(id)?;
            }
        }
        Ok(ids)
    }
}

impl<O: Drop> Outgoing<O> {
    /// Makes a request pending with this data, and returns the request to send. Its id is the next of 0, 1, 2, ..
    /// 2147483647.
    ///
    /// The fault is `RegisterFault::Spent` if all ids were used, otherwise `RegisterFault::Memory` if an allocation
    /// failed. Both return the data, and the queue is unchanged.
    pub fn register_value(
        &mut self,
        method: String,
        params: Value,
        data: O,
    ) -> Result<Request, RegisterFault<O>>
        ensures id { IfOk result (λ request. request.id ≡ number (pos (count_of self.old))) }
        ensures method { IfOk result (λ request. request.method ≡ method) }
        ensures params { IfOk result (λ request. request.params ≡ params) }
        ensures ok { OnOk result
            (self.new ≡ (
              map.insert (pending_of self.old) (number (pos (count_of self.old)))
                  «data»,
              count_of self.old + 1,
            )) }
        ensures room { OnOk result (count_of self.old < all_ids) }
        ensures err { OnErr result (self.new ≡ self.old) }
        ensures refused { IfErr result (λ fault.
            fault ≡ (if count_of self.old == all_ids then RegisterFault.Spent «data»
            else RegisterFault.Memory «data»)) }
        ensures spent { count_of self.old ≡ all_ids → result ≡ Err (RegisterFault.Spent «data») }
    {
        if self.is_spent() {
            return Err(RegisterFault::Spent(data));
        }
        let number = self.next;
        match keep(&mut self.pending, id_of(number), data) {
            Ok(()) => {
                self.next = number + 1;
                let id = id_of(number);
                Ok(Request { id, method, params })
            }
            Err(back) => Err(RegisterFault::Memory(back)),
        }
    }

    /// Does what `register_value` does, with params of any type that `serde_json` writes. They are converted by way of
    /// their compact text.
    ///
    /// If ids are left, and `serde_json` cannot convert the params or lacks memory for them, the fault is
    /// `RegisterFault::Unwritable`.
    pub fn register<P: Serialize + Drop>(
        &mut self,
        method: String,
        params: P,
        data: O,
    ) -> Result<Request, RegisterFault<O>>
        ensures id { IfOk result (λ request. request.id ≡ number (pos (count_of self.old))) }
        ensures method { IfOk result (λ request. request.method ≡ method) }
        ensures params { IfOk result (λ request. IsTreeOf (P.writes params) (view request.params)) }
        ensures nests { IfOk result (λ request. depth (view request.params) ≤ max_depth) }
        ensures ok { OnOk result
            (self.new ≡ (
              map.insert (pending_of self.old) (number (pos (count_of self.old)))
                  «data»,
              count_of self.old + 1,
            )) }
        ensures room { OnOk result (count_of self.old < all_ids) }
        ensures err { OnErr result (self.new ≡ self.old) }
        ensures handed_back { IfErr result (IsFaultOf «data») }
        ensures spent { count_of self.old ≡ all_ids → result ≡ Err (RegisterFault.Spent «data») }
        ensures unspent { IfErr result (λ fault. fault ≡ RegisterFault.Spent «data»
            → count_of self.old ≡ all_ids) }
    {
        if self.is_spent() {
            return Err(RegisterFault::Spent(data));
        }
        match serde_json::to_value(self.alloc, &params) {
            Ok(params) => self.register_value(method, params, data),
            Err(_) => Err(RegisterFault::Unwritable(data)),
        }
    }

    /// Returns whether all ids were used.
    fn is_spent(&self) -> bool
        ensures { result ≡ (count_of self.now == all_ids) }
    {
        self.next == ALL_IDS
    }
}

/// Keeps the data under the id, in place of the data that was there. If an allocation fails, it returns the data.
fn keep<D: Drop>(pending: &mut BTreeMap<RequestId, D>, id: RequestId, data: D) -> Result<(), D>
    ensures ok { OnOk result (map.from_entries pending.new.entries
        ≡ map.insert (map.from_entries {R = id_cmp} pending.old.entries) id «data») }
    ensures err { OnErr result (pending.new.entries ≡ pending.old.entries) }
    ensures back { IfErr result (λ back. back ≡ «data») }
{
    match pending.insert(id, data) {
        Ok(_) => Ok(()),
        Err(refused) => Err(refused.value.1),
    }
}

/// Makes the id with this number.
fn id_of(next: u32) -> RequestId
    requires { next < 2 ^ 31 }
    ensures { result ≡ number (pos next) }
{
    RequestId::from(next as i32)
}
