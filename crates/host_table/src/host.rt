//! The host.
ghost use Rattle.std.specs.Prelude.{◌≡◌, ◌+◌, ◌<◌, ◌≤◌, ◌∷◌, [], ◌++◌, length, map, is_some, IfOk, IfErr, OnOk, OnErr, None, Some, IsSomeAnd, IsTrue, max, ◌↔◌, false, true, not};
ghost use Rattle.std.specs.List.{AllByRecursion};
ghost use Rattle.wopi_model.specs.Host.{kept_limits};
ghost use Rattle.wopi_model.specs.Moment.{IsMoment};
ghost use Rattle.host_core.specs.Opening.{IsFirstVersion};
ghost use Rattle.wopi_text.specs.FileName.{shard_of};
ghost use Rattle.host_core.specs.Caller.{Makes, MakesForEditor, Refuses, Frames, answer_of, entry_of, IsLost, IsLostCall};
ghost use Rattle.host_core.specs.Facts.{made_for};
ghost use Rattle.host_core.specs.Fullness.{IsNearlyFull, IsNearlyFullAt};
ghost use Rattle.host_core.specs.Listing.{IsListing, Lists, LooksAt};
ghost use Rattle.host_core.specs.Times.{untimed};
ghost use Rattle.host_table.specs.Histories.{as_opened, IsSeen};
ghost use Rattle.host_table.specs.Passes.{locks_of, own_of, last_seen, top, sight_of, kept_pass, given_pass, IsPassOf, IsSamePass, HasSeen, AreBases};
ghost use Rattle.host_table.specs.Start.{limits_of, log_in, first_seats, first_pass, AreHanded, IsBlamed, Starts, StartsWithin, StartsKept};
ghost use Rattle.host_table.specs.Close.{IsWhole, Ends, Leaves};
ghost use Rattle.host_table.specs.Calls.{Calls, CallsForEditor, Glances, Looks, AreNotesOf, AreSeenAt};

use crate::closing::{end_host, end_stores};
use crate::held::Held;
use crate::journal::Journal;
use crate::opening::{Most, hand_back, lock_all, open_all};
use crate::pass::Pass;
use crate::rooms::{CloseRoom, EndRoom, SplitRoom};
use crate::rows::split_all;
use crate::stores::{free_all, keep_all};
use crate::whole::{are_numbered, weigh_whole};
use host_core::{
    CallFault, Carried, EditorReceipt, Kept, Listing, Placed, Receipt, Refusal, StartFault, Store,
};
use outside::Folder;
use std::alloc::Global;
use std::marker::Model;
use std::snapshot::Snapshot;
use std::sync::Wait;
use turn_lock::{Seat, TurnLock};
use wopi_model::Call;
use wopi_text::Memory;

/// The number of shards.
pub(crate) const SHARDS: usize = 16;

/// Sixteen shards, each under a lock. Threads share it by reference, and each comes with a pass of its own.
#[derive(Drop)]
pub struct Host<F: Store> {
    pub(crate) alloc: Global,
    pub(crate) locks: Vec<TurnLock<Held<F>>>,
    /// The shards when the host began.
    pub(crate) shards: Snapshot<Vec<Held<F>>>,
    pub(crate) opened: u64,
    /// The version of the files that stood there at the opening.
    pub(crate) first: u64,
    pub(crate) most: Most,
    pub(crate) made: u32,
}

impl<F: Store> Model for Host<F> {
    ghost use Rattle.host_table.specs.Passes.{HostView};

    ghost Value = { HostView F };

    ghost use Rattle.std.specs.Prelude.{◌≡◌, None, true};
    ghost use Rattle.host_table.specs.Views.{host_of};
    ghost use Rattle.host_table.specs.Passes.{IsHost};

    ghost view = { host_of };

    ghost invariant = { λ host. IsHost (host_of host) × ((host_of host).limits.calls ≡ None → F.endless ≡ true) };
}

/// Why a host wasn't closed.
#[derive(Drop)]
pub enum CloseFault<F: Store> {
    /// There was no memory. The host and its passes come back.
    Memory(Host<F>, Vec<Pass<F>>),
}

/// One call in the shard's turn. `last` is the pass's last stamp. Contracts see the shard's store, as the turn left it.
fn turn<F: Store, R: Wait>(
    rt: &R,
    lock: &TurnLock<Held<F>>,
    seat: &mut Seat<Held<F>>,
    call: &mut Call,
    number: u32,
    last: &mut u64,
    moment: u64,
    carried: &mut Carried,
) -> (Result<Placed, Refusal>, Snapshot<F>)
    requires lock { seat.old.lock ≡ lock.now }
    requires free { seat.old.taken ≡ None }
    requires based { IsSomeAnd seat.old.base (λ base. base.only ≡ Some (shard_of call.old.name)) }
    requires moment { IsMoment moment }
    ensures last { last.new ≡ max last.old (last_seen seat.new) }
    ensures seen { IsSomeAnd seat.old.base (λ base. IsSeen base seat.new.seen) }
    ensures made { IfOk (answer_of result.0 call.new carried.new) (λ receipt. Calls seat.old call.old number last.old moment receipt seat.new) }
    ensures refused { IfErr (answer_of result.0 call.new carried.new) (λ refusal. Looks seat.old call.old last.old moment refusal seat.new) }
    ensures noted { AreSeenAt (F.notes result.1.value) seat.new }
    ensures told { IfOk result.0 (λ placed. placed.told ≡ not (F.lost result.1.value)) }
    ensures lost { IfErr result.0 (λ refusal. IsLost refusal → F.lost result.1.value ≡ true) }
{
    let mut held = lock.take(rt, seat);
    let answer = held.call_at(call, number, *last, moment, carried);
    *last = (*last).max(held.last());
    let store = Snapshot::of(held.store());
    lock.give_back(seat, held);
    (answer, store)
}

/// One call of an editor in the shard's turn. `last` is the pass's last stamp. Contracts see the shard's store, as the turn left it.
fn turn_for_editor<F: Store, R: Wait>(
    rt: &R,
    lock: &TurnLock<Held<F>>,
    seat: &mut Seat<Held<F>>,
    call: Call,
    known: Option<u64>,
    number: u32,
    last: &mut u64,
    moment: u64,
) -> (Result<EditorReceipt, CallFault>, Snapshot<F>)
    requires lock { seat.old.lock ≡ lock.now }
    requires free { seat.old.taken ≡ None }
    requires based { IsSomeAnd seat.old.base (λ base. base.only ≡ Some (shard_of call.name)) }
    requires moment { IsMoment moment }
    ensures last { last.new ≡ max last.old (last_seen seat.new) }
    ensures seen { IsSomeAnd seat.old.base (λ base. IsSeen base seat.new.seen) }
    ensures made { IfOk result.0 (λ answer. CallsForEditor seat.old call known number last.old moment answer seat.new) }
    ensures refused { IfErr result.0 (λ refusal. Looks seat.old call last.old moment refusal seat.new) }
    ensures noted { AreSeenAt (F.notes result.1.value) seat.new }
    ensures told { IfOk result.0 (λ answer. answer.receipt.told ≡ not (F.lost result.1.value)) }
    ensures lost { IfErr result.0 (λ refusal. IsLostCall refusal → F.lost result.1.value ≡ true) }
{
    let mut held = lock.take(rt, seat);
    let answer = held.call_for_editor(call, known, number, *last, moment);
    *last = (*last).max(held.last());
    let store = Snapshot::of(held.store());
    lock.give_back(seat, held);
    (answer, store)
}

/// A listing in the shard's turn, and whether it may be told. `last` is the pass's last stamp.
fn list_in_turn<F: Store, R: Wait>(
    rt: &R,
    lock: &TurnLock<Held<F>>,
    seat: &mut Seat<Held<F>>,
    number: u8,
    last: &mut u64,
) -> (Result<Listing, Memory>, bool)
    requires lock { seat.old.lock ≡ lock.now }
    requires free { seat.old.taken ≡ None }
    ensures last { last.new ≡ max last.old (last_seen seat.new) }
    ensures seen { IsSomeAnd seat.old.base (λ base. IsSeen base seat.new.seen) }
    ensures glances { Glances seat.old seat.new }
    ensures shows { IfOk result.0 (λ listing. IsSomeAnd seat.old.base (λ base. IsListing number base.begin (untimed seat.new.seen) listing)) }
    ensures told { (store : F) × AreSeenAt (F.notes store) seat.new × (result.1 ≡ not (F.lost store)) }
{
    let held = lock.take(rt, seat);
    let answer = held.list(number);
    let told = !held.store().is_lost();
    *last = held.last().max(*last);
    lock.give_back(seat, held);
    (answer, told)
}

/// Whether the shard is nearly full, in its turn. `last` is the pass's last stamp.
fn weigh_in_turn<F: Store, R: Wait>(
    rt: &R,
    lock: &TurnLock<Held<F>>,
    seat: &mut Seat<Held<F>>,
    last: &mut u64,
) -> bool
    requires lock { seat.old.lock ≡ lock.now }
    requires free { seat.old.taken ≡ None }
    ensures last { last.new ≡ max last.old (last_seen seat.new) }
    ensures seen { IsSomeAnd seat.old.base (λ base. IsSeen base seat.new.seen) }
    ensures glances { Glances seat.old seat.new }
    ensures tells { IsSomeAnd seat.old.base (λ base. IsTrue result ↔ IsNearlyFull base.limits.calls base.begin (untimed seat.new.seen)) }
{
    let held = lock.take(rt, seat);
    let answer = held.is_nearly_full();
    *last = held.last().max(*last);
    lock.give_back(seat, held);
    answer
}

/// The host over these locks, and the pass of their first seats. `last` is the greatest of the shards' last stamps.
pub(crate) fn begin<F: Store>(
    alloc: Global,
    locks: Vec<TurnLock<Held<F>>>,
    seats: Vec<Seat<Held<F>>>,
    shards: Snapshot<Vec<Held<F>>>,
    last: u64,
    most: Most,
    opened: u64,
    first: u64,
) -> (Host<F>, Pass<F>)
    requires seats { seats.items ≡ first_seats locks.items (map as_opened shards.value.items) }
    requires many { (length locks.items ≡ 16) × (length shards.value.items ≡ 16) }
    requires endless { (limits_of most).calls ≡ None → F.endless ≡ true }
    requires small { (limits_of most).ids ≤ 32768 }
    requires opened { IsMoment opened }
    requires first { IsFirstVersion first }
    requires last { last ≡ top (first_seats locks.items (map as_opened shards.value.items)) }
    requires bases { AreBases opened first (limits_of most) 0 (map as_opened shards.value.items) }
    ensures host { result.0 ≡ record { locks = locks.items; bases = map as_opened shards.value.items; opened = opened; first = first; limits = limits_of most; made = 1 } }
    ensures pass { result.1 ≡ first_pass result.0 }
    ensures of_host { IsPassOf result.0 result.1 }
{
    let pass = Pass {
        number: 0,
        last,
        weight: 1 << 62,
        opened: Snapshot::of(&opened),
        first: Snapshot::of(&first),
        most: Snapshot::of(&most),
        seats,
    };
    let host = Host {
        alloc,
        locks,
        shards,
        opened,
        first,
        most,
        made: 1,
    };
    (host, pass)
}

impl<F: Store> Host<F> {
    /// Opens a shard over each of 16 folders, and gives the host and its first pass, which has number 0. Shard i
    /// takes the names whose number is i, and its files begin at version `first`. The fault is that of the first
    /// shard that has one; a refusal hands the folders back in their order.
    pub fn start(
        alloc: Global,
        folders: Vec<F>,
        capacity: u32,
        opened: u64,
        first: u64,
    ) -> Result<(Host<F>, Pass<F>), (Vec<F>, StartFault)>
        requires capacity { (1 ≤ capacity) × (capacity ≤ 32768) }
        requires folders { length folders.items ≡ 16 }
        requires opened { IsMoment opened }
        requires first { IsFirstVersion first }
        ensures starts { IfOk result (λ begun. Starts F.files F.times F.faults folders.items capacity opened first begun.0 begun.1) }
        ensures handed { IfErr result (λ refused. AreHanded F.files F.faults folders.items refused.0.items) }
        ensures blamed { IfErr result (λ refused. IsBlamed F.files F.faults folders.items refused.0.items refused.1) }
    {
        match Host::open(alloc, folders, Most::Calls(capacity), opened, first) {
            Ok(begun) => return Ok(begun),
            Err(refused) => return Err(refused),
        }
    }

    /// The same over stores that take any number of entries. So do the shards of calls, and each has places for so many held
    /// locks and ids that are refused.
    pub fn start_endless(
        alloc: Global,
        folders: Vec<F>,
        ids: u32,
        opened: u64,
        first: u64,
    ) -> Result<(Host<F>, Pass<F>), (Vec<F>, StartFault)>
        requires endless { F.endless ≡ true }
        requires ids { (1 ≤ ids) × (ids ≤ 32768) }
        requires folders { length folders.items ≡ 16 }
        requires opened { IsMoment opened }
        requires first { IsFirstVersion first }
        ensures starts { IfOk result (λ begun. StartsWithin F.files F.times F.faults folders.items (record { calls = None; ids = ids }) opened first begun.0 begun.1) }
        ensures handed { IfErr result (λ refused. AreHanded F.files F.faults folders.items refused.0.items) }
        ensures blamed { IfErr result (λ refused. IsBlamed F.files F.faults folders.items refused.0.items refused.1) }
        ensures logs { IfErr result (λ refused. map (log_in F.notes) refused.0.items ≡ map (log_in F.notes) folders.items) }
    {
        match Host::open(alloc, folders, Most::Ids(ids), opened, first) {
            Ok(begun) => return Ok(begun),
            Err(refused) => return Err(refused),
        }
    }

    /// Either of both.
    fn open(
        alloc: Global,
        folders: Vec<F>,
        most: Most,
        opened: u64,
        first: u64,
    ) -> Result<(Host<F>, Pass<F>), (Vec<F>, StartFault)>
        requires endless { (limits_of most).calls ≡ None → F.endless ≡ true }
        requires most { (1 ≤ (limits_of most).ids) × ((limits_of most).ids ≤ 32768) }
        requires folders { length folders.items ≡ 16 }
        requires opened { IsMoment opened }
        requires first { IsFirstVersion first }
        ensures starts { IfOk result (λ begun. StartsWithin F.files F.times F.faults folders.items (limits_of most) opened first begun.0 begun.1) }
        ensures handed { IfErr result (λ refused. AreHanded F.files F.faults folders.items refused.0.items) }
        ensures blamed { IfErr result (λ refused. IsBlamed F.files F.faults folders.items refused.0.items refused.1) }
        ensures logs { IfErr result (λ refused. map (log_in F.notes) refused.0.items ≡ map (log_in F.notes) folders.items) }
    {
        let Ok(mut back) = Vec::with_capacity(alloc, SHARDS) else {
            return Err((folders, StartFault::Memory));
        };
        match open_all(alloc, folders, &mut back, most, opened, first) {
            Err(fault) => return Err((back, fault)),
            Ok(shards) => {
                let about = Snapshot::of(&shards);
                match lock_all(alloc, shards) {
                    Err(shards) => {
                        hand_back(shards, &mut back);
                        return Err((back, StartFault::Memory));
                    }
                    Ok((locks, seats)) => {
                        return Ok(begin(alloc, locks, seats, about, 0, most, opened, first));
                    }
                }
            }
        }
    }

    /// How many passes were made, the first among them.
    pub fn made(&self) -> u32
        ensures { result ≡ self.now.made }
    {
        self.made
    }

    /// A new pass with the next number, which has seen what the old one has seen and has half of its weight,
    /// rounded down. It may wait.
    pub fn split<R: Wait>(&mut self, rt: &R, pass: &mut Pass<F>) -> Result<Pass<F>, Memory>
        requires of_host { IsPassOf self.old pass.old }
        requires weight { 2 ≤ pass.old.weight }
        requires made { self.old.made < 4294967295 }
        ensures given { IfOk result (λ given. given ≡ given_pass self.old.made pass.old) }
        ensures kept { OnOk result (pass.new ≡ kept_pass pass.old) }
        ensures made { OnOk result (self.new ≡ record self.old { made = self.old.made + 1 }) }
        ensures memory { OnErr result ((pass.new ≡ pass.old) × (self.new ≡ self.old)) }
        ensures of_host { IsPassOf self.new pass.new × IfOk result (IsPassOf self.new) }
    {
        match SplitRoom::new(self.alloc) {
            Err(Memory) => return Err(Memory),
            Ok(room) => return Ok(self.split_into(rt, pass, room)),
        }
    }

    /// The same in room that was taken ahead, so that it wants no memory.
    pub fn split_into<R: Wait>(&mut self, rt: &R, pass: &mut Pass<F>, room: SplitRoom<F>) -> Pass<F>
        requires of_host { IsPassOf self.old pass.old }
        requires weight { 2 ≤ pass.old.weight }
        requires made { self.old.made < 4294967295 }
        ensures given { result ≡ given_pass self.old.made pass.old }
        ensures kept { pass.new ≡ kept_pass pass.old }
        ensures made { self.new ≡ record self.old { made = self.old.made + 1 } }
        ensures of_host { IsPassOf self.new pass.new × IsPassOf self.new result }
    {
        let mut seats = room.seats;
        let half = pass.weight / 2;
        split_all(rt, &self.locks, &mut pass.seats, &mut seats);
        pass.weight -= half;
        let number = self.made;
        self.made += 1;
        Pass {
            number,
            last: pass.last,
            weight: half,
            opened: Snapshot::of(&self.opened),
            first: Snapshot::of(&self.first),
            most: Snapshot::of(&self.most),
            seats,
        }
    }

    /// One step of the call's shard at a moment, in milliseconds, in a turn that the pass waits for. The entry's
    /// stamp passes the pass's last stamp, and so all that the pass had seen in any shard. The answer may be told where the
    /// shard's store, which has noted the entry, is not lost; a call is refused as lost where it is. The call and what is told of it
    /// stay where they lie: the ruling is in `carried` then, whatever was there, and a call that made no entry is as it was. What a
    /// call that made one brought is taken.
    pub fn call_at<R: Wait>(
        &self,
        rt: &R,
        pass: &mut Pass<F>,
        call: &mut Call,
        moment: u64,
        carried: &mut Carried,
    ) -> Result<Placed, Refusal>
        requires host { locks_of pass.old ≡ self.now.locks }
        requires moment { IsMoment moment }
        ensures made { IfOk (answer_of result call.new carried.new) (Makes (sight_of pass.old) (sight_of pass.new) call.old moment) }
        ensures refused { IfErr (answer_of result call.new carried.new) (Refuses (sight_of pass.old) (sight_of pass.new) call.old moment) }
        ensures frame { Frames (sight_of pass.old) (sight_of pass.new) call.old.name }
        ensures told { IfOk result (λ placed. (store : F) × AreNotesOf (sight_of pass.new) (shard_of call.old.name) (F.notes store) × (placed.told ≡ not (F.lost store))) }
        ensures loses { IfOk result (λ placed. placed.told ≡ false → F.loses ≡ true) }
        ensures lost { IfErr result (λ refusal. IsLost refusal → (store : F) × AreNotesOf (sight_of pass.new) (shard_of call.old.name) (F.notes store) × (F.lost store ≡ true)) }
        ensures may_lose { IfErr result (λ refusal. IsLost refusal → F.loses ≡ true) }
        ensures own { IfOk (answer_of result call.new carried.new) (λ receipt. own_of pass.new ≡ own_of pass.old
            ++ record { shard = receipt.shard; place = receipt.place; entry = entry_of pass.old.number call.old moment receipt; told = receipt.told } ∷ []) }
        ensures none { OnErr result (own_of pass.new ≡ own_of pass.old) }
        ensures same { IsSamePass pass.old pass.new }
        ensures seen { HasSeen pass.new }
    {
        let (answer, _store) = self.call_at_store(rt, pass, call, moment, carried);
        answer
    }

    /// The same of a call that comes by value, as does what it is answered.
    pub fn call<R: Wait>(
        &self,
        rt: &R,
        pass: &mut Pass<F>,
        call: Call,
        moment: u64,
    ) -> Result<Receipt, CallFault>
        requires host { locks_of pass.old ≡ self.now.locks }
        requires moment { IsMoment moment }
        ensures made { IfOk result (Makes (sight_of pass.old) (sight_of pass.new) call moment) }
        ensures refused { IfErr result (Refuses (sight_of pass.old) (sight_of pass.new) call moment) }
        ensures frame { Frames (sight_of pass.old) (sight_of pass.new) call.name }
        ensures told { IfOk result (λ receipt. (store : F) × AreNotesOf (sight_of pass.new) (shard_of call.name) (F.notes store) × (receipt.told ≡ not (F.lost store))) }
        ensures loses { IfOk result (λ receipt. receipt.told ≡ false → F.loses ≡ true) }
        ensures lost { IfErr result (λ refusal. IsLostCall refusal → (store : F) × AreNotesOf (sight_of pass.new) (shard_of call.name) (F.notes store) × (F.lost store ≡ true)) }
        ensures may_lose { IfErr result (λ refusal. IsLostCall refusal → F.loses ≡ true) }
        ensures own { IfOk result (λ receipt. own_of pass.new ≡ own_of pass.old
            ++ record { shard = receipt.shard; place = receipt.place; entry = entry_of pass.old.number call moment receipt; told = receipt.told } ∷ []) }
        ensures none { OnErr result (own_of pass.new ≡ own_of pass.old) }
        ensures same { IsSamePass pass.old pass.new }
        ensures seen { HasSeen pass.new }
    {
        let mut call = call;
        let mut carried = Carried::new();
        match self.call_at(rt, pass, &mut call, moment, &mut carried) {
            Ok(placed) => {
                return Ok(Receipt {
                    stamp: placed.stamp,
                    shard: placed.shard,
                    place: placed.place,
                    ruling: carried.ruling,
                    back: carried.back,
                    told: placed.told,
                });
            }
            Err(Refusal::Full) => return Err(CallFault::Full(call)),
            Err(Refusal::Memory) => return Err(CallFault::Memory(call)),
            Err(Refusal::Lost) => return Err(CallFault::Lost(call)),
        }
    }

    /// A call that stays where it lies, where contracts see the store of its shard, as the turn left it.
    pub(crate) fn call_at_store<R: Wait>(
        &self,
        rt: &R,
        pass: &mut Pass<F>,
        call: &mut Call,
        moment: u64,
        carried: &mut Carried,
    ) -> (Result<Placed, Refusal>, Snapshot<F>)
        requires host { locks_of pass.old ≡ self.now.locks }
        requires moment { IsMoment moment }
        ensures made { IfOk (answer_of result.0 call.new carried.new) (Makes (sight_of pass.old) (sight_of pass.new) call.old moment) }
        ensures refused { IfErr (answer_of result.0 call.new carried.new) (Refuses (sight_of pass.old) (sight_of pass.new) call.old moment) }
        ensures frame { Frames (sight_of pass.old) (sight_of pass.new) call.old.name }
        ensures noted { AreNotesOf (sight_of pass.new) (shard_of call.old.name) (F.notes result.1.value) }
        ensures told { IfOk result.0 (λ placed. placed.told ≡ not (F.lost result.1.value)) }
        ensures lost { IfErr result.0 (λ refusal. IsLost refusal → F.lost result.1.value ≡ true) }
        ensures own { IfOk (answer_of result.0 call.new carried.new) (λ receipt. own_of pass.new ≡ own_of pass.old
            ++ record { shard = receipt.shard; place = receipt.place; entry = entry_of pass.old.number call.old moment receipt; told = receipt.told } ∷ []) }
        ensures none { OnErr result.0 (own_of pass.new ≡ own_of pass.old) }
        ensures same { IsSamePass pass.old pass.new }
        ensures seen { HasSeen pass.new }
    {
        let number = pass.number;
        let shard = usize::from(call.name.shard());
        let lock = &self.locks[shard];
        let seat = &mut pass.seats[shard];
        turn(
            rt,
            lock,
            seat,
            call,
            number,
            &mut pass.last,
            moment,
            carried,
        )
    }

    /// The same for an editor, which knows of the moment at which the file was last saved. A Put that would be accepted, of a
    /// file that was last saved at another moment, isn't made: the file's lock is looked at in its stead. The file is told of
    /// as the shard stands then, all in one turn.
    pub fn call_for_editor<R: Wait>(
        &self,
        rt: &R,
        pass: &mut Pass<F>,
        call: Call,
        known: Option<u64>,
        moment: u64,
    ) -> Result<EditorReceipt, CallFault>
        requires host { locks_of pass.old ≡ self.now.locks }
        requires moment { IsMoment moment }
        ensures made { IfOk result (MakesForEditor (sight_of pass.old) (sight_of pass.new) call known moment) }
        ensures refused { IfErr result (Refuses (sight_of pass.old) (sight_of pass.new) call moment) }
        ensures frame { Frames (sight_of pass.old) (sight_of pass.new) call.name }
        ensures told { IfOk result (λ answer. (store : F) × AreNotesOf (sight_of pass.new) (shard_of call.name) (F.notes store) × (answer.receipt.told ≡ not (F.lost store))) }
        ensures loses { IfOk result (λ answer. answer.receipt.told ≡ false → F.loses ≡ true) }
        ensures lost { IfErr result (λ refusal. IsLostCall refusal → (store : F) × AreNotesOf (sight_of pass.new) (shard_of call.name) (F.notes store) × (F.lost store ≡ true)) }
        ensures may_lose { IfErr result (λ refusal. IsLostCall refusal → F.loses ≡ true) }
        ensures own { IfOk result (λ answer. own_of pass.new ≡ own_of pass.old
            ++ record {
              shard = answer.receipt.shard;
              place = answer.receipt.place;
              entry = entry_of pass.old.number (made_for (is_some answer.late) call) moment answer.receipt;
              told = answer.receipt.told;
            } ∷ []) }
        ensures none { OnErr result (own_of pass.new ≡ own_of pass.old) }
        ensures same { IsSamePass pass.old pass.new }
        ensures seen { HasSeen pass.new }
    {
        let (answer, _store) = self.call_for_editor_at_store(rt, pass, call, known, moment);
        answer
    }

    /// The same, where contracts see the store of the call's shard, as the turn left it.
    pub(crate) fn call_for_editor_at_store<R: Wait>(
        &self,
        rt: &R,
        pass: &mut Pass<F>,
        call: Call,
        known: Option<u64>,
        moment: u64,
    ) -> (Result<EditorReceipt, CallFault>, Snapshot<F>)
        requires host { locks_of pass.old ≡ self.now.locks }
        requires moment { IsMoment moment }
        ensures made { IfOk result.0 (MakesForEditor (sight_of pass.old) (sight_of pass.new) call known moment) }
        ensures refused { IfErr result.0 (Refuses (sight_of pass.old) (sight_of pass.new) call moment) }
        ensures frame { Frames (sight_of pass.old) (sight_of pass.new) call.name }
        ensures noted { AreNotesOf (sight_of pass.new) (shard_of call.name) (F.notes result.1.value) }
        ensures told { IfOk result.0 (λ answer. answer.receipt.told ≡ not (F.lost result.1.value)) }
        ensures lost { IfErr result.0 (λ refusal. IsLostCall refusal → F.lost result.1.value ≡ true) }
        ensures own { IfOk result.0 (λ answer. own_of pass.new ≡ own_of pass.old
            ++ record {
              shard = answer.receipt.shard;
              place = answer.receipt.place;
              entry = entry_of pass.old.number (made_for (is_some answer.late) call) moment answer.receipt;
              told = answer.receipt.told;
            } ∷ []) }
        ensures none { OnErr result.0 (own_of pass.new ≡ own_of pass.old) }
        ensures same { IsSamePass pass.old pass.new }
        ensures seen { HasSeen pass.new }
    {
        let number = pass.number;
        let shard = usize::from(call.name.shard());
        let lock = &self.locks[shard];
        let seat = &mut pass.seats[shard];
        turn_for_editor(rt, lock, seat, call, known, number, &mut pass.last, moment)
    }

    /// The files of a shard that exist, in a turn that the pass waits for. No entry is made. The pass has then seen what
    /// the shard's history was, also where there is no memory for the files. It also tells whether they may be told: the shard's
    /// store is not lost.
    pub fn look<R: Wait>(
        &self,
        rt: &R,
        pass: &mut Pass<F>,
        shard: u8,
    ) -> (Result<Listing, Memory>, bool)
        requires host { locks_of pass.old ≡ self.now.locks }
        requires shard { shard < 16 }
        ensures listed { IfOk result.0 (Lists (sight_of pass.new) shard) }
        ensures told { (store : F) × AreNotesOf (sight_of pass.new) shard (F.notes store) × (result.1 ≡ not (F.lost store)) }
        ensures loses { result.1 ≡ false → F.loses ≡ true }
        ensures looks { LooksAt (sight_of pass.old) (sight_of pass.new) shard }
        ensures own { own_of pass.new ≡ own_of pass.old }
        ensures same { IsSamePass pass.old pass.new }
        ensures seen { HasSeen pass.new }
    {
        let place = usize::from(shard);
        let lock = &self.locks[place];
        let seat = &mut pass.seats[place];
        list_in_turn(rt, lock, seat, shard, &mut pass.last)
    }

    /// Whether a shard has used nine tenths of its room, in a turn that the pass waits for. No entry is made, and no memory
    /// is taken. The pass has then seen what the shard's history was.
    pub fn is_nearly_full<R: Wait>(&self, rt: &R, pass: &mut Pass<F>, shard: u8) -> bool
        requires host { locks_of pass.old ≡ self.now.locks }
        requires shard { shard < 16 }
        ensures value { IsTrue result ↔ IsNearlyFullAt (sight_of pass.new) shard }
        ensures looks { LooksAt (sight_of pass.old) (sight_of pass.new) shard }
        ensures own { own_of pass.new ≡ own_of pass.old }
        ensures same { IsSamePass pass.old pass.new }
        ensures seen { HasSeen pass.new }
    {
        let place = usize::from(shard);
        let lock = &self.locks[place];
        let seat = &mut pass.seats[place];
        weigh_in_turn(rt, lock, seat, &mut pass.last)
    }

    /// These are all passes of the host: their numbers are those below how many were made, each once, and their
    /// weights add up to 2^62.
    pub fn whole(&self, passes: &[Pass<F>]) -> bool
        ensures { IsTrue result ↔ IsWhole self.now.made passes.now }
    {
        if !are_numbered(passes, self.made) {
            return false;
        }
        weigh_whole(passes)
    }

    /// Ends the host by all its passes: gives the stores in the order of the shards, as the last steps left them. All
    /// that they have noted is one history. Where there is no memory, all is handed back as it was.
    pub fn end(self, passes: Vec<Pass<F>>) -> Result<Vec<F>, CloseFault<F>>
        requires of_host { AllByRecursion (IsPassOf self) passes.items }
        requires whole { IsWhole self.made passes.items }
        ensures ends { IfOk result (λ stores. Leaves F.files F.faults F.notes self passes.items stores.items) }
        ensures memory { IfErr result (λ fault. fault ≡ CloseFault.Memory self passes) }
    {
        match EndRoom::new(self.alloc) {
            Err(Memory) => return Err(CloseFault::Memory(self, passes)),
            Ok(room) => return Ok(self.end_into(passes, room)),
        }
    }

    /// The same in room that was taken ahead, so that it wants no memory.
    pub fn end_into(self, passes: Vec<Pass<F>>, room: EndRoom<F>) -> Vec<F>
        requires of_host { AllByRecursion (IsPassOf self) passes.items }
        requires whole { IsWhole self.made passes.items }
        ensures { Leaves F.files F.faults F.notes self passes.items result.items }
    {
        end_stores(self, passes, room.shards, room.stores)
    }
}

impl<F: Folder> Host<Kept<F>> {
    /// The same over folders, each with a store that keeps all in memory.
    pub fn keep(
        alloc: Global,
        folders: Vec<F>,
        capacity: u32,
        opened: u64,
        first: u64,
    ) -> Result<(Host<Kept<F>>, Pass<Kept<F>>), (Vec<F>, StartFault)>
        requires capacity { (1 ≤ capacity) × (capacity ≤ 32768) }
        requires folders { length folders.items ≡ 16 }
        requires opened { IsMoment opened }
        requires first { IsFirstVersion first }
        ensures starts { IfOk result (λ begun. StartsKept F.files F.times F.faults folders.items capacity opened first begun.0 begun.1) }
        ensures handed { IfErr result (λ refused. AreHanded F.files F.faults folders.items refused.0.items) }
        ensures blamed { IfErr result (λ refused. IsBlamed F.files F.faults folders.items refused.0.items refused.1) }
    {
        let Ok(mut back) = Vec::with_capacity(alloc, SHARDS) else {
            return Err((folders, StartFault::Memory));
        };
        match keep_all(alloc, folders) {
            Err(folders) => return Err((folders, StartFault::Memory)),
            Ok(stores) => match Host::start(alloc, stores, capacity, opened, first) {
                Ok(begun) => return Ok(begun),
                Err((stores, fault)) => {
                    free_all(stores, &mut back);
                    return Err((back, fault));
                }
            },
        }
    }

    /// How many calls each shard takes.
    fn capacity(&self) -> u32
        ensures { self.now.limits ≡ kept_limits result }
    {
        match self.most {
            Most::Calls(capacity) => return capacity,
            Most::Ids(_) => unreachable!(),
        }
    }

    /// Ends the host by all its passes: gives its journal, and the folders in the order of the shards, as the last
    /// steps left them. Where there is no memory, all is handed back as it was.
    pub fn close(
        self,
        passes: Vec<Pass<Kept<F>>>,
    ) -> Result<(Journal<F>, Vec<F>), CloseFault<Kept<F>>>
        requires of_host { AllByRecursion (IsPassOf self) passes.items }
        requires whole { IsWhole self.made passes.items }
        ensures ends { IfOk result (λ ended. Ends F.files F.faults self passes.items ended.0 ended.1.items) }
        ensures memory { IfErr result (λ fault. fault ≡ CloseFault.Memory self passes) }
    {
        let capacity = self.capacity();
        match CloseRoom::new(self.alloc, capacity) {
            Err(Memory) => return Err(CloseFault::Memory(self, passes)),
            Ok(room) => return Ok(self.close_into(passes, room)),
        }
    }

    /// The same in room that was taken ahead, so that it wants no memory.
    pub fn close_into(self, passes: Vec<Pass<Kept<F>>>, room: CloseRoom<F>) -> (Journal<F>, Vec<F>)
        requires of_host { AllByRecursion (IsPassOf self) passes.items }
        requires whole { IsWhole self.made passes.items }
        requires room { IsSomeAnd self.limits.calls (λ calls. calls ≤ room.capacity) }
        ensures { Ends F.files F.faults self passes.items result.0 result.1.items }
    {
        end_host(self, passes, room.room)
    }
}
