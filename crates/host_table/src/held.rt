//! A shard as it lies under its lock.
ghost use Rattle.std.specs.Prelude.{◌≡◌, ◌≤◌, ◌<◌, None, Some, [], false, true, ◌↔◌, map, IfOk, IfErr, IsTrue, not};
ghost use Rattle.outside.specs.Faults.{Rose};
ghost use Rattle.outside.specs.Folder.{Keeps};
ghost use Rattle.wopi_model.specs.Begin.{new_life};
ghost use Rattle.wopi_model.specs.Host.{kept_limits};
ghost use Rattle.wopi_model.specs.Moment.{IsMoment};
ghost use Rattle.wopi_model.specs.Shard.{Opening};
ghost use Rattle.host_core.specs.Caller.{IsLost, IsLostCall, answer_of};
ghost use Rattle.host_core.specs.Fullness.{IsNearlyFull};
ghost use Rattle.host_core.specs.Listing.{IsListing};
ghost use Rattle.host_core.specs.Opening.{AreDatesOf, IsFirstVersion, IsOpening, Fits, IsTooLarge, IfTooLarge};
ghost use Rattle.host_core.specs.Times.{untimed};
ghost use Rattle.wopi_text.specs.FileName.{shard_of};
ghost use Rattle.host_table.specs.Histories.{last_stamp, as_opened, IsSeen};
ghost use Rattle.host_table.specs.Reopen.{GoesOn, IsFaultOf, IsHandedOn};
ghost use Rattle.host_table.specs.Start.{limits_of};
ghost use Rattle.host_table.specs.Held.{Adds, AddsForEditor, Declines, IsGiven, IsTakenApart};

use crate::opening::Most;
use host_core::{
    CallFault, Carried, EditorReceipt, Kept, Lasting, Life, Listing, Past, Placed, Receipt,
    Refusal, ReopenFault, Shard, StartFault, StepFault, Store, leave,
};
use outside::Folder;
use std::alloc::Global;
use std::marker::Model;
use turn_lock::Grown;
use wopi_model::Call;
use wopi_text::Memory;

/// A shard that keeps the files of one number, and whose time goes on with its entries alone.
#[derive(Drop)]
pub struct Held<F: Store> {
    shard: Shard<F>,
}

impl<F: Store> Model for Held<F> {
    ghost use Rattle.host_core.specs.Value.{Book};

    ghost Value = { Book F };

    ghost use Rattle.host_table.specs.Held.{IsHeld};

    ghost view = { λ held. held.shard };

    ghost invariant = { λ held. IsHeld held.shard (F.files held.shard.start) (F.files held.shard.folder) (F.faults held.shard.start) (F.faults held.shard.folder) (F.notes held.shard.start).log (F.notes held.shard.folder).log };
}

impl<F: Store> Grown for Held<F> {
    type Entry = host_core::Entry;

    /// The shard as it was opened, over the folder as it was handed in.
    type Base = Shard<F>;

    ghost entries = { λ held. held.made };

    ghost base = { as_opened };

    fn grown(&self) -> u64 {
        self.shard.len()
    }
}

impl<F: Store> Held<F> {
    /// Opens the shard of that number over a folder. A refusal hands the folder back.
    pub fn start(
        alloc: Global,
        folder: F,
        number: u8,
        capacity: u32,
        opened: u64,
        first: u64,
    ) -> Result<Held<F>, (F, StartFault)>
        requires capacity { (1 ≤ capacity) × (capacity ≤ 32768) }
        requires number { number < 16 }
        requires opened { IsMoment opened }
        requires first { IsFirstVersion first }
        ensures opened { IfOk result (λ held. held ≡ record {
          only = Some number;
          begin = held.begin;
          limits = kept_limits capacity;
          dates = held.dates;
          made = [];
          time = opened;
          ticked = false;
          start = folder;
          folder = held.folder;
        }) }
        ensures opening { IfOk result (λ held. (opening : Opening) × (held.begin ≡ new_life opening opened first) × IsOpening (Some number) (F.files folder) opening × Fits opening) }
        ensures dates { IfOk result (λ held. map (λ one. one.0) held.dates ≡ map (λ one. one.0) held.begin.files) }
        ensures told { IfOk result (λ held. AreDatesOf (F.times folder) held.dates) }
        ensures same { IfOk result (λ held. Keeps (F.files folder) (F.files held.folder)) }
        ensures never_falls { IfOk result (λ held. F.faults folder ≤ F.faults held.folder) }
        ensures too_large { IfErr result (λ refused. IfTooLarge refused.1 (IsTooLarge (Some number) (F.files folder))) }
        ensures failed { IfErr result (λ refused. refused.1 ≡ StartFault.FolderFault → Rose (F.faults folder) (F.faults refused.0)) }
        ensures handed { IfErr result (λ refused. Keeps (F.files folder) (F.files refused.0)) }
        ensures handed_log { IfErr result (λ refused. (F.notes refused.0).log ≡ (F.notes folder).log) }
        ensures counts { IfErr result (λ refused. F.faults folder ≤ F.faults refused.0) }
    {
        match Shard::start(alloc, folder, Some(number), capacity, opened, first) {
            Ok(shard) => return Ok(Held { shard }),
            Err(refused) => return Err(refused),
        }
    }

    /// The same over a store that takes any number of entries. So does the shard of calls, and it has places for so many held locks
    /// and ids that are refused.
    pub fn start_endless(
        alloc: Global,
        folder: F,
        number: u8,
        ids: u32,
        opened: u64,
        first: u64,
    ) -> Result<Held<F>, (F, StartFault)>
        requires endless { F.endless ≡ true }
        requires ids { (1 ≤ ids) × (ids ≤ 32768) }
        requires number { number < 16 }
        requires opened { IsMoment opened }
        requires first { IsFirstVersion first }
        ensures opened { IfOk result (λ held. held ≡ record {
          only = Some number;
          begin = held.begin;
          limits = record { calls = None; ids = ids };
          dates = held.dates;
          made = [];
          time = opened;
          ticked = false;
          start = folder;
          folder = held.folder;
        }) }
        ensures opening { IfOk result (λ held. (opening : Opening) × (held.begin ≡ new_life opening opened first) × IsOpening (Some number) (F.files folder) opening × Fits opening) }
        ensures dates { IfOk result (λ held. map (λ one. one.0) held.dates ≡ map (λ one. one.0) held.begin.files) }
        ensures told { IfOk result (λ held. AreDatesOf (F.times folder) held.dates) }
        ensures same { IfOk result (λ held. Keeps (F.files folder) (F.files held.folder)) }
        ensures never_falls { IfOk result (λ held. F.faults folder ≤ F.faults held.folder) }
        ensures too_large { IfErr result (λ refused. IfTooLarge refused.1 (IsTooLarge (Some number) (F.files folder))) }
        ensures failed { IfErr result (λ refused. refused.1 ≡ StartFault.FolderFault → Rose (F.faults folder) (F.faults refused.0)) }
        ensures handed { IfErr result (λ refused. Keeps (F.files folder) (F.files refused.0)) }
        ensures handed_log { IfErr result (λ refused. (F.notes refused.0).log ≡ (F.notes folder).log) }
        ensures counts { IfErr result (λ refused. F.faults folder ≤ F.faults refused.0) }
    {
        match Shard::start_endless(alloc, folder, Some(number), ids, opened, first) {
            Ok(shard) => return Ok(Held { shard }),
            Err(refused) => return Err(refused),
        }
    }

    /// Either of both.
    pub fn open(
        alloc: Global,
        folder: F,
        number: u8,
        most: Most,
        opened: u64,
        first: u64,
    ) -> Result<Held<F>, (F, StartFault)>
        requires endless { (limits_of most).calls ≡ None → F.endless ≡ true }
        requires most { (1 ≤ (limits_of most).ids) × ((limits_of most).ids ≤ 32768) }
        requires number { number < 16 }
        requires opened { IsMoment opened }
        requires first { IsFirstVersion first }
        ensures opened { IfOk result (λ held. held ≡ record {
          only = Some number;
          begin = held.begin;
          limits = limits_of most;
          dates = held.dates;
          made = [];
          time = opened;
          ticked = false;
          start = folder;
          folder = held.folder;
        }) }
        ensures opening { IfOk result (λ held. (opening : Opening) × (held.begin ≡ new_life opening opened first) × IsOpening (Some number) (F.files folder) opening × Fits opening) }
        ensures dates { IfOk result (λ held. map (λ one. one.0) held.dates ≡ map (λ one. one.0) held.begin.files) }
        ensures told { IfOk result (λ held. AreDatesOf (F.times folder) held.dates) }
        ensures same { IfOk result (λ held. Keeps (F.files folder) (F.files held.folder)) }
        ensures never_falls { IfOk result (λ held. F.faults folder ≤ F.faults held.folder) }
        ensures too_large { IfErr result (λ refused. IfTooLarge refused.1 (IsTooLarge (Some number) (F.files folder))) }
        ensures failed { IfErr result (λ refused. refused.1 ≡ StartFault.FolderFault → Rose (F.faults folder) (F.faults refused.0)) }
        ensures handed { IfErr result (λ refused. Keeps (F.files folder) (F.files refused.0)) }
        ensures handed_log { IfErr result (λ refused. (F.notes refused.0).log ≡ (F.notes folder).log) }
        ensures counts { IfErr result (λ refused. F.faults folder ≤ F.faults refused.0) }
    {
        match most {
            Most::Calls(capacity) => match Held::start(
                alloc, folder, number, capacity, opened, first,
            ) {
                Ok(held) => return Ok(held),
                Err(refused) => return Err(refused),
            },
            Most::Ids(ids) => match Held::start_endless(alloc, folder, number, ids, opened, first) {
                Ok(held) => return Ok(held),
                Err(refused) => return Err(refused),
            },
        }
    }

    /// One step of the shard, of a call that stays where it lies, as does what is told of it. It tells whether the answer may be told:
    /// the store is not lost at it.
    pub fn call_at(
        &mut self,
        call: &mut Call,
        pass: u32,
        floor: u64,
        moment: u64,
        carried: &mut Carried,
    ) -> Result<Placed, Refusal>
        requires moment { IsMoment moment }
        requires only { self.old.only ≡ Some (shard_of call.old.name) }
        ensures base { as_opened self.new ≡ as_opened self.old }
        ensures seen { IsSeen (as_opened self.new) self.new.made }
        ensures made { IfOk (answer_of result call.new carried.new) (λ receipt. Adds self.old self.new call.old pass floor moment receipt) }
        ensures refused { IfErr (answer_of result call.new carried.new) (λ refusal. Declines self.old self.new call.old floor moment refusal) }
        ensures told { IfOk result (λ placed. placed.told ≡ not (F.lost self.new.folder)) }
        ensures lost { IfErr result (λ refusal. IsLost refusal → F.lost self.new.folder ≡ true) }
    {
        let shard = call.name.shard();
        let place = self.shard.len();
        match self.shard.step_at(call, pass, floor, moment, carried) {
            Ok(stamp) => {
                let told = !self.shard.is_lost();
                return Ok(Placed {
                    stamp,
                    shard,
                    place,
                    told,
                });
            }
            Err(Refusal::Full) => return Err(Refusal::Full),
            Err(Refusal::Memory) => return Err(Refusal::Memory),
            Err(Refusal::Lost) => return Err(Refusal::Lost),
        }
    }

    /// One step of the shard for an editor, which knows of the moment at which the file was last saved. A Put that comes too
    /// late isn't made: the file's lock is looked at in its stead.
    pub fn call_for_editor(
        &mut self,
        call: Call,
        known: Option<u64>,
        pass: u32,
        floor: u64,
        moment: u64,
    ) -> Result<EditorReceipt, CallFault>
        requires moment { IsMoment moment }
        requires only { self.old.only ≡ Some (shard_of call.name) }
        ensures base { as_opened self.new ≡ as_opened self.old }
        ensures seen { IsSeen (as_opened self.new) self.new.made }
        ensures made { IfOk result (λ answer. AddsForEditor self.old self.new call known pass floor moment answer) }
        ensures refused { IfErr result (λ refusal. Declines self.old self.new call floor moment refusal) }
        ensures told { IfOk result (λ answer. answer.receipt.told ≡ not (F.lost self.new.folder)) }
        ensures lost { IfErr result (λ refusal. IsLostCall refusal → F.lost self.new.folder ≡ true) }
    {
        let shard = call.name.shard();
        let place = self.shard.len();
        match self.shard.step_for_editor(call, known, pass, floor, moment) {
            Ok(step) => {
                let is_told = !self.shard.is_lost();
                return Ok(EditorReceipt {
                    receipt: Receipt {
                        stamp: step.stamp,
                        shard,
                        place,
                        ruling: step.ruling,
                        back: step.back,
                        told: is_told,
                    },
                    late: step.late,
                    facts: step.facts,
                });
            }
            Err(StepFault::Full(call)) => return Err(CallFault::Full(call)),
            Err(StepFault::Memory(call)) => return Err(CallFault::Memory(call)),
            Err(StepFault::Lost(call)) => return Err(CallFault::Lost(call)),
        }
    }

    /// A listing of the shard, which is the one of that number.
    pub fn list(&self, number: u8) -> Result<Listing, Memory>
        ensures seen { IsSeen (as_opened self.now) self.now.made }
        ensures shows { IfOk result (IsListing number self.now.begin (untimed self.now.made)) }
    {
        let place = self.shard.len();
        match self.shard.children() {
            Ok(children) => {
                return Ok(Listing {
                    shard: number,
                    place,
                    children,
                });
            }
            Err(memory) => return Err(memory),
        }
    }

    /// Whether the shard has used nine tenths of its room.
    pub fn is_nearly_full(&self) -> bool
        ensures seen { IsSeen (as_opened self.now) self.now.made }
        ensures value { IsTrue result ↔ IsNearlyFull self.now.limits.calls self.now.begin (untimed self.now.made) }
    {
        self.shard.is_nearly_full()
    }

    /// The shard's store. It has noted what the shard began with, and its entries.
    pub fn store(&self) -> &F
        ensures same { result.now ≡ self.now.folder }
        ensures begin { (F.notes self.now.folder).begin ≡ self.now.begin }
        ensures made { (F.notes self.now.folder).made ≡ self.now.made }
        ensures ended { (F.notes self.now.folder).begun ≡ None }
    {
        self.shard.store()
    }

    /// The last stamp, or the last one before the beginning.
    pub fn last(&self) -> u64
        ensures { result ≡ last_stamp self.now.begin.last self.now.made }
    {
        self.shard.last()
    }

    /// The store as the last step left it. It needs no memory.
    pub fn into_store(self) -> F
        ensures given { IsGiven F.files F.faults F.notes self result }
    {
        let Held { shard } = self;
        let (store, _start) = shard.end();
        store
    }

    /// The folder of a shard that made no entry.
    pub fn folder(self) -> F
        requires { self.made ≡ [] }
        ensures same { Keeps (F.files self.start) (F.files result) }
        ensures counts { F.faults self.start ≤ F.faults result }
        ensures log { (F.notes result).log ≡ (F.notes self.start).log }
    {
        let Held { shard } = self;
        let (folder, _) = shard.end();
        folder
    }
}

impl<F: Lasting> Held<F> {
    /// Opens again the shard of that number over a store that takes any number of entries: it goes on with its life, which is told. A
    /// refusal hands the store back.
    pub fn reopen(
        alloc: Global,
        folder: F,
        number: u8,
        ids: u32,
        life: Life,
    ) -> Result<Held<F>, (F, ReopenFault)>
        requires endless { F.endless ≡ true }
        requires ids { (1 ≤ ids) × (ids ≤ 32768) }
        requires number { number < 16 }
        ensures going { IfOk result (GoesOn F.files F.times F.faults F.notes ids number life folder) }
        ensures handed { IfErr result (λ refused. IsHandedOn F.files F.faults F.notes life folder refused.0) }
        ensures blamed { IfErr result (λ refused. IsFaultOf F.files F.times F.faults ids number life folder refused.0 refused.1) }
    {
        match Shard::reopen(alloc, folder, Some(number), ids, life) {
            Ok(shard) => return Ok(Held { shard }),
            Err(refused) => return Err(refused),
        }
    }
}

impl<F: Folder> Held<Kept<F>> {
    /// The folder as the last step left it, and what the shard leaves.
    pub fn end(self) -> (F, Past<F>)
        ensures taken { IsTakenApart F.files F.faults self result.1 result.0 }
    {
        let Held { shard } = self;
        let (folder, past) = leave(shard);
        (folder, past)
    }
}
