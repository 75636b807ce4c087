//! A shard of the host over a folder.
ghost use Rattle.std.specs.Prelude.{not, ◌≡◌, ◌≢◌, ◌≤◌, ◌<◌, ◌+◌, ◌^◌, ◌++◌, ◌∷◌, [], length, vec_capacity, max, IfOk, IfErr, IfSome, IsSome, OnOk, OnErr, IsTrue, true, false, ◌↔◌, option_map, slice_get, sum_by, List, ℕ, map, None, if◌then◌else◌};
ghost use Rattle.outside.specs.Folder.{Keeps};
ghost use Rattle.outside.specs.Faults.{Rose};
ghost use Rattle.wopi_model.specs.Moment.{IsMoment};
ghost use Rattle.wopi_model.specs.Begin.{new_life};
ghost use Rattle.wopi_model.specs.Host.{FullFrom, kept_limits};
ghost use Rattle.wopi_model.specs.Shard.{Opening, last_from, stamps, entries, AreNames};
ghost use Rattle.host_core.specs.Whole.{standing_at};
ghost use Rattle.kept_locks.specs.Locks.{unlocked};
ghost use Rattle.host_core.specs.Stock.{IsStock};
ghost use Rattle.host_core.specs.Caller.{IsFull, IsLost};
ghost use Rattle.host_core.specs.Children.{AreChildren};
ghost use Rattle.host_core.specs.Effects.{begun};
ghost use Rattle.host_core.specs.Entries.{history_of, back_of, brought_by};
ghost use Rattle.host_core.specs.Facts.{dates_of, facts_of, is_info, is_late, look_for, made_for, saved_at};
ghost use Rattle.host_core.specs.Files.{files_of, torn_in};
ghost use Rattle.host_core.specs.Ledger.{IsFullFault, IsLostFault, handed_back};
ghost use Rattle.host_core.specs.Fullness.{AreBytes, IsNearlyFull};
ghost use Rattle.host_core.specs.Notes.{TakesCalls};
ghost use Rattle.host_core.specs.LockActs.{is_lock_act};
ghost use Rattle.host_core.specs.Value.{happened};
ghost use Rattle.host_core.specs.Turns.{AreAsOf};
ghost use Rattle.host_core.specs.Opening.{AreDatesOf, IsFirstVersion, IsOfShard, IsOpening, Fits, IsTooLarge, IfTooLarge};

use crate::accept::{Carried, begin, restart};
use crate::caller::Refusal;
use crate::carry::brought;
use crate::children::{Children, children_of};
use crate::decide::is_info;
use crate::facts::{Facts, withhold};
use crate::files::Rack;
use crate::fullness::{are_most_kept, are_nine_tenths};
use crate::ledger::{Ledger, StepFault, make_ready, take_step};
use crate::names::{NameList, names_of};
use crate::noting::Store;
use crate::opening::{StartFault, Stock, gather};
use crate::room::take_room;
use crate::store::StoreRefusal;
use crate::view::{FileView, view_of};
use kept_locks::KeptLocks;
use outside::OutFault;
use std::alloc::Global;
use std::marker::Model;
use std::snapshot::Snapshot;
use wopi_model::{Call, Ruling};
use wopi_text::{Bytes, FileName, Memory};

mod reopening;

/// A step that was made for an editor, and what its file is like then, if it exists.
#[derive(Drop)]
pub struct EditorStep {
    pub stamp: u64,
    pub ruling: Ruling,
    /// The contents of a Put or Create that wasn't accepted.
    pub back: Option<Bytes>,
    /// The contents of a Put that came too late, in whose stead the file's lock was looked at.
    pub late: Option<Bytes>,
    pub facts: Option<Facts>,
}

/// The files of one shard, and the store that keeps their contents and notes their history.
pub struct Shard<F: Store> {
    ledger: Ledger,
    folder: F,
    ticked: Snapshot<bool>,
    only: Snapshot<Option<u8>>,
    start: Snapshot<F>,
}

// Written, since a derived one is spelled out, and proved, wherever a shard goes.
impl<F: Store> Drop for Shard<F> {
    fn drop(self) {
        let Shard {
            ledger: _ledger,
            folder: _folder,
            ticked: _ticked,
            only: _only,
            start: _start,
        } = self;
    }
}

impl<F: Store> Model for Shard<F> {
    ghost use Rattle.host_core.specs.Value.{Book, Stands};

    ghost Value = { Book F };

    ghost use Rattle.host_core.specs.ShardView.{book_of};

    ghost view = { λ s. book_of (F.notes s.folder) s };

    ghost use Rattle.host_core.specs.Chains.{KeepsChains};
    ghost use Rattle.host_core.specs.Ledger.{files_in, IsTied};

    ghost invariant = { λ s. Stands (book_of (F.notes s.folder) s) s.ledger.last (files_in s.ledger) s.ledger.bytes (F.files s.start.value) (F.files s.folder) (F.faults s.start.value) (F.faults s.folder) × IsTied s.ledger (F.notes s.folder) × KeepsChains s.ledger (book_of (F.notes s.folder) s) };
}

impl<F: Store> Shard<F> {
    ghost use Rattle.host_core.specs.Value.{IsLawful, Agrees, state_of, is_torn};
    ghost use Rattle.host_core.specs.Notes.{opening_listed};
    ghost use Rattle.host_core.specs.View.{IsViewOf};

    /// Opens a shard over a folder: its files whose names are file names, of shard `only` where a number is
    /// given, each at version `first` and unlocked. Other names are left alone. It takes so many calls. A refusal hands the folder back.
    pub fn start(
        alloc: Global,
        folder: F,
        only: Option<u8>,
        capacity: u32,
        opened: u64,
        first: u64,
    ) -> Result<Shard<F>, (F, StartFault)>
        requires capacity { (1 ≤ capacity) × (capacity ≤ 32768) }
        requires only { IfSome only (λ number. number < 16) }
        requires opened { IsMoment opened }
        requires first { IsFirstVersion first }
        ensures opened { IfOk result (λ shard. shard ≡ record {
          only = only;
          begin = shard.begin;
          limits = kept_limits capacity;
          dates = shard.dates;
          made = [];
          time = opened;
          ticked = false;
          start = folder;
          folder = shard.folder;
        }) }
        ensures opening { IfOk result (λ shard. (opening : Opening) × (shard.begin ≡ new_life opening opened first) × IsOpening only (F.files folder) opening × Fits opening) }
        ensures dates { IfOk result (λ shard. map (λ one. one.0) shard.dates ≡ map (λ one. one.0) shard.begin.files) }
        ensures told { IfOk result (λ shard. AreDatesOf (F.times folder) shard.dates) }
        ensures going { IfOk result (λ shard. F.lost shard.folder ≡ false) }
        ensures same { IfOk result (λ shard. Keeps (F.files folder) (F.files shard.folder)) }
        ensures log { IfOk result (λ shard. (F.notes shard.folder).log ≡ (F.notes folder).log) }
        ensures never_falls { IfOk result (λ shard. F.faults folder ≤ F.faults shard.folder) }
        ensures lawful { IfOk result (λ shard. IsLawful shard (F.files shard.start) (F.files shard.folder) (F.faults shard.start) (F.faults shard.folder)) }
        ensures too_large { IfErr result (λ refused. IfTooLarge refused.1 (IsTooLarge only (F.files folder))) }
        ensures failed { IfErr result (λ refused. refused.1 ≡ StartFault.FolderFault → Rose (F.faults folder) (F.faults refused.0)) }
        ensures handed { IfErr result (λ refused. Keeps (F.files folder) (F.files refused.0)) }
        ensures handed_log { IfErr result (λ refused. (F.notes refused.0).log ≡ (F.notes folder).log) }
        ensures counts { IfErr result (λ refused. F.faults folder ≤ F.faults refused.0) }
    {
        match Shard::open(alloc, folder, only, Some(capacity), capacity, opened, first) {
            Ok(shard) => return Ok(shard),
            Err(refused) => return Err(refused),
        }
    }

    /// The same over a store that takes any number of entries. So does the shard of calls, and it has places for so many held locks
    /// and ids that are refused.
    pub fn start_endless(
        alloc: Global,
        folder: F,
        only: Option<u8>,
        ids: u32,
        opened: u64,
        first: u64,
    ) -> Result<Shard<F>, (F, StartFault)>
        requires endless { F.endless ≡ true }
        requires ids { (1 ≤ ids) × (ids ≤ 32768) }
        requires only { IfSome only (λ number. number < 16) }
        requires opened { IsMoment opened }
        requires first { IsFirstVersion first }
        ensures opened { IfOk result (λ shard. shard ≡ record {
          only = only;
          begin = shard.begin;
          limits = record { calls = None; ids = ids };
          dates = shard.dates;
          made = [];
          time = opened;
          ticked = false;
          start = folder;
          folder = shard.folder;
        }) }
        ensures opening { IfOk result (λ shard. (opening : Opening) × (shard.begin ≡ new_life opening opened first) × IsOpening only (F.files folder) opening × Fits opening) }
        ensures dates { IfOk result (λ shard. map (λ one. one.0) shard.dates ≡ map (λ one. one.0) shard.begin.files) }
        ensures told { IfOk result (λ shard. AreDatesOf (F.times folder) shard.dates) }
        ensures going { IfOk result (λ shard. F.lost shard.folder ≡ false) }
        ensures same { IfOk result (λ shard. Keeps (F.files folder) (F.files shard.folder)) }
        ensures log { IfOk result (λ shard. (F.notes shard.folder).log ≡ (F.notes folder).log) }
        ensures never_falls { IfOk result (λ shard. F.faults folder ≤ F.faults shard.folder) }
        ensures lawful { IfOk result (λ shard. IsLawful shard (F.files shard.start) (F.files shard.folder) (F.faults shard.start) (F.faults shard.folder)) }
        ensures too_large { IfErr result (λ refused. IfTooLarge refused.1 (IsTooLarge only (F.files folder))) }
        ensures failed { IfErr result (λ refused. refused.1 ≡ StartFault.FolderFault → Rose (F.faults folder) (F.faults refused.0)) }
        ensures handed { IfErr result (λ refused. Keeps (F.files folder) (F.files refused.0)) }
        ensures handed_log { IfErr result (λ refused. (F.notes refused.0).log ≡ (F.notes folder).log) }
        ensures counts { IfErr result (λ refused. F.faults folder ≤ F.faults refused.0) }
    {
        match Shard::open(alloc, folder, only, None, ids, opened, first) {
            Ok(shard) => return Ok(shard),
            Err(refused) => return Err(refused),
        }
    }

    /// Both: with places for so many locks and ids, and for the entries of so many calls where these are bounded.
    fn open(
        alloc: Global,
        folder: F,
        only: Option<u8>,
        calls: Option<u32>,
        ids: u32,
        opened: u64,
        first: u64,
    ) -> Result<Shard<F>, (F, StartFault)>
        requires bounded { calls ≡ None → F.endless ≡ true }
        requires calls { IfSome calls (λ most. most ≡ ids) }
        requires only { IfSome only (λ number. number < 16) }
        requires opened { IsMoment opened }
        requires first { IsFirstVersion first }
        ensures opened { IfOk result (λ shard. shard ≡ record {
          only = only;
          begin = shard.begin;
          limits = record { calls = calls; ids = ids };
          dates = shard.dates;
          made = [];
          time = opened;
          ticked = false;
          start = folder;
          folder = shard.folder;
        }) }
        ensures opening { IfOk result (λ shard. (opening : Opening) × (shard.begin ≡ new_life opening opened first) × IsOpening only (F.files folder) opening × Fits opening) }
        ensures dates { IfOk result (λ shard. map (λ one. one.0) shard.dates ≡ map (λ one. one.0) shard.begin.files) }
        ensures told { IfOk result (λ shard. AreDatesOf (F.times folder) shard.dates) }
        ensures going { IfOk result (λ shard. F.lost shard.folder ≡ false) }
        ensures same { IfOk result (λ shard. Keeps (F.files folder) (F.files shard.folder)) }
        ensures log { IfOk result (λ shard. (F.notes shard.folder).log ≡ (F.notes folder).log) }
        ensures never_falls { IfOk result (λ shard. F.faults folder ≤ F.faults shard.folder) }
        ensures lawful { IfOk result (λ shard. IsLawful shard (F.files shard.start) (F.files shard.folder) (F.faults shard.start) (F.faults shard.folder)) }
        ensures too_large { IfErr result (λ refused. IfTooLarge refused.1 (IsTooLarge only (F.files folder))) }
        ensures failed { IfErr result (λ refused. refused.1 ≡ StartFault.FolderFault → Rose (F.faults folder) (F.faults refused.0)) }
        ensures handed { IfErr result (λ refused. Keeps (F.files folder) (F.files refused.0)) }
        ensures handed_log { IfErr result (λ refused. (F.notes refused.0).log ≡ (F.notes folder).log) }
        ensures counts { IfErr result (λ refused. F.faults folder ≤ F.faults refused.0) }
    {
        let mut folder = folder;
        let start = Snapshot::of(&folder);
        let stock = match gather(alloc, &mut folder, only, first) {
            Ok(stock) => stock,
            Err(fault) => return Err((folder, fault)),
        };
        match folder.open(alloc, &stock.files, opened, first, calls) {
            Ok(()) => {}
            Err(OutFault::Failed) => return Err((folder, StartFault::FolderFault)),
            Err(OutFault::Memory) => return Err((folder, StartFault::Memory)),
        }
        match take_room(alloc, stock.files.len(), ids as usize + 1) {
            Ok(locks) => {
                let shard = Shard::assemble(
                    alloc, folder, only, start, stock, locks, calls, ids, opened, first,
                );
                return Ok(shard);
            }
            Err(_) => return Err((folder, StartFault::Memory)),
        }
    }

    /// The shard's time, in milliseconds.
    pub fn now(&self) -> u64
        ensures time { result ≡ self.now.time }
        ensures lawful { IsLawful self.now (F.files self.now.start) (F.files self.now.folder) (F.faults self.now.start) (F.faults self.now.folder) }
    {
        self.ledger.time
    }

    /// One act on one file at a moment, in milliseconds: the call is judged, stored and recorded. It gives the
    /// entry's stamp, the ruling, and the contents of a Put or Create that weren't accepted. Where the store is lost then, the
    /// ruling is not to be told.
    #[inline(always)]
    pub fn step(
        &mut self,
        call: Call,
        pass: u32,
        floor: u64,
        moment: u64,
    ) -> Result<(u64, Ruling, Option<Bytes>), StepFault>
        requires moment { IsMoment moment }
        requires only { IsOfShard self.old.only call.name }
        ensures entry { IfOk result (λ step. self.new ≡ record self.old {
          made = self.old.made ++ record {
            time = max self.old.time moment;
            step = record { stamp = step.0; pass = pass; moment = moment; call = call; ruling = step.1 };
            told = not (F.lost self.new.folder);
          } ∷ [];
          time = max self.old.time moment;
          folder = self.new.folder;
        }) }
        ensures stamp { IfOk result (λ step. step.0 ≡ max (last_from self.old.begin.last (stamps (entries (history_of self.old.made self.old.time)))) floor + 1) }
        ensures back { IfOk result (λ step. step.2 ≡ back_of call.act step.1) }
        ensures room { OnOk result (FullFrom self.old.limits self.old.begin (history_of self.old.made self.old.time) floor call moment → ⊥) }
        ensures full { IfErr result (λ fault. IsFullFault fault
            → FullFrom self.old.limits self.old.begin (history_of self.old.made self.old.time) floor call moment) }
        ensures err { OnErr result (self.new ≡ record self.old { folder = self.new.folder }) }
        ensures call { IfErr result (λ fault. handed_back fault ≡ call) }
        ensures light { IfErr result (λ fault. is_lock_act call.act ≡ true → F.lost self.old.folder ≡ false → IsFullFault fault) }
        ensures going { OnOk result (F.lost self.old.folder ≡ false) }
        ensures lost { IfErr result (λ fault. IsLostFault fault ↔ (F.lost self.old.folder ≡ true)) }
        ensures still { IfErr result (λ fault. IsLostFault fault → self.new ≡ self.old) }
        ensures keeps { OnErr result (Keeps (F.files self.old.folder) (F.files self.new.folder)) }
        ensures log { (F.notes self.new.folder).log ≡ (F.notes self.old.folder).log }
        ensures never_falls { F.faults self.old.folder ≤ F.faults self.new.folder }
        ensures fault { IfOk result (λ step. step.1.status ≡ 500 → Rose (F.faults self.old.folder) (F.faults self.new.folder)) }
        ensures lawful { IsLawful self.new (F.files self.new.start) (F.files self.new.folder) (F.faults self.new.start) (F.faults self.new.folder) }
    {
        let mut call = call;
        let mut carried = begin();
        match self.step_at(&mut call, pass, floor, moment, &mut carried) {
            Ok(stamp) => return Ok((stamp, carried.ruling, carried.back)),
            Err(Refusal::Full) => return Err(StepFault::Full(call)),
            Err(Refusal::Memory) => return Err(StepFault::Memory(call)),
            Err(Refusal::Lost) => return Err(StepFault::Lost(call)),
        }
    }

    /// The step, where the call and what is told of it stay where they lie. It gives the stamp. What a call that made an entry
    /// brought is taken.
    #[inline(always)]
    pub fn step_at(
        &mut self,
        call: &mut Call,
        pass: u32,
        floor: u64,
        moment: u64,
        carried: &mut Carried,
    ) -> Result<u64, Refusal>
        requires moment { IsMoment moment }
        requires only { IsOfShard self.old.only call.old.name }
        ensures entry { IfOk result (λ stamp. self.new ≡ record self.old {
          made = self.old.made ++ record {
            time = max self.old.time moment;
            step = record { stamp = stamp; pass = pass; moment = moment; call = call.old; ruling = carried.new.ruling };
            told = not (F.lost self.new.folder);
          } ∷ [];
          time = max self.old.time moment;
          folder = self.new.folder;
        }) }
        ensures stamp { IfOk result (λ stamp. stamp ≡ max (last_from self.old.begin.last (stamps (entries (history_of self.old.made self.old.time)))) floor + 1) }
        ensures back { OnOk result (carried.new.back ≡ back_of call.old.act carried.new.ruling) }
        ensures room { OnOk result (FullFrom self.old.limits self.old.begin (history_of self.old.made self.old.time) floor call.old moment → ⊥) }
        ensures full { IfErr result (λ why. IsFull why
            → FullFrom self.old.limits self.old.begin (history_of self.old.made self.old.time) floor call.old moment) }
        ensures err { OnErr result (self.new ≡ record self.old { folder = self.new.folder }) }
        ensures call { OnErr result (call.new ≡ call.old) }
        ensures light { IfErr result (λ why. is_lock_act call.old.act ≡ true → F.lost self.old.folder ≡ false → IsFull why) }
        ensures going { OnOk result (F.lost self.old.folder ≡ false) }
        ensures lost { IfErr result (λ why. IsLost why ↔ (F.lost self.old.folder ≡ true)) }
        ensures still { IfErr result (λ why. IsLost why → self.new ≡ self.old) }
        ensures keeps { OnErr result (Keeps (F.files self.old.folder) (F.files self.new.folder)) }
        ensures log { (F.notes self.new.folder).log ≡ (F.notes self.old.folder).log }
        ensures never_falls { F.faults self.old.folder ≤ F.faults self.new.folder }
        ensures fault { OnOk result (carried.new.ruling.status ≡ 500 → Rose (F.faults self.old.folder) (F.faults self.new.folder)) }
        ensures lawful { IsLawful self.new (F.files self.new.start) (F.files self.new.folder) (F.faults self.new.start) (F.faults self.new.folder) }
    {
        if self.is_lost() {
            return Err(Refusal::Lost);
        }
        restart(carried);
        match self.make(call, pass, floor, moment, carried) {
            Ok(stamp) => return Ok(stamp),
            Err(StoreRefusal::Full) => return Err(Refusal::Full),
            Err(StoreRefusal::Memory) => return Err(Refusal::Memory),
        }
    }

    /// The same of a shard whose store isn't lost, where nothing is told yet.
    pub(crate) fn make(
        &mut self,
        call: &mut Call,
        pass: u32,
        floor: u64,
        moment: u64,
        carried: &mut Carried,
    ) -> Result<u64, StoreRefusal>
        requires moment { IsMoment moment }
        requires only { IsOfShard self.old.only call.old.name }
        requires begun { carried.old ≡ begun }
        requires going { F.lost self.old.folder ≡ false }
        ensures entry { IfOk result (λ stamp. self.new ≡ record self.old {
          made = self.old.made ++ record {
            time = max self.old.time moment;
            step = record { stamp = stamp; pass = pass; moment = moment; call = call.old; ruling = carried.new.ruling };
            told = not (F.lost self.new.folder);
          } ∷ [];
          time = max self.old.time moment;
          folder = self.new.folder;
        }) }
        ensures stamp { IfOk result (λ stamp. stamp ≡ max (last_from self.old.begin.last (stamps (entries (history_of self.old.made self.old.time)))) floor + 1) }
        ensures back { OnOk result (carried.new.back ≡ back_of call.old.act carried.new.ruling) }
        ensures room { OnOk result (FullFrom self.old.limits self.old.begin (history_of self.old.made self.old.time) floor call.old moment → ⊥) }
        ensures full { IfErr result (λ why. why ≡ StoreRefusal.Full
            → FullFrom self.old.limits self.old.begin (history_of self.old.made self.old.time) floor call.old moment) }
        ensures err { OnErr result (self.new ≡ record self.old { folder = self.new.folder }) }
        ensures call { OnErr result (call.new ≡ call.old) }
        ensures light { IfErr result (λ why. is_lock_act call.old.act ≡ true → why ≡ StoreRefusal.Full) }
        ensures keeps { OnErr result (Keeps (F.files self.old.folder) (F.files self.new.folder)) }
        ensures log { (F.notes self.new.folder).log ≡ (F.notes self.old.folder).log }
        ensures never_falls { F.faults self.old.folder ≤ F.faults self.new.folder }
        ensures fault { OnOk result (carried.new.ruling.status ≡ 500 → Rose (F.faults self.old.folder) (F.faults self.new.folder)) }
        ensures lawful { IsLawful self.new (F.files self.new.start) (F.files self.new.folder) (F.faults self.new.start) (F.faults self.new.folder) }
    {
        let _name = call.name.as_slice();
        make_ready(&mut self.ledger);
        match take_step(
            &mut self.ledger,
            &mut self.folder,
            call,
            pass,
            floor,
            moment,
            carried,
        ) {
            Ok(stamp) => return Ok(stamp),
            Err(why) => return Err(why),
        }
    }

    /// The call is a Put that would be accepted at that moment, and the file was last saved at another one than the one that is
    /// known. Nothing is settled.
    pub fn is_late(&self, call: &Call, known: Option<u64>, moment: u64) -> bool
        requires { IsMoment moment }
        ensures { result ≡ is_late self.now.begin self.now.dates (history_of self.now.made self.now.time) call.now known moment }
    {
        let now = self.ledger.time.max(moment);
        let opened = self.ledger.opened;
        self.ledger.rack.is_late(call, known, opened, now)
    }

    /// What is told of the file of a name, if it exists. A digest that is asked for is computed where these contents
    /// were not asked for theirs before.
    pub fn facts(&mut self, name: &FileName, digest: bool) -> Option<Facts>
        ensures facts { result ≡ facts_of digest (saved_at self.old.begin self.old.dates (history_of self.old.made self.old.time) name.now)
            ((state_of self.old.begin self.old.made self.old.time).files name.now).contents }
        ensures moment { IfSome result (λ facts. IsMoment facts.saved) }
        ensures same { self.new ≡ self.old }
    {
        self.ledger.rack.facts(name, digest)
    }

    /// One step for an editor, which knows of the moment at which the file was last saved. A Put that comes too late isn't made:
    /// the file's lock is looked at in its stead. It gives the stamp, and the contents of such a Put.
    pub(crate) fn make_for_editor(
        &mut self,
        call: &mut Call,
        known: Option<u64>,
        pass: u32,
        floor: u64,
        moment: u64,
        carried: &mut Carried,
    ) -> Result<(u64, Option<Bytes>), StoreRefusal>
        requires moment { IsMoment moment }
        requires only { IsOfShard self.old.only call.old.name }
        requires begun { carried.old ≡ begun }
        requires going { F.lost self.old.folder ≡ false }
        ensures entry { IfOk result (λ step. self.new ≡ record self.old {
          made = self.old.made ++ record {
            time = max self.old.time moment;
            step = record {
              stamp = step.0;
              pass = pass;
              moment = moment;
              call = made_for (is_late self.old.begin self.old.dates (history_of self.old.made self.old.time) call.old known moment) call.old;
              ruling = carried.new.ruling;
            };
            told = not (F.lost self.new.folder);
          } ∷ [];
          time = max self.old.time moment;
          folder = self.new.folder;
        }) }
        ensures stamp { IfOk result (λ step. step.0 ≡ max (last_from self.old.begin.last (stamps (entries (history_of self.old.made self.old.time)))) floor + 1) }
        ensures late { IfOk result (λ step. step.1 ≡ (if is_late self.old.begin self.old.dates (history_of self.old.made self.old.time) call.old known moment then brought_by call.old.act else None)) }
        ensures back { OnOk result (carried.new.back ≡ back_of (made_for (is_late self.old.begin self.old.dates (history_of self.old.made self.old.time) call.old known moment) call.old).act carried.new.ruling) }
        ensures room { OnOk result (FullFrom self.old.limits self.old.begin (history_of self.old.made self.old.time) floor (made_for (is_late self.old.begin self.old.dates (history_of self.old.made self.old.time) call.old known moment) call.old) moment → ⊥) }
        ensures full { IfErr result (λ why. why ≡ StoreRefusal.Full
            → FullFrom self.old.limits self.old.begin (history_of self.old.made self.old.time) floor call.old moment) }
        ensures err { OnErr result (self.new ≡ record self.old { folder = self.new.folder }) }
        ensures call { OnErr result (call.new ≡ call.old) }
        ensures light { IfErr result (λ why. is_lock_act call.old.act ≡ true → why ≡ StoreRefusal.Full) }
        ensures keeps { OnErr result (Keeps (F.files self.old.folder) (F.files self.new.folder)) }
        ensures log { (F.notes self.new.folder).log ≡ (F.notes self.old.folder).log }
        ensures never_falls { F.faults self.old.folder ≤ F.faults self.new.folder }
        ensures fault { OnOk result (carried.new.ruling.status ≡ 500 → Rose (F.faults self.old.folder) (F.faults self.new.folder)) }
        ensures lawful { IsLawful self.new (F.files self.new.start) (F.files self.new.folder) (F.faults self.new.start) (F.faults self.new.folder) }
    {
        let late = self.is_late(call, known, moment);
        if late {
            return self.look_in_stead(call, pass, floor, moment, carried);
        }
        match self.make(call, pass, floor, moment, carried) {
            Ok(stamp) => return Ok((stamp, None)),
            Err(why) => return Err(why),
        }
    }

    /// A look at the file's lock, in the stead of a call. It gives the stamp, and the contents that the call brought.
    fn look_in_stead(
        &mut self,
        call: &mut Call,
        pass: u32,
        floor: u64,
        moment: u64,
        carried: &mut Carried,
    ) -> Result<(u64, Option<Bytes>), StoreRefusal>
        requires moment { IsMoment moment }
        requires only { IsOfShard self.old.only call.old.name }
        requires begun { carried.old ≡ begun }
        requires going { F.lost self.old.folder ≡ false }
        ensures entry { IfOk result (λ step. self.new ≡ record self.old {
          made = self.old.made ++ record {
            time = max self.old.time moment;
            step = record { stamp = step.0; pass = pass; moment = moment; call = look_for call.old; ruling = carried.new.ruling };
            told = not (F.lost self.new.folder);
          } ∷ [];
          time = max self.old.time moment;
          folder = self.new.folder;
        }) }
        ensures stamp { IfOk result (λ step. step.0 ≡ max (last_from self.old.begin.last (stamps (entries (history_of self.old.made self.old.time)))) floor + 1) }
        ensures late { IfOk result (λ step. step.1 ≡ brought_by call.old.act) }
        ensures back { OnOk result (carried.new.back ≡ back_of (look_for call.old).act carried.new.ruling) }
        ensures room { OnOk result (FullFrom self.old.limits self.old.begin (history_of self.old.made self.old.time) floor (look_for call.old) moment → ⊥) }
        ensures full { IfErr result (λ why. why ≡ StoreRefusal.Full
            → FullFrom self.old.limits self.old.begin (history_of self.old.made self.old.time) floor call.old moment) }
        ensures err { OnErr result (self.new ≡ record self.old { folder = self.new.folder }) }
        ensures call { OnErr result (call.new ≡ call.old) }
        ensures light { IfErr result (λ why. is_lock_act call.old.act ≡ true → why ≡ StoreRefusal.Full) }
        ensures keeps { OnErr result (Keeps (F.files self.old.folder) (F.files self.new.folder)) }
        ensures log { (F.notes self.new.folder).log ≡ (F.notes self.old.folder).log }
        ensures never_falls { F.faults self.old.folder ≤ F.faults self.new.folder }
        ensures fault { OnOk result (carried.new.ruling.status ≡ 500 → Rose (F.faults self.old.folder) (F.faults self.new.folder)) }
        ensures lawful { IsLawful self.new (F.files self.new.start) (F.files self.new.folder) (F.faults self.new.start) (F.faults self.new.folder) }
    {
        let alloc = self.ledger.alloc;
        let mut act = withhold(call);
        match self.make(call, pass, floor, moment, carried) {
            Ok(stamp) => return Ok((stamp, brought(alloc, &mut act))),
            Err(why) => {
                call.act = act;
                return Err(why);
            }
        }
    }

    /// One act of an editor on one file at a moment, which knows of the moment at which the file was last saved. It is `step`, but
    /// that a Put that comes too late isn't made: the file's lock is looked at in its stead.
    pub fn step_for_editor(
        &mut self,
        call: Call,
        known: Option<u64>,
        pass: u32,
        floor: u64,
        moment: u64,
    ) -> Result<EditorStep, StepFault>
        requires moment { IsMoment moment }
        requires only { IsOfShard self.old.only call.name }
        ensures entry { IfOk result (λ step. self.new ≡ record self.old {
          made = self.old.made ++ record {
            time = max self.old.time moment;
            step = record {
              stamp = step.stamp;
              pass = pass;
              moment = moment;
              call = made_for (is_late self.old.begin self.old.dates (history_of self.old.made self.old.time) call known moment) call;
              ruling = step.ruling;
            };
            told = not (F.lost self.new.folder);
          } ∷ [];
          time = max self.old.time moment;
          folder = self.new.folder;
        }) }
        ensures stamp { IfOk result (λ step. step.stamp ≡ max (last_from self.old.begin.last (stamps (entries (history_of self.old.made self.old.time)))) floor + 1) }
        ensures late { IfOk result (λ step. step.late ≡ (if is_late self.old.begin self.old.dates (history_of self.old.made self.old.time) call known moment then brought_by call.act else None)) }
        ensures back { IfOk result (λ step. step.back ≡ back_of (made_for (is_late self.old.begin self.old.dates (history_of self.old.made self.old.time) call known moment) call).act step.ruling) }
        ensures facts { IfOk result (λ step. step.facts ≡ facts_of (is_info call.act) (saved_at self.new.begin self.new.dates (history_of self.new.made self.new.time) call.name)
            ((state_of self.new.begin self.new.made self.new.time).files call.name).contents) }
        ensures moment { IfOk result (λ step. IfSome step.facts (λ facts. IsMoment facts.saved)) }
        ensures room { OnOk result (FullFrom self.old.limits self.old.begin (history_of self.old.made self.old.time) floor (made_for (is_late self.old.begin self.old.dates (history_of self.old.made self.old.time) call known moment) call) moment → ⊥) }
        ensures full { IfErr result (λ fault. IsFullFault fault
            → FullFrom self.old.limits self.old.begin (history_of self.old.made self.old.time) floor call moment) }
        ensures err { OnErr result (self.new ≡ record self.old { folder = self.new.folder }) }
        ensures call { IfErr result (λ fault. handed_back fault ≡ call) }
        ensures light { IfErr result (λ fault. is_lock_act call.act ≡ true → F.lost self.old.folder ≡ false → IsFullFault fault) }
        ensures going { OnOk result (F.lost self.old.folder ≡ false) }
        ensures lost { IfErr result (λ fault. IsLostFault fault ↔ (F.lost self.old.folder ≡ true)) }
        ensures still { IfErr result (λ fault. IsLostFault fault → self.new ≡ self.old) }
        ensures keeps { OnErr result (Keeps (F.files self.old.folder) (F.files self.new.folder)) }
        ensures log { (F.notes self.new.folder).log ≡ (F.notes self.old.folder).log }
        ensures never_falls { F.faults self.old.folder ≤ F.faults self.new.folder }
        ensures fault { IfOk result (λ step. step.ruling.status ≡ 500 → Rose (F.faults self.old.folder) (F.faults self.new.folder)) }
        ensures lawful { IsLawful self.new (F.files self.new.start) (F.files self.new.folder) (F.faults self.new.start) (F.faults self.new.folder) }
    {
        let lost = self.is_lost();
        if lost {
            return Err(StepFault::Lost(call));
        }
        let name = call.name.copy();
        let digest = is_info(&call.act);
        let mut call = call;
        let mut carried = begin();
        match self.make_for_editor(&mut call, known, pass, floor, moment, &mut carried) {
            Ok(step) => {
                let facts = self.facts(&name, digest);
                return Ok(EditorStep {
                    stamp: step.0,
                    ruling: carried.ruling,
                    back: carried.back,
                    late: step.1,
                    facts,
                });
            }
            Err(StoreRefusal::Full) => return Err(StepFault::Full(call)),
            Err(StoreRefusal::Memory) => return Err(StepFault::Memory(call)),
        }
    }

    /// Raises the shard's time to a moment, ends the locks that are over by then, and gives the time. It takes no
    /// memory.
    pub fn settle_to(&mut self, moment: u64) -> u64
        requires { IsMoment moment }
        ensures after { self.new ≡ record self.old { time = max self.old.time moment; ticked = true } }
        ensures time { result ≡ max self.old.time moment }
        ensures lawful { IsLawful self.new (F.files self.new.start) (F.files self.new.folder) (F.faults self.new.start) (F.faults self.new.folder) }
    {
        self.ledger.time = self.ledger.time.max(moment);
        self.ledger.rack.locks.settle(self.ledger.time);
        self.ticked = Snapshot::of(&true);
        self.ledger.time
    }

    /// The store. It has noted what the shard began with, and its entries.
    pub fn store(&self) -> &F
        ensures same { result.now ≡ self.now.folder }
        ensures begin { (F.notes self.now.folder).begin ≡ self.now.begin }
        ensures made { (F.notes self.now.folder).made ≡ self.now.made }
        ensures ended { (F.notes self.now.folder).begun ≡ None }
    {
        &self.folder
    }

    /// Whether the store is lost: its last entry may not be kept, and it takes no more.
    pub fn is_lost(&self) -> bool
        ensures lost { result ≡ F.lost self.now.folder }
        ensures lawful { IsLawful self.now (F.files self.now.start) (F.files self.now.folder) (F.faults self.now.start) (F.faults self.now.folder) }
    {
        self.folder.is_lost()
    }

    /// How many entries there are.
    pub fn len(&self) -> u64
        ensures count { result ≡ length self.now.made }
        ensures lawful { IsLawful self.now (F.files self.now.start) (F.files self.now.folder) (F.faults self.now.start) (F.faults self.now.folder) }
    {
        self.folder.count()
    }

    /// How many bytes the files had at the beginning, and all contents that were accepted since; or how many the files have, where
    /// it takes any number of calls.
    pub fn bytes(&self) -> u64
        ensures { AreBytes self.now.limits.calls self.now.begin (happened self.now) result }
    {
        self.ledger.bytes
    }

    /// Whether it has used nine tenths of its room: of its entries, or of its bytes.
    pub fn is_nearly_full(&self) -> bool
        ensures value { IsTrue result ↔ IsNearlyFull self.now.limits.calls self.now.begin (happened self.now) }
        ensures lawful { IsLawful self.now (F.files self.now.start) (F.files self.now.folder) (F.faults self.now.start) (F.faults self.now.folder) }
    {
        let entries = self.len();
        let bytes = self.bytes();
        match self.ledger.calls {
            Some(calls) => return are_nine_tenths(calls, entries, bytes),
            None => return are_most_kept(bytes),
        }
    }

    /// A file as it stands, where its name was met: where it has a version from `first` on.
    pub fn file(&self, name: &FileName) -> Option<FileView<'_>>
        ensures met { IsSome result ↔ (self.now.begin.first ≤ ((state_of self.now.begin self.now.made self.now.time).files name.now).version) }
        ensures view { IfSome result (λ view. IsViewOf view ((state_of self.now.begin self.now.made self.now.time).files name.now) (is_torn self.now.made name.now)) }
    {
        match self.ledger.rack.index.find(name) {
            None => None,
            Some(number) => {
                let file = &self.ledger.rack.files[number as usize];
                let is_met = file.version >= self.ledger.first;
                if is_met {
                    Some(view_of(&self.ledger.rack.locks, number, file, self.ledger.time))
                } else {
                    None
                }
            }
        }
    }

    /// The names that were met, in the order of their bytes.
    pub fn names(&self) -> Result<NameList, Memory>
        ensures { IfOk result (AreNames (state_of self.now.begin self.now.made self.now.time)) }
    {
        match names_of(
            self.ledger.alloc,
            &self.ledger.rack.files,
            self.ledger.first,
        ) {
            Ok(names) => return Ok(names),
            Err(memory) => return Err(memory),
        }
    }

    /// The files that exist, in the order of their names' bytes. It walks the index of names, and looks at no entry and
    /// no contents.
    pub fn children(&self) -> Result<Children, Memory>
        ensures { IfOk result (AreChildren (state_of self.now.begin self.now.made self.now.time).files) }
    {
        match children_of(
            self.ledger.alloc,
            &self.ledger.rack.index,
            &self.ledger.rack.files,
        ) {
            Ok(children) => return Ok(children),
            Err(memory) => return Err(memory),
        }
    }

    /// The shard over a store and what was read from it.
    fn assemble(
        alloc: Global,
        folder: F,
        only: Option<u8>,
        start: Snapshot<F>,
        stock: Stock,
        locks: KeptLocks,
        calls: Option<u32>,
        ids: u32,
        opened: u64,
        first: u64,
    ) -> Shard<F>
        requires moment { IsMoment opened }
        requires first { IsFirstVersion first }
        requires calls { IfSome calls (λ most. most ≡ ids) }
        requires stock { IsStock first stock }
        requires none { (number : ℕ) → standing_at locks.files number ≡ unlocked }
        requires as_of { AreAsOf 0 locks }
        requires long { length stock.files.items ≤ length locks.files }
        requires spare { ids ≤ locks.spare }
        requires room { ids < locks.room }
        requires slots { TakesCalls calls (F.notes folder).most }
        requires made { (F.notes folder).made ≡ [] }
        requires ended { (F.notes folder).begun ≡ None }
        requires listed { (F.notes folder).begin ≡ new_life (opening_listed stock.files.items) opened first }
        requires opening { IsOpening only (F.files start.value) (opening_listed stock.files.items) }
        requires same { Keeps (F.files start.value) (F.files folder) }
        requires faults { F.faults start.value ≤ F.faults folder }
        ensures value { result ≡ record {
          only = only;
          begin = new_life (opening_listed stock.files.items) opened first;
          limits = record { calls = calls; ids = ids };
          dates = dates_of stock.files.items;
          made = [];
          time = opened;
          ticked = false;
          start = start.value;
          folder = folder;
        } }
        ensures lawful { IsLawful result (F.files result.start) (F.files result.folder) (F.faults result.start) (F.faults result.folder) }
    {
        let ticked = Snapshot::of(&false);
        let opening = Snapshot::of(&stock.files);
        Shard {
            ledger: Ledger {
                alloc,
                opened,
                first,
                calls,
                ids,
                time: opened,
                last: 0,
                bytes: stock.bytes,
                rack: Rack {
                    files: stock.files,
                    index: stock.index,
                    locks,
                },
                opening,
            },
            folder,
            ticked,
            only: Snapshot::of(&only),
            start,
        }
    }

    /// The last stamp, or the last one before the beginning.
    pub fn last(&self) -> u64
        ensures { result ≡ last_from self.now.begin.last (stamps (entries (history_of self.now.made self.now.time))) }
    {
        self.ledger.last
    }

    /// Gives the store, in which the history is noted. Contracts also see it as it was handed in. It needs no memory.
    pub fn end(self) -> (F, Snapshot<F>)
        ensures folder { result.0 ≡ self.folder }
        ensures start { result.1.value ≡ self.start }
        ensures begin { (F.notes result.0).begin ≡ self.begin }
        ensures made { (F.notes result.0).made ≡ self.made }
        ensures most { TakesCalls self.limits.calls (F.notes result.0).most }
        ensures ended { (F.notes result.0).begun ≡ None }
        ensures lawful { IsLawful self (F.files self.start) (F.files self.folder) (F.faults self.start) (F.faults self.folder) }
    {
        let Shard {
            ledger: _ledger,
            folder,
            ticked: _ticked,
            only: _only,
            start,
        } = self;
        (folder, start)
    }
}
