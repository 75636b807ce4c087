//! A shard that goes on where another one was.
ghost use Rattle.std.specs.Prelude.{◌≡◌, ◌≤◌, ◌<◌, ◌+◌, ◌-◌, ◌^◌, [], ℕ, List, None, Some, false, length, map, option_map, IfOk, IfErr, IfSome, OnOk};
ghost use Rattle.outside.specs.Faults.{Rose};
ghost use Rattle.outside.specs.Folder.{Keeps};
ghost use Rattle.wopi_model.specs.Begin.{Begin};
ghost use Rattle.wopi_model.specs.Lives.{live_ids};
ghost use Rattle.host_core.specs.Facts.{Dates};
ghost use Rattle.host_core.specs.Going.{AreHeld, TakesUp, ids_told};
ghost use Rattle.host_core.specs.Life as lives;
ghost use Rattle.host_core.specs.Life.{IfLarge, IsFolderOrMemory, IsGoodLife, IsOfLife, IsReopened, Mends, OpensDoubt, begin_listed, life_names, mended};
ghost use Rattle.host_core.specs.Numbers.{IsNumbered};
ghost use Rattle.host_core.specs.Opening.{IsTooLarge};

use crate::files::Rack;
use crate::going::{Going, are_enough, join};
use crate::lasting::Lasting;
use crate::ledger::Ledger;
use crate::life::{Life, ReopenFault};
use crate::lives::{is_good, number_files};
use crate::mending::mend;
use crate::opening::{StartFault, gather};
use crate::relocking::hold;
use crate::shard::Shard;
use kept_locks::KeptLocks;
use name_index::NameIndex;
use outside::OutFault;
use std::alloc::Global;
use std::snapshot::Snapshot;

/// The same fault.
fn as_reopening(fault: StartFault) -> ReopenFault
    ensures { result ≡ lives.as_reopening fault }
{
    match fault {
        StartFault::FolderFault => return ReopenFault::FolderFault,
        StartFault::TooLarge { name } => return ReopenFault::TooLarge { name },
        StartFault::Memory => return ReopenFault::Memory,
    }
}

/// Mends the folder, reads its files, and joins what is told to them.
fn take_up<F: Lasting>(
    alloc: Global,
    folder: &mut F,
    only: Option<u8>,
    life: &Life,
    index: &NameIndex,
) -> Result<Going, ReopenFault>
    requires good { IsGoodLife only life.now }
    requires numbered { IsNumbered index.now (life_names life.now.files.items) }
    ensures going { IfOk result (TakesUp only (F.files folder.old) (F.times folder.old) life.entry.now) }
    ensures mends { OnOk result (Mends life.entry.now.files.items (F.files folder.old) (F.files folder.new)) }
    ensures large { IfErr result (λ fault. IfLarge fault (IsTooLarge only (option_map (mended life.entry.now.files.items) (F.files folder.old)))) }
    ensures failed { IfErr result (λ fault. fault ≡ ReopenFault.FolderFault → Rose (F.faults folder.old) (F.faults folder.new)) }
    ensures none { IfErr result (λ fault. IsOfLife fault → ⊥) }
    ensures doubt { OpensDoubt life.entry.now.files.items (F.files folder.old) (F.files folder.new) }
    ensures log { (F.notes folder.new).log ≡ (F.notes folder.old).log }
    ensures never_falls { F.faults folder.old ≤ F.faults folder.new }
{
    match mend(folder, &life.files) {
        Ok(()) => {}
        Err(fault) => return Err(fault),
    }
    let mut stock = match gather(alloc, folder, only, life.first) {
        Ok(stock) => stock,
        Err(fault) => return Err(as_reopening(fault)),
    };
    match join(alloc, life, index, &mut stock) {
        Ok(told) => return Ok(Going { stock, told }),
        Err(_) => return Err(ReopenFault::Memory),
    }
}

/// The store goes on with what was taken up.
fn begin_on<F: Lasting>(
    alloc: Global,
    folder: &mut F,
    going: &Going,
    life: &Life,
) -> Result<(), ReopenFault>
    ensures begin { OnOk result ((F.notes folder.new).begin ≡ begin_listed life.entry.now.opened life.entry.now.first life.entry.now.now life.entry.now.last going.now.stock.files.items going.now.told.items) }
    ensures made { OnOk result ((F.notes folder.new).made ≡ []) }
    ensures begun { OnOk result ((F.notes folder.new).begun ≡ None) }
    ensures most { OnOk result ((F.notes folder.new).most ≡ None) }
    ensures going { OnOk result (F.lost folder.new ≡ false) }
    ensures log { (F.notes folder.new).log ≡ (F.notes folder.old).log }
    ensures files { Keeps (F.files folder.old) (F.files folder.new) }
    ensures never_falls { F.faults folder.old ≤ F.faults folder.new }
    ensures failed { IfErr result (λ fault. fault ≡ ReopenFault.FolderFault → Rose (F.faults folder.old) (F.faults folder.new)) }
    ensures why { IfErr result (λ fault. IsFolderOrMemory fault) }
{
    match folder.go_on(
        alloc,
        &going.stock.files,
        &going.told,
        life.opened,
        life.first,
        life.now,
        life.last,
    ) {
        Ok(()) => return Ok(()),
        Err(OutFault::Failed) => return Err(ReopenFault::FolderFault),
        Err(OutFault::Memory) => return Err(ReopenFault::Memory),
    }
}

impl<F: Lasting> Shard<F> {
    ghost use Rattle.host_core.specs.Value.{IsLawful};

    /// Opens a shard that goes on where another one was, of which it is told, over the folder of that one. What was changed last
    /// is made up for in the folder, where it isn't there. Each other file stands as the folder has it; one that was told with
    /// another size, or as absent, is taken in at the next version, under the locks that were told, and one of a new name at
    /// the version `first`. There are places for so many held locks and refused ids. The shard starts with the folder as it is then. A
    /// refusal hands the folder back.
    pub fn reopen(
        alloc: Global,
        folder: F,
        only: Option<u8>,
        ids: u32,
        life: Life,
    ) -> Result<Shard<F>, (F, ReopenFault)>
        requires ids { (1 ≤ ids) × (ids ≤ 32768) }
        requires only { IfSome only (λ number. number < 16) }
        ensures good { OnOk result (IsGoodLife only life) }
        ensures opened { IfOk result (λ shard. shard ≡ record {
          only = only;
          begin = shard.begin;
          limits = record { calls = None; ids = ids };
          dates = shard.dates;
          made = [];
          time = life.now;
          ticked = false;
          start = shard.folder;
          folder = shard.folder;
        }) }
        ensures reopened { IfOk result (λ shard. IsReopened only (F.files folder) (F.times folder) life shard.begin shard.dates) }
        ensures mends { IfOk result (λ shard. Mends life.files.items (F.files folder) (F.files shard.folder)) }
        ensures enough { IfOk result (λ shard. live_ids shard.begin.files ≤ ids) }
        ensures going { IfOk result (λ shard. F.lost shard.folder ≡ false) }
        ensures log { IfOk result (λ shard. (F.notes shard.folder).log ≡ (F.notes folder).log) }
        ensures never_falls { IfOk result (λ shard. F.faults folder ≤ F.faults shard.folder) }
        ensures lawful { IfOk result (λ shard. IsLawful shard (F.files shard.start) (F.files shard.folder) (F.faults shard.start) (F.faults shard.folder)) }
        ensures bad { IfErr result (λ refused. refused.1 ≡ ReopenFault.BadLife → (IsGoodLife only life → ⊥) × (refused.0 ≡ folder)) }
        ensures too_many { IfErr result (λ refused. refused.1 ≡ ReopenFault.TooManyIds
            → (begin : Begin) × (dates : Dates) × IsReopened only (F.files folder) (F.times folder) life begin dates × (ids < live_ids begin.files)) }
        ensures too_large { IfErr result (λ refused. IfLarge refused.1 (IsTooLarge only (option_map (mended life.files.items) (F.files folder)))) }
        ensures failed { IfErr result (λ refused. refused.1 ≡ ReopenFault.FolderFault → Rose (F.faults folder) (F.faults refused.0)) }
        ensures handed { IfErr result (λ refused. OpensDoubt life.files.items (F.files folder) (F.files refused.0)) }
        ensures handed_log { IfErr result (λ refused. (F.notes refused.0).log ≡ (F.notes folder).log) }
        ensures counts { IfErr result (λ refused. F.faults folder ≤ F.faults refused.0) }
    {
        if !is_good(&life, only) {
            return Err((folder, ReopenFault::BadLife));
        }
        let index = match number_files(alloc, &life.files) {
            Ok(Some(index)) => index,
            Ok(None) => return Err((folder, ReopenFault::BadLife)),
            Err(_) => return Err((folder, ReopenFault::Memory)),
        };
        match Shard::go_on(alloc, folder, only, ids, &life, &index) {
            Ok(shard) => return Ok(shard),
            Err(refused) => return Err(refused),
        }
    }

    /// The same with a good life, whose files have their places by name.
    fn go_on(
        alloc: Global,
        folder: F,
        only: Option<u8>,
        ids: u32,
        life: &Life,
        index: &NameIndex,
    ) -> Result<Shard<F>, (F, ReopenFault)>
        requires ids { (1 ≤ ids) × (ids ≤ 32768) }
        requires good { IsGoodLife only life.now }
        requires numbered { IsNumbered index.now (life_names life.now.files.items) }
        ensures opened { IfOk result (λ shard. shard ≡ record {
          only = only;
          begin = shard.begin;
          limits = record { calls = None; ids = ids };
          dates = shard.dates;
          made = [];
          time = life.entry.now.now;
          ticked = false;
          start = shard.folder;
          folder = shard.folder;
        }) }
        ensures reopened { IfOk result (λ shard. IsReopened only (F.files folder) (F.times folder) life.entry.now shard.begin shard.dates) }
        ensures mends { IfOk result (λ shard. Mends life.entry.now.files.items (F.files folder) (F.files shard.folder)) }
        ensures enough { IfOk result (λ shard. live_ids shard.begin.files ≤ ids) }
        ensures going { IfOk result (λ shard. F.lost shard.folder ≡ false) }
        ensures log { IfOk result (λ shard. (F.notes shard.folder).log ≡ (F.notes folder).log) }
        ensures never_falls { IfOk result (λ shard. F.faults folder ≤ F.faults shard.folder) }
        ensures lawful { IfOk result (λ shard. IsLawful shard (F.files shard.start) (F.files shard.folder) (F.faults shard.start) (F.faults shard.folder)) }
        ensures too_many { IfErr result (λ refused. refused.1 ≡ ReopenFault.TooManyIds
            → (begin : Begin) × (dates : Dates) × IsReopened only (F.files folder) (F.times folder) life.entry.now begin dates × (ids < live_ids begin.files)) }
        ensures not_bad { IfErr result (λ refused. refused.1 ≡ ReopenFault.BadLife → ⊥) }
        ensures too_large { IfErr result (λ refused. IfLarge refused.1 (IsTooLarge only (option_map (mended life.entry.now.files.items) (F.files folder)))) }
        ensures failed { IfErr result (λ refused. refused.1 ≡ ReopenFault.FolderFault → Rose (F.faults folder) (F.faults refused.0)) }
        ensures handed { IfErr result (λ refused. OpensDoubt life.entry.now.files.items (F.files folder) (F.files refused.0)) }
        ensures handed_log { IfErr result (λ refused. (F.notes refused.0).log ≡ (F.notes folder).log) }
        ensures counts { IfErr result (λ refused. F.faults folder ≤ F.faults refused.0) }
    {
        let mut folder = folder;
        let before = Snapshot::of(&folder);
        let going = match take_up(alloc, &mut folder, only, life, index) {
            Ok(going) => going,
            Err(fault) => return Err((folder, fault)),
        };
        if !are_enough(&going.told, ids as usize) {
            return Err((folder, ReopenFault::TooManyIds));
        }
        let locks = match hold(alloc, &going.told, ids as usize, life.now) {
            Ok(locks) => locks,
            Err(_) => return Err((folder, ReopenFault::Memory)),
        };
        match begin_on(alloc, &mut folder, &going, life) {
            Err(fault) => return Err((folder, fault)),
            Ok(()) => {
                let shard = Shard::assemble_on(
                    alloc, folder, only, before, going, locks, ids, life,
                );
                return Ok(shard);
            }
        }
    }

    /// The shard over a store that goes on, with the files and the locks that were taken up from the folder as it was before.
    fn assemble_on(
        alloc: Global,
        folder: F,
        only: Option<u8>,
        before: Snapshot<F>,
        going: Going,
        locks: KeptLocks,
        ids: u32,
        life: &Life,
    ) -> Shard<F>
        requires good { IsGoodLife only life.now }
        requires ids { ids ≤ 32768 }
        requires going { TakesUp only (F.files before.value) (F.times before.value) life.now going }
        requires held { AreHeld going.told.items life.now.now ids locks }
        requires enough { ids_told going.told.items ≤ ids }
        requires mends { Mends life.now.files.items (F.files before.value) (F.files folder) }
        requires begin { (F.notes folder).begin ≡ begin_listed life.now.opened life.now.first life.now.now life.now.last going.stock.files.items going.told.items }
        requires made { (F.notes folder).made ≡ [] }
        requires ended { (F.notes folder).begun ≡ None }
        requires most { (F.notes folder).most ≡ None }
        ensures value { result ≡ record {
          only = only;
          begin = result.begin;
          limits = record { calls = None; ids = ids };
          dates = result.dates;
          made = [];
          time = life.entry.now.now;
          ticked = false;
          start = folder;
          folder = folder;
        } }
        ensures reopened { IsReopened only (F.files before.value) (F.times before.value) life.entry.now result.begin result.dates }
        ensures enough { live_ids result.begin.files ≤ ids }
        ensures lawful { IsLawful result (F.files result.start) (F.files result.folder) (F.faults result.start) (F.faults result.folder) }
    {
        let ticked = Snapshot::of(&false);
        let opening = Snapshot::of(&going.stock.files);
        let start = Snapshot::of(&folder);
        Shard {
            ledger: Ledger {
                alloc,
                opened: life.opened,
                first: life.first,
                calls: None,
                ids,
                time: life.now,
                last: life.last,
                bytes: going.stock.bytes,
                rack: Rack {
                    files: going.stock.files,
                    index: going.stock.index,
                    locks,
                },
                opening,
            },
            folder,
            ticked,
            only: Snapshot::of(&only),
            start,
        }
    }
}
