//! A folder beside a log of what a shard began with and of its entries.
ghost use Rattle.std.specs.Prelude.{◌≡◌, ◌≤◌, ◌+◌, ◌&&◌, [], ◌∷◌, ◌++◌, not, true, false, is_some, None, Some, IfErr, IfOk, IsErrOf, OnErr, OnOk, option_map};
ghost use Rattle.outside.specs.Faults.{Rose};
ghost use Rattle.outside.specs.Folder.{Keeps};
ghost use Rattle.outside.specs.Log.{IsCutAt, IsFront};
ghost use Rattle.host_core.specs.Entries.{accepted_contents, ruled, ruled_as};
ghost use Rattle.host_core.specs.Notes.{accepted};
ghost use Rattle.host_log.specs.Begins.{begin_in};
ghost use Rattle.host_log.specs.Lines.{GoesOn, IsOf};
ghost use Rattle.host_log.specs.Logs.{HasEnded, IsAnew};

use crate::begun::Begun;
use crate::lines::{Lines, keep_note};
use crate::note::Note;
use crate::origin::Origin;
use crate::start::Start;
use host_core::{Beginning, Contents, KeptFile, Lasting, Ruling, Store, ToldLocks};
use host_table::WriteRoom;
use outside::{Failed, Folder, FolderRead, Log, Names, OutFault};
use std::alloc::Global;
use std::marker::Model;
use std::mem;
use std::snapshot::Snapshot;
use story::Story;
use wopi_text::Bytes;

/// Contents that the folder took, and the version that is told of them. They lie with their file alone.
#[derive(Drop)]
pub struct Saved {
    pub version: u64,
    pub contents: Snapshot<Bytes>,
}

/// How many entries a log takes: 2^62, of which a machine that makes a million in a second has made half in 73,000 years.
const MOST_ENTRIES: u64 = 4_611_686_018_427_387_904;

/// The folder and the log of the shard of a number, and the call that was begun. Neither what the shard began with nor an
/// entry is kept. Versions begin at 1, so `first` is 0 until a shard began.
#[derive(Drop)]
pub struct Logged<F: Folder, L: Log> {
    shard: u8,
    folder: F,
    lines: Lines<L>,
    origin: Origin,
    missing: Story<Note>,
    count: u64,
    begun: Option<Begun>,
    saved: Option<Saved>,
    refused: u64,
    spent: bool,
}

impl<F: Folder, L: Log> Model for Logged<F, L> {
    ghost use Rattle.host_log.specs.Logs.{LogView};

    ghost Value = { LogView F };

    ghost use Rattle.host_log.specs.Logs.{view_of, IsLogged};

    ghost view = { view_of };

    ghost invariant = { IsLogged };
}

/// The line of the call that was begun stands as accepted, or the log is lost. A line that stood is taken back first.
#[tactic(auto, using(crate::proofs::Standing::goes_both))]
fn stand_ahead<L: Log>(
    lines: &mut Lines<L>,
    begun: &Begun,
    version: Option<u64>,
    contents: Option<&[u8]>,
) -> Result<(), Failed>
    requires own { is_some lines.old.standing ≡ true → IsOf begun.now lines.old.standing }
    requires contents { option_map (λ contents. contents.now) contents ≡ accepted_contents (ruled (accepted version) begun.now) }
    ensures standing { OnOk result (lines.new.standing ≡ Some (ruled (accepted version) begun.now)) }
    ensures fine { OnOk result (lines.new.lost ≡ false) }
    ensures lost { OnErr result (lines.new.lost ≡ true) }
    ensures doubt { lines.old.lost ≡ false → OnErr result (IsOf begun.now lines.new.doubt) }
    ensures still { lines.old.lost ≡ true → lines.new.doubt ≡ lines.old.doubt }
    ensures free { OnErr result (lines.new.standing ≡ None) }
    ensures told { lines.new.told ≡ lines.old.told }
    ensures goes_on { GoesOn lines.old lines.new }
{
    if lines.is_lost() {
        return Err(Failed);
    }
    if !lines.has_standing() {
        return lines.stand(begun, version, contents);
    }
    lines.take_back();
    if lines.is_lost() {
        return Err(Failed);
    }
    lines.stand(begun, version, contents)
}

/// A line that stands is taken back.
fn give_back<L: Log>(lines: &mut Lines<L>)
    ensures free { lines.new.standing ≡ None }
    ensures doubt { lines.old.lost ≡ false → lines.new.lost ≡ true → lines.new.doubt ≡ lines.old.standing }
    ensures still { lines.old.lost ≡ true → lines.new.doubt ≡ lines.old.doubt }
    ensures told { lines.new.told ≡ lines.old.told }
    ensures goes_on { GoesOn lines.old lines.new }
{
    if lines.is_lost() || !lines.has_standing() {
        return;
    }
    lines.take_back();
}

/// Tells an entry, and notes whether it may be told, or notes it as missing where the log is lost.
#[tactic(auto, using(crate::proofs::Noting::told_more, crate::proofs::Noting::missing_more))]
fn conclude<L: Log>(
    lines: &mut Lines<L>,
    missing: &mut Story<Note>,
    begun: &Begun,
    ruling: &Ruling,
    is_told: bool,
)
    requires present { lines.old.lost ≡ false → missing.old ≡ [] }
    requires standing { is_some lines.old.standing ≡ true → ruling.now.status ≡ 200 → lines.old.standing ≡ Some (ruled ruling.now begun.now) }
    requires own { is_some lines.old.standing ≡ true → IsOf begun.now lines.old.standing }
    requires bare { lines.old.lost ≡ false → lines.old.standing ≡ None → accepted_contents (ruled ruling.now begun.now) ≡ None }
    ensures made { lines.new.told ++ missing.new ≡ (lines.old.told ++ missing.old) ++ ruled_as (not lines.new.lost && is_told) ruling.now begun.now ∷ [] }
    ensures told { lines.new.lost ≡ false → lines.new.told ≡ lines.old.told ++ ruled_as is_told ruling.now begun.now ∷ [] }
    ensures stays { lines.new.lost ≡ true → lines.new.told ≡ lines.old.told }
    ensures present { lines.new.lost ≡ false → missing.new ≡ [] }
    ensures late { lines.new.lost ≡ true → missing.new ≡ missing.old ++ ruled_as false ruling.now begun.now ∷ [] }
    ensures doubt { lines.old.lost ≡ false → lines.new.lost ≡ true → IsOf begun.now lines.new.doubt }
    ensures still { lines.old.lost ≡ true → lines.new.doubt ≡ lines.old.doubt }
    ensures settled { lines.old.lost ≡ false → is_some lines.old.standing ≡ true → ruling.now.status ≡ 200 → lines.new.lost ≡ false }
    ensures free { lines.new.standing ≡ None }
    ensures goes_on { GoesOn lines.old lines.new }
{
    if lines.is_lost() {
        keep_note(missing, begun, ruling, false);
        return;
    }
    lines.tell(begun, ruling, is_told);
    if !lines.is_lost() {
        return;
    }
    keep_note(missing, begun, ruling, false);
}

impl<F: Folder, L: Log> Logged<F, L> {
    /// Of the shard of that number, over a folder, and a log all of which is synced. The room is what lines are gathered in. With
    /// `syncs_all` the log is synced at each entry that changes something, and else at those that change the folder alone.
    pub fn new(
        alloc: Global,
        shard: u8,
        folder: F,
        log: L,
        room: WriteRoom,
        syncs_all: bool,
    ) -> Logged<F, L>
        requires { L.synced log ≡ L.held log }
        ensures anew { IsAnew shard folder result }
        ensures all { result.lines.all ≡ syncs_all }
        ensures start { result.lines.start ≡ L.held log }
        ensures began { result.lines.began ≡ L.write_faults log }
    {
        Logged {
            shard,
            folder,
            lines: Lines::new(log, room, syncs_all),
            origin: Origin::none(alloc),
            missing: Story::new(),
            count: 0,
            begun: None,
            saved: None,
            refused: 0,
            spent: false,
        }
    }

    /// Of the shard of that number, over a folder, and a log of which so many bytes are kept: what stands behind them is cut,
    /// and they are synced. Where there are fewer, or the log fails, both are handed back.
    pub fn resume(
        alloc: Global,
        shard: u8,
        folder: F,
        log: L,
        count: u64,
        room: WriteRoom,
        syncs_all: bool,
    ) -> Result<Logged<F, L>, (F, L)>
        ensures anew { IfOk result (λ logged. IsAnew shard folder logged) }
        ensures all { IfOk result (λ logged. logged.lines.all ≡ syncs_all) }
        ensures start { IfOk result (λ logged. IsCutAt count (L.held log) logged.lines.start) }
        ensures began { IfOk result (λ logged. L.write_faults log ≤ logged.lines.began) }
        ensures handed { IfErr result (λ handed. handed.0 ≡ folder) }
        ensures front { IfErr result (λ handed. IsFront (L.held handed.1) (L.held log)) }
        ensures failed { IfErr result (λ handed. Rose (L.write_faults log) (L.write_faults handed.1)) }
    {
        let mut log = log;
        match log.resume(count) {
            Ok(()) => return Ok(Logged::new(alloc, shard, folder, log, room, syncs_all)),
            Err(Failed) => return Err((folder, log)),
        }
    }

    /// A shard begins, where nothing was appended yet and none began before: the beginning of its segment is appended and
    /// synced.
    fn start(&mut self, start: &Start<'_>) -> Result<(), OutFault>
        ensures begin { OnOk result (self.new.notes.begin ≡ begin_in start.now) }
        ensures made { OnOk result (self.new.notes.made ≡ []) }
        ensures begun { OnOk result (self.new.notes.begun ≡ None) }
        ensures most { OnOk result (self.new.notes.most ≡ None) }
        ensures going { OnOk result (self.new.lost ≡ false) }
        ensures log { self.new.notes.log ≡ self.old.notes.log }
        ensures files { Keeps (F.files self.old.folder) (F.files self.new.folder) }
        ensures times { Keeps (F.times self.old.folder) (F.times self.new.folder) }
        ensures never_falls { F.faults self.old.folder + self.old.refused ≤ F.faults self.new.folder + self.new.refused }
        ensures failed { IsErrOf result OutFault.Failed → Rose (F.faults self.old.folder + self.old.refused) (F.faults self.new.folder + self.new.refused) }
    {
        if start.first == 0 || self.begun.is_some() || !self.lines.is_untouched() {
            return Err(OutFault::Memory);
        }
        match self.lines.begin_with(self.shard, start) {
            Ok(()) => {}
            Err(Failed) => {
                self.refused = self.refused.saturating_add(1);
                return Err(OutFault::Failed);
            }
        }
        self.origin = Origin::of(start);
        Ok(())
    }

    /// Whether each entry stands in the log: no call of it failed.
    pub fn is_whole(&self) -> bool
        ensures lost { result ≡ not self.now.lines.lost }
        ensures told { result ≡ true → self.now.notes.made ≡ self.now.lines.told }
    {
        !self.lines.is_lost()
    }

    /// The folder, and the log. What was appended is what the shard began with, then the lines of the entries that were told, and behind
    /// these nothing, or, once it was lost, a front of one line more. The entries that may be told are the first of those.
    pub fn end(self) -> (F, L)
        ensures { HasEnded self result.0 (L.held result.1) (L.synced result.1) (L.write_faults result.1) }
    {
        let Logged {
            shard: _shard,
            folder,
            lines,
            origin: _origin,
            missing: _missing,
            count: _count,
            begun: _begun,
            saved: _saved,
            refused: _refused,
            spent: _spent,
        } = self;
        (folder, lines.into_log())
    }
}

impl<F: Folder, L: Log> Store for Logged<F, L> {
    ghost use Rattle.std.specs.Prelude.{◌⊎◌, Err};
    ghost use Rattle.outside.specs.Folder.{OpensOnly, Removes, Replaces};
    ghost use Rattle.host_core.specs.Notes.{IsBegunToRemove, IsBegunWith, StaysNoted};
    ghost use Rattle.std.proofs.Common.{refl};

    ghost files = { λ logged. F.files logged.folder };

    ghost times = { λ logged. F.times logged.folder };

    ghost faults = { λ logged. F.faults logged.folder + logged.refused };

    ghost notes = { λ logged. logged.notes };

    ghost lost = { λ logged. logged.lost };

    ghost endless = { true };

    ghost loses = { true };

    ghost loses_is = { λ logged lost. refl };

    fn list(&mut self) -> Result<Names, OutFault> {
        self.folder.list()
    }

    fn read(&mut self, name: &str, most: usize) -> Result<FolderRead, OutFault> {
        self.folder.read(name, most)
    }

    fn time(&mut self, name: &str) -> Result<Option<u64>, OutFault> {
        self.folder.time(name)
    }

    fn open(
        &mut self,
        _alloc: Global,
        opening: &Vec<KeptFile>,
        opened: u64,
        first: u64,
        _calls: Option<u32>,
    ) -> Result<(), OutFault> {
        self.start(&Start {
            opened,
            first,
            time: opened,
            last: 0,
            files: opening,
            locks: None,
        })
    }

    fn begin(&mut self, beginning: &Beginning<'_>) {
        self.begun = Some(Begun::of(beginning));
        self.saved = None;
    }

    fn save(
        &mut self,
        alloc: Global,
        version: u64,
        name: &str,
        contents: &mut Bytes,
        _former: Option<&Contents>,
    ) -> Result<Contents, OutFault>
        requires begun { IsBegunWith self.old.notes name.now contents.old }
        ensures live { IfOk result (λ live. live ≡ contents.old) }
        ensures back { OnErr result (contents.new ≡ contents.old) }
        ensures replaced { OnOk result (Replaces (F.files self.old.folder) (F.files self.new.folder) name.now contents.old) }
        ensures torn { OpensOnly (F.files self.old.folder) (F.files self.new.folder) name.now }
        ensures memory { result ≡ Err OutFault.Memory → Keeps (F.files self.old.folder) (F.files self.new.folder) }
        ensures never_falls { F.faults self.old.folder + self.old.refused ≤ F.faults self.new.folder + self.new.refused }
        ensures failed { IsErrOf result OutFault.Failed → Rose (F.faults self.old.folder + self.old.refused) (F.faults self.new.folder + self.new.refused) }
        ensures saved { OnOk result (self.new.notes.saved ≡ Some (Some version, contents.old)) }
        ensures unsaved { OnErr result (self.new.notes.saved ≡ self.old.notes.saved) }
        ensures noted { StaysNoted self.old.notes self.new.notes }

        // The line stands, and is synced, before the folder is asked.
        ensures ahead { OnOk result (is_some self.new.lines.standing ≡ true) }
        ensures behind { OnErr result (Rose (F.faults self.old.folder) (F.faults self.new.folder) ⊎ Keeps (F.files self.old.folder) (F.files self.new.folder)) }
    {
        let Some(begun) = &self.begun else {
            unreachable!()
        };
        match stand_ahead(
            &mut self.lines,
            begun,
            Some(version),
            Some(contents.as_slice()),
        ) {
            Ok(()) => {}
            Err(Failed) => {
                self.refused = self.refused.saturating_add(1);
                return Err(OutFault::Failed);
            }
        }
        match self.folder.replace(name, contents.as_slice()) {
            Ok(()) => {
                self.saved = Some(Saved {
                    version,
                    contents: Snapshot::of(contents),
                });
                let bytes = mem::replace(contents, Bytes::from_vec(Vec::new(alloc)));
                return Ok(Contents::own(bytes));
            }
            Err(fault) => {
                self.lines.take_back();
                return Err(fault);
            }
        }
    }

    fn clear(&mut self, name: &str) -> Result<(), Failed>
        requires begun { IsBegunToRemove self.old.notes name.now }
        ensures removed { OnOk result (Removes (F.files self.old.folder) (F.files self.new.folder) name.now) }
        ensures torn { OpensOnly (F.files self.old.folder) (F.files self.new.folder) name.now }
        ensures never_falls { F.faults self.old.folder + self.old.refused ≤ F.faults self.new.folder + self.new.refused }
        ensures failed { OnErr result (Rose (F.faults self.old.folder + self.old.refused) (F.faults self.new.folder + self.new.refused)) }
        ensures notes { self.new.notes ≡ self.old.notes }

        // So it does here.
        ensures ahead { OnOk result (is_some self.new.lines.standing ≡ true) }
        ensures behind { OnErr result (Rose (F.faults self.old.folder) (F.faults self.new.folder) ⊎ Keeps (F.files self.old.folder) (F.files self.new.folder)) }
    {
        let Some(begun) = &self.begun else {
            unreachable!()
        };
        match stand_ahead(&mut self.lines, begun, None, None) {
            Ok(()) => {}
            Err(Failed) => {
                self.refused = self.refused.saturating_add(1);
                return Err(Failed);
            }
        }
        match self.folder.remove(name) {
            Ok(()) => return Ok(()),
            Err(Failed) => {
                self.lines.take_back();
                return Err(Failed);
            }
        }
    }

    fn end(&mut self, ruling: &Ruling) {
        let Some(begun) = mem::replace(&mut self.begun, None) else {
            unreachable!()
        };
        self.saved = None;
        self.count += 1;
        self.spent = self.count == MOST_ENTRIES;
        conclude(
            &mut self.lines,
            &mut self.missing,
            &begun,
            ruling,
            !self.spent,
        );
    }

    fn give_up(&mut self) {
        give_back(&mut self.lines);
        self.begun = None;
        self.saved = None;
    }

    fn count(&self) -> u64 {
        self.count
    }

    fn is_lost(&self) -> bool {
        self.lines.is_lost() || self.spent
    }
}

impl<F: Folder, L: Log> Lasting for Logged<F, L> {
    fn restore(&mut self, name: &str, contents: &[u8]) -> Result<(), OutFault> {
        self.folder.replace(name, contents)
    }

    fn withdraw(&mut self, name: &str) -> Result<(), Failed> {
        self.folder.remove(name)
    }

    fn go_on(
        &mut self,
        _alloc: Global,
        files: &Vec<KeptFile>,
        locks: &Vec<ToldLocks>,
        opened: u64,
        first: u64,
        now: u64,
        last: u64,
    ) -> Result<(), OutFault> {
        self.start(&Start {
            opened,
            first,
            time: now,
            last,
            files,
            locks: Some(locks),
        })
    }
}
