//! A log to which a beginning and then the lines of entries are appended.
ghost use Rattle.std.specs.Prelude.{◌≡◌, ◌≤◌, ◌++◌, ◌∷◌, [], true, false, is_some, None, Some, OnErr, OnOk, option_map};
ghost use Rattle.outside.specs.Faults.{Rose};
ghost use Rattle.host_core.specs.Entries.{accepted_contents, ruled, ruled_as};
ghost use Rattle.host_core.specs.Notes.{accepted};
ghost use Rattle.host_log.specs.Begins.{begin_in};
ghost use Rattle.host_log.specs.Rows.{begin_text, is_synced, off_line};
ghost use Rattle.host_log.specs.Lines.{AreLines, GoesOn, IsOf, IsUntouched};

use crate::begun::Begun;
use crate::head::Head;
use crate::note::Note;
use crate::start::Start;
use crate::writing::{keep_start, write_entry};
use host_core::Ruling;
use host_table::WriteRoom;
use outside::{Failed, Log, append};
use std::marker::Model;
use std::mem;
use std::snapshot::Snapshot;
use story::Story;
use wopi_text::LockField;

/// A log, room to gather a line in, and what was told to it. A beginning stands first, if anything does but entries. The line of a call as accepted may stand ahead of its entry: then
/// it is settled or taken back. Once a call of the log failed it's lost, and nothing more is appended.
#[derive(Drop)]
pub struct Lines<L: Log> {
    log: L,
    syncs_all: bool,
    room: WriteRoom,
    start: Snapshot<L>,
    untouched: bool,
    head: Option<Head>,
    told: Story<Note>,
    standing: Option<Note>,
    lost: bool,
    doubt: Option<Note>,
}

impl<L: Log> Model for Lines<L> {
    ghost use Rattle.host_log.specs.Lines.{LinesView, AreLines};

    ghost Value = { LinesView };

    ghost use Rattle.host_log.specs.Lines.{lines_view};

    ghost view = { λ l. lines_view L.held L.synced L.write_faults l };

    ghost invariant = { λ l. AreLines (lines_view L.held L.synced L.write_faults l) };
}

/// The ruling of a call that the store took part in and that was accepted.
fn accepted(version: Option<u64>) -> Ruling
    ensures { result ≡ accepted version }
{
    Ruling {
        status: 200,
        lock: LockField::Absent,
        reason: None,
        version,
        size: 0,
        contents: None,
    }
}

/// Whether the entry is synced before it's told, in a log that syncs all changes, or those of the folder alone.
fn is_synced(all: bool, begun: &Begun, ruling: &Ruling) -> bool
    ensures { result ≡ is_synced all (ruled ruling.now begun.now) }
{
    if ruling.status != 200 {
        return false;
    }
    if all {
        return !begun.only_looks();
    }
    begun.is_stored()
}

/// Notes an entry behind the others, and whether it may be told.
pub(crate) fn keep_note(told: &mut Story<Note>, begun: &Begun, ruling: &Ruling, is_told: bool)
    ensures { told.new ≡ told.old ++ ruled_as is_told ruling.now begun.now ∷ [] }
{
    let one = Note::of(begun, ruling, is_told);
    told.tell(&one);
}

/// The line that takes the one before it back.
#[tactic(auto, unfolding(crate::specs::Rows::off_line))]
fn off_line() -> &'static [u8]
    ensures { result.now ≡ off_line }
{
    b"off\n"
}

impl<L: Log> Lines<L> {
    /// Over a log all of which is synced, with nothing told to it yet. It syncs each entry that changes something, or those alone
    /// that change the folder.
    pub fn new(log: L, room: WriteRoom, syncs_all: bool) -> Lines<L>
        requires { L.synced log ≡ L.held log }
        ensures { result ≡ record {
          all = syncs_all;
          start = L.held log;
          held = L.held log;
          synced = L.synced log;
          untouched = true;
          head = [];
          told = [];
          standing = None;
          lost = false;
          doubt = None;
          began = L.write_faults log;
          faults = L.write_faults log;
        } }
    {
        let start = Snapshot::of(&log);
        Lines {
            log,
            syncs_all,
            room,
            start,
            untouched: true,
            head: None,
            told: Story::new(),
            standing: None,
            lost: false,
            doubt: None,
        }
    }

    /// The log, to which the beginning and the lines of the entries that were told were appended.
    pub fn into_log(self) -> L
        ensures told { AreLines self }
        ensures held { L.held result ≡ self.held }
        ensures synced { L.synced result ≡ self.synced }
        ensures faults { L.write_faults result ≡ self.faults }
    {
        let Lines {
            log,
            syncs_all: _syncs_all,
            room: _room,
            start: _start,
            untouched: _untouched,
            head: _head,
            told: _told,
            standing: _standing,
            lost: _lost,
            doubt: _doubt,
        } = self;
        log
    }

    /// Whether a call of the log failed.
    pub fn is_lost(&self) -> bool
        ensures value { result ≡ self.now.lost }
        ensures free { result ≡ true → self.now.standing ≡ None }
    {
        self.lost
    }

    /// Whether nothing was appended yet.
    pub fn is_untouched(&self) -> bool
        ensures value { result ≡ self.now.untouched }
        ensures fresh { result ≡ true → IsUntouched self.now }
    {
        self.untouched
    }

    /// Whether a line stands that may yet be taken back.
    pub fn has_standing(&self) -> bool
        ensures value { result ≡ is_some self.now.standing }
        ensures none { result ≡ false → self.now.standing ≡ None }
    {
        match &self.standing {
            None => return false,
            Some(_) => return true,
        }
    }

    /// Appends the beginning of a segment of that shard, and syncs it.
    pub fn begin_with(&mut self, shard: u8, start: &Start<'_>) -> Result<(), Failed>
        requires { self.old.untouched ≡ true }
        ensures head { OnOk result (self.new.head ≡ begin_text shard (begin_in start.now)) }
        ensures fine { OnOk result (self.new.lost ≡ false) }
        ensures none { OnErr result (self.new.head ≡ []) }
        ensures lost { OnErr result (self.new.lost ≡ true) }
        ensures failed { OnErr result (Rose self.old.faults self.new.faults) }
        ensures told { self.new.told ≡ [] }
        ensures free { self.new.standing ≡ None }
        ensures doubt { self.new.doubt ≡ None }
        ensures all { self.new.all ≡ self.old.all }
        ensures start { self.new.start ≡ self.old.start }
        ensures began { self.new.began ≡ self.old.began }
        ensures never_falls { self.old.faults ≤ self.new.faults }
    {
        self.untouched = false;
        match keep_start(&mut self.log, &mut self.room, shard, start) {
            Ok(()) => {
                self.head = Some(Head::of(shard, start));
                return Ok(());
            }
            Err(Failed) => {
                self.lost = true;
                return Err(Failed);
            }
        }
    }

    /// Appends the line of an entry, and syncs it where it changed what is synced.
    fn add(&mut self, begun: &Begun, ruling: &Ruling, is_told: bool)
        requires fine { self.old.lost ≡ false }
        requires free { self.old.standing ≡ None }
        requires bare { accepted_contents (ruled ruling.now begun.now) ≡ None }
        ensures told { self.new.lost ≡ false → self.new.told ≡ self.old.told ++ ruled_as is_told ruling.now begun.now ∷ [] }
        ensures lost { self.new.lost ≡ true → self.new.told ≡ self.old.told }
        ensures doubt { self.new.lost ≡ true → self.new.doubt ≡ Some (ruled ruling.now begun.now) }
        ensures free { self.new.standing ≡ None }
        ensures goes_on { GoesOn self.old self.new }
    {
        self.untouched = false;
        match write_entry(&mut self.log, &mut self.room, begun, ruling, None) {
            Ok(()) => {}
            Err(Failed) => {
                self.doubt = Some(Note::of(begun, ruling, true));
                self.lost = true;
                return;
            }
        }
        if !is_synced(self.syncs_all, begun, ruling) {
            keep_note(&mut self.told, begun, ruling, is_told);
            return;
        }
        match self.log.sync() {
            Ok(()) => {
                keep_note(&mut self.told, begun, ruling, is_told);
                return;
            }
            Err(Failed) => {
                self.doubt = Some(Note::of(begun, ruling, true));
                self.lost = true;
                return;
            }
        }
    }

    /// Appends the line of a call as accepted, with the contents that it brings, and syncs it.
    pub fn stand(
        &mut self,
        begun: &Begun,
        version: Option<u64>,
        contents: Option<&[u8]>,
    ) -> Result<(), Failed>
        requires fine { self.old.lost ≡ false }
        requires free { self.old.standing ≡ None }
        requires contents { option_map (λ contents. contents.now) contents ≡ accepted_contents (ruled (accepted version) begun.now) }
        ensures standing { OnOk result (self.new.standing ≡ Some (ruled (accepted version) begun.now)) }
        ensures fine { OnOk result (self.new.lost ≡ false) }
        ensures lost { OnErr result (self.new.lost ≡ true) }
        ensures doubt { OnErr result (self.new.doubt ≡ Some (ruled (accepted version) begun.now)) }
        ensures free { OnErr result (self.new.standing ≡ None) }
        ensures failed { OnErr result (Rose self.old.faults self.new.faults) }
        ensures told { self.new.told ≡ self.old.told }
        ensures goes_on { GoesOn self.old self.new }
    {
        let ruling = accepted(version);
        self.untouched = false;
        match write_entry(&mut self.log, &mut self.room, begun, &ruling, contents) {
            Ok(()) => {}
            Err(Failed) => {
                self.doubt = Some(Note::of(begun, &ruling, true));
                self.lost = true;
                return Err(Failed);
            }
        }
        match self.log.sync() {
            Ok(()) => {}
            Err(Failed) => {
                self.doubt = Some(Note::of(begun, &ruling, true));
                self.lost = true;
                return Err(Failed);
            }
        }
        self.standing = Some(Note::of(begun, &ruling, true));
        Ok(())
    }

    /// Takes the line back that stands.
    pub fn take_back(&mut self)
        requires fine { self.old.lost ≡ false }
        requires standing { is_some self.old.standing ≡ true }
        ensures free { self.new.standing ≡ None }
        ensures doubt { self.new.lost ≡ true → self.new.doubt ≡ self.old.standing }
        ensures told { self.new.told ≡ self.old.told }
        ensures goes_on { GoesOn self.old self.new }
    {
        let standing = mem::replace(&mut self.standing, None);
        match append(&mut self.log, off_line()) {
            Ok(()) => {}
            Err(Failed) => {
                self.doubt = standing;
                self.lost = true;
                return;
            }
        }
        match self.log.sync() {
            Ok(()) => return,
            Err(Failed) => {
                self.doubt = standing;
                self.lost = true;
                return;
            }
        }
    }

    /// The line that stands is this entry's.
    fn settle(&mut self, begun: &Begun, ruling: &Ruling, is_told: bool)
        requires fine { self.old.lost ≡ false }
        requires standing { self.old.standing ≡ Some (ruled ruling.now begun.now) }
        ensures told { self.new.told ≡ self.old.told ++ ruled_as is_told ruling.now begun.now ∷ [] }
        ensures free { self.new.standing ≡ None }
        ensures fine { self.new.lost ≡ false }
        ensures goes_on { GoesOn self.old self.new }
    {
        keep_note(&mut self.told, begun, ruling, is_told);
        self.standing = None;
    }

    /// Tells an entry, unless the log is lost at it, and notes whether it may be told. A line that stands is that of the entry,
    /// if it was accepted.
    #[tactic(auto, using(crate::proofs::Noting::none_accepted))]
    pub fn tell(&mut self, begun: &Begun, ruling: &Ruling, is_told: bool)
        requires fine { self.old.lost ≡ false }
        requires standing { is_some self.old.standing ≡ true → ruling.now.status ≡ 200 → self.old.standing ≡ Some (ruled ruling.now begun.now) }
        requires own { is_some self.old.standing ≡ true → IsOf begun.now self.old.standing }
        requires bare { self.old.standing ≡ None → accepted_contents (ruled ruling.now begun.now) ≡ None }
        ensures told { self.new.lost ≡ false → self.new.told ≡ self.old.told ++ ruled_as is_told ruling.now begun.now ∷ [] }
        ensures lost { self.new.lost ≡ true → self.new.told ≡ self.old.told }
        ensures doubt { self.new.lost ≡ true → IsOf begun.now self.new.doubt }
        ensures settled { is_some self.old.standing ≡ true → ruling.now.status ≡ 200 → self.new.lost ≡ false }
        ensures free { self.new.standing ≡ None }
        ensures goes_on { GoesOn self.old self.new }
    {
        if !self.has_standing() {
            self.add(begun, ruling, is_told);
            return;
        }
        if ruling.status == 200 {
            self.settle(begun, ruling, is_told);
            return;
        }
        self.take_back();
        if self.is_lost() {
            return;
        }
        self.add(begun, ruling, is_told);
    }
}
