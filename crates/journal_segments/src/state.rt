//! What was told so far.
ghost use Rattle.std.specs.Prelude.{◌≡◌, ◌↔◌, IsTrue, IfOk, option_map};
ghost use Rattle.wopi_model.specs.Moment.{IsMoment};
ghost use Rattle.journal_segments.specs.Reading.{IsTimed};
ghost use Rattle.journal_segments.specs.Rows.{IsForm, IsHead, MayBegin, MayCome, MayEnter, MayHold, MaySpend, MayStand, MayTakeBack, held_place, last_entry, last_with, now_with, pending_held, pending_spent, shard_at, start, step, told_at, told_with};

use crate::file::ToldFile;
use crate::rows::{Head, Row};
use crate::told::ToldShard;
use journal_text::Line;
use std::alloc::Global;
use wopi_model::{Lock, Spent};
use wopi_text::{FileName, Memory};

/// What the last line told, to which the next may add, or which it may take back.
#[derive(Drop)]
pub enum Pending {
    Start,
    File(FileName, ToldFile),
    Entry(Line),
    Done,
}

/// What was told up to the last line, and what that told.
#[derive(Drop)]
pub struct State {
    pub(crate) shard: u8,
    pub(crate) told: ToldShard,
    pub(crate) pending: Pending,
}

/// Whether a file may come next.
fn may_begin(told: &ToldShard, pending: &Pending, name: &FileName) -> bool
    ensures { IsTrue result ↔ MayBegin told.entry.now pending.now name.now }
{
    match pending {
        Pending::Start => return told.is_new(name),
        Pending::File(last, _) => return *last != *name && told.is_new(name),
        Pending::Entry(_) => return false,
        Pending::Done => return false,
    }
}

/// Whether the lock of a file may come next.
fn may_hold(pending: &Pending, name: &FileName) -> bool
    ensures { IsTrue result ↔ MayHold pending.now name.now }
{
    match pending {
        Pending::File(own, file) => return *own == *name && file.is_bare(),
        _ => return false,
    }
}

/// Whether a spent id of a file may come next.
fn may_spend(pending: &Pending, name: &FileName) -> bool
    ensures { IsTrue result ↔ MaySpend pending.now name.now }
{
    match pending {
        Pending::File(own, _) => return *own == *name,
        _ => return false,
    }
}

/// Whether there is an entry to be taken back.
fn may_take_back(pending: &Pending) -> bool
    ensures { IsTrue result ↔ MayTakeBack pending.now }
{
    match pending {
        Pending::Entry(_) => return true,
        _ => return false,
    }
}

/// Whether what stands under a name may be told next.
fn may_stand(pending: &Pending, name: &FileName) -> bool
    ensures { IsTrue result ↔ MayStand pending.now name.now }
{
    match pending {
        Pending::Entry(line) => return line.name == *name && line.status == 500,
        _ => return false,
    }
}

/// Whether an entry may come next, of a shard at that time and with that last stamp.
fn may_enter(shard: u8, now: u64, last: u64, line: &Line) -> bool
    ensures { IsTrue result ↔ MayEnter shard now last line.entry.now }
{
    if line.shard != shard {
        return false;
    }
    if line.name.shard() != shard {
        return false;
    }
    if line.now < now {
        return false;
    }
    if line.now < line.moment {
        return false;
    }
    last < line.stamp
}

/// The shard's time.
fn now_with(told: &ToldShard, pending: &Pending) -> u64
    ensures { result ≡ now_with told.entry.now pending.now }
{
    match pending {
        Pending::Entry(line) => return line.now,
        _ => return told.now(),
    }
}

/// The last stamp.
fn last_with(told: &ToldShard, pending: &Pending) -> u64
    ensures { result ≡ last_with told.entry.now pending.now }
{
    match pending {
        Pending::Entry(line) => return line.stamp,
        _ => return told.last(),
    }
}

/// Adds what a line told to what was told before it.
pub(crate) fn add(alloc: Global, told: ToldShard, pending: Pending) -> Result<ToldShard, Memory>
    requires { IsMoment (now_with told pending) }
    ensures { IfOk result (λ next. next ≡ told_with told pending) }
{
    match pending {
        Pending::Start => return Ok(told),
        Pending::File(name, file) => return told.add(name, file),
        Pending::Entry(line) => return told.tell(alloc, line),
        Pending::Done => return Ok(told),
    }
}

/// Gives the file of the last line a lock.
fn hold(pending: Pending, lock: Lock) -> Pending
    requires { IsMoment lock.since }
    ensures { result ≡ pending_held pending lock }
{
    match pending {
        Pending::File(name, mut file) => {
            file.hold(lock);
            return Pending::File(name, file);
        }
        other => return other,
    }
}

/// Adds a spent id to the file of the last line.
fn spend(pending: Pending, one: Spent) -> Result<Pending, Memory>
    ensures { IfOk result (λ next. next ≡ pending_spent pending one) }
{
    match pending {
        Pending::File(name, mut file) => {
            file.spend(one)?;
            return Ok(Pending::File(name, file));
        }
        other => return Ok(other),
    }
}

impl State {
    /// Behind the first line.
    pub fn new(alloc: Global, head: &Head) -> State
        requires { IsHead head.now }
        ensures state { result ≡ start head.entry.now }
        ensures timed { IsTimed result }
    {
        State {
            shard: head.shard,
            told: ToldShard::new(alloc, head.opened, head.first, head.now, head.last),
            pending: Pending::Start,
        }
    }

    /// The number of the shard.
    pub fn shard(&self) -> u8
        ensures { result ≡ shard_at self.now }
    {
        self.shard
    }

    /// What was told before the last line.
    pub fn told(&self) -> &ToldShard
        ensures { result.now ≡ self.now.told }
    {
        &self.told
    }

    /// The last line, if it is that of an entry.
    pub fn last_entry(&self) -> Option<&Line>
        ensures { option_map (λ line. line.now) result ≡ last_entry self.now.pending }
    {
        match &self.pending {
            Pending::Entry(line) => return Some(line),
            _ => return None,
        }
    }

    /// Whether a line may come next.
    pub fn may_come(&self, row: &Row) -> bool
        ensures { IsTrue result ↔ MayCome self.now row.now }
    {
        match row {
            Row::At(name, _, _) => return name.shard() == self.shard
                && may_begin(&self.told, &self.pending, name),
            Row::Held(name, _) => return may_hold(&self.pending, name),
            Row::Spent(name, _) => return may_spend(&self.pending, name),
            Row::Entry(line) => {
                let now = now_with(&self.told, &self.pending);
                let last = last_with(&self.told, &self.pending);
                return may_enter(self.shard, now, last, line);
            }
            Row::Off => return may_take_back(&self.pending),
            Row::Holds(name, _) => return may_stand(&self.pending, name),
        }
    }

    /// What a line makes of it.
    pub fn step(self, alloc: Global, row: Row) -> Result<State, Memory>
        requires form { IsForm row }
        requires timed { IsTimed self }
        ensures state { IfOk result (λ next. next ≡ step self row) }
        ensures timed { IfOk result (λ next. IsTimed next) }
    {
        let State {
            shard,
            told,
            pending,
        } = self;
        match row {
            Row::At(name, version, size) => {
                let told = add(alloc, told, pending)?;
                let file = ToldFile::placed(alloc, version, size);
                return Ok(State {
                    shard,
                    told,
                    pending: Pending::File(name, file),
                });
            }
            Row::Held(_, lock) => {
                let pending = hold(pending, lock);
                return Ok(State {
                    shard,
                    told,
                    pending,
                });
            }
            Row::Spent(_, one) => {
                let pending = spend(pending, one)?;
                return Ok(State {
                    shard,
                    told,
                    pending,
                });
            }
            Row::Entry(line) => {
                let told = add(alloc, told, pending)?;
                return Ok(State {
                    shard,
                    told,
                    pending: Pending::Entry(line),
                });
            }
            Row::Off => {
                return Ok(State {
                    shard,
                    told,
                    pending: Pending::Done,
                });
            }
            Row::Holds(name, contents) => {
                let told = add(alloc, told, pending)?.hold(alloc, name, contents)?;
                return Ok(State {
                    shard,
                    told,
                    pending: Pending::Done,
                });
            }
        }
    }

    /// What was told, with what the last line told.
    pub fn finish(self, alloc: Global) -> Result<ToldShard, Memory>
        requires { IsTimed self }
        ensures { IfOk result (λ told. told ≡ told_at self) }
    {
        let State {
            shard: _,
            told,
            pending,
        } = self;
        add(alloc, told, pending)
    }
}
