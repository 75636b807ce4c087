//! How a host goes on that is opened again: a shard over each folder with the life that is told of it.
ghost use Rattle.std.specs.Prelude.{◌≡◌, ◌+◌, ◌≤◌, ◌<◌, ◌↔◌, [], true, None, length, map, vec_len, vec_capacity, IfOk, IfErr, IsTrue, OnOk};
ghost use Rattle.host_core.specs.Opening.{IsFirstVersion};
ghost use Rattle.host_table.specs.Reopen.{AllGoOn, AllGoOnWithin, AreHandedOn, AreOfOne, IsBlamedOn, IsBlamedOnShard, IsOf, greatest_last};
ghost use Rattle.wopi_model.specs.Moment.{IsMoment};

use crate::held::Held;
use crate::host::{Host, SHARDS, begin};
use crate::opening::{Most, hand_back, lock_all, move_all};
use crate::pass::Pass;
use host_core::{Lasting, Life, ReopenFault, Store};
use std::alloc::Global;
use std::snapshot::Snapshot;

/// Whether it is the life of a shard of a host that opened anew then over files of that version.
fn is_of(life: &Life, opened: u64, first: u64) -> bool
    ensures { IsTrue result ↔ IsOf opened first life.entry.now }
{
    if life.opened != opened {
        return false;
    }
    life.first == first
}

/// Whether all lives are of one such host.
fn are_of_one(lives: &Vec<Life>, opened: u64, first: u64) -> bool
    ensures { IsTrue result ↔ AreOfOne opened first lives.now.items }
{
    let mut place = 0;
    'lives: while place < lives.len() {
        if !is_of(&lives[place], opened, first) {
            return false;
        }
        place += 1;
    }
    true
}

/// The greatest of the shards' last stamps, or 0.
fn greatest_last<F: Store>(shards: &Vec<Held<F>>) -> u64
    ensures { result ≡ greatest_last shards.now.items }
{
    let mut last = 0;
    let mut place = 0;
    'shards: while place < shards.len() {
        last = shards[place].last().max(last);
        place += 1;
    }
    last
}

/// Goes on with each life over its folder. A refusal leaves all folders in `back`, in their order.
fn reopen_all<F: Lasting>(
    alloc: Global,
    folders: Vec<F>,
    lives: Vec<Life>,
    back: &mut Vec<F>,
    ids: u32,
) -> Result<Vec<Held<F>>, ReopenFault>
    requires endless { F.endless ≡ true }
    requires ids { (1 ≤ ids) × (ids ≤ 32768) }
    requires folders { length folders.items ≡ 16 }
    requires lives { length lives.items ≡ 16 }
    requires room { (back.old.items ≡ []) × (16 ≤ vec_capacity back.old) }
    ensures going { IfOk result (λ shards. AllGoOn F.files F.times F.faults F.notes ids 0 lives.items folders.items shards.items) }
    ensures back { OnOk result ((back.new.items ≡ []) × (vec_capacity back.new ≡ vec_capacity back.old)) }
    ensures handed { IfErr result (λ fault. AreHandedOn F.files F.faults F.notes lives.items folders.items back.new.items) }
    ensures blamed { IfErr result (λ fault. IsBlamedOnShard F.files F.times F.faults ids lives.items folders.items back.new.items fault) }
{
    let mut rest = folders.into_iter();
    let mut told = lives.into_iter();
    let Ok(mut shards) = Vec::with_capacity(alloc, SHARDS) else {
        move_all(rest, back);
        return Err(ReopenFault::Memory);
    };
    while let Some(folder) = rest.next() {
        let Some(life) = told.next() else {
            unreachable!()
        };
        match Held::reopen(alloc, folder, shards.len() as u8, ids, life) {
            Ok(held) => shards.push_reserved(held),
            Err((folder, fault)) => {
                hand_back(shards, back);
                back.push_reserved(folder);
                move_all(rest, back);
                return Err(fault);
            }
        }
    }
    Ok(shards)
}

impl<F: Lasting> Host<F> {
    /// Opens again a host of which a life is told for each of sixteen shards, over their stores, which take any number of entries. What
    /// each folder lacks of the last change is made up for, and each shard goes on: its locks with their ends, the ids that are refused, the
    /// versions, its time, and the stamps, which rise behind the greatest of all. A refusal hands the stores back in their order.
    pub fn reopen(
        alloc: Global,
        folders: Vec<F>,
        lives: Vec<Life>,
        ids: u32,
    ) -> Result<(Host<F>, Pass<F>), (Vec<F>, ReopenFault)>
        requires endless { F.endless ≡ true }
        requires ids { (1 ≤ ids) × (ids ≤ 32768) }
        requires folders { length folders.items ≡ 16 }
        requires lives { length lives.items ≡ 16 }
        ensures going { IfOk result (λ begun. AllGoOnWithin F.files F.times F.faults F.notes ids lives.items folders.items begun.0 begun.1) }
        ensures handed { IfErr result (λ refused. AreHandedOn F.files F.faults F.notes lives.items folders.items refused.0.items) }
        ensures blamed { IfErr result (λ refused. IsBlamedOn F.files F.times F.faults ids lives.items folders.items refused.0.items refused.1) }
    {
        let opened = lives[0].opened;
        let first = lives[0].first;
        if !are_of_one(&lives, opened, first) {
            return Err((folders, ReopenFault::BadLife));
        }
        let Ok(mut back) = Vec::with_capacity(alloc, SHARDS) else {
            return Err((folders, ReopenFault::Memory));
        };
        match reopen_all(alloc, folders, lives, &mut back, ids) {
            Err(fault) => return Err((back, fault)),
            Ok(shards) => {
                let about = Snapshot::of(&shards);
                let last = greatest_last(&shards);
                match lock_all(alloc, shards) {
                    Err(shards) => {
                        hand_back(shards, &mut back);
                        return Err((back, ReopenFault::Memory));
                    }
                    Ok((locks, seats)) => {
                        let most = Most::Ids(ids);
                        return Ok(begin(alloc, locks, seats, about, last, most, opened, first));
                    }
                }
            }
        }
    }
}
