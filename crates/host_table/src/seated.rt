//! A pass at its host, as a caller.
ghost use Rattle.std.specs.Prelude.{◌≡◌, ◌&&◌, not, [], ◌∷◌, true, false};
ghost use Rattle.host_table.specs.Passes.{locks_of, top, AreBelow, IsPassOf, AreInShards};
ghost use Rattle.host_table.specs.Seated.{AreInShards-prop, is_told, told_in};

use crate::host::{Host, SHARDS};
use crate::pass::Pass;
use host_core::{
    CallFault, Caller, Carried, EditorReceipt, Lister, Listing, Placed, Refusal, Store,
};
use std::marker::Model;
use std::snapshot::Snapshot;
use std::sync::Wait;
use wopi_model::Call;
use wopi_text::Memory;

/// A host and a pass of it, by which a thread makes its calls. Each call waits for its shard's turn.
#[derive(Drop)]
pub struct Seated<'a, R: Wait, F: Store> {
    rt: &'a R,
    host: &'a Host<F>,
    pass: &'a mut Pass<F>,
    /// The shard of the last call or listing, and whether that found or left its store lost.
    shard: u8,
    lost: bool,
    /// None did.
    telling: bool,
    ghost of_host: { locks_of pass.now ≡ host.now.locks },
    ghost last_is: { pass.now.last ≡ top pass.now.seats },
    ghost below: { AreBelow pass.now.last pass.now.seats },
    ghost named: { AreInShards 0 pass.now.seats } by { AreInShards-prop 0 pass.now.seats },
}

/// What stands behind a pass at its host: the host, the pass's number and weight, when the host opened and with
/// which version, and the shards as they were opened. Contracts alone see it, and no value of it is made.
pub struct Footing<F: Store> {
    start: Snapshot<F>,
}

impl<F: Store> Model for Footing<F> {
    ghost use Rattle.std.specs.Prelude.{[]};
    ghost use Rattle.host_table.specs.Seated.{Basis};

    ghost Value = { Basis F };

    ghost view = { λ _. record { locks = []; number = 0; weight = 0; opened = 0; first = 0; bases = [] } };
}

impl<'a, R: Wait, F: Store> Seated<'a, R, F> {
    /// The pass is one of this host.
    pub fn new(rt: &'a R, host: &'a Host<F>, pass: &'a mut Pass<F>) -> Seated<'a, R, F>
        requires { IsPassOf host.now pass.old }
        ensures pass { result.pass.now ≡ pass.old }
        ensures host { result.host.now ≡ host.now }
        ensures reference { result.pass.ghost_name ≡ pass.entry.ghost_name }
        ensures telling { result.telling ≡ true }
    {
        pass.look();
        Seated {
            rt,
            host,
            pass,
            shard: 0,
            lost: false,
            telling: true,
        }
    }
}

impl<R: Wait, F: Store> Seated<'_, R, F> {
    /// Notes whether the last call, on that shard, may be told.
    fn note(&mut self, shard: u8, told: bool)
        ensures shard { self.new.shard ≡ shard }
        ensures lost { self.new.lost ≡ not told }
        ensures telling { self.new.telling ≡ (self.old.telling && told) }
        ensures pass { self.new.pass ≡ self.old.pass }
        ensures host { self.new.host ≡ self.old.host }
    {
        self.shard = shard;
        self.lost = !told;
        self.telling = self.telling && told;
    }
}

/// Whether what a call was answered may be told.
fn is_told(answer: &Result<Placed, Refusal>) -> bool
    ensures { result ≡ is_told answer.now }
{
    match answer {
        Ok(placed) => return placed.told,
        Err(Refusal::Lost) => return false,
        Err(_) => return true,
    }
}

/// Whether what an editor's call was answered may be told.
fn is_told_to_editor(answer: &Result<EditorReceipt, CallFault>) -> bool
    ensures { result ≡ told_in (λ told. told.receipt.told) answer.now }
{
    match answer {
        Ok(told) => return told.receipt.told,
        Err(CallFault::Lost(_)) => return false,
        Err(_) => return true,
    }
}

impl<R: Wait, F: Store> Caller for Seated<'_, R, F> {
    ghost use Rattle.std.specs.Prelude.{[], ◌∷◌};
    ghost use Rattle.host_table.specs.Passes.{sight_of};
    ghost use Rattle.host_table.specs.Seated.{basis_of, is_lost_at, loses_at, SeesShards};
    ghost use Rattle.host_table.specs.Sights.{has_its_floor, sees_its_shards};

    type Basis = Footing<F>;

    ghost basis = { λ seated. basis_of seated.pass.now };

    ghost sight = { λ seated. sight_of seated.pass.now };

    ghost always = { SeesShards };

    ghost references = { λ seated. seated.pass.ghost_name ∷ [] };

    ghost lost = { λ seated name. is_lost_at F.loses seated.shard seated.lost name };

    ghost telling = { λ seated. seated.telling };

    ghost loses = { F.loses };

    ghost loses_is = { λ seated name. loses_at F.loses seated.shard seated.lost name };

    ghost has_floor = { λ seated. has_its_floor seated.pass.now seated.last_is };

    ghost is_always = { λ seated. sees_its_shards seated.pass.now seated.named seated.below };

    fn call_at(
        &mut self,
        call: &mut Call,
        moment: u64,
        carried: &mut Carried,
    ) -> Result<Placed, Refusal> {
        let shard = call.name.shard();
        let answer = self.host.call_at(self.rt, self.pass, call, moment, carried);
        self.note(shard, is_told(&answer));
        answer
    }

    fn call_for_editor(
        &mut self,
        call: Call,
        known: Option<u64>,
        moment: u64,
    ) -> Result<EditorReceipt, CallFault> {
        let shard = call.name.shard();
        let answer = self
            .host
            .call_for_editor(self.rt, self.pass, call, known, moment);
        self.note(shard, is_told_to_editor(&answer));
        answer
    }

    fn is_telling(&self) -> bool {
        self.telling
    }
}

impl<R: Wait, F: Store> Lister for Seated<'_, R, F> {
    ghost use Rattle.std.specs.Prelude.{◌≡◌, ◌<◌, ◌&&◌, not, [], ◌∷◌, IfOk};
    ghost use Rattle.host_core.specs.Caller.{KeepsTelling};
    ghost use Rattle.host_core.specs.Listing.{Lists, LooksAt};
    ghost use Rattle.host_table.specs.Calls.{AreNotesOf};
    ghost use Rattle.host_table.specs.Passes.{sight_of};
    ghost use Rattle.host_table.specs.Seated.{basis_of};
    ghost use Rattle.host_table.specs.Sights.{home_below, home_reached};

    ghost shard_count = { 16 };

    ghost homes = { λ seated name. home_below name };

    ghost reaches = { λ seated shard inside. (shard ∷ [], home_reached shard inside) };

    fn shards(&self) -> u8 {
        SHARDS as u8
    }

    fn list(&mut self, shard: u8) -> Result<Listing, Memory>
        requires { shard < 16 }
        ensures listed { IfOk result (Lists (sight_of self.new.pass.now) shard) }
        ensures looks { LooksAt (sight_of self.old.pass.now) (sight_of self.new.pass.now) shard }
        ensures telling { KeepsTelling self.old.telling self.new.telling F.loses }
        ensures basis { basis_of self.new.pass.now ≡ basis_of self.old.pass.now }
        ensures references { self.new.pass.ghost_name ∷ [] ≡ self.old.pass.ghost_name ∷ [] }

        // Where the shard's store is lost, the caller isn't telling any more.
        ensures told { (store : F) × AreNotesOf (sight_of self.new.pass.now) shard (F.notes store) × (self.new.telling ≡ (self.old.telling && not (F.lost store))) }
    {
        let (listing, told) = self.host.look(self.rt, self.pass, shard);
        self.note(shard, told);
        listing
    }
}
