//! A listener in memory.
ghost use Rattle.std.specs.Prelude.{◌≡◌, ◌≤◌, ◌+◌, ◌↔◌, [], ℕ, List, IfOk, OnOk, IsErr, IsErrOf, Some, length, vec_capacity};
ghost use Rattle.outside.specs.Failing.{FailsNext, CountsOne, IsFresh};

use crate::{Accepted, Failing, Link, Listener, OutFault};
use std::alloc::Global;
use wopi_text::Memory;

/// Gives these links in order, and keeps those that are finished.
#[derive(Drop)]
pub struct MemListener<L> {
    links: Vec<L>,
    accepted: usize,
    done: Vec<L>,
    failing: Failing,
    ghost in_hand: { length done.items ≤ accepted },
    ghost reserved: { accepted + length links.items ≤ vec_capacity done },
}

impl<L: Drop> MemListener<L> {
    ghost use Rattle.outside.specs.MemListener.{to_come, put_back, has_all_back, script};

    /// The place of the finished links is reserved here; `failing` has the numbers of the accepts
    /// that fail, counted from 1.
    pub fn new(alloc: Global, links: Vec<L>, failing: Vec<u64>) -> Result<MemListener<L>, Memory>
        ensures links { IfOk result (λ l. to_come l ≡ links.items) }
        ensures done { IfOk result (λ l. put_back l ≡ []) }
        ensures accepted { IfOk result (λ l. l.accepted ≡ 0) }
        ensures script { IfOk result (λ l. IsFresh (script l) failing.items) }
    {
        let done = Vec::with_capacity(alloc, links.len())?;
        Ok(MemListener {
            links,
            accepted: 0,
            done,
            failing: Failing::new(failing),
        })
    }

    /// The links that were handed back, in that order.
    pub fn finished_links(&self) -> &[L]
        ensures { result.now ≡ put_back self.now }
    {
        &self.done
    }

    /// Whether each link that it gave was handed back.
    pub fn has_all_back(&self) -> bool
        ensures { result ≡ has_all_back self.now }
    {
        self.done.len() == self.accepted
    }
}

impl<L: Link + Send + Drop> Listener for MemListener<L> {
    type Link = L;

    ghost use Rattle.outside.specs.Faults.{Rose};
    ghost use Rattle.outside.specs.Listener.{Accepts, AcceptsNumber, KeepsLinks};
    ghost use Rattle.outside.specs.MemListener.{to_come, put_back, script};

    ghost links_left = { λ l. Some (to_come l) };

    ghost finished_links = { λ l. Some (put_back l) };

    ghost accepted = { λ l. l.accepted };

    ghost finished = { λ l. length (put_back l) };

    ghost faults = { λ l. (script l).faults };

    ghost in_hand = { λ l. l.in_hand };

    fn accept(&mut self) -> Result<Accepted<L>, OutFault>
        requires { length (put_back self.old) ≡ self.old.accepted }
        ensures link { Accepts (Some (to_come self.old)) (Some (to_come self.new)) result }
        ensures number { AcceptsNumber self.old.accepted self.new.accepted result }
        ensures finished { length (put_back self.new) ≡ length (put_back self.old) }
        ensures finished_links { KeepsLinks (Some (put_back self.old)) (Some (put_back self.new)) }
        ensures never_falls { (script self.old).faults ≤ (script self.new).faults }
        ensures failed { IsErrOf result OutFault.Failed → Rose (script self.old).faults (script self.new).faults }
        ensures fine { OnOk result ((script self.new).faults ≡ (script self.old).faults) }

        // It fails at the given calls alone.
        ensures fails { IsErrOf result OutFault.Failed ↔ FailsNext (script self.old) }
        ensures only { IsErr result → IsErrOf result OutFault.Failed }
        ensures counts { CountsOne (script self.old) (script self.new) }
    {
        if self.failing.next_fails() {
            return Err(OutFault::Failed);
        }
        if self.links.is_empty() {
            return Ok(Accepted::Closed);
        }
        let link = self.links.remove(0);
        self.accepted += 1;
        Ok(Accepted::Link(link))
    }

    fn finish(&mut self, link: L) {
        match self.done.push(link) {
            Ok(()) => {}
            Err(_) => unreachable!(),
        }
    }
}
