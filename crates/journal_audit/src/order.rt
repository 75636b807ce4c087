//! The order of a journal's lines.
ghost use Rattle.std.specs.List.{list_any};
ghost use Rattle.std.specs.Prelude.{◌==◌, ◌≡◌, ◌↔◌, IsTrue, OnOk, None, ℕ};
ghost use Rattle.journal_audit.specs.Lines.{Begun, IsOrdered, behind_line};
ghost use Rattle.journal_audit.specs.Orders.{KeepsOrder};

use journal_text::Line;
use std::alloc::Global;
use wopi_text::Memory;

/// The stamp and the shard of the last line, and the passes that have a line of that stamp. As lines stand by
/// stamp and shard, a line's stamp is above the last one of its pass exactly where it isn't that.
#[derive(Drop)]
pub(crate) struct Order {
    pub(crate) stamp: u64,
    pub(crate) shard: u8,
    pub(crate) passes: Vec<u32>,
}

/// Whether the pass is one of these.
fn has_pass(passes: &[u32], pass: u32) -> bool
    ensures { result ≡ list_any (λ one. one == pass) passes.now }
{
    passes.iter().any(|one| *one == pass)
}

impl Order {
    /// Before the first line of a host.
    pub(crate) fn new(alloc: Global) -> Order
        ensures { (begun : Begun) → begun.last ≡ None → ((pass : ℕ) → begun.passes pass ≡ 0) → KeepsOrder result begun }
    {
        Order {
            stamp: 0,
            shard: 0,
            passes: Vec::new(alloc),
        }
    }

    /// Whether a line may come next.
    pub(crate) fn takes(&self, line: &Line) -> bool
        ensures { (begun : Begun) → KeepsOrder self.now begun → IsTrue result ↔ IsOrdered begun line.entry.now }
    {
        if line.shard != line.name.shard() {
            return false;
        }
        if self.stamp < line.stamp {
            return true;
        }
        if line.stamp < self.stamp || line.stamp == 0 {
            return false;
        }
        if line.shard <= self.shard {
            return false;
        }
        !has_pass(&self.passes, line.pass)
    }

    /// Goes on with a line that may come next.
    pub(crate) fn go_on(&mut self, line: &Line) -> Result<(), Memory>
        ensures { OnOk result ((begun : Begun) → KeepsOrder self.old begun → IsOrdered begun line.entry.now → KeepsOrder self.new (behind_line begun line.entry.now)) }
    {
        if self.stamp != line.stamp {
            self.passes.clear();
        }
        self.passes.push(line.pass)?;
        self.stamp = line.stamp;
        self.shard = line.shard;
        Ok(())
    }
}
