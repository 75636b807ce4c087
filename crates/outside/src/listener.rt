ghost use Rattle.std.specs.Prelude.{◌≡◌, ◌≤◌, ◌<◌, ◌+◌, ℕ, List, IfOk, OnErr, OnOk, IsErrOf, Option};
ghost use Rattle.outside.specs.Faults.{Rose};
ghost use Rattle.outside.specs.Listener.{Accepts, AcceptsNumber, Finishes, KeepsLinks};

use crate::{Link, OutFault};

/// A link, or the end of links.
#[derive(Drop)]
pub enum Accepted<L> {
    Link(L),
    Closed,
}

/// Where links come from, and where they go when they are done.
pub trait Listener: Drop {
    /// It is served in a worker's thread, hence `Send`.
    type Link: Link + Send;

    /// The links that will be accepted, where the object tells them.
    ghost links_left: { Self → Option (List Self.Link) };

    /// The links that were handed back, where the object tells them.
    ghost finished_links: { Self → Option (List Self.Link) };

    /// How many links were accepted.
    ghost accepted: { Self → ℕ };

    /// How many links were finished.
    ghost finished: { Self → ℕ };

    /// How often an accept has failed.
    ghost faults: { Self → ℕ };

    /// Waits for the next link. `Closed` says that none will come any more. It is asked for another link
    /// only once each that it gave was handed back, so that no link waits for another client to come.
    fn accept(&mut self) -> Result<Accepted<Self::Link>, OutFault>
        requires { finished self.old ≡ accepted self.old }
        ensures link { Accepts (links_left self.old) (links_left self.new) result }
        ensures number { AcceptsNumber (accepted self.old) (accepted self.new) result }
        ensures finished { finished self.new ≡ finished self.old }
        ensures finished_links { KeepsLinks (finished_links self.old) (finished_links self.new) }
        ensures never_falls { faults self.old ≤ faults self.new }
        ensures failed { IsErrOf result OutFault.Failed → Rose (faults self.old) (faults self.new) }
        ensures fine { OnOk result (faults self.new ≡ faults self.old) };

    /// Hands back a link that was accepted. It takes no memory and never fails.
    fn finish(&mut self, link: Self::Link)
        requires { finished self.old < accepted self.old }
        ensures finished { finished self.new ≡ finished self.old + 1 }
        ensures links { Finishes (finished_links self.old) (finished_links self.new) link }
        ensures accepted { accepted self.new ≡ accepted self.old }
        ensures left { KeepsLinks (links_left self.old) (links_left self.new) }
        ensures faults { faults self.new ≡ faults self.old };

    /// No more links are finished than were accepted.
    ghost in_hand: { (listener : Self) → finished listener ≤ accepted listener };
}
