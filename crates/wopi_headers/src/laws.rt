//! Laws of the operations.
ghost use Rattle.std.specs.Prelude.{ℕ, ◌≡◌};
ghost use Rattle.wopi_http.specs.declared.message.Request.{Request};
ghost use Rattle.wopi_headers.specs.declared.ask.Ask.{Ask};
ghost use Rattle.wopi_headers.specs.declared.container.ContainerAsk.{ContainerAsk};
ghost use Rattle.wopi_headers.specs.Containers.{AsksContainer, IsAtContainers, IsContainerRefusal};
ghost use Rattle.wopi_headers.specs.Operations.{AsksFor, IsRefusal};

/// A request asks for one thing at most.
pub fn a_request_asks_for_one_thing()
    ensures { (q : Request) (a b : Ask) → AsksFor q a → AsksFor q b → a ≡ b }
{}

/// A request that is refused asks for nothing, and is refused with one status.
pub fn a_refused_request_asks_for_nothing()
    ensures nothing { (q : Request) (a : Ask) (s : ℕ) → AsksFor q a → ¬ (IsRefusal q s) }
    ensures one_status { (q : Request) (s t : ℕ) → IsRefusal q s → IsRefusal q t → s ≡ t }
{}

/// No request neither asks for something nor is refused.
pub fn every_request_asks_or_is_refused()
    ensures { (q : Request) → ((a : Ask) → ¬ (AsksFor q a)) → ¬ ((s : ℕ) → ¬ (IsRefusal q s)) }
{}

/// A request asks for one thing of the container at most; one that is refused there asks for nothing of it, and is
/// refused with one status.
pub fn a_container_is_asked_for_one_thing()
    ensures one { (q : Request) (a b : ContainerAsk) → AsksContainer q a → AsksContainer q b → a ≡ b }
    ensures nothing { (q : Request) (a : ContainerAsk) (s : ℕ) → AsksContainer q a → ¬ (IsContainerRefusal q s) }
    ensures one_status { (q : Request) (s t : ℕ) → IsContainerRefusal q s → IsContainerRefusal q t → s ≡ t }
{}

/// A request that asks for something of a file is not for a container.
pub fn a_request_for_a_file_is_not_for_the_container()
    ensures { (q : Request) (a : Ask) → AsksFor q a → ¬ (IsAtContainers q) }
{}
