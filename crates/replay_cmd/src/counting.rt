//! How often what is counted has happened in a running world.
ghost use Rattle.std.specs.Prelude.{◌≡◌, ◌==◌, ◌<◌, ◌^◌, length, filter, sum_by};
ghost use Rattle.replay_cmd.specs.Ends.{conflicts_in, saved_by_one};
ghost use Rattle.replay_cmd.specs.Trace.{is_saved};

use crate::member::{Member, Told};
use crate::replies::Reply;
use save_session::Outcome;

fn is_conflict(reply: &Reply) -> bool
    ensures { result ≡ (reply.now.answer.status == 409) }
{
    reply.answer.status == 409
}

/// How many replies are of status 409.
pub fn conflicts(replies: &[Reply]) -> usize
    ensures { result ≡ conflicts_in replies.now }
{
    replies.iter().filter(|reply| is_conflict(reply)).count()
}

fn is_saved(told: &Told) -> bool
    ensures { result ≡ is_saved told.now.outcome }
{
    matches!(told.outcome, Outcome::Saved { .. })
}

/// How many of these outcomes are Saved.
fn saved_of(told: &[Told]) -> usize
    ensures { result ≡ length (filter (λ told. is_saved told.outcome) told.now) }
{
    told.iter().filter(|one| is_saved(one)).count()
}

/// How many Saved the sessions told.
pub fn saved(members: &[Member]) -> u128
    ensures { result ≡ sum_by saved_by_one members.now }
{
    let mut count = 0u128;
    for member in members {
        count += saved_of(&member.told) as u128;
    }
    count
}
