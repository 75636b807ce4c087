//! Whether these are all passes of a host.
ghost use Rattle.std.specs.Prelude.{◌≡◌, ◌<◌, ◌^◌, ◌↔◌, ℕ, IsTrue, map, length};
ghost use Rattle.std.specs.List.{AllByRecursion};
ghost use Rattle.turn_lock.specs.Places.{total, times, AreAllBelow};
ghost use Rattle.host_table.specs.Close.{number_of, weight_of};

use crate::pass::Pass;
use host_core::Store;

/// How many of the passes have that number.
fn count_of<F: Store>(passes: &[Pass<F>], number: u32) -> usize
    ensures { result ≡ times number (map number_of passes.now) }
{
    let mut count = 0;
    for pass in passes {
        if pass.number() == number {
            count += 1;
        }
    }
    count
}

/// Each pass has a number below that one.
fn are_below<F: Store>(passes: &[Pass<F>], made: u32) -> bool
    ensures { IsTrue result ↔ AllByRecursion (λ pass. pass.number < made) passes.now }
{
    for pass in passes {
        if pass.number() >= made {
            return false;
        }
    }
    true
}

/// Each number below that one is a pass's, once.
fn are_each_once<F: Store>(passes: &[Pass<F>], made: u32) -> bool
    ensures { IsTrue result ↔ ((number : ℕ) → number < made → times number (map number_of passes.now) ≡ 1) }
{
    for number in 0..made {
        if count_of(passes, number) != 1 {
            return false;
        }
    }
    true
}

/// The numbers of the passes are those below that one, each once. It takes time by the number times the passes.
pub(crate) fn are_numbered<F: Store>(passes: &[Pass<F>], made: u32) -> bool
    ensures { IsTrue result ↔ AreAllBelow made (map number_of passes.now) }
{
    if !are_below(passes, made) {
        return false;
    }
    are_each_once(passes, made)
}

/// The weights of the passes add up to 2^62.
pub(crate) fn weigh_whole<F: Store>(passes: &[Pass<F>]) -> bool
    ensures { IsTrue result ↔ (total weight_of passes.now ≡ 2 ^ 62) }
{
    let mut sum: u64 = 0;
    for pass in passes {
        sum = sum.saturating_add(pass.weight());
    }
    sum == 1 << 62
}
