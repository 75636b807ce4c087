//! The times of a host's shards, as a journal's first form tells them.
ghost use Rattle.std.specs.Prelude.{◌≡◌, ◌<◌, [], max, slice_index, slice_set};
ghost use Rattle.wopi_model.specs.Moment.{IsMoment};
ghost use Rattle.journal_text.specs.Reader.{HasTimes};

/// The times of the shards when a host has opened.
pub(crate) fn start_times(opened: u64) -> [u64; 16]
    requires { IsMoment opened }
    ensures { HasTimes result opened [] }
{
    [opened; 16]
}

/// A shard's time after an entry of this moment: it never falls.
pub(crate) fn time_at(nows: &mut [u64; 16], shard: u8, moment: u64) -> u64
    requires { shard < 16 }
    ensures value { result ≡ max (slice_index nows.old shard) moment }
    ensures set { nows.new ≡ slice_set nows.old shard result }
{
    let now = nows[usize::from(shard)].max(moment);
    nows[usize::from(shard)] = now;
    now
}
