use replay_cmd::{Stage, Straight, World, summary_text};
use save_session::Outcome;
use schedule_text::generate;
use std::test::Fail;

/// How many replies are conflicts.
fn conflicts(stage: &Stage) -> usize {
    let mut count = 0usize;
    for reply in &stage.replies {
        if reply.answer.status == 409 {
            count = count.saturating_add(1);
        }
    }
    count
}

/// How many outcomes are Saved.
fn saved(stage: &Stage) -> usize {
    let mut count = 0usize;
    for member in &stage.members {
        for told in &member.told {
            if matches!(told.outcome, Outcome::Saved { .. }) {
                count = count.saturating_add(1);
            }
        }
    }
    count
}

#[test]
fn the_summary_of_a_thousand_events_counts_them(rt: HostRuntime) -> Result<(), Fail> {
    let alloc = rt.alloc();
    let schedule = generate(alloc, 7, 1000)?;
    let world = World::run(alloc, &schedule, &mut Straight)?;
    let stage = &world.stage;
    let sent = stage.requests.len();
    let made = stage.replies.len();
    let refused = conflicts(stage);
    let kept = saved(stage);
    let counts = format!(in alloc;
        "requests {sent}\nreplies {made}\nconflicts {refused}\nsaved {kept}\nend 612e637376 v"
    )?;
    let text = summary_text(alloc, &world)?;
    assert!(rt; text.as_slice().starts_with(counts.as_bytes()));
    Ok(())
}
