//! The schedules of demo/, whose traces stand in the README.
use super::{run_with, whole};
use std::test::Fail;

const LATE_SAVE: &str = "# A late save is refused, because its lock id has ended.\n#\n\
# The file a.csv holds \"1,2\" and a line feed. One session has it, whose lock ids are ann-1, ann-2\n\
# and so on.\nfile 612e637376 312c320a\nsession 612e637376 ann 9000000\n\n\
# The session opens the file: it asks for the file's info, takes the lock and reads.\n\
open 1\ndeliver 1 0\nanswer 1\ndeliver 2 0\nanswer 2\ndeliver 3 0\nanswer 3\n\n\
# It saves the byte 41. The request is sent three times, and no answer comes.\nsave 1 41\n\
lose 1\nlose 1\nlose 1\n\n\
# It saves the byte 42. First it has the lock's id changed, so that ann-1 has ended.\n\
save 1 42\ndeliver 7 10\nanswer 4\ndeliver 8 11\nanswer 5\n\n\
# Only now the first save arrives. It names the ended id: nothing of the new save is lost.\n\
deliver 4 12\n";

const LATE_SAVE_SHOWN: &str =
    "send 1 info\nreply 1 200 v1 4\nsend 2 lock ann-1\nreply 2 200 v1\nsend 3 get\n\
reply 3 200 v1 312c320a\ntell 1 opened v1\nsend 4 put ann-1 41\nsend 5 put ann-1 41\n\
send 6 put ann-1 41\ntell 1 no answer\nsend 7 relock ann-1 ann-2\nreply 4 200 v1\n\
send 8 put ann-2 42\nreply 5 200 v2\ntell 1 saved v2\nreply 6 409 ann-2 lock id spent\n\
end 612e637376 v2 ann-2 42\n";

const TWO_SESSIONS: &str =
    "# Of two sessions one loses its lock, and nothing of the other's work is lost.\n\
file 612e637376 312c320a\nsession 612e637376 ann 9000000\nsession 612e637376 bob 9000000\n\
\n# Ann's session opens the file, and then nothing is heard of it.\nopen 1\ndeliver 1 0\n\
answer 1\ndeliver 2 0\nanswer 2\ndeliver 3 0\nanswer 3\n\n\
# Bob's session is told which lock stands.\nopen 2\ndeliver 4 1000\nanswer 4\n\
deliver 5 1000\nanswer 5\n\n\
# After half an hour the lock ends. Bob's session opens the file and saves.\n\
tick 1800000\nopen 2\ndeliver 6 1800001\nanswer 6\ndeliver 7 1800001\nanswer 7\n\
deliver 8 1800001\nanswer 8\nsave 2 42\ndeliver 9 1800002\nanswer 9\n\n\
# Ann's session comes back with a save. It learns that its lock is lost.\nsave 1 41\n\
deliver 10 1800003\nanswer 10\n\n# Bob's session closes. What it saved stands.\nclose 2\n\
deliver 11 1800004\nanswer 11\n";

const TWO_SESSIONS_SHOWN: &str =
    "send 1 info\nreply 1 200 v1 4\nsend 2 lock ann-1\nreply 2 200 v1\nsend 3 get\n\
reply 3 200 v1 312c320a\ntell 1 opened v1\nsend 4 info\nreply 4 200 v1 4\n\
send 5 lock bob-1\nreply 5 409 ann-1 locked\ntell 2 conflict ann-1 locked\nnow 1800000\n\
send 6 info\nreply 6 200 v1 4\nsend 7 lock bob-1\nreply 7 200 v1\nsend 8 get\n\
reply 8 200 v1 312c320a\ntell 2 opened v1\nsend 9 put bob-1 42\nreply 9 200 v2\n\
tell 2 saved v2\nsend 10 put ann-1 41\nreply 10 409 bob-1 lock id spent\n\
tell 1 lock lost bob-1 lock id spent\nsend 11 unlock bob-1\nreply 11 200 v2\n\
tell 2 closed\nend 612e637376 v2 - 42\n";

const RESTART: &str =
    "# The host is opened again. A late save is refused by its token, and versions go on.\n\
file 612e637376 312c320a\nsession 612e637376 ann 9000000\nsession 612e637376 bob 9000000 100\n\
\n# Ann's session opens the file and saves the byte 41.\nopen 1\ndeliver 1 0\nanswer 1\n\
deliver 2 0\nanswer 2\ndeliver 3 0\nanswer 3\nsave 1 41\ndeliver 4 1\nanswer 4\n\n\
# The host ends, and opens again at the moment 100. No lock is left, and Ann's token is older.\n\
restart 100\n\n# Her save arrives once more, and is refused.\ndeliver 4 101\n\n\
# Bob's token was issued at 100. His session finds what Ann's saved, and takes the lock.\n\
open 2\ndeliver 5 102\nanswer 6\ndeliver 6 103\n";

const RESTART_SHOWN: &str =
    "send 1 info\nreply 1 200 v1 4\nsend 2 lock ann-1\nreply 2 200 v1\nsend 3 get\n\
reply 3 200 v1 312c320a\ntell 1 opened v1\nsend 4 put ann-1 41\nreply 4 200 v2\n\
tell 1 saved v2\nrestarted 3\nreply 5 401\nsend 5 info\nreply 6 200 v3 1\n\
send 6 lock bob-1\nreply 7 200 v3\nend 612e637376 v3 bob-1 41\n";

#[test]
fn the_schedules_of_the_demo_have_their_traces(rt: HostRuntime) -> Result<(), Fail> {
    let alloc = rt.alloc();
    for (schedule, shown) in [
        (LATE_SAVE, LATE_SAVE_SHOWN),
        (TWO_SESSIONS, TWO_SESSIONS_SHOWN),
        (RESTART, RESTART_SHOWN),
    ] {
        let left = run_with(&rt, alloc, &["replay"], &whole(schedule.as_bytes()))?;
        assert!(rt; left.status == 0);
        assert!(rt; left.output.as_slice() == shown.as_bytes());
    }
    Ok(())
}
