//! All that sessions and somebody else may ask, as it is written, read and answered over a wire.
use super::traces::expect_over;
use replay_cmd::Straight;
use std::alloc::Global;
use std::test::Fail;

/// Each operation once, a file of another name, and a token that has expired.
const EACH: &[u8] = b"file 612e637376 312c320a\n\
foreign 0 9000000 info 612e637376\nforeign 1 9000000 get 612e637376\n\
foreign 2 9000000 getlock 612e637376\nforeign 3 9000000 lock 612e637376 L1\n\
foreign 4 9000000 getlock 612e637376\nforeign 5 9000000 refresh 612e637376 L1\n\
foreign 6 9000000 relock 612e637376 L1 L2\nforeign 7 9000000 put 612e637376 L2 41\n\
foreign 8 9000000 unlock 612e637376 L2\nforeign 9 9000000 relative 612e637376 622e637376 yes 78\n\
foreign 10 9000000 relative 612e637376 622e637376 yes 79\nforeign 11 9000000 delete 622e637376\n\
foreign 12 5 info 612e637376\n";

const EACH_SHOWN: &[u8] = b"reply 1 200 v1 4\nreply 2 200 v1 312c320a\nreply 3 200 -\n\
reply 4 200 v1\nreply 5 200 L1\nreply 6 200\nreply 7 200 v1\nreply 8 200 v2\nreply 9 200 v2\n\
reply 10 200 622e637376\nreply 11 200 622e637376\nreply 12 200\nreply 13 401\n\
end 612e637376 v2 - 41\nend 622e637376 v2 absent\n";

#[test]
fn each_operation_is_answered(rt: HostRuntime) -> Result<(), Fail> {
    expect_over(&rt, rt.alloc(), &mut Straight, EACH, EACH_SHOWN)
}

/// The longest contents that a line has, in hex.
fn longest(alloc: Global) -> Result<Vec<u8>, Fail> {
    let mut text = Vec::new(alloc);
    text.resize(16_384, b'4')?;
    Ok(text)
}

#[test]
fn the_longest_contents_are_saved(rt: HostRuntime) -> Result<(), Fail> {
    let alloc = rt.alloc();
    let contents = longest(alloc)?;
    let mut text = b"file 612e637376 -\nforeign 0 9000000 put 612e637376 - ".to_vec(alloc)?;
    text.extend_from_slice(&contents)?;
    text.push(b'\n')?;
    let mut shown = b"reply 1 200 v2\nend 612e637376 v2 - ".to_vec(alloc)?;
    shown.extend_from_slice(&contents)?;
    shown.push(b'\n')?;
    expect_over(&rt, alloc, &mut Straight, &text, &shown)
}
