use super::{FILE_TEXT, FORMER_TEXT, TEXT, WORD, ZERO_TEXT, keys, token};
use access_tokens::{TokenFault, read};
use containers::{container_mint, container_read};
use std::test::Fail;

/// The token of `TEXT` under the key `6b` of the number 255.
const LAST_TEXT: &str =
    "c1.255.ann.w.7.0.9000000.deb223fab8f3e54c6cf2639bbed424a82f6cff6c89f644afcecf341a34a3f034";

#[test]
fn a_token_is_written_to_the_letter(rt: HostRuntime) -> Result<(), Fail> {
    let text = container_mint(rt.alloc(), &keys(WORD)?, &token(true)?)?;
    assert!(rt; text.as_slice() == TEXT.as_bytes());
    let exchanged = keys(b"255:6b,0:4a656665")?;
    let text = container_mint(rt.alloc(), &exchanged, &token(true)?)?;
    assert!(rt; text.as_slice() == LAST_TEXT.as_bytes());
    Ok(())
}
