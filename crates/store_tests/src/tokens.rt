ghost use Rattle.access_tokens.specs.Remembering.{Remembers};

use access_tokens::{Keys, RecentTokens, Token, TokenFault, User, hmac, mint, push_address, read};
use std::alloc::Global;
use std::test::Fail;
use wopi_text::{Bytes, FileName};

/// The key `Jefe`, in hex.
const WORD: &[u8] = b"4a656665";

/// What is signed of the token of the tests.
const SIGNED: &str = "v2.0.ann.612e637376.w.1.253402300000000.253402300799999";

/// Its text under that key.
const TEXT: &str =
    "v2.0.ann.612e637376.w.1.253402300000000.253402300799999.d3b4214de337cbf0652f67ed52815e0780b10913047024cbdc4448712c891e48";

/// The same token as version 1 wrote it under the key `k`.
const FIRST_TEXT: &str =
    "v1.ann.612e637376.w.1.253402300000000.253402300799999.cc2a63af1977455f07844c926dffa4b64cbdc55115b559283b5df65b09d8289a";

/// The same token under the key `k` of the number 255.
const LAST_TEXT: &str =
    "v2.255.ann.612e637376.w.1.253402300000000.253402300799999.a96718801cf482dc424a8dd48954743bca9360d631424f68e7c684c156047639";

fn keys(word: &[u8]) -> Result<Keys, Fail> {
    Ok(Keys::read(word).ok_or("no keys")?)
}

/// The token of the tests, with the right to write or without.
fn token(write: bool) -> Result<Token, Fail> {
    Ok(Token {
        user: User::read(b"ann").ok_or("no user")?,
        file: FileName::read(b"a.csv")?,
        write,
        serial: 1,
        issued: 253_402_300_000_000,
        expires: 253_402_300_799_999,
    })
}

#[test]
fn codes_are_those_of_rfc_4231(rt: HostRuntime) -> Result<(), Fail> {
    let alloc = rt.alloc();
    let first = hex::encode(alloc, hmac(&[0x0b; 20], b"Hi There").as_slice())?;
    assert!(rt;
        first.as_str() == "b0344c61d8db38535ca8afceaf0bf12b881dc200c9833da726e9376c2e32cff7"
    );
    let second = hex::encode(
        alloc,
        hmac(b"Jefe", b"what do ya want for nothing?").as_slice(),
    )?;
    assert!(rt;
        second.as_str() == "5bdcc146bf60754e6a042426089575c75a003f089d2739839dec58b964ec3843"
    );
    let third = hex::encode(alloc, hmac(&[0xaa; 20], &[0xdd; 50]).as_slice())?;
    assert!(rt;
        third.as_str() == "773ea91e36800e46854db8ebd09181a72959098b3ef8c122d9635514ced565fe"
    );
    Ok(())
}

#[test]
fn a_key_longer_than_a_block_is_hashed_as_in_rfc_4231(rt: HostRuntime) -> Result<(), Fail> {
    let message = b"Test Using Larger Than Block-Size Key - Hash Key First";
    let code = hex::encode(rt.alloc(), hmac(&[0xaa; 131], message).as_slice())?;
    assert!(rt;
        code.as_str() == "60e431591ee0b67f0d8a26aacbf5b77f8e0bc6213728c5140546040f0ee37f54"
    );
    Ok(())
}

#[test]
fn an_address_stands_behind_what_was_there_and_has_a_token_for_its_file(
    rt: HostRuntime,
) -> Result<(), Fail> {
    let mut text = Vec::new(rt.alloc());
    text.extend_from_slice(b"v2.7.")?;
    push_address(&mut text, b"http://h", &keys(WORD)?, &token(true)?)?;
    let front = b"v2.7.http://h/wopi/files/612e637376?access_token=".as_slice();
    assert!(rt; text.starts_with(front));
    assert!(rt; text.len() == front.len() + TEXT.len());
    assert!(rt; text.ends_with(TEXT.as_bytes()));
    Ok(())
}

#[test]
fn a_token_of_version_1_is_read_under_the_key_0_alone(rt: HostRuntime) -> Result<(), Fail> {
    let exchanged = keys(b"1:4a656665,0:6b")?;
    assert!(rt; read(&exchanged, FIRST_TEXT.as_bytes()).is_ok());
    let alone = keys(b"1:4a656665")?;
    assert!(rt; read(&alone, FIRST_TEXT.as_bytes()).err() == Some(TokenFault::NoKey));
    Ok(())
}

/// Whether a text has a token, read by one who remembers.
fn is_read(alloc: Global, recent: &mut RecentTokens, keys: &Keys, text: &str) -> Result<bool, Fail>
    requires { Remembers keys.now recent.old }
    ensures { Remembers keys.now recent.new }
{
    let text = Bytes::from_slice(alloc, text.as_bytes())?;
    Ok(recent.read(keys, text).is_some())
}

#[test]
fn a_text_shown_again_is_read_again_and_no_other_for_it(rt: HostRuntime) -> Result<(), Fail> {
    let alloc = rt.alloc();
    let keys = keys(b"0:4a656665,255:6b")?;
    let mut recent = RecentTokens::new(alloc);
    assert!(rt; is_read(alloc, &mut recent, &keys, TEXT)?);
    assert!(rt; is_read(alloc, &mut recent, &keys, TEXT)?);
    let other = TEXT.replace(alloc, ".w.", ".r.")?;
    assert!(rt; !is_read(alloc, &mut recent, &keys, &other)?);
    let forged = TEXT.replace(alloc, "1e48", "1e49")?;
    assert!(rt; !is_read(alloc, &mut recent, &keys, &forged)?);
    assert!(rt; !is_read(alloc, &mut recent, &keys, SIGNED)?);
    assert!(rt; is_read(alloc, &mut recent, &keys, LAST_TEXT)?);
    assert!(rt; is_read(alloc, &mut recent, &keys, TEXT)?);
    Ok(())
}

#[test]
fn more_texts_than_are_remembered_are_all_read(rt: HostRuntime) -> Result<(), Fail> {
    let alloc = rt.alloc();
    let keys = keys(WORD)?;
    let mut recent = RecentTokens::new(alloc);
    'numbers: for number in 0u64..140 {
        let mut token = token(true)?;
        token.serial = number % 70;
        let text = mint(alloc, &keys, &token)?;
        assert!(rt; recent.read(&keys, text).is_some());
    }
    Ok(())
}
