//! The origins of pages.
ghost use Rattle.std.specs.Prelude.{◌≡◌, ◌↔◌, IsTrue, length};
ghost use Rattle.wopi_text.specs.Decimals.{decimal_of};
ghost use Rattle.access_tokens.specs.Origins.{IsOrigin, is_host_byte, own_port};
ghost use Rattle.access_tokens.specs.OriginTests.{host_len, is_behind_host, is_place, is_schemed, is_written, passes};

use wopi_text::decimal_read;

/// The port of a scheme where none is written, by whether it is the one that is secure.
fn own_port(secure: bool) -> u64
    ensures { result ≡ own_port secure }
{
    if secure { 443 } else { 80 }
}

/// Whether the byte may stand in a host.
fn is_host_byte(byte: u8) -> bool
    ensures { result ≡ is_host_byte byte }
{
    byte.is_ascii_lowercase()
        || (byte.is_ascii_digit() || (byte == b'-' || (byte == b'.' || byte == b'_')))
}

/// How many bytes of a host stand at the front.
fn host_len(text: &[u8]) -> usize
    ensures { result ≡ host_len text.now }
{
    text.iter().take_while(|byte| is_host_byte(**byte)).count()
}

/// Whether the digits are those of a port that isn't the scheme's own.
fn is_port(secure: bool, digits: &[u8]) -> bool
    ensures { result ≡ is_written secure (decimal_of digits.now) }
{
    match decimal_read(digits) {
        None => false,
        Some(port) => 0 < port && port <= 65535 && port != own_port(secure),
    }
}

/// Whether nothing stands there, or a port.
fn is_behind_host(secure: bool, text: &[u8]) -> bool
    ensures { result ≡ is_behind_host secure text.now }
{
    match text {
        [] => true,
        [byte, digits @ ..] => *byte == b':' && is_port(secure, digits),
    }
}

/// Whether it is a host and its port.
fn is_place(secure: bool, text: &[u8]) -> bool
    ensures { result ≡ is_place secure text.now }
{
    let len = host_len(text);
    0 < len && is_behind_host(secure, &text[len..])
}

/// Whether a scheme stands at the front, and behind it a host and its port.
fn is_schemed(text: &[u8]) -> bool
    ensures { result ≡ is_schemed text.now }
{
    if text.starts_with(b"https://") {
        return is_place(true, &text[8..]);
    }
    if text.starts_with(b"http://") {
        return is_place(false, &text[7..]);
    }
    false
}

/// Whether it passes the tests of an origin.
fn passes(text: &[u8]) -> bool
    ensures { result ≡ passes text.now }
{
    text.len() <= 200 && is_schemed(text)
}

/// Whether the text is an origin: `http` or `https`, `://`, a host in lower case, and a port where it isn't the
/// scheme's own; 200 bytes at most.
pub fn is_origin(text: &[u8]) -> bool
    ensures { IsTrue result ↔ IsOrigin text.now }
{
    passes(text)
}
