//! What is told of a file that was made beside another: its name and its address.
ghost use Rattle.std.specs.Prelude.{◌≡◌, IfOk};
ghost use Rattle.std.specs.Str.{IsUtf8};
ghost use Rattle.wopi_model.specs.Moment.{IsMoment};
ghost use Rattle.access_tokens.specs.TokenText.{IsWritable};
ghost use Rattle.file_info.specs.Relative.{relative_text};
ghost use Rattle.host_server.specs.Copies.{address, token_for, file_told};

use crate::desk::Desk;
use crate::telling::ruling_told;
use access_tokens::{Token, push_address};
use file_info::relative_text;
use host_core::Ruling;
use std::alloc::Global;
use wopi_headers::{Answer, BodyKind};
use wopi_text::{Bytes, FileName, Memory};

/// A token for the file of that name, in the name of who asked, issued at that moment.
fn token_for(name: &FileName, asking: &Token, moment: u64) -> Token
    ensures { result ≡ token_for name.now asking.now moment }
{
    Token {
        user: asking.user.copy(),
        file: name.copy(),
        write: asking.write,
        serial: asking.serial,
        issued: moment,
        expires: asking.expires,
    }
}

/// The address of the file of that name, with a token for it.
fn address(
    alloc: Global,
    desk: &Desk,
    name: &FileName,
    asking: &Token,
    moment: u64,
) -> Result<Vec<u8>, Memory>
    ensures { IfOk result (λ text. text.items ≡ address desk.now name.now asking.now moment) }
{
    let token = token_for(name, asking, moment);
    let mut text = Vec::new(alloc);
    push_address(&mut text, desk.base.as_slice(), &desk.keys, &token)?;
    Ok(text)
}

pub(crate) fn text_of(bytes: &[u8]) -> &str
    requires { IsUtf8 bytes.now }
    ensures { result.now ≡ bytes.now }
{
    match str::from_utf8(bytes) {
        Ok(text) => text,
        Err(_) => unreachable!(),
    }
}

/// The body that tells the name and the address of a file.
fn file_text(
    alloc: Global,
    desk: &Desk,
    name: &FileName,
    asking: &Token,
    moment: u64,
) -> Result<Bytes, Memory>
    requires asking { IsWritable asking.now }
    requires moment { IsMoment moment }
    ensures { IfOk result (λ text. text ≡ relative_text name.now (address desk.now name.now asking.now moment)) }
{
    let address = address(alloc, desk, name, asking, moment)?;
    relative_text(alloc, name.as_str(), text_of(&address))
}

/// The answer that tells the ruling on the making of the file of that name.
pub fn file_told(
    alloc: Global,
    desk: &Desk,
    name: &FileName,
    asking: &Token,
    moment: u64,
    ruling: Ruling,
) -> Result<Answer, Memory>
    requires asking { IsWritable asking.now }
    requires moment { IsMoment moment }
    ensures { IfOk result (λ a. a ≡ file_told desk.now name.now asking.now moment ruling) }
{
    let made = ruling.status == 200;
    let mut answer = ruling_told(alloc, ruling)?;
    if made {
        answer.version = None;
        answer.kind = BodyKind::Json;
        answer.body = file_text(alloc, desk, name, asking, moment)?;
    }
    Ok(answer)
}
