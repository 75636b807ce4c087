//! What a host knows beside its files.
ghost use Rattle.std.specs.Prelude.{◌≡◌, IfSome, None, false, true};
ghost use Rattle.wopi_model.specs.Moment.{IsMoment};
ghost use Rattle.access_tokens.specs.Addresses.{is_base};
ghost use Rattle.access_tokens.specs.Origins.{IsOrigin};
ghost use Rattle.host_server.specs.Editing.{may_tell};

use access_tokens::Keys;
use wopi_text::Bytes;

/// What a host knows beside its files: the keys of its tokens, the beginning of its addresses, the
/// moment at which it was opened, in milliseconds, whether it serves editors with what they want
/// beyond what every host answers, and the origin of the page that they stand in, if it tells one.
#[derive(Drop)]
pub struct Desk {
    pub keys: Keys,
    pub base: Bytes,
    pub opened: u64,
    pub editor: bool,
    pub origin: Option<Bytes>,
    pub ghost form: { is_base base ≡ true },
    pub ghost moment: { IsMoment opened },
    pub ghost page: { may_tell origin ≡ true },
}

impl Desk {
    /// That of a host which serves editors or doesn't, in a page of that origin. The base is 1 to 200 bytes of 0x21
    /// to 0x7E without a closing slash.
    pub fn serving(
        keys: Keys,
        base: Bytes,
        opened: u64,
        editor: bool,
        origin: Option<Bytes>,
    ) -> Desk
        requires form { is_base base ≡ true }
        requires moment { IsMoment opened }
        requires page { IfSome origin IsOrigin }
        ensures keys { result.keys ≡ keys }
        ensures base { result.base ≡ base }
        ensures opened { result.opened ≡ opened }
        ensures editor { result.editor ≡ editor }
        ensures origin { result.origin ≡ origin }
    {
        Desk {
            keys,
            base,
            opened,
            editor,
            origin,
        }
    }

    /// That of a host which serves no editors.
    pub fn new(keys: Keys, base: Bytes, opened: u64) -> Desk
        requires form { is_base base ≡ true }
        requires moment { IsMoment opened }
        ensures keys { result.keys ≡ keys }
        ensures base { result.base ≡ base }
        ensures opened { result.opened ≡ opened }
        ensures editor { result.editor ≡ false }
        ensures origin { result.origin ≡ None }
    {
        Desk::serving(keys, base, opened, false, None)
    }
}
