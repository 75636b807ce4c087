//! When a token counts.
ghost use Rattle.std.specs.Prelude.{◌≡◌};
ghost use Rattle.wopi_model.specs.Token.{is_live};

use wopi_model::Token;

/// Whether the token counts at the moment `now`, in milliseconds: until it expires, and unless it
/// was issued before the host opened.
pub fn live(token: &Token, opened: u64, now: u64) -> bool
    ensures { result ≡ is_live token.now opened now }
{
    now < token.expires && opened <= token.issued
}
