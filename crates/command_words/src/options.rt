//! Which words are options of a command.
ghost use Rattle.std.specs.Prelude.{◌≡◌};
ghost use Rattle.command_words.specs.Options.{is_around_option, is_flag, is_run_option, takes};

/// The commands that have options.
#[derive(Clone, Copy, Debug, PartialEq, Eq)]
pub enum Kind {
    Serve,
    Edit,
    Token,
    Ctoken,
}

/// Whether it is an option of `serve` that the program reads itself.
#[tactic(auto, unfolding(crate::specs::Options::is_run_option))]
pub(crate) fn is_run_option(word: &str) -> bool
    ensures { result ≡ is_run_option word.now }
{
    word == "--journal"
        || word == "--each"
        || word == "--first"
        || word == "--links"
        || word == "--ids"
        || word == "--sync"
}

/// Whether it is an option of `serve` that the adapters take.
#[tactic(auto, unfolding(crate::specs::Options::is_around_option))]
fn is_around_option(word: &str) -> bool
    ensures { result ≡ is_around_option word.now }
{
    word == "--listen" || word == "--idle" || word == "--patience" || word == "--grace"
}

/// Whether it is an option of the command, behind which a value stands.
#[tactic(auto, unfolding(crate::specs::Options::takes))]
pub(crate) fn takes(kind: Kind, word: &str) -> bool
    ensures { result ≡ takes kind word.now }
{
    match kind {
        Kind::Serve => {
            is_run_option(word) || is_around_option(word) || word == "--origin" || word == "--keep"
        }
        Kind::Edit => word == "--file" || word == "--nonce" || word == "--idle",
        Kind::Token => word == "--file" || word == "--user" || word == "--for",
        Kind::Ctoken => word == "--user" || word == "--for",
    }
}

/// Whether it is an option of the command that stands alone.
#[tactic(auto, unfolding(crate::specs::Options::is_flag))]
pub(crate) fn is_flag(kind: Kind, word: &str) -> bool
    ensures { result ≡ is_flag kind word.now }
{
    match kind {
        Kind::Serve => word == "--verbose" || word == "--editor",
        Kind::Edit => false,
        Kind::Token => word == "--read" || word == "--write",
        Kind::Ctoken => word == "--read" || word == "--write",
    }
}
