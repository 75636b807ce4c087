//! The rules of the words.
ghost use Rattle.std.specs.Prelude.{◌≡◌, ◌↔◌, ◌<◌, Bool, IsTrue, length};
ghost use Rattle.std.specs.Char.{is_ascii_alphanumeric};
ghost use Rattle.std.specs.List.{list_all};
ghost use Rattle.wopi_text.specs.FileName.{IsFileName};
ghost use Rattle.wopi_text.specs.Ids.{IsId};
ghost use Rattle.wopi_model.specs.User.{IsUser};
ghost use Rattle.access_tokens.specs.Addresses.{is_base};
ghost use Rattle.access_tokens.specs.Keys.{IsWordOf};
ghost use Rattle.access_tokens.specs.TokenText.{rights_of};
ghost use Rattle.command_words.specs.Explaining.{is_visible};
ghost use Rattle.command_words.specs.Names.{name_of_rule};
ghost use Rattle.command_words.specs.Rules.{HasPort, IsMomentWord, Keeps, is_nonce, is_number, is_visible_word, splits_at};

use access_tokens::{Keys, User, is_origin, may_write, moment_read};
use wopi_text::{FileName, decimal_read, id_read};

/// What a word has to be.
#[derive(Clone, Copy, Debug, PartialEq, Eq)]
pub(crate) enum Rule {
    Folder,
    Port,
    Key,
    Base,
    Workers,
    Authority,
    Id,
    Token,
    Nonce,
    User,
    Name,
    Rights,
    Serial,
    Issued,
    Expires,
    Seed,
    Count,
    Version,
    Journal,
    Each,
    First,
    Links,
    Ids,
    Sync,
    Logs,
    Origin,
}

/// Whether each byte is a visible character of ASCII.
fn are_visible(bytes: &[u8]) -> bool
    ensures { result ≡ list_all is_visible bytes.now }
{
    bytes.iter().all(|b| (b'!'..=b'~').contains(b))
}

/// Whether the word is 1 to so many visible characters of ASCII.
fn is_visible(word: &[u8], most: usize) -> bool
    ensures { result ≡ is_visible_word most word.now }
{
    !word.is_empty() && word.len() <= most && are_visible(word)
}

/// Whether the word is a number from one to another, without leading zeros.
fn is_number(word: &[u8], least: u64, most: u64) -> bool
    ensures { result ≡ is_number least most word.now }
{
    match decimal_read(word) {
        Some(number) => least <= number && number <= most,
        None => false,
    }
}

/// Whether a colon stands at that place, and a port behind it.
fn splits_at(word: &[u8], place: usize) -> bool
    requires { place < length word.now }
    ensures { result ≡ splits_at word.now place }
{
    word[place] == b':' && is_number(&word[place + 1..], 1, 65535)
}

/// Whether the word is a name that isn't empty, a colon and a port.
fn has_port(word: &[u8]) -> bool
    ensures { IsTrue result ↔ HasPort word.now }
{
    'places: for place in 1..word.len() {
        if splits_at(word, place) {
            return true;
        }
    }
    false
}

/// Whether it is such a word of visible characters.
fn is_authority(word: &[u8]) -> bool
    ensures { IsTrue result ↔ (IsTrue (is_visible_word 200 word.now) × HasPort word.now) }
{
    if !is_visible(word, 200) {
        return false;
    }
    has_port(word)
}

/// Whether the word is a base of addresses.
fn is_base(word: &[u8]) -> bool
    ensures { result ≡ is_base word.now }
{
    if word.is_empty() || word.len() > 200 {
        return false;
    }
    word[word.len() - 1] != b'/' && are_visible(word)
}

/// Whether each byte is an ASCII letter or digit.
fn are_alphanumeric(bytes: &[u8]) -> bool
    ensures { result ≡ list_all is_ascii_alphanumeric bytes.now }
{
    bytes.iter().all(|byte| byte.is_ascii_alphanumeric())
}

/// Whether the word is a nonce.
fn is_nonce(word: &[u8]) -> bool
    ensures { result ≡ is_nonce word.now }
{
    !word.is_empty() && word.len() <= 32 && are_alphanumeric(word)
}

/// Whether the word writes keys.
fn are_keys(word: &[u8]) -> bool
    ensures { IsTrue result ↔ ((keys : Keys) × IsWordOf keys word.now) }
{
    match Keys::read(word) {
        Some(_) => return true,
        None => return false,
    }
}

/// Whether the word is the id of a file.
fn is_id(word: &[u8]) -> bool
    ensures { IsTrue result ↔ IsId word.now }
{
    match id_read(word) {
        Ok(_) => return true,
        Err(_) => return false,
    }
}

/// Whether the word is a user.
fn is_user(word: &[u8]) -> bool
    ensures { IsTrue result ↔ IsUser word.now }
{
    match User::read(word) {
        Some(_) => return true,
        None => return false,
    }
}

/// Whether the word is a file's name.
fn is_file_name(word: &[u8]) -> bool
    ensures { IsTrue result ↔ IsFileName word.now }
{
    match FileName::read(word) {
        Ok(_) => return true,
        Err(_) => return false,
    }
}

/// Whether the word is the rights of a token.
fn are_rights(word: &[u8]) -> bool
    ensures { IsTrue result ↔ ((write : Bool) × (word.now ≡ rights_of write)) }
{
    match may_write(word) {
        Some(_) => return true,
        None => return false,
    }
}

/// Whether the word is a moment.
fn is_moment(word: &[u8]) -> bool
    ensures { IsTrue result ↔ IsMomentWord word.now }
{
    match moment_read(word) {
        Some(_) => return true,
        None => return false,
    }
}

impl Rule {
    /// Whether the word is what it has to be.
    pub(crate) fn is_met(self, word: &str) -> bool
        ensures { IsTrue result ↔ Keeps self word.now }
    {
        let word = word.as_bytes();
        match self {
            Rule::Folder => return !word.is_empty(),
            Rule::Port => return is_number(word, 1, 65535),
            Rule::Key => return are_keys(word),
            Rule::Base => return is_base(word),
            Rule::Workers => return is_number(word, 1, 16),
            Rule::Authority => return is_authority(word),
            Rule::Id => return is_id(word),
            Rule::Token => return is_visible(word, 2000),
            Rule::Nonce => return is_nonce(word),
            Rule::User => return is_user(word),
            Rule::Name => return is_file_name(word),
            Rule::Rights => return are_rights(word),
            Rule::Serial => return is_number(word, 0, u64::MAX),
            Rule::Issued => return is_moment(word),
            Rule::Expires => return is_moment(word),
            Rule::Seed => return is_number(word, 0, u64::MAX),
            Rule::Count => return is_number(word, 0, 10_000),
            Rule::Version => return is_number(word, 0, u64::MAX),
            Rule::Journal => return is_number(word, 1, 32_768),
            Rule::Each => return is_number(word, 1, 1_000_000),
            Rule::First => return is_number(word, 1, 1_000_000_000_000_000_000),
            Rule::Links => return is_number(word, 1, 1024),
            Rule::Ids => return is_number(word, 1, 32_768),
            Rule::Sync => return word == b"all".as_slice(),
            Rule::Logs => return !word.is_empty(),
            Rule::Origin => return is_origin(word),
        }
    }

    /// What the word is called.
    #[tactic(auto, unfolding(crate::specs::Names::name_of_rule))]
    pub(crate) fn name(self) -> &'static str
        ensures { result.now ≡ name_of_rule self }
    {
        match self {
            Rule::Folder => "FOLDER",
            Rule::Port => "PORT",
            Rule::Key => "KEY",
            Rule::Base => "BASE",
            Rule::Workers => "WORKERS",
            Rule::Authority => "AUTHORITY",
            Rule::Id => "ID",
            Rule::Token => "TOKEN",
            Rule::Nonce => "NONCE",
            Rule::User => "USER",
            Rule::Name => "NAME",
            Rule::Rights => "RIGHTS",
            Rule::Serial => "SERIAL",
            Rule::Issued => "ISSUED",
            Rule::Expires => "EXPIRES",
            Rule::Seed => "SEED",
            Rule::Count => "COUNT",
            Rule::Version => "VERSION",
            Rule::Journal => "--journal",
            Rule::Each => "--each",
            Rule::First => "--first",
            Rule::Links => "--links",
            Rule::Ids => "--ids",
            Rule::Sync => "--sync",
            Rule::Logs => "--keep",
            Rule::Origin => "--origin",
        }
    }

    /// What it has to be.
    pub(crate) fn text(self) -> &'static str {
        match self {
            Rule::Folder => "the path of a folder, which isn't empty",
            Rule::Port => "a number from 1 to 65535, without leading zeros",
            Rule::Key =>
                "1 to 64 bytes in hex; or N:HEX, or N:HEX,M:HEX, with different numbers from 0 to 255; or @PATH",
            Rule::Base => "1 to 200 visible ASCII characters, the last of them no slash",
            Rule::Workers => "a number from 1 to 16, without leading zeros",
            Rule::Authority =>
                "the host's name, a colon and a port from 1 to 65535; at most 200 visible ASCII characters",
            Rule::Id => "a file's name in lower-case hex, as 612e637376 for a.csv",
            Rule::Token => "1 to 2000 visible ASCII characters, or @PATH",
            Rule::Nonce => "1 to 32 ASCII letters and digits",
            Rule::User => "1 to 64 ASCII letters, digits, _ and -",
            Rule::Name =>
                "a file's name: 1 to 128 bytes, no control character, none of / \\ : * ? \" < > |, no period at its front, no period or space at its end",
            Rule::Rights => "r or w",
            Rule::Serial => "a number below 2^64, without leading zeros",
            Rule::Issued => "a moment in milliseconds since 1970, below 253402300800000",
            Rule::Expires => "a moment in milliseconds since 1970, below 253402300800000",
            Rule::Seed => "a number below 2^64, without leading zeros",
            Rule::Count => "a number from 0 to 10000, without leading zeros",
            Rule::Version => "a number below 2^64, without leading zeros and without the v",
            Rule::Journal => "a number from 1 to 32768, without leading zeros",
            Rule::Each => "a number from 1 to 1000000, without leading zeros",
            Rule::First => "a number from 1 to 1000000000000000000, without leading zeros",
            Rule::Links => "a number from 1 to 1024, without leading zeros",
            Rule::Ids => "a number from 1 to 32768, without leading zeros",
            Rule::Sync => "the word all",
            Rule::Logs => "the path of a folder, which isn't empty",
            Rule::Origin =>
                "http:// or https://, a host in lower case, and a port where it isn't the scheme's own; at most 200 characters, and no path",
        }
    }
}
