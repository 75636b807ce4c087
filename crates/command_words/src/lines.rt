//! Which word may stand where, of the words that the program reads.
ghost use Rattle.std.specs.Prelude.{◌≡◌, ◌↔◌, ◌<◌, IsTrue, length, map, string_bytes};
ghost use Rattle.std.specs.List.{list_any};
ghost use Rattle.std.specs.Str.{bytes_eq};
ghost use Rattle.command_words.specs.Names.{name_of};
ghost use Rattle.command_words.specs.Lines.{Allows, can_end, is_command, goes_with, is_editor_or_option, is_keep_or_option, is_new_option, keeps_logs, next_of_keep, next_of_options, is_replay, is_single, behind_editor, behind_origin, is_origin_or_option, may_end, names_of, next_behind, next_in, next_of, next_of_editor, next_of_once, next_of_origin, next_of_serve, next_option, next_value, option_rule, options_of, rules_of};

use crate::rules::Rule;

/// What may stand behind words.
#[derive(Clone, Copy, Debug, PartialEq, Eq)]
pub(crate) enum Next {
    /// The name of a command.
    Command,
    /// A word that keeps this rule; it has to stand there.
    Word(Rule),
    /// `--editor`, or no word.
    Editor,
    /// `--editor`, or an option of `serve`, or no word.
    EditorOrOption,
    /// `--origin`, or no word.
    Origin,
    /// `--origin`, or an option of `serve`, or no word.
    OriginOrOption,
    /// `--keep`, or an option of `serve`, or no word.
    KeepOrOption,
    /// An option of `serve` that doesn't stand there yet, or no word.
    Option,
    /// No word.
    End,
}

const ONCE: [Rule; 3] = [Rule::Folder, Rule::Key, Rule::Base];

const SERVE: [Rule; 5] = [
    Rule::Folder,
    Rule::Port,
    Rule::Key,
    Rule::Base,
    Rule::Workers,
];

const EDIT: [Rule; 4] = [Rule::Authority, Rule::Id, Rule::Token, Rule::Nonce];

const TOKEN: [Rule; 7] = [
    Rule::Key,
    Rule::User,
    Rule::Name,
    Rule::Rights,
    Rule::Serial,
    Rule::Issued,
    Rule::Expires,
];

const CTOKEN: [Rule; 6] = [
    Rule::Key,
    Rule::User,
    Rule::Rights,
    Rule::Serial,
    Rule::Issued,
    Rule::Expires,
];

const REPLAY: [Rule; 2] = [Rule::Seed, Rule::Count];

const CONTENTS: [Rule; 2] = [Rule::Id, Rule::Version];

/// The rules of a command's words behind its name, in their order; none where the name is no command's.
#[tactic(auto, unfolding(crate::specs::Lines::rules_of))]
fn rules_of(name: &str) -> &'static [Rule]
    ensures { result.now ≡ rules_of name.now }
{
    if name == "once" {
        return &ONCE;
    }
    if name == "serve" {
        return &SERVE;
    }
    if name == "edit" {
        return &EDIT;
    }
    if name == "token" {
        return &TOKEN;
    }
    if name == "ctoken" {
        return &CTOKEN;
    }
    if name == "replay" {
        return &REPLAY;
    }
    if name == "contents" {
        return &CONTENTS;
    }
    &[]
}

/// Whether the name is that of a command of one word.
#[tactic(auto, unfolding(crate::specs::Lines::is_single))]
fn is_single(name: &str) -> bool
    ensures { result ≡ is_single name.now }
{
    name == "upgrade" || name == "audit" || name == "--help" || name == "--version"
}

/// Whether the program has a command of this name.
fn is_command(name: &str) -> bool
    ensures { result ≡ is_command name.now }
{
    !rules_of(name).is_empty() || is_single(name)
}

/// The rule of the value of the option of that name.
#[tactic(auto, unfolding(crate::specs::Lines::option_rule))]
fn option_rule(name: &str) -> Option<Rule>
    ensures { result ≡ option_rule name.now }
{
    if name == "--journal" {
        Some(Rule::Journal)
    } else if name == "--each" {
        Some(Rule::Each)
    } else if name == "--first" {
        Some(Rule::First)
    } else if name == "--links" {
        Some(Rule::Links)
    } else if name == "--ids" {
        Some(Rule::Ids)
    } else if name == "--sync" {
        Some(Rule::Sync)
    } else {
        None
    }
}

/// The words behind `--origin` and its value, where these stand at their front, or all of them.
fn behind_origin(words: &[String]) -> &[String]
    ensures { map string_bytes result.now ≡ behind_origin (map string_bytes words.now) }
{
    match words {
        [name, _, rest @ ..] => {
            if name.as_str() == "--origin" {
                return rest;
            }
            words
        }
        [_] => words,
        [] => words,
    }
}

/// The words behind `--editor` and those that go with it, where it stands at their front, or all of them.
fn behind_editor(words: &[String]) -> &[String]
    ensures { map string_bytes result.now ≡ behind_editor (map string_bytes words.now) }
{
    match words {
        [word, rest @ ..] => {
            if word.as_str() == "--editor" {
                return behind_origin(rest);
            }
            words
        }
        [] => words,
    }
}

/// Whether an option of that name is among these, each of which is followed by its value.
fn is_told(options: &[String], name: &str) -> bool
    ensures { result ≡ list_any (bytes_eq name.now) (names_of (map string_bytes options.now)) }
{
    match options {
        [option, _, rest @ ..] => name == option.as_str() || is_told(rest, name),
        [option] => name == option.as_str(),
        [] => false,
    }
}

/// What may stand behind such options.
fn next_option(options: &[String]) -> Next
    ensures { result ≡ next_option (map string_bytes options.now) }
{
    match options {
        [_, _, rest @ ..] => next_option(rest),
        [name] => match option_rule(name.as_str()) {
            Some(rule) => Next::Word(rule),
            None => Next::End,
        },
        [] => Next::Option,
    }
}

/// What may stand behind `--keep` of `serve` and these.
fn next_of_keep(words: &[String]) -> Next
    ensures { result ≡ next_of_keep (map string_bytes words.now) }
{
    match words {
        [_, rest @ ..] => next_option(rest),
        [] => Next::Word(Rule::Logs),
    }
}

/// What may stand behind the words for editors and these.
fn next_of_options(words: &[String]) -> Next
    ensures { result ≡ next_of_options (map string_bytes words.now) }
{
    match words {
        [name, rest @ ..] => {
            if name.as_str() == "--keep" {
                return next_of_keep(rest);
            }
            next_option(words)
        }
        [] => Next::KeepOrOption,
    }
}

/// What may stand behind `--origin` of `serve` and these.
fn next_of_origin(words: &[String]) -> Next
    ensures { result ≡ next_of_origin (map string_bytes words.now) }
{
    match words {
        [_, rest @ ..] => next_of_options(rest),
        [] => Next::Word(Rule::Origin),
    }
}

/// What may stand behind `--editor` of `serve` and these.
fn next_of_editor(words: &[String]) -> Next
    ensures { result ≡ next_of_editor (map string_bytes words.now) }
{
    match words {
        [name, rest @ ..] => {
            if name.as_str() == "--origin" {
                return next_of_origin(rest);
            }
            next_of_options(words)
        }
        [] => Next::OriginOrOption,
    }
}

/// What may stand behind the words of `serve` that have rules, and these.
fn next_of_serve(words: &[String]) -> Next
    ensures { result ≡ next_of_serve (map string_bytes words.now) }
{
    match words {
        [word, rest @ ..] => {
            if word.as_str() == "--editor" {
                return next_of_editor(rest);
            }
            next_of_options(words)
        }
        [] => Next::EditorOrOption,
    }
}

/// What may stand behind the words of `once` that have rules, and these.
fn next_of_once(words: &[String]) -> Next
    ensures { result ≡ next_of_once (map string_bytes words.now) }
{
    match words {
        [] => Next::Editor,
        [_] => Next::Origin,
        [_, _] => Next::Word(Rule::Origin),
        [_, _, _, ..] => Next::End,
    }
}

/// What may stand behind the words of a command that have rules, and these.
#[tactic(auto, unfolding(crate::specs::Lines::next_behind))]
fn next_behind(name: &str, words: &[String]) -> Next
    ensures { result ≡ next_behind name.now (map string_bytes words.now) }
{
    if name == "serve" {
        return next_of_serve(words);
    }
    if name == "once" {
        return next_of_once(words);
    }
    Next::End
}

/// What may stand behind a command's name and these words.
fn next_in(name: &str, words: &[String]) -> Next
    ensures { result ≡ next_in name.now (map string_bytes words.now) }
{
    let rules = rules_of(name);
    if words.len() < rules.len() {
        return Next::Word(rules[words.len()]);
    }
    next_behind(name, &words[rules.len()..])
}

/// What may stand behind the words.
pub(crate) fn next_of(words: &[String]) -> Next
    ensures { result ≡ next_of (map string_bytes words.now) }
{
    match words {
        [name, rest @ ..] => next_in(name.as_str(), rest),
        [] => Next::Command,
    }
}

/// Whether the option goes with logs that are kept, or with none.
fn goes_with(keeps: bool, word: &str) -> bool
    ensures { result ≡ goes_with keeps word.now }
{
    if keeps {
        return word != "--journal";
    }
    word != "--ids" && word != "--sync"
}

/// Whether the word is `--keep`, or an option of `serve` that stands without it.
fn is_keep_or_option(word: &str) -> bool
    ensures { result ≡ is_keep_or_option word.now }
{
    word == "--keep" || (option_rule(word).is_some() && goes_with(false, word))
}

/// Whether the word is one of these, or `--editor`.
fn is_editor_or_option(word: &str) -> bool
    ensures { result ≡ is_editor_or_option word.now }
{
    word == "--editor" || is_keep_or_option(word)
}

/// Whether the word is one of these, or `--origin`.
fn is_origin_or_option(word: &str) -> bool
    ensures { result ≡ is_origin_or_option word.now }
{
    word == "--origin" || is_keep_or_option(word)
}

/// Whether `--keep` stands at the front of these.
fn keeps_logs(options: &[String]) -> bool
    ensures { result ≡ keeps_logs (map string_bytes options.now) }
{
    match options {
        [word, ..] => word.as_str() == "--keep",
        [] => false,
    }
}

/// Whether the word is an option of `serve` that goes with these and isn't among them.
fn is_new_option(options: &[String], word: &str) -> bool
    ensures { result ≡ is_new_option (map string_bytes options.now) word.now }
{
    option_rule(word).is_some() && goes_with(keeps_logs(options), word) && !is_told(options, word)
}

/// The options among the words of `serve`, behind those that have rules.
fn options_of(words: &[String]) -> &[String]
    ensures { map string_bytes result.now ≡ options_of (map string_bytes words.now) }
{
    if words.len() < 6 {
        return &[];
    }
    behind_editor(&words[6..])
}

impl Next {
    /// Whether the word may be this one, behind these words.
    pub(crate) fn allows(self, words: &[String], word: &str) -> bool
        ensures { IsTrue result ↔ Allows self (map string_bytes words.now) word.now }
    {
        match self {
            Next::Command => return is_command(word),
            Next::Word(rule) => return rule.is_met(word),
            Next::Editor => return word == "--editor",
            Next::EditorOrOption => return is_editor_or_option(word),
            Next::Origin => return word == "--origin",
            Next::OriginOrOption => return is_origin_or_option(word),
            Next::KeepOrOption => return is_keep_or_option(word),
            Next::Option => return is_new_option(options_of(words), word),
            Next::End => return false,
        }
    }

    /// What the word is called that may stand there.
    #[tactic(auto, unfolding(crate::specs::Names::name_of))]
    pub(crate) fn name(self) -> &'static str
        ensures { result.now ≡ name_of self }
    {
        match self {
            Next::Command => "a command",
            Next::Word(rule) => rule.name(),
            Next::Editor => "the word",
            Next::EditorOrOption => "an option",
            Next::Origin => "the word",
            Next::OriginOrOption => "an option",
            Next::KeepOrOption => "an option",
            Next::Option => "an option",
            Next::End => "the word",
        }
    }

    /// What it has to be.
    pub(crate) fn text(self) -> &'static str {
        match self {
            Next::Command => COMMANDS,
            Next::Word(rule) => rule.text(),
            Next::Editor => ONLY_EDITOR,
            Next::EditorOrOption => OPTIONS,
            Next::Origin => ONLY_ORIGIN,
            Next::OriginOrOption => OPTIONS,
            Next::KeepOrOption => OPTIONS,
            Next::Option => OPTIONS,
            Next::End => NO_WORD,
        }
    }

    /// Whether no word has to stand there.
    fn can_end(self) -> bool
        ensures { result ≡ can_end self }
    {
        match self {
            Next::Command => false,
            Next::Word(_) => false,
            Next::Editor => true,
            Next::EditorOrOption => true,
            Next::Origin => true,
            Next::OriginOrOption => true,
            Next::KeepOrOption => true,
            Next::Option => true,
            Next::End => true,
        }
    }
}

/// The rule of the first word.
const COMMANDS: &str =
    "once, serve, edit, replay, token, ctoken, upgrade, audit, contents, --help or --version";

/// That of an option of `serve`.
const OPTIONS: &str =
    "--journal, --each, --first, --links, --listen, --idle, --patience, --grace, --verbose, --editor and beside it --origin, or --keep and beside it, in place of --journal, --ids and --sync, each once";

/// That of a word behind the last one.
const NO_WORD: &str = "no word stands there";

/// Those of a word behind the last one that has to stand there.
const ONLY_EDITOR: &str = "no word stands there but --editor";

const ONLY_ORIGIN: &str = "no word stands there but --origin";

/// Whether the words are `replay` alone.
fn is_replay(words: &[String]) -> bool
    ensures { result ≡ is_replay (map string_bytes words.now) }
{
    match words {
        [word] => word.as_str() == "replay",
        _ => false,
    }
}

/// Whether no word has to stand behind the words, behind which this may.
pub(crate) fn may_end(words: &[String]) -> bool
    ensures { result ≡ may_end (map string_bytes words.now) }
{
    next_of(words).can_end() || is_replay(words)
}
