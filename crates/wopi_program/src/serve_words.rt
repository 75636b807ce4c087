//! The words of the command `serve`.
ghost use Rattle.std.specs.Prelude.{◌≡◌, ◌<◌, ◌≤◌, ◌↔◌, ℕ, List, drop, is_some, length, map, string_bytes, IfSome, IfNone, IsSome, IsTrue, Some};
ghost use Rattle.std.specs.Option.{option_copied};
ghost use Rattle.wopi_program.specs.ServeWords.{AreBounded, IsServe, IsServeRow, ask_of, asked, asked_of, behind_keep, goes_with, kept_as, logs_in, logs_told, number_in, option_before, options_of, unless_told, with_each, with_first, with_ids, with_journal, with_links, with_sync, sync_in};
ghost use Rattle.access_tokens.specs.declared.keys.Keys.{Keys};
ghost use Rattle.host_core.specs.Opening.{most_first};

use crate::editor_words::{behind_editor, serves_editors, tells_origin, words_from};
use crate::once_words::is_base;
use access_tokens::Keys;
use host_core::MOST_FIRST;
use wopi_text::decimal_read;

/// The most entries of a shard.
const MOST_ENTRIES: u32 = 32768;

/// The most entries of a shard where the words name no number.
const ENTRIES: u32 = 4096;

/// The most places of a shard for ids where logs are kept, and how many it has where the words name no number.
const MOST_IDS: u32 = 32768;

const IDS: u32 = 4096;

/// The most connections of a worker, and how many it serves where the words name no number.
const LINKS: u32 = 1000000;

/// The version that a host begins with where the words name no number.
const FIRST: u64 = 1;

/// The most workers that the word WORKERS names.
const WORKERS: u32 = 16;

/// The most connections that are served at a time.
const AT_A_TIME: u32 = 1024;

/// The numbers in the words of `serve`.
#[derive(Clone, Copy, Debug, PartialEq, Eq)]
pub struct ServeAsk {
    pub port: u32,
    /// How many connections are served at a time, each by a worker of its own.
    pub workers: u32,
    /// The most entries of each shard.
    pub capacity: u32,
    /// After how many connections a worker ends.
    pub each: u32,
    /// The version of each file that stands in the folder at the opening.
    pub first: u64,
    /// Whether editors are served with what they want beyond what every host answers.
    pub editor: bool,
    /// How logs are kept, where they are.
    pub keep: Option<Keep>,
}

/// How logs are kept.
#[derive(Clone, Copy, Debug, PartialEq, Eq)]
pub struct Keep {
    /// For how many held locks and ids that are refused each shard has places.
    pub ids: u32,
    /// Whether a log is synced at each entry that changes something, or at those alone that change the folder.
    pub syncs_all: bool,
}

/// The numbers of the options, each where its option stands there.
#[derive(Clone, Copy, Debug, PartialEq, Eq)]
pub(crate) struct ServeOptions {
    pub(crate) journal: Option<u32>,
    pub(crate) each: Option<u32>,
    pub(crate) first: Option<u64>,
    pub(crate) links: Option<u32>,
    pub(crate) ids: Option<u32>,
    pub(crate) sync: Option<bool>,
}

const NO_OPTIONS: ServeOptions = ServeOptions {
    journal: None,
    each: None,
    first: None,
    links: None,
    ids: None,
    sync: None,
};

/// The number that the word writes, if it is from 1 to the most.
fn number_in(word: &str, most: u64) -> Option<u64>
    ensures value { result ≡ number_in most word.now }
    ensures fits { IfSome result (λ number. (1 ≤ number) × (number ≤ most)) }
{
    match decimal_read(word.as_bytes()) {
        None => None,
        Some(number) => {
            if number == 0 || number > most {
                None
            } else {
                Some(number)
            }
        }
    }
}

/// The same of a most that is small.
fn small_in(word: &str, most: u32) -> Option<u32>
    ensures value { result ≡ number_in most word.now }
    ensures fits { IfSome result (λ number. (1 ≤ number) × (number ≤ most)) }
{
    match number_in(word, most as u64) {
        None => None,
        Some(number) => Some(number as u32),
    }
}

/// The options with `--journal` in front of them.
fn with_journal(options: ServeOptions, word: &str) -> Option<ServeOptions>
    ensures value { result ≡ with_journal options (unless_told options.journal (number_in 32768 word.now)) }
    ensures fits { AreBounded options → IfSome result AreBounded }
{
    match options.journal {
        Some(_) => None,
        None => match small_in(word, MOST_ENTRIES) {
            None => None,
            Some(number) => Some(ServeOptions {
                journal: Some(number),
                ..options
            }),
        },
    }
}

/// The options with `--each` in front of them.
fn with_each(options: ServeOptions, word: &str) -> Option<ServeOptions>
    ensures value { result ≡ with_each options (unless_told options.each (number_in 1000000 word.now)) }
    ensures fits { AreBounded options → IfSome result AreBounded }
{
    match options.each {
        Some(_) => None,
        None => match small_in(word, LINKS) {
            None => None,
            Some(number) => Some(ServeOptions {
                each: Some(number),
                ..options
            }),
        },
    }
}

/// The options with `--first` in front of them.
fn with_first(options: ServeOptions, word: &str) -> Option<ServeOptions>
    ensures value { result ≡ with_first options (unless_told options.first (number_in (most_first) word.now)) }
    ensures fits { AreBounded options → IfSome result AreBounded }
{
    match options.first {
        Some(_) => None,
        None => match number_in(word, MOST_FIRST) {
            None => None,
            Some(number) => Some(ServeOptions {
                first: Some(number),
                ..options
            }),
        },
    }
}

/// The options with `--links` in front of them.
fn with_links(options: ServeOptions, word: &str) -> Option<ServeOptions>
    ensures value { result ≡ with_links options (unless_told options.links (number_in 1024 word.now)) }
    ensures fits { AreBounded options → IfSome result AreBounded }
{
    match options.links {
        Some(_) => None,
        None => match small_in(word, AT_A_TIME) {
            None => None,
            Some(number) => Some(ServeOptions {
                links: Some(number),
                ..options
            }),
        },
    }
}

/// The options with `--ids` in front of them.
fn with_ids(options: ServeOptions, word: &str) -> Option<ServeOptions>
    ensures value { result ≡ with_ids options (unless_told options.ids (number_in 32768 word.now)) }
    ensures fits { AreBounded options → IfSome result AreBounded }
{
    match options.ids {
        Some(_) => None,
        None => match small_in(word, MOST_IDS) {
            None => None,
            Some(number) => Some(ServeOptions {
                ids: Some(number),
                ..options
            }),
        },
    }
}

/// Whether all changes are synced, by the word behind `--sync`.
fn sync_in(word: &str) -> Option<bool>
    ensures { result ≡ sync_in word.now }
{
    if word == "all" {
        return Some(true);
    }
    None
}

/// The options with `--sync` in front of them.
fn with_sync(options: ServeOptions, word: &str) -> Option<ServeOptions>
    ensures value { result ≡ with_sync options (unless_told options.sync (sync_in word.now)) }
    ensures fits { AreBounded options → IfSome result AreBounded }
{
    match options.sync {
        Some(_) => None,
        None => match sync_in(word) {
            None => None,
            Some(all) => Some(ServeOptions {
                sync: Some(all),
                ..options
            }),
        },
    }
}

/// An option in front of others.
fn option_before(name: &str, word: &str, options: ServeOptions) -> Option<ServeOptions>
    ensures value { result ≡ option_before name.now word.now options }
    ensures fits { AreBounded options → IfSome result AreBounded }
{
    if name == "--journal" {
        with_journal(options, word)
    } else if name == "--each" {
        with_each(options, word)
    } else if name == "--first" {
        with_first(options, word)
    } else if name == "--links" {
        with_links(options, word)
    } else if name == "--ids" {
        with_ids(options, word)
    } else if name == "--sync" {
        with_sync(options, word)
    } else {
        None
    }
}

/// The numbers of the options, each of which may stand there once, in any order.
fn options(words: &[String]) -> Option<ServeOptions>
    ensures value { result ≡ options_of (map string_bytes words.now) }
    ensures fits { IfSome result AreBounded }
{
    if words.len() > 12 {
        return None;
    }
    match words {
        [] => Some(NO_OPTIONS),
        [name, word, rest @ ..] => match options(rest) {
            None => None,
            Some(others) => option_before(name.as_str(), word.as_str(), others),
        },
        _ => None,
    }
}

/// What `--keep` in front of these words names.
fn logs_in(words: &[String]) -> Option<&str>
    ensures { option_copied result ≡ logs_in (map string_bytes words.now) }
{
    match words {
        [name, logs, ..] => {
            if name.as_str() == "--keep" {
                return Some(logs.as_str());
            }
            None
        }
        [_] => None,
        [] => None,
    }
}

/// The words behind it and its value, or all of them where it doesn't stand there.
fn behind_keep(words: &[String]) -> &[String]
    ensures { map string_bytes result.now ≡ behind_keep (map string_bytes words.now) }
{
    match words {
        [name, _, rest @ ..] => {
            if name.as_str() == "--keep" {
                return rest;
            }
            words
        }
        [_] => words,
        [] => words,
    }
}

/// Whether logs are kept, by the words behind WORKERS.
fn keeps(words: &[String]) -> bool
    ensures { result ≡ is_some (logs_told (map string_bytes words.now)) }
{
    match logs_in(behind_editor(words)) {
        Some(_) => return true,
        None => return false,
    }
}

/// Whether the folder of logs, where one is named, isn't empty.
fn names_logs(words: &[String]) -> bool
    ensures { IsTrue result ↔ IfSome (logs_told (map string_bytes words.now)) (λ logs. 0 < length logs) }
{
    match logs_in(behind_editor(words)) {
        Some(logs) => return !logs.is_empty(),
        None => return true,
    }
}

/// The folder of logs that the words of `serve` name.
pub(crate) fn logs_named(words: &[String]) -> Option<&str>
    ensures { option_copied result ≡ logs_told (drop 6 (map string_bytes words.now)) }
{
    logs_in(behind_editor(words_from(words, 6)))
}

/// How logs are kept, where they are.
fn kept_as(keeps: bool, ids: Option<u32>, sync: Option<bool>) -> Option<Keep>
    requires { IfSome ids (λ number. (1 ≤ number) × (number ≤ 32768)) }
    ensures value { result ≡ kept_as keeps ids sync }
    ensures fits { IfSome result (λ keep. (1 ≤ keep.ids) × (keep.ids ≤ 32768)) }
{
    if keeps {
        return Some(Keep {
            ids: ids.unwrap_or(IDS),
            syncs_all: sync.unwrap_or(false),
        });
    }
    None
}

/// Whether the options go with logs, or with none.
fn goes_with(keeps: bool, options: ServeOptions) -> bool
    ensures { result ≡ goes_with keeps options }
{
    if keeps {
        return options.journal.is_none();
    }
    options.ids.is_none() && options.sync.is_none()
}

/// The numbers together, each option's own or that which stands for it where it is missing.
fn ask_of(port: u32, workers: u32, editor: bool, keeps: bool, options: ServeOptions) -> ServeAsk
    requires workers { (1 ≤ workers) × (workers ≤ 16) }
    requires options { AreBounded options }
    ensures value { result ≡ ask_of port workers editor keeps options }
    ensures workers { (1 ≤ result.workers) × (result.workers ≤ 1024) }
    ensures capacity { (1 ≤ result.capacity) × (result.capacity ≤ 32768) }
    ensures first { (1 ≤ result.first) × (result.first ≤ most_first) }
    ensures keep { IfSome result.keep (λ keep. (1 ≤ keep.ids) × (keep.ids ≤ 32768)) }
{
    ServeAsk {
        port,
        workers: options.links.unwrap_or(workers),
        capacity: options.journal.unwrap_or(ENTRIES),
        each: options.each.unwrap_or(LINKS),
        first: options.first.unwrap_or(FIRST),
        editor,
        keep: kept_as(keeps, options.ids, options.sync),
    }
}

/// The same where all of them are there, and go together.
fn asked(
    port: Option<u32>,
    workers: Option<u32>,
    editor: bool,
    keeps: bool,
    options: Option<ServeOptions>,
) -> Option<ServeAsk>
    requires workers { IfSome workers (λ number. (1 ≤ number) × (number ≤ 16)) }
    requires options { IfSome options AreBounded }
    ensures value { result ≡ asked port workers editor keeps options }
    ensures workers { IfSome result (λ ask. (1 ≤ ask.workers) × (ask.workers ≤ 1024)) }
    ensures capacity { IfSome result (λ ask. (1 ≤ ask.capacity) × (ask.capacity ≤ 32768)) }
    ensures first { IfSome result (λ ask. (1 ≤ ask.first) × (ask.first ≤ most_first)) }
    ensures keep { IfSome result (λ ask. IfSome ask.keep (λ keep. (1 ≤ keep.ids) × (keep.ids ≤ 32768))) }
{
    match port {
        None => None,
        Some(port) => match workers {
            None => None,
            Some(workers) => match options {
                None => None,
                Some(options) => {
                    if goes_with(keeps, options) {
                        return Some(ask_of(port, workers, editor, keeps, options));
                    }
                    None
                }
            },
        },
    }
}

/// The numbers of the port's word, of the workers' word and of those behind it.
fn asked_of(port: &str, workers: &str, rest: &[String]) -> Option<ServeAsk>
    ensures value { result ≡ asked_of port.now workers.now (map string_bytes rest.now) }
    ensures workers { IfSome result (λ ask. (1 ≤ ask.workers) × (ask.workers ≤ 1024)) }
    ensures capacity { IfSome result (λ ask. (1 ≤ ask.capacity) × (ask.capacity ≤ 32768)) }
    ensures first { IfSome result (λ ask. (1 ≤ ask.first) × (ask.first ≤ most_first)) }
    ensures keep { IfSome result (λ ask. IfSome ask.keep (λ keep. (1 ≤ keep.ids) × (keep.ids ≤ 32768))) }
{
    asked(
        small_in(port, 65535),
        small_in(workers, WORKERS),
        serves_editors(rest),
        keeps(rest),
        options(behind_keep(behind_editor(rest))),
    )
}

/// The keys, the base and the numbers in the words of `serve`, if the words are that command's.
pub(crate) fn serve_words(words: &[String]) -> Option<(Keys, &str, ServeAsk)>
    ensures some { IfSome result (λ row. IsServeRow (map string_bytes words.now) row.0 row.1.now row.2) }
    ensures workers { IfSome result (λ row. (1 ≤ row.2.workers) × (row.2.workers ≤ 1024)) }
    ensures capacity { IfSome result (λ row. (1 ≤ row.2.capacity) × (row.2.capacity ≤ 32768)) }
    ensures first { IfSome result (λ row. (1 ≤ row.2.first) × (row.2.first ≤ most_first)) }
    ensures keep { IfSome result (λ row. IfSome row.2.keep (λ keep. (1 ≤ keep.ids) × (keep.ids ≤ 32768))) }
    ensures none { IfNone result (¬ IsServe (map string_bytes words.now)) }
{
    match words {
        [word, folder, port, key, base, workers, rest @ ..] => {
            if word.as_str() != "serve" {
                return None;
            }
            if folder.is_empty() {
                return None;
            }
            if !is_base(base.as_str()) {
                return None;
            }
            if !tells_origin(rest) {
                return None;
            }
            if !names_logs(rest) {
                return None;
            }
            let keys = Keys::read(key.as_bytes())?;
            let ask = asked_of(port.as_str(), workers.as_str(), rest)?;
            Some((keys, base.as_str(), ask))
        }
        _ => None,
    }
}

/// The numbers in the words of `serve`, if the words are that command's.
pub fn serve_ask(words: &[String]) -> Option<ServeAsk>
    ensures { (ask : ServeAsk) → (result ≡ Some ask)
        ↔ ((keys : Keys) × (base : List ℕ) × IsServeRow (map string_bytes words.now) keys base ask) }
{
    match serve_words(words) {
        Some((_key, _base, ask)) => Some(ask),
        None => None,
    }
}
