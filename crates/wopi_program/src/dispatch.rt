//! The top call.
ghost use Rattle.std.specs.Prelude.{◌≡◌, ◌↔◌, ℕ, List, Some, length, map, string_bytes};
ghost use Rattle.std.specs.List.{AllByRecursion};
ghost use Rattle.wopi_program.specs.Words.{IsCommand, IsRow};
ghost use Rattle.wopi_program.specs.ServeWords.{IsServeRow};
ghost use Rattle.wopi_program.specs.Telling.{UsageEnds};
ghost use Rattle.wopi_program.specs.Runs.{RunEnds};
ghost use Rattle.access_tokens.specs.declared.keys.Keys.{Keys};

use crate::serve::run_serve;
use crate::serve_words::{Keep, ServeAsk};
use crate::{
    Command, Meant, Outside, help, read_words, refuse, run_audit, run_contents, run_ctoken,
    run_edit, run_once, run_replay, run_token, run_upgrade, tell, version,
};
use outside::{Clock, Dialer, Folder, Listener, Log, Sink, Source};
use std::alloc::Global;
use std::sync::Wait;
use std::thread::Threads;

/// Does what the words ask for, and answers the program's status.
pub fn run<
    R: Threads + Wait + Sync,
    S: Source,
    K: Sink + Send,
    F: Folder + Send,
    N: Listener + Send,
    D: Dialer,
    C: Clock + Send,
    G: Log + Send,
>(rt: &R, alloc: Global, words: &[String], outside: &mut Outside<S, K, F, N, D, C, G>) -> u8
    requires once { IsRow (map string_bytes words.now) Command.Once
        → (length outside.old.folders.items ≡ 1) × (length outside.old.clocks.items ≡ 1) }
    requires serve { (keys : Keys) (base : List ℕ) (ask : ServeAsk) → IsServeRow (map string_bytes words.now) keys base ask
        → (length outside.old.folders.items ≡ 16) × (length outside.old.listeners.items ≡ ask.workers) × (length outside.old.clocks.items ≡ ask.workers) }
    requires keep { (keys : Keys) (base : List ℕ) (ask : ServeAsk) (keep : Keep) → IsServeRow (map string_bytes words.now) keys base ask → ask.keep ≡ Some keep
        → (length outside.old.logs.items ≡ 16) × AllByRecursion (λ log. G.synced log ≡ G.held log) outside.old.logs.items }

    // Each link that a listener gave before was handed back, as with listeners that gave none.
    requires has_all_back { IsRow (map string_bytes words.now) Command.Serve
        → AllByRecursion (λ listener. N.finished listener ≡ N.accepted listener) outside.old.listeners.items }

    ensures usage { result ≡ 2 ↔ (¬ IsCommand (map string_bytes words.now)) }
    ensures usage_leaves { ¬ IsCommand (map string_bytes words.now) → UsageEnds ⟦<Outside<S, K, F, N, D, C, G> as Meant<S, K, F, N, D, C, G, N::Link>>⟧.meanings result outside.old outside.new }
    ensures runs { (command : Command) → IsRow (map string_bytes words.now) command
        → RunEnds ⟦<Outside<S, K, F, N, D, C, G> as Meant<S, K, F, N, D, C, G, N::Link>>⟧.meanings (map string_bytes words.now) result outside.old outside.new command }
{
    match read_words(words) {
        Some(Command::Once) => run_once(alloc, words, outside),
        Some(Command::Serve) => run_serve(rt, alloc, words, outside),
        Some(Command::Edit) => run_edit(alloc, words, outside),
        Some(Command::Replay) => run_replay(alloc, words, outside),
        Some(Command::Token) => run_token(alloc, words, outside),
        Some(Command::Ctoken) => run_ctoken(alloc, words, outside),
        Some(Command::Upgrade) => run_upgrade(alloc, words, outside),
        Some(Command::Audit) => run_audit(alloc, words, outside),
        Some(Command::Contents) => run_contents(alloc, words, outside),
        Some(Command::Help) => tell(outside, help()),
        Some(Command::Version) => tell(outside, version()),
        None => refuse(outside),
    }
}
