//! What the adapters to the outside world take.
ghost use Rattle.std.specs.Prelude.{◌≡◌, None, Some, IfErr, IfOk, codes, map, string_bytes};
ghost use Rattle.command_words.specs.Values.{number_of, text_of, values_of};
ghost use Rattle.command_words.specs.Meaning.{IsAround, IsDefault};
ghost use Rattle.command_words.specs.Refusals.{IsFor};

use crate::values::{seconds, text};
use crate::wrong::{Refused, hidden};
use std::alloc::Global;
use wopi_text::Memory;

/// Where the listeners stand, and how long the adapters wait.
#[derive(Drop)]
pub struct Around {
    /// The address that `serve` listens at, without the port.
    pub listen: String,
    /// After how many seconds without a byte a link is given up; 0 for never.
    pub idle: u32,
    /// After how many seconds a message that comes too slowly is given up; 0 for never.
    pub patience: u32,
    /// How many seconds after a signal the links are closed.
    pub grace: u32,
    /// Whether `serve` says on the notes that it is ready and that it ends.
    pub verbose: bool,
}

/// The address where no other is told: this machine alone reaches it.
const LISTEN: &str = "127.0.0.1";

const IDLE: u32 = 60;

const PATIENCE: u32 = 120;

const GRACE: u32 = 30;

/// The rule of each number of seconds.
const SECONDS: &str = "a number of seconds from 0 to 1000000, once, without leading zeros";

/// The address that the options tell.
fn listen_told(options: &[String]) -> Result<&str, Refused>
    ensures told { IfOk result (λ text. text_of (codes "127.0.0.1") (values_of (codes "--listen") (map string_bytes options.now)) ≡ Some text.now) }
    ensures refused { IfErr result (λ _. text_of (codes "127.0.0.1") (values_of (codes "--listen") (map string_bytes options.now)) ≡ None) }
{
    text(
        options,
        "--listen",
        LISTEN,
        hidden("--listen ADDRESS", "an address, once, as 0.0.0.0"),
    )
}

/// The seconds of `--idle`.
fn idle_told(options: &[String]) -> Result<u32, Refused>
    ensures told { IfOk result (λ number. number_of 60 (values_of (codes "--idle") (map string_bytes options.now)) ≡ Some number) }
    ensures refused { IfErr result (λ _. number_of 60 (values_of (codes "--idle") (map string_bytes options.now)) ≡ None) }
{
    seconds(options, "--idle", IDLE, hidden("--idle S", SECONDS))
}

/// Those of `--patience`.
fn patience_told(options: &[String]) -> Result<u32, Refused>
    ensures told { IfOk result (λ number. number_of 120 (values_of (codes "--patience") (map string_bytes options.now)) ≡ Some number) }
    ensures refused { IfErr result (λ _. number_of 120 (values_of (codes "--patience") (map string_bytes options.now)) ≡ None) }
{
    seconds(
        options,
        "--patience",
        PATIENCE,
        hidden("--patience S", SECONDS),
    )
}

/// Those of `--grace`.
fn grace_told(options: &[String]) -> Result<u32, Refused>
    ensures told { IfOk result (λ number. number_of 30 (values_of (codes "--grace") (map string_bytes options.now)) ≡ Some number) }
    ensures refused { IfErr result (λ _. number_of 30 (values_of (codes "--grace") (map string_bytes options.now)) ≡ None) }
{
    seconds(options, "--grace", GRACE, hidden("--grace S", SECONDS))
}

/// A copy of a text.
fn copied(alloc: Global, text: &str) -> Result<String, Memory>
    ensures { IfOk result (λ copy. string_bytes copy ≡ text.now) }
{
    let copy = String::from_str(alloc, text)?;
    Ok(copy)
}

impl Around {
    /// What stands where no option does.
    pub fn new(alloc: Global) -> Result<Around, Memory>
        ensures { IfOk result IsDefault }
    {
        Ok(Around {
            listen: String::from_str(alloc, LISTEN)?,
            idle: IDLE,
            patience: PATIENCE,
            grace: GRACE,
            verbose: false,
        })
    }

    /// What these options tell.
    #[tactic(auto, using(crate::proofs::RefusalLemmas::no_listen, crate::proofs::RefusalLemmas::no_idle, crate::proofs::RefusalLemmas::no_patience, crate::proofs::RefusalLemmas::no_grace, crate::proofs::RefusalLemmas::for_memory))]
    pub(crate) fn told(alloc: Global, options: &[String], verbose: bool) -> Result<Around, Refused>
        ensures told { IfOk result (IsAround (map string_bytes options.now) verbose) }
        ensures refused { IfErr result (IsFor ((around : Around) → ¬ IsAround (map string_bytes options.now) verbose around)) }
    {
        let listen = listen_told(options)?;
        let idle = idle_told(options)?;
        let patience = patience_told(options)?;
        let grace = grace_told(options)?;
        let listen = copied(alloc, listen)?;
        Ok(Around {
            listen,
            idle,
            patience,
            grace,
            verbose,
        })
    }
}
