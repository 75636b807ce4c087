//! When a file was last saved, and the digest of its contents.
ghost use Rattle.std.specs.Prelude.{◌≡◌, ℕ, List, Some, true};
ghost use Rattle.sha2.specs.Sha256.{sha256};
ghost use Rattle.kept_locks.specs.Locks.{Standing};
ghost use Rattle.wopi_model.specs.Settle.{settled};
ghost use Rattle.wopi_model.specs.Step as steps;
ghost use Rattle.host_core.specs.Facts.{AreDigested, IsDigested, date_in, digest_if, facts_of, is_accept, late_if, look_for, undigested};
ghost use Rattle.host_core.specs.Files.{files_of, BeganAtMoment};
ghost use Rattle.host_core.specs.Numbers.{AreLocked, IsNumbered, named};
ghost use Rattle.host_core.specs.Whole.{joined};

use crate::decide::{Decision, decide, is_put};
use crate::file::KeptFile;
use crate::files::Rack;
use sha2::{Digest as _, Sha256};
use std::mem;
use wopi_model::{Act, Call};
use wopi_text::FileName;

/// The SHA-256 digest of contents.
#[derive(Clone, Copy, Debug, PartialEq, Eq)]
pub struct Digest {
    pub bytes: [u8; 32],
}

/// What an editor is told of a file: when it was last saved, in milliseconds since 1970, and its contents' digest
/// where that was asked for.
#[derive(Clone, Copy, Debug, PartialEq, Eq)]
pub struct Facts {
    pub saved: u64,
    pub digest: Option<Digest>,
}

/// Takes the act out of a call, which then looks at the file's lock.
pub fn withhold(call: &mut Call) -> Act
    ensures look { call.new ≡ look_for call.old }
    ensures act { result ≡ call.old.act }
{
    mem::replace(&mut call.act, Act::GetLock)
}

/// The digest of bytes.
fn digest_of(bytes: &[u8]) -> Digest
    ensures { result.bytes ≡ sha256 bytes.now }
{
    Digest {
        bytes: Sha256::digest(bytes),
    }
}

/// Computes the digest of a file's contents, where it isn't there yet.
fn fill_digest(file: &mut KeptFile)
    requires { IsDigested file.old }
    ensures same { file.new ≡ record file.old { digest = file.new.digest } }
    ensures digest { (contents : List ℕ) → file.old.contents ≡ Some contents → file.new.digest ≡ digest_if true contents }
    ensures digested { IsDigested file.new }
{
    let Some(contents) = &file.contents else {
        return;
    };
    if file.digest.is_none() {
        file.digest = Some(digest_of(contents.as_slice()));
    }
}

/// What is told of a file, if it exists. A digest that is asked for is computed once for these contents.
pub fn facts_in(file: &mut KeptFile, digest: bool) -> Option<Facts>
    requires { IsDigested file.old }
    ensures facts { result ≡ facts_of digest file.old.saved file.old.contents }
    ensures same { file.new ≡ record file.old { digest = file.new.digest } }
    ensures digested { IsDigested file.new }
{
    if file.contents.is_none() {
        return None;
    }
    if !digest {
        return Some(Facts {
            saved: file.saved,
            digest: None,
        });
    }
    fill_digest(file);
    Some(Facts {
        saved: file.saved,
        digest: file.digest,
    })
}

impl Rack {
    /// What is told of the file of a name, if it exists.
    pub fn facts(&mut self, name: &FileName, digest: bool) -> Option<Facts>
        requires numbered { IsNumbered self.old.index (named self.old.files.items) }
        requires digests { AreDigested self.old.files.items }
        ensures facts { (first : ℕ) (locks : List Standing) → result ≡ facts_of digest (date_in self.old.files.items name.now) (files_of first (joined self.old.files.items locks) name.now).contents }
        ensures files { undigested self.new.files.items ≡ undigested self.old.files.items }
        ensures digests { AreDigested self.new.files.items }
        ensures index { self.new.index ≡ self.old.index }
        ensures locks { self.new.locks ≡ self.old.locks }
    {
        match self.index.find(name) {
            None => None,
            Some(number) => {
                let file = &mut self.files[number as usize];
                facts_in(file, digest)
            }
        }
    }

    /// The call is a Put that would be accepted, and the file was last saved at another moment than the one that is known.
    pub fn is_late(&self, call: &Call, known: Option<u64>, opened: u64, now: u64) -> bool
        requires numbered { IsNumbered self.now.index (named self.now.files.items) }
        requires locked { (time : ℕ) × AreLocked self.now.files.items self.now.locks time }
        requires moments { (first : ℕ) × BeganAtMoment (files_of first (joined self.now.files.items self.now.locks.files) call.now.name).lock }
        ensures { (first : ℕ) → result ≡ late_if call.now.act known
            (is_accept (steps.decision (settled (files_of first (joined self.now.files.items self.now.locks.files) call.now.name) now) call.now opened now))
            (date_in self.now.files.items call.now.name) }
    {
        let Some(known) = known else {
            return false;
        };
        if !is_put(&call.act) {
            return false;
        }
        match self.index.find(&call.name) {
            None => return false,
            Some(number) => {
                let file = &self.files[number as usize];
                match decide(file, &self.locks, number, call, opened, now) {
                    Decision::Accept => return file.saved != known,
                    _refused => return false,
                }
            }
        }
    }
}
