//! Journals, judged line by line.
ghost use Rattle.std.specs.Prelude.{◌≡◌, ◌↔◌, ◌∷◌, ◌++◌, [], ◌<◌, ◌≤◌, ◌+◌, ℕ, List, IfOk, IfSome, OnOk, None, Some, Ok, length};
ghost use Rattle.wopi_model.specs.Shard.{Opening, Shard};
ghost use Rattle.journal_text.specs.Journals.{most_entries};
ghost use Rattle.journal_audit.specs.declared.verdict.AuditFault.{AuditFault};
ghost use Rattle.journal_audit.specs.declared.verdict.Verdict.TheVariants.{Bad, Legal};
ghost use Rattle.journal_audit.specs.Audits.{AreOpened, IsFound, IsOpenedHost, IsTurnIn, Judges, Keeps, Turns};
ghost use Rattle.std.specs.List.{AllByRecursion};
ghost use Rattle.journal_audit.specs.Lines.{Begun, IsBadLine, KeepsBounds, LegalText, opened_host};
ghost use Rattle.journal_audit.specs.Tracks.{IsSound, Knows};

use crate::order::Order;
use crate::track::Track;
use crate::verdict::{AuditFault, Verdict};
use journal_text::{JournalText, Line};
use std::alloc::Global;
use std::marker::Model;
use wopi_text::{Bytes, FileName, Memory};

/// The shards of a host.
const SHARDS: usize = 16;

/// What has to be known of the lines so far to judge the next one.
#[derive(Drop)]
pub struct Auditor {
    order: Order,
    tracks: Vec<Track>,
}

impl Model for Auditor {
    ghost use Rattle.std.specs.Prelude.{◌≡◌, length};
    ghost use Rattle.journal_audit.specs.Audits.{Audited};

    ghost Value = { Audited };

    ghost view = { λ a. record { order = a.order; tracks = a.tracks.items } };

    ghost invariant = { λ a. length a.tracks.items ≡ 16 };
}

/// The tracks of shards that have no file yet.
fn new_tracks(alloc: Global, opened: u64, first: u64) -> Result<Vec<Track>, Memory>
    ensures { IfOk result (λ tracks. (length tracks.items ≡ 16) × AreOpened tracks.items [] opened first) }
{
    let mut tracks = Vec::with_capacity(alloc, SHARDS)?;
    for _ in 0..SHARDS {
        tracks.push(Track::new(alloc, opened, first))?;
    }
    Ok(tracks)
}

/// Adds an opening file to the track of its shard.
fn add_opening(tracks: &mut Vec<Track>, name: &FileName, size: u64) -> Result<(), Memory>
    requires { length tracks.old.items ≡ 16 }
    ensures many { length tracks.new.items ≡ 16 }
    ensures opened { OnOk result ((files : Opening) (contents : List ℕ) (opened first : ℕ) → length contents ≡ size → AreOpened tracks.old.items files opened first → AreOpened tracks.new.items (files ++ (name.now, contents) ∷ []) opened first) }
{
    match tracks[usize::from(name.shard())].add_file(name, size) {
        Ok(()) => return Ok(()),
        Err(memory) => return Err(memory),
    }
}

/// What is wrong with the time or the ruling of a line of a shard, if something is. Its track goes on.
fn turn(track: &mut Track, line: &Line) -> Result<Option<AuditFault>, Memory>
    requires { IsSound line.now }
    ensures { IfOk result (λ wrong. (shard : Shard) → Knows track.old shard → IsTurnIn shard line.entry.now wrong track.new) }
{
    if line.now != track.now().max(line.moment) {
        return Ok(Some(AuditFault::Now));
    }
    if !track.take(line)? {
        return Ok(Some(AuditFault::Ruling));
    }
    Ok(None)
}

/// The same, where the tracks of all shards are there.
fn take_turn(tracks: &mut Vec<Track>, line: &Line) -> Result<Option<AuditFault>, Memory>
    requires many { length tracks.old.items ≡ 16 }
    requires sound { IsSound line.now }
    ensures many { length tracks.new.items ≡ 16 }
    ensures turns { IfOk result (λ wrong. Turns tracks.old.items line.entry.now wrong tracks.new.items) }
{
    match turn(&mut tracks[usize::from(line.shard)], line) {
        Ok(wrong) => return Ok(wrong),
        Err(memory) => return Err(memory),
    }
}

/// What is wrong with a line, if something is. Order and tracks go on.
fn judge(
    order: &mut Order,
    tracks: &mut Vec<Track>,
    line: &Line,
) -> Result<Option<AuditFault>, Memory>
    requires many { length tracks.old.items ≡ 16 }
    requires sound { IsSound line.now }
    ensures many { length tracks.new.items ≡ 16 }
    ensures judges { IfOk result (λ wrong. Judges (record { order = order.old; tracks = tracks.old.items }) line.entry.now wrong (record { order = order.new; tracks = tracks.new.items })) }
{
    if !order.takes(line) {
        return Ok(Some(AuditFault::Order));
    }
    match take_turn(tracks, line)? {
        Some(fault) => return Ok(Some(fault)),
        None => {}
    }
    order.go_on(line)?;
    Ok(None)
}

impl Auditor {
    /// Before the lines of a host that has no file yet.
    pub fn new(alloc: Global, opened: u64, first: u64) -> Result<Auditor, Memory>
        ensures { IfOk result (λ auditor. IsOpenedHost auditor [] opened first) }
    {
        let tracks = new_tracks(alloc, opened, first)?;
        Ok(Auditor {
            order: Order::new(alloc),
            tracks,
        })
    }

    /// Adds a file that stood there when the host opened, whose contents have that size. Of two of one name the
    /// first counts.
    pub fn add_file(&mut self, name: &FileName, size: u64) -> Result<(), Memory>
        ensures { OnOk result ((files : Opening) (contents : List ℕ) (opened first : ℕ) → length contents ≡ size → IsOpenedHost self.old files opened first → IsOpenedHost self.new (files ++ (name.now, contents) ∷ []) opened first) }
    {
        match add_opening(&mut self.tracks, name, size) {
            Ok(()) => return Ok(()),
            Err(memory) => return Err(memory),
        }
    }

    /// What is wrong with the next line, if something is. Behind such a line no more can be judged.
    pub fn take(&mut self, line: &Line) -> Result<Option<AuditFault>, Memory>
        requires { IsSound line.now }
        ensures { IfOk result (λ wrong. Judges self.old line.entry.now wrong self.new) }
    {
        judge(&mut self.order, &mut self.tracks, line)
    }
}

/// The auditor of a host, behind its opening files.
fn begin(alloc: Global, text: &JournalText) -> Result<Auditor, Memory>
    ensures { IfOk result (λ auditor. Keeps auditor (opened_host text.now.files text.now.opened text.now.first)) }
{
    let mut auditor = Auditor::new(alloc, text.opened, text.first)?;
    for file in text.files.as_slice() {
        auditor.add_file(&file.0, file.1.as_slice().len() as u64)?;
    }
    Ok(auditor)
}

/// Where the first line is that isn't legal, and what is wrong with it.
fn first_bad(auditor: &mut Auditor, lines: &[Line]) -> Result<Option<(u64, AuditFault)>, Memory>
    requires { AllByRecursion IsSound lines.now }
    ensures found { IfOk result (λ found. (begun : Begun) → Keeps auditor.old begun → IsFound begun lines.now found) }
    ensures below { IfOk result (λ found. IfSome found (λ one. one.0 < length lines.now)) }
{
    let mut place = 0;
    for line in lines {
        match auditor.take(line)? {
            Some(fault) => return Ok(Some((place, fault))),
            None => {}
        }
        place += 1;
    }
    Ok(None)
}

/// The number of a line of the second form: the first line and those of the files stand before the entries.
fn line_number(files: &[(FileName, Bytes)], place: u64) -> u64
    requires { place ≤ most_entries }
    ensures { result ≡ place + length files.now + 2 }
{
    place + files.len() as u64 + 2
}

/// Whether a host that keeps the rules may have written the journal, and where not, at which line. It takes
/// time by the journal's length, and beside the journal the memory of the files without their contents, of the
/// locks that stand and of the ids that are spent.
pub fn audit(alloc: Global, text: &JournalText) -> Result<Verdict, Memory>
    requires { KeepsBounds text.now }
    ensures legal { IfOk result (λ verdict. (verdict ≡ Legal) ↔ LegalText text.now) }
    ensures bad { (line : ℕ) (fault : AuditFault) → result ≡ Ok (Bad line fault) → IsBadLine text.now line fault }
{
    let mut auditor = begin(alloc, text)?;
    match first_bad(&mut auditor, text.lines.as_slice())? {
        None => return Ok(Verdict::Legal),
        Some((place, fault)) => {
            let line = line_number(text.files.as_slice(), place);
            return Ok(Verdict::Bad { line, fault });
        }
    }
}
