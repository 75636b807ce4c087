//! A folder that is made to hold what is told.
ghost use Rattle.std.specs.Prelude.{◌≡◌, ◌≤◌, ◌∷◌, [], ℕ, OnOk, IfOk, IfErr, None, Some, true, option_map};
ghost use Rattle.outside.specs.Faults.{Rose};
ghost use Rattle.outside.specs.Folder.{Keeps, OpensOnly};
ghost use Rattle.host_core.specs.Life.{IsFolderOrMemory, Mends, OpensDoubt, mended_by};
ghost use Rattle.host_core.specs.Store.{Holds};

use crate::lasting::Lasting;
use crate::life::{LifeContents, LifeFile, ReopenFault};
use crate::opening::MOST_CONTENTS;
use outside::{FolderRead, OutFault};
use wopi_text::{FileName, are_equal};

/// The name holds nothing then.
fn take_away<F: Lasting>(folder: &mut F, name: &FileName) -> Result<(), ReopenFault>
    ensures gone { OnOk result (Holds (F.files folder.new) name.now None) }
    ensures others { OpensOnly (F.files folder.old) (F.files folder.new) name.now }
    ensures other_times { OpensOnly (F.times folder.old) (F.times folder.new) name.now }
    ensures log { (F.notes folder.new).log ≡ (F.notes folder.old).log }
    ensures never_falls { F.faults folder.old ≤ F.faults folder.new }
    ensures failed { IfErr result (λ fault. fault ≡ ReopenFault.FolderFault → Rose (F.faults folder.old) (F.faults folder.new)) }
    ensures why { IfErr result (λ fault. IsFolderOrMemory fault) }
{
    match folder.read(name.as_str(), 0) {
        Err(OutFault::Failed) => return Err(ReopenFault::FolderFault),
        Err(OutFault::Memory) => return Err(ReopenFault::Memory),
        Ok(FolderRead::Absent) => return Ok(()),
        Ok(_) => {}
    }
    match folder.withdraw(name.as_str()) {
        Ok(()) => return Ok(()),
        Err(_) => return Err(ReopenFault::FolderFault),
    }
}

/// Whether the name holds just these bytes.
fn holds<F: Lasting>(folder: &mut F, name: &FileName, contents: &[u8]) -> Result<bool, ReopenFault>
    ensures here { IfOk result (λ same. same ≡ true → Holds (F.files folder.new) name.now (Some contents.now)) }
    ensures same { Keeps (F.files folder.old) (F.files folder.new) }
    ensures same_times { Keeps (F.times folder.old) (F.times folder.new) }
    ensures log { (F.notes folder.new).log ≡ (F.notes folder.old).log }
    ensures never_falls { F.faults folder.old ≤ F.faults folder.new }
    ensures failed { IfErr result (λ fault. fault ≡ ReopenFault.FolderFault → Rose (F.faults folder.old) (F.faults folder.new)) }
    ensures why { IfErr result (λ fault. IsFolderOrMemory fault) }
{
    match folder.read(name.as_str(), MOST_CONTENTS) {
        Err(OutFault::Failed) => return Err(ReopenFault::FolderFault),
        Err(OutFault::Memory) => return Err(ReopenFault::Memory),
        Ok(FolderRead::Whole(held)) => return Ok(are_equal(held.as_slice(), contents)),
        Ok(_) => return Ok(false),
    }
}

/// The name holds these bytes then.
fn put_back<F: Lasting>(folder: &mut F, name: &FileName, contents: &[u8]) -> Result<(), ReopenFault>
    ensures here { OnOk result (Holds (F.files folder.new) name.now (Some contents.now)) }
    ensures others { OpensOnly (F.files folder.old) (F.files folder.new) name.now }
    ensures other_times { OpensOnly (F.times folder.old) (F.times folder.new) name.now }
    ensures log { (F.notes folder.new).log ≡ (F.notes folder.old).log }
    ensures never_falls { F.faults folder.old ≤ F.faults folder.new }
    ensures failed { IfErr result (λ fault. fault ≡ ReopenFault.FolderFault → Rose (F.faults folder.old) (F.faults folder.new)) }
    ensures why { IfErr result (λ fault. IsFolderOrMemory fault) }
{
    match holds(folder, name, contents) {
        Err(fault) => return Err(fault),
        Ok(true) => return Ok(()),
        Ok(false) => {}
    }
    match folder.restore(name.as_str(), contents) {
        Ok(()) => return Ok(()),
        Err(OutFault::Failed) => return Err(ReopenFault::FolderFault),
        Err(OutFault::Memory) => return Err(ReopenFault::Memory),
    }
}

/// The name of a file holds what is told, where its contents were changed last.
fn mend_one<F: Lasting>(folder: &mut F, file: &LifeFile) -> Result<(), ReopenFault>
    ensures mends { OnOk result (Keeps (option_map (mended_by file.now) (F.files folder.old)) (F.files folder.new)) }
    ensures doubt { OpensDoubt (file.now ∷ []) (F.files folder.old) (F.files folder.new) }
    ensures other_times { OpensDoubt (file.now ∷ []) (F.times folder.old) (F.times folder.new) }
    ensures log { (F.notes folder.new).log ≡ (F.notes folder.old).log }
    ensures never_falls { F.faults folder.old ≤ F.faults folder.new }
    ensures failed { IfErr result (λ fault. fault ≡ ReopenFault.FolderFault → Rose (F.faults folder.old) (F.faults folder.new)) }
    ensures why { IfErr result (λ fault. IsFolderOrMemory fault) }
{
    match &file.contents {
        LifeContents::Absent => return Ok(()),
        LifeContents::Left { .. } => return Ok(()),
        LifeContents::Removed => match take_away(folder, &file.name) {
            Ok(()) => return Ok(()),
            Err(fault) => return Err(fault),
        },
        LifeContents::Told { contents } => match put_back(folder, &file.name, contents.as_slice()) {
            Ok(()) => return Ok(()),
            Err(fault) => return Err(fault),
        },
    }
}

/// Each name holds what is told, where its contents were changed last.
pub fn mend<F: Lasting>(folder: &mut F, files: &Vec<LifeFile>) -> Result<(), ReopenFault>
    ensures mends { OnOk result (Mends files.now.items (F.files folder.old) (F.files folder.new)) }
    ensures doubt { OpensDoubt files.now.items (F.files folder.old) (F.files folder.new) }
    ensures other_times { OpensDoubt files.now.items (F.times folder.old) (F.times folder.new) }
    ensures log { (F.notes folder.new).log ≡ (F.notes folder.old).log }
    ensures never_falls { F.faults folder.old ≤ F.faults folder.new }
    ensures failed { IfErr result (λ fault. fault ≡ ReopenFault.FolderFault → Rose (F.faults folder.old) (F.faults folder.new)) }
    ensures why { IfErr result (λ fault. IsFolderOrMemory fault) }
{
    let mut place = 0;
    'files: while place < files.len() {
        match mend_one(folder, &files[place]) {
            Ok(()) => {}
            Err(fault) => return Err(fault),
        }
        place += 1;
    }
    Ok(())
}
