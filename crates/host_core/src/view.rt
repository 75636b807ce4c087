//! A file as a caller sees it.
ghost use Rattle.std.specs.Prelude.{◌≡◌, ◌<◌, [], length, unwrap_or};
ghost use Rattle.wopi_model.specs.Settle.{settled};
ghost use Rattle.host_core.specs.Files.{file_of, BeganAtMoment};
ghost use Rattle.host_core.specs.View.{IsViewOf};
ghost use Rattle.host_core.specs.Whole.{seen, standing_at};

use crate::file::KeptFile;
use crate::held::standing_lock;
use kept_locks::KeptLocks;
use wopi_model::Lock;

/// A file at the shard's time. `contents` is empty where the file doesn't exist, and `torn` says that
/// the last store call on it failed.
#[derive(Drop)]
pub struct FileView<'a> {
    pub exists: bool,
    pub version: u64,
    pub lock: Option<&'a Lock>,
    pub contents: &'a [u8],
    pub torn: bool,
}

/// The bytes of a file, none where it doesn't exist.
fn bytes_of(file: &KeptFile) -> &[u8]
    ensures { result.now ≡ unwrap_or file.now.contents [] }
{
    match &file.contents {
        None => &[],
        Some(contents) => contents.as_slice(),
    }
}

/// The kept file, as it is once it is settled.
pub fn view_of<'a>(locks: &'a KeptLocks, number: u32, file: &'a KeptFile, now: u64) -> FileView<'a>
    requires here { number < length locks.now.files }
    requires moment { BeganAtMoment (standing_at locks.now.files number).lock }
    ensures { IsViewOf result (settled (file_of (seen file.now locks.now number)) now) file.now.torn }
{
    FileView {
        exists: file.contents.is_some(),
        version: file.version,
        lock: standing_lock(locks, number, now),
        contents: bytes_of(file),
        torn: file.torn,
    }
}
