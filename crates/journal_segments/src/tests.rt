//! Segments, read again.
ghost use Rattle.std.specs.Prelude.{◌≤◌};

use crate::{Head, Restored, SegmentFault, read_segment, write_opening};
use host_core::{Life, LifeContents};
use host_table::WriteRoom;
use line_text::InputFault;
use outside::{MemSink, MemSource};
use std::alloc::Global;
use std::test::Fail;
use wopi_text::Bytes;

const OPENING: &[u8] =
    b"wopi journal 3 shard 11 opened 0 first 1 now 9 last 2\nat 612e637376 v2 2\nheld 612e637376 4c31 9 9000000\nspent 612e637376 4c30 9000000\n";

const ENTRIES: &[u8] =
    b"3 11 1 12 12 612e637376 put 4c31 3 ann.612e637376.w.2.0.9000000 200 - - v3 3\n1\n9\noff\n3 11 1 12 12 612e637376 put 4c31 3 ann.612e637376.w.2.0.9000000 500 - - - -\nholds 612e637376 2\n42\n4 11 1 13 13 612e637376 unlock 4c31 ann.612e637376.w.2.0.9000000 200 - - v2 -\n";

/// Five files, not by their names, one of them locked; then one is unlocked, one removed, and one locked and put twice.
const LIVED: &[u8] =
    b"wopi journal 3 shard 11 opened 0 first 1 now 9 last 2\nat 6b v2 2\nat 4b v5 3\nheld 4b 4c31 9 9000000\nat 616a v1 4\nat 6269 v3 -\nat 6368 v4 1\n3 11 1 12 12 4b unlock 4c31 ann.4b.w.2.0.9000000 200 - - v5 -\n4 11 1 13 13 616a delete ann.616a.w.2.0.9000000 200 - - - -\n5 11 1 14 14 6368 lock 4c32 ann.6368.w.2.0.9000000 200 - - v4 -\n6 11 1 15 15 6368 put 4c32 1 ann.6368.w.2.0.9000000 200 - - v5 1\n7\n7 11 1 16 16 6368 put 4c32 2 ann.6368.w.2.0.9000000 200 - - v6 2\n89\n";

fn read(
    alloc: Global,
    ends: &[u8],
    piece: usize,
) -> Result<Result<Restored, InputFault<SegmentFault>>, Fail>
    requires { 1 ≤ piece }
{
    let mut text = Vec::new(alloc);
    text.extend_from_slice(OPENING)?;
    text.extend_from_slice(ENTRIES)?;
    text.extend_from_slice(ends)?;
    let mut source = MemSource::new(Bytes::from_vec(text), piece, Vec::new(alloc));
    Ok(read_segment(alloc, &mut source))
}

/// Whether the folder has the contents, and they have that size.
fn is_left(contents: &LifeContents, wanted: u64) -> bool {
    match contents {
        LifeContents::Left { size } => *size == wanted,
        _ => false,
    }
}

/// Whether these contents are told.
fn is_told(contents: &LifeContents, wanted: &[u8]) -> bool {
    match contents {
        LifeContents::Told { contents } => contents.as_slice() == wanted,
        _ => false,
    }
}

fn life_of(alloc: Global, text: &[u8]) -> Result<Life, Fail> {
    let mut bytes = Vec::new(alloc);
    bytes.extend_from_slice(text)?;
    let mut source = MemSource::new(Bytes::from_vec(bytes), 32, Vec::new(alloc));
    match read_segment(alloc, &mut source) {
        Ok(read) => match read.told.into_life(alloc) {
            Ok(life) => return Ok(life),
            Err(_) => return Err("no memory".into()),
        },
        Err(_) => return Err("no state".into()),
    }
}

#[test]
fn a_life_is_restored(rt: HostRuntime) -> Result<(), Fail> {
    let life = life_of(rt.alloc(), LIVED)?;
    assert_eq!(rt; life.opened, 0);
    assert_eq!(rt; life.first, 1);
    assert_eq!(rt; life.now, 16);
    assert_eq!(rt; life.last, 7);
    assert_eq!(rt; life.files.len(), 5);
    let unchanged = &life.files[0];
    assert!(rt; unchanged.name.as_slice() == b"k".as_slice());
    assert!(rt; is_left(&unchanged.contents, 2));
    assert!(rt; unchanged.lock.is_none() && unchanged.spent.is_empty());
    let unlocked = &life.files[1];
    assert!(rt; unlocked.name.as_slice() == b"K".as_slice());
    assert!(rt; is_left(&unlocked.contents, 3));
    assert!(rt; unlocked.lock.is_none() && unlocked.spent.len() == 1);
    assert!(rt; matches!(&life.files[2].contents, LifeContents::Removed));
    assert_eq!(rt; life.files[2].version, 1);
    assert!(rt; matches!(&life.files[3].contents, LifeContents::Absent));
    let put = &life.files[4];
    assert!(rt; is_told(&put.contents, b"89".as_slice()));
    assert_eq!(rt; put.version, 6);
    match &put.lock {
        Some(lock) => { assert!(rt; lock.since == 14 && lock.until == 9_000_000) }
        None => return Err("no lock".into()),
    }
    Ok(())
}

#[test]
fn a_name_is_met_once(rt: HostRuntime) -> Result<(), Fail> {
    let alloc = rt.alloc();
    let mut text = Vec::new(alloc);
    text.extend_from_slice(
        b"wopi journal 3 shard 11 opened 0 first 1 now 9 last 2\nat 6b v2 2\nat 4b v5 3\nat 6b v2 2\n".as_slice(),
    )?;
    let mut source = MemSource::new(Bytes::from_vec(text), 16, Vec::new(alloc));
    match read_segment(alloc, &mut source) {
        Ok(_) => return Err("a name was met twice".into()),
        Err(fault) => { assert!(rt; fault == InputFault::Text(SegmentFault::Bad(4))) }
    }
    Ok(())
}

#[test]
fn a_cut_segment_is_read(rt: HostRuntime) -> Result<(), Fail> {
    let alloc = rt.alloc();
    match read(
        alloc,
        b"5 11 1 14 14 612e637376 put - 4 ann.612e637376.w.2.0.9000000 200 - - v3 4\n1\n2",
        7,
    )? {
        Ok(read) => {
            assert_eq!(rt; read.shard, 11);
            assert_eq!(rt; read.told.now(), 13);
            assert_eq!(rt; read.told.last(), 4);
            assert_eq!(rt; read.used as usize, OPENING.len() + ENTRIES.len());
            let files = read.told.files();
            assert_eq!(rt; files.len(), 1);
            let file = &files[0].1;
            assert_eq!(rt; file.version(), 2);
            assert!(rt; file.lock().is_none());
            assert!(rt; is_told(file.contents(), b"42".as_slice()));
        }
        Err(_) => return Err("no state".into()),
    }
    Ok(())
}

#[test]
fn a_bad_line_is_refused_by_its_number(rt: HostRuntime) -> Result<(), Fail> {
    let alloc = rt.alloc();
    for (ends, number) in [
        (b"off\noff\n".as_slice(), 11),
        (
            b"4 11 1 14 14 612e637376 getlock ann.612e637376.w.2.0.9000000 200 - - - -\n".as_slice(),
            10,
        ),
        (b"holds 612e637376 2\n42\n".as_slice(), 10),
        (
            b"5 11 1 14 14 612e637376 put - 1 ann.612e637376.w.2.0.9000000 200 - - v3 1\n12\n".as_slice(),
            10,
        ),
        (b"at 622e637376 v2 2\n".as_slice(), 10),
    ] {
        match read(alloc, ends, 5)? {
            Ok(_) => return Err("a bad line was taken".into()),
            Err(fault) => { assert!(rt; fault == InputFault::Text(SegmentFault::Bad(number))) }
        }
    }
    Ok(())
}

/// How many bytes are used of the front of a segment that has so many.
fn used_of(alloc: Global, count: usize) -> Result<Option<u64>, Fail> {
    let mut text = Vec::new(alloc);
    text.extend_from_slice(OPENING)?;
    text.extend_from_slice(ENTRIES)?;
    text.truncate(count);
    let mut source = MemSource::new(Bytes::from_vec(text), 128, Vec::new(alloc));
    match read_segment(alloc, &mut source) {
        Ok(read) => return Ok(Some(read.used)),
        Err(fault) => {
            if fault == InputFault::Text(SegmentFault::Head) {
                return Ok(None);
            }
            return Err("a front was refused".into());
        }
    }
}

#[test]
fn each_front_is_read_up_to_what_is_whole(rt: HostRuntime) -> Result<(), Fail> {
    let alloc = rt.alloc();
    assert!(rt; used_of(alloc, 53)?.is_none());
    let mut before = 54u64;
    for end in [73u64, 104, 134, 215, 219, 295, 317, 395] {
        assert!(rt; used_of(alloc, end as usize - 1)? == Some(before));
        assert!(rt; used_of(alloc, end as usize)? == Some(end));
        before = end;
    }
    Ok(())
}

#[test]
fn a_beginning_is_written_and_read_again(rt: HostRuntime) -> Result<(), Fail> {
    let alloc = rt.alloc();
    let mut text = Vec::new(alloc);
    text.extend_from_slice(OPENING)?;
    let mut source = MemSource::new(Bytes::from_vec(text), 64, Vec::new(alloc));
    let read = match read_segment(alloc, &mut source) {
        Ok(read) => read,
        Err(_) => return Err("no state".into()),
    };
    let head = Head {
        shard: read.shard,
        opened: read.told.opened(),
        first: read.told.first(),
        now: read.told.now(),
        last: read.told.last(),
    };
    let mut sink = MemSink::new(alloc, 4_096, Vec::new(alloc))?;
    let room = WriteRoom::new(alloc)?;
    match write_opening(&mut sink, room, &head, read.told.files()) {
        Ok(()) => {}
        Err(_) => return Err("not written".into()),
    }
    assert!(rt; sink.as_slice() == OPENING);
    Ok(())
}

#[test]
fn a_long_line_is_refused(rt: HostRuntime) -> Result<(), Fail> {
    let alloc = rt.alloc();
    let mut more = Vec::new(alloc);
    for _ in 0..70_000u32 {
        more.push(b'1')?;
    }
    match read(alloc, &more, 65_536)? {
        Ok(_) => return Err("a long line was taken".into()),
        Err(fault) => { assert!(rt; fault == InputFault::Text(SegmentFault::Long(10))) }
    }
    match read(alloc, &more, 1_000)? {
        Ok(_) => return Err("a long line was taken".into()),
        Err(fault) => { assert!(rt; fault == InputFault::Text(SegmentFault::Long(10))) }
    }
    Ok(())
}
