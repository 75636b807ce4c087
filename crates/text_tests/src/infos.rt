ghost use Rattle.std.specs.Prelude.{IfOk};
ghost use Rattle.file_info.specs.Info.{HasTexts};

use file_info::{
    Info, InfoFault, Required, Saved, info_read, info_text, put_saved, relative_read,
    relative_text, save_text,
};
use serde_json::{Map, Value};
use std::alloc::Global;
use std::test::Fail;
use wopi_text::{Bytes, Memory};

fn ann_may_write(alloc: Global) -> Result<Info, Memory>
    ensures { IfOk result HasTexts }
{
    Ok(Info {
        name: Bytes::from_slice(alloc, "a.csv".as_bytes())?,
        owner: Bytes::from_slice(alloc, "owner".as_bytes())?,
        user: Bytes::from_slice(alloc, "ann".as_bytes())?,
        version: Bytes::from_slice(alloc, "v1".as_bytes())?,
        size: 4,
        can_write: true,
    })
}

#[test]
fn what_is_written_reads_back(rt: HostRuntime) -> Result<(), Fail> {
    let info = ann_may_write(rt.alloc())?;
    let text = info_text(rt.alloc(), &info)?;
    let back = info_read(rt.alloc(), text.as_slice())?;
    assert!(rt; back.name.as_slice() == b"a.csv".as_slice());
    assert!(rt; back.version.as_slice() == b"v1".as_slice());
    assert!(rt; back.size == 4);
    assert!(rt; back.can_write);
    let made = relative_text(rt.alloc(), "é \"1\".csv", "http://h/f?t=1")?;
    let (name, url) = relative_read(rt.alloc(), made.as_slice())?;
    assert!(rt; name.as_slice() == "é \"1\".csv".as_bytes());
    assert!(rt; url.as_slice() == b"http://h/f?t=1".as_slice());
    Ok(())
}

#[test]
fn what_is_no_json_is_refused(rt: HostRuntime) {
    for body in [b"".as_slice(), b"{", b"{} x", b"{\"Name\":\"\xff\"}"] {
        assert!(rt; info_read(rt.alloc(), body).err() == Some(InfoFault::NotJson));
        assert!(rt; relative_read(rt.alloc(), body).err() == Some(InfoFault::NotJson));
    }
}

/// The digest of no bytes.
const NOTHING: [u8; 32] = [
    0xe3, 0xb0, 0xc4, 0x42, 0x98, 0xfc, 0x1c, 0x14, 0x9a, 0xfb, 0xf4, 0xc8, 0x99, 0x6f, 0xb9, 0x24,
    0x27, 0xae, 0x41, 0xe4, 0x64, 0x9b, 0x93, 0x4c, 0xa4, 0x95, 0x99, 0x1b, 0x78, 0x52, 0xb8, 0x55,
];

#[test]
fn an_editor_is_told_of_the_last_save(rt: HostRuntime) -> Result<(), Fail> {
    let saved = Saved {
        moment: 1_796_061_909_123,
        digest: NOTHING,
    };
    let mut map = Map::new(rt.alloc());
    put_saved(rt.alloc(), &mut map, &saved)?;
    let text = Value::Object(map).to_vec(rt.alloc())?;
    let wanted =
        "{\"LastModifiedTime\":\"2026-11-30T18:05:09.1230000Z\",\"SHA256\":\"47DEQpj8HBSa+/TImW+5JCeuQeRkm5NMpJWZG3hSuFU=\"}";
    assert!(rt; text.as_slice() == wanted.as_bytes());
    let told = save_text(rt.alloc(), saved.moment)?;
    let wanted = "{\"LastModifiedTime\":\"2026-11-30T18:05:09.1230000Z\"}";
    assert!(rt; told.as_slice() == wanted.as_bytes());
    Ok(())
}
