use std::test::Fail;
use wopi_text::{
    BadId, BadName, Bytes, FileName, LockId, are_digits, are_equal, decimal_read, decode_hex,
    digits_read, digits_up_to, hex_decoded, id_read, id_text, is_name_char,
};

#[test]
fn the_id_of_a_name_is_its_hex_and_reads_back(rt: HostRuntime) -> Result<(), Fail> {
    let name = FileName::read("é.csv".as_bytes())?;
    let id = id_text(rt.alloc(), &name)?;
    assert!(rt; id.as_slice() == b"c3a92e637376".as_slice());
    let back = id_read(id.as_slice())?;
    assert!(rt; back.as_str() == "é.csv");
    assert!(rt; back.shard() == name.shard());
    Ok(())
}

#[test]
fn a_copy_of_bytes_is_equal(rt: HostRuntime) -> Result<(), Fail> {
    let bytes = Bytes::from_slice(rt.alloc(), b"1,2\n")?;
    let same = bytes.try_copy(rt.alloc())?;
    assert!(rt; same.as_slice() == bytes.as_slice());
    let vector = same.into_vec(rt.alloc())?;
    assert!(rt; vector.as_slice() == b"1,2\n".as_slice());
    Ok(())
}

#[test]
fn bytes_are_the_same_inline_and_on_the_heap(rt: HostRuntime) -> Result<(), Fail> {
    let alloc = rt.alloc();
    let text = b"X-WOPI-OverwriteRelativeTarget: true";
    for end in [0usize, 5, 30, 31, 32, 36] {
        let bytes = Bytes::from_part(alloc, text, 0, end)?;
        assert!(rt; bytes.as_slice() == &text[..end]);
        let rest = Bytes::from_part(alloc, text, end, text.len())?;
        assert!(rt; rest.as_slice() == &text[end..]);
        assert!(rt; rest.into_vec(alloc)?.as_slice() == &text[end..]);
    }
    Ok(())
}
