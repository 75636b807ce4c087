use std::alloc::Global;
use std::test::Fail;
use utf7_text::{Utf7Fault, utf7_read, utf7_write};

/// Whether the text is written as these bytes, and they are read as the text.
fn is_written(alloc: Global, text: &str, bytes: &[u8]) -> Result<bool, Fail> {
    let written = utf7_write(alloc, text)?;
    let read = utf7_read(alloc, bytes)?;
    Ok(written.as_slice() == bytes && read.as_slice() == text.as_bytes())
}

/// Whether the bytes are read as the text.
fn is_read(alloc: Global, bytes: &[u8], text: &str) -> Result<bool, Fail> {
    let read = utf7_read(alloc, bytes)?;
    Ok(read.as_slice() == text.as_bytes())
}

// What Python's base64 makes of the UTF-16 of each run, and its codec reads as the text.
#[test]
fn texts_are_written_as_python_writes_their_runs(rt: HostRuntime) -> Result<(), Fail> {
    for (text, bytes) in [
        ("", ""),
        ("a b", "a b"),
        ("é.csv", "+AOk-.csv"),
        ("a+b", "a+ACs-b"),
        ("日本語.csv", "+ZeVnLIqe-.csv"),
        ("é é", "+AOk- +AOk-"),
        ("~a\\", "+AH4-a+AFw-"),
        ("Hi Mom -☺-!", "Hi Mom -+Jjo--+ACE-"),
        ("+-+", "+ACs--+ACs-"),
        ("(1).csv'", "(1).csv'"),
        ("a\tb", "a+AAk-b"),
        ("\0", "+AAA-"),
        ("/:?,", "/:?,"),
        ("A≢Α.", "A+ImIDkQ-."),
    ] {
        assert!(rt; is_written(rt.alloc(), text, bytes.as_bytes())?, "{text}");
    }
    Ok(())
}

// What Python's codec and iconv both read.
#[test]
fn other_forms_of_a_text_are_read_as_python_and_iconv_read_them(
    rt: HostRuntime,
) -> Result<(), Fail> {
    for (bytes, text) in [
        ("a+-b", "a+b"),
        ("+--", "+-"),
        ("+-+-", "++"),
        ("+AOk.csv", "é.csv"),
        ("+AOk", "é"),
        ("+AOk--", "é-"),
        ("+AOk-+AOk-", "éé"),
        ("+AOkA6Q", "éé"),
        ("+Jjo!", "☺!"),
        ("A+ImIDkQ.", "A≢Α."),
        ("Hi Mom -+Jjo--!", "Hi Mom -☺-!"),
        ("+AGE-", "a"),
    ] {
        assert!(rt; is_read(rt.alloc(), bytes.as_bytes(), text)?, "{bytes}");
    }
    assert!(rt; is_read(rt.alloc(), b"\\~", "\\~")?);
    Ok(())
}

#[test]
fn a_bad_shift_is_told_by_its_place(rt: HostRuntime) {
    for (bytes, at) in [
        (b"+AOl-".as_slice(), 0),
        (b"a+", 1),
        (b"+AOk-+AOl-", 5),
        (b"x\t+AOl-", 1),
    ] {
        assert!(rt; utf7_read(rt.alloc(), bytes).err() == Some(Utf7Fault::Bad { at }));
    }
}
