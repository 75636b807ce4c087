use moment_text::{moment_read, moment_text};
use std::test::Fail;

#[test]
fn moments_are_written_with_seven_digits_of_the_second(rt: HostRuntime) {
    assert!(rt; moment_text(0).as_str() == "1970-01-01T00:00:00.0000000Z");
    assert!(rt; moment_text(951_782_400_000).as_str() == "2000-02-29T00:00:00.0000000Z");
    assert!(rt; moment_text(1_796_061_909_123).as_str() == "2026-11-30T18:05:09.1230000Z");
    assert!(rt; moment_text(253_402_300_799_999).as_str() == "9999-12-31T23:59:59.9990000Z");
}

#[test]
fn a_moment_is_read_in_each_form_of_its_second_and_offset(rt: HostRuntime) {
    let written = [
        "2026-11-30T18:05:09.1230000Z",
        "2026-11-30T18:05:09.123Z",
        "2026-11-30T18:05:09.123000000Z",
        "2026-11-30T19:05:09.123+01:00",
    ];
    for text in written {
        assert!(rt;
            moment_read(text.as_bytes()) == Some(1_796_061_909_123),
            "{text}"
        );
    }
}

#[test]
fn what_tells_no_moment_is_none(rt: HostRuntime) -> Result<(), Fail> {
    let written = [
        "",
        "2026-11-30",
        "2026-11-30T18:05:09",
        "2026-11-30T18:05:09.1234Z",
        "2026-02-29T18:05:09Z",
        "1969-12-31T23:59:59Z",
        "2026-11-30T18:05:09Z ",
    ];
    for text in written {
        assert!(rt; moment_read(text.as_bytes()).is_none(), "{text}");
    }
    Ok(())
}
