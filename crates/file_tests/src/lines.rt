use base_types::Bytes;
use line_text::{
    cut_line, cut_word, field_at, number_at, number_field, put_number, put_position, size_at,
};
use std::test::Fail;

#[test]
fn lines_are_cut_into_words(rt: HostRuntime) -> Result<(), Fail> {
    let (line, after) = cut_line(b"pipe \xC3\xA9 -10\nend".as_slice()).ok_or("line")?;
    assert_eq!(rt; after, b"end".as_slice());
    assert!(rt; cut_line(after).is_none(), "no line feed");
    let (word, rest) = cut_word(line);
    assert_eq!(rt; word, b"pipe".as_slice());
    let (id, rest) = field_at(rest).ok_or("id")?;
    assert_eq!(rt; id.as_bytes(), b"\xC3\xA9".as_slice());
    let (number, rest) = number_field(rest).ok_or("number")?;
    assert_eq!(rt; number, -10);
    assert!(rt; rest.is_empty());
    assert!(rt; field_at(b"  a".as_slice()).is_none(), "an empty field");
    assert!(rt; field_at(b" \xC3".as_slice()).is_none(), "half a letter");
    Ok(())
}

#[test]
fn numbers_are_read_and_written(rt: HostRuntime) -> Result<(), Fail> {
    for (word, number) in [("0", 0), ("-7", -7), ("9223372036854775807", i64::MAX)] {
        assert_eq!(rt; number_at(word), Some(number), "{word}");
    }
    assert_eq!(rt;
        number_at("-9223372036854775809"),
        Some(i64::MIN),
        "the nearest of 64 bits"
    );
    assert_eq!(rt;
        size_at("18446744073709551616"),
        Some(u64::MAX),
        "the nearest of 64 bits"
    );
    for word in ["", "-", "-0", "00", "+1", "1 ", "0x1"] {
        assert_eq!(rt; number_at(word), None, "{word}");
    }
    let mut out = Bytes::new(rt.alloc());
    put_position(&mut out, 4294967295).map_err(|_| "memory")?;
    put_number(&mut out, -120).map_err(|_| "memory")?;
    assert_eq!(rt; out.as_slice(), b"4294967295-120".as_slice());
    Ok(())
}
