use std::alloc::{AllocError, Global};
use std::test::Fail;
use tag_outline::{Element, OutlineFault, read_outline};

// Each element in a line: depth, name, place, and then its attributes.
fn shown(alloc: Global, elements: &[Element]) -> Result<String, AllocError> {
    let mut text = String::new(alloc);
    for e in elements {
        write!(text, "{} {} {}", e.depth, e.name.as_str(), e.at)?;
        for a in e.attributes.as_slice() {
            write!(text, " {}={}", a.0.as_str(), a.1.as_str())?;
        }
        text.push_str("\n")?;
    }
    Ok(text)
}

#[test]
fn elements_are_listed_with_depth_name_and_place(rt: HostRuntime) -> Result<(), Fail> {
    for (text, want) in [
        ("<a><b/></a>", "1 a 0\n2 b 3\n"),
        ("\u{feff}<a><b/></a>", "1 a 3\n2 b 6\n"),
        (
            "<?xml version='1.0'?>\n<!-- > --> <f:a xmlns:f='g'>x > y<b></b ><c d = \"&'\"/></f:a>\r\n",
            "1 a 33 xmlns:f=g\n2 b 55\n2 c 63 d=&'\n",
        ),
        ("<a:b:!/>", "1 ! 0\n"),
    ] {
        let outline = read_outline(rt.alloc(), text.as_bytes()).map_err(|_| "no outline")?;
        let lines = shown(rt.alloc(), outline.as_slice())?;
        assert_eq!(rt; lines.as_str(), want, "{text}");
    }
    Ok(())
}

#[test]
fn first_offence_is_named_with_its_place(rt: HostRuntime) {
    for (text, want) in [
        ("<a></b>", OutlineFault::NotOutline { at: 3 }),
        ("<a>", OutlineFault::NotOutline { at: 3 }),
        ("", OutlineFault::NotOutline { at: 0 }),
        ("<a b=\"1\" b=\"2\"/>", OutlineFault::NotOutline { at: 0 }),
        ("<a/>\n<b/>", OutlineFault::NotOutline { at: 5 }),
        ("<a/>.", OutlineFault::NotOutline { at: 4 }),
        ("<a><b c='<'/></a>", OutlineFault::NotOutline { at: 3 }),
        ("<a><b c=1/></a>", OutlineFault::NotOutline { at: 3 }),
        ("<!-->", OutlineFault::NotOutline { at: 0 }),
        ("<?>", OutlineFault::NotOutline { at: 0 }),
        ("<!-- <a/>", OutlineFault::NotOutline { at: 0 }),
        ("\u{feff} <!DOCTYPE a><a/>", OutlineFault::Doctype { at: 4 }),
        ("<a><![CDATA[b]]></a>", OutlineFault::Cdata { at: 3 }),
        ("<a></a", OutlineFault::NotOutline { at: 3 }),
    ] {
        assert_eq!(rt;
            read_outline(rt.alloc(), text.as_bytes()).err(),
            Some(want),
            "{text}"
        );
    }
    let cut = [b'<', b'a', 0xC3, b'>'];
    assert_eq!(rt;
        read_outline(rt.alloc(), &cut).err(),
        Some(OutlineFault::NotUtf8 { at: 2 })
    );
}

#[test]
fn sixty_four_elements_are_nested_and_no_more(rt: HostRuntime) -> Result<(), Fail> {
    for (depth, want) in [(64, None), (65, Some(OutlineFault::TooDeep { at: 192 }))] {
        let mut text = String::new(rt.alloc());
        for _ in 0..depth {
            text.push_str("<a>")?;
        }
        for _ in 0..depth {
            text.push_str("</a>")?;
        }
        assert_eq!(rt;
            read_outline(rt.alloc(), text.as_bytes()).err(),
            want,
            "{depth}"
        );
    }
    Ok(())
}

// Only all of it is whole: what is cut off ends too early, or in an item.
#[test]
fn no_front_of_a_text_is_whole(rt: HostRuntime) {
    let text = b"<?i?><!--c--><a b='1'>t<d e=\"2\"/><f ></f ></a>";
    for n in 0..text.len() {
        let read = read_outline(rt.alloc(), &text[..n]);
        assert!(rt; matches!(read, Err(OutlineFault::NotOutline { .. })), "{n}");
    }
    assert!(rt; read_outline(rt.alloc(), text).is_ok());
}
