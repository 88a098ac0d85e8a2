//! Numbers by first sight, and how names past ASCII are spelled.
use crate::spelling::{mutf8_from, shorty_from};
use crate::{BuildFault, Tables};
use std::process::Abort;
use std::test::Fail;

// Texts and their MUTF-8 bytes.
static SPELLED: [(&str, &[u8]); 5] = [
    ("", b""),
    ("Lapp/R;", b"Lapp/R;"),
    ("a\0b", b"a\xc0\x80b"),
    ("\u{e4}\u{20ac}", b"\xc3\xa4\xe2\x82\xac"),
    ("\u{1f600}", b"\xed\xa0\xbd\xed\xb8\x80"),
];

#[test]
fn texts_past_ascii_are_spelled_as_mutf8(rt: HostRuntime) -> Result<(), Fail> {
    for (text, bytes) in SPELLED.iter() {
        let spelled = mutf8_from(rt.alloc(), text.as_bytes())?;
        assert_eq!(rt; spelled.as_slice(), *bytes);
    }
    Ok(())
}

#[test]
fn a_shorty_has_l_for_an_array(rt: HostRuntime) -> Result<(), Fail> {
    let alloc = rt.alloc();
    let mut params = Vec::new(alloc);
    params.push(String::from_str(alloc, "[I")?)?;
    params.push(String::from_str(alloc, "J")?)?;
    let shorty = shorty_from(alloc, "V", &params)?;
    assert_eq!(rt; shorty.as_slice(), b"VLJ".as_slice());
    Ok(())
}

#[test]
fn rows_are_numbered_by_first_sight(rt: HostRuntime) -> Result<(), Fail> {
    let alloc = rt.alloc();
    let mut tables = Tables::new(alloc);
    let params = Vec::new(alloc);
    // the class is seen first, then the type of the field, then its name
    assert_eq!(rt; tables.field_ref(alloc, "La;", "I", "x"), Ok(0));
    assert_eq!(rt; tables.string_ref(alloc, "x"), Ok(2));
    assert_eq!(rt; tables.type_ref(alloc, "I"), Ok(1));
    assert_eq!(rt; tables.field_ref(alloc, "La;", "I", "x"), Ok(0));
    assert_eq!(rt; tables.method_ref(alloc, "La;", "x", "V", &params), Ok(0));
    // the text of a type and its shorty are one string
    assert_eq!(rt; tables.string_ref(alloc, "V"), Ok(3));
    assert_eq!(rt; tables.string_ref(alloc, "new"), Ok(4));
    Ok(())
}

#[test]
fn row_number_65535_is_one_too_many(rt: HostRuntime) -> Result<(), Fail> {
    let alloc = rt.alloc();
    let mut tables = Tables::new(alloc);
    for number in 0..65_535u32 {
        let text = format!(in alloc; "{number}")?;
        assert_eq!(rt; tables.string_ref(alloc, text.as_str()), Ok(number));
    }
    assert_eq!(rt; tables.string_ref(alloc, "more"), Err(BuildFault::TooMany));
    assert_eq!(rt; tables.type_ref(alloc, "more"), Err(BuildFault::TooMany));
    // what is there already has its number
    assert_eq!(rt; tables.type_ref(alloc, "7"), Ok(0));
    assert_eq!(rt; tables.string_ref(alloc, "65534"), Ok(65_534));
    Ok(())
}
