//! Texts with bytes that are not shown as they are.
use crate::{cannot_read, refusal_text};
use ns_base::MethodNo;
use scope_check::ScopeFault;
use std::test::Fail;

#[test]
fn bytes_are_shown_by_two_digits(rt: HostRuntime) -> Result<(), Fail> {
    for (name, want) in [
        ("a.dex", "cannot read a.dex\n"),
        ("", "cannot read \n"),
        ("!~", "cannot read !~\n"),
        ("a b\\c", "cannot read a\\x20b\\x5cc\n"),
        ("\n\u{7f}é", "cannot read \\x0a\\x7f\\xc3\\xa9\n"),
    ] {
        let text = cannot_read(rt.alloc(), name)?;
        assert_eq!(rt; text.as_slice(), want.as_bytes(), "{want}");
    }
    Ok(())
}

#[test]
fn a_refusal_names_rule_method_and_place(rt: HostRuntime) -> Result<(), Fail> {
    let fault = ScopeFault::Rule {
        rule: 4,
        method: MethodNo(1),
        pc: 5,
        class_name: b"Lapp/R;".to_vec(rt.alloc())?,
        method_name: b"on Receive".to_vec(rt.alloc())?,
    };
    let text = refusal_text(rt.alloc(), &fault)?;
    assert_eq!(rt;
        text.as_slice(),
        b"refused N4 Lapp/R;->on\\x20Receive 1 5\n".as_slice()
    );
    Ok(())
}
