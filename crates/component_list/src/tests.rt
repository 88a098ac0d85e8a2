//! Lists with their faults, as the program words them.
use crate::{ListFault, Listed, edge, edge_count, read_list};
use app_model::Kind;
use std::alloc::{AllocError, Global};
use std::test::Fail;

struct Case {
    text: &'static str,
    fault: &'static str,
}

const CASES: &[Case] = &[
    Case {
        text: "x = 1",
        fault: "Key 0 x",
    },
    Case {
        text: "x =",
        fault: "Text",
    },
    Case {
        text: "x = 1\nx = 1",
        fault: "Text",
    },
    Case {
        text: "class = \"\u{1}\"",
        fault: "Text",
    },
    Case {
        text: "profile = 1\n",
        fault: "",
    },
    Case {
        text: "\u{feff}profile = 1\n",
        fault: "",
    },
    Case {
        text: "profile = 2\nx = 1",
        fault: "Key 0 profile",
    },
    Case {
        text: "profile = \"1\"",
        fault: "Key 0 profile",
    },
    Case {
        text: "component = 1\nprofile = 2",
        fault: "Key 0 component",
    },
    Case {
        text: "component = [1]",
        fault: "Key 0 component",
    },
    Case {
        text: "component = [{}, 1]",
        fault: "Key 0 component",
    },
    Case {
        text: "component = []",
        fault: "",
    },
    Case {
        text: "component = [{}]",
        fault: "Key 1 class",
    },
    Case {
        text: "component = [{b = 1}]",
        fault: "Key 1 b",
    },
    Case {
        text: "component = [{x = 1, class = \"A\"}]",
        fault: "Key 1 kind",
    },
    Case {
        text: "component = [{class = \"A\"}]",
        fault: "Key 1 kind",
    },
    Case {
        text: "component = [{class = 1, kind = 1}]",
        fault: "Key 1 class",
    },
    Case {
        text: "component = [{class = \"A\", kind = \"provider\", exits = []}]",
        fault: "Kind 0",
    },
    Case {
        text: "component = [{class = \"A\", kind = \"receiver\", exits = []}]",
        fault: "EmptyExits 0",
    },
    Case {
        text: "component = [{class = \"A\", kind = \"receiver\", exits = [\"onPause\"]}]",
        fault: "ExitName 0 0",
    },
    Case {
        text: "component = [{class = \"A\", kind = \"activity\", exits = [\"onPause\", \"run\"]}]",
        fault: "ExitName 0 1",
    },
    Case {
        text: "component = [{class = \"A\", kind = \"activity\", exits = [\"onPause\", 1]}]",
        fault: "Key 1 exits",
    },
    Case {
        text: "component = [{class = \"A\", kind = \"service\"}, {class = \"A\", kind = \"receiver\"}]",
        fault: "Twice 1",
    },
    Case {
        text: "component = [{class = \"A\", kind = \"service\"}, {class = \"A\", kind = \"x\"}]",
        fault: "Kind 1",
    },
    Case {
        text: "component = [{class = \"\\u0001\", kind = \"runnable\"}]",
        fault: "",
    },
];

fn shown(alloc: Global, fault: &ListFault) -> Result<String, AllocError> {
    match fault {
        ListFault::Text => format!(in alloc; "Text"),
        ListFault::Key(table, key) => format!(in alloc; "Key {} {}", table, key.as_str()),
        ListFault::Kind(i) => format!(in alloc; "Kind {}", i),
        ListFault::EmptyExits(i) => format!(in alloc; "EmptyExits {}", i),
        ListFault::ExitName(i, j) => format!(in alloc; "ExitName {} {}", i, j),
        ListFault::Twice(i) => format!(in alloc; "Twice {}", i),
        ListFault::NoClass(i) => format!(in alloc; "NoClass {}", i),
        ListFault::NoCallback(i) => format!(in alloc; "NoCallback {}", i),
        ListFault::Limit(_) => format!(in alloc; "Limit"),
        ListFault::Memory => format!(in alloc; "Memory"),
    }
}

// What is wrong with a text; nothing where it is a list.
fn fault_of(alloc: Global, text: &[u8]) -> Result<String, AllocError> {
    match read_list(alloc, text) {
        Ok(_) => Ok(String::new(alloc)),
        Err(fault) => shown(alloc, &fault),
    }
}

// The text of the first case with another fault.
fn first_wrong(alloc: Global, cases: &[Case]) -> Result<Option<&'static str>, AllocError> {
    for case in cases {
        if fault_of(alloc, case.text.as_bytes())?.as_str() != case.fault {
            return Ok(Some(case.text));
        }
    }
    Ok(None)
}

// A list of that many receivers, each of its own class.
fn receivers(alloc: Global, count: u32) -> Result<String, AllocError> {
    let mut text = String::new(alloc);
    for i in 0..count {
        let row = format!(in alloc;
            "[[component]]\nkind = \"receiver\"\nclass = \"LR{};\"\n",
            i
        )?;
        text.push_str(row.as_str())?;
    }
    Ok(text)
}

// That many arrays, one in another.
fn nested(alloc: Global, depth: u32) -> Result<String, AllocError> {
    let mut text = String::from_str(alloc, "x = ")?;
    for _i in 0..depth {
        text.push('[')?;
    }
    for _i in 0..depth {
        text.push(']')?;
    }
    Ok(text)
}

// The exits of the first component.
fn first_exits(listed: &Listed) -> u8 {
    match listed.rows.first() {
        Some(row) => row.exits,
        None => 0,
    }
}

#[test]
fn lists_are_refused_by_name_and_place(rt: HostRuntime) -> Result<(), Fail> {
    let wrong = first_wrong(rt.alloc(), CASES)?;
    assert_eq!(rt; wrong, None);
    Ok(())
}

#[test]
fn bytes_and_depth_that_are_no_document(rt: HostRuntime) -> Result<(), Fail> {
    let alloc = rt.alloc();
    assert_eq!(rt; fault_of(alloc, &[0xff])?.as_str(), "Text");
    assert_eq!(rt;
        fault_of(alloc, nested(alloc, 100)?.as_bytes())?.as_str(),
        "Text"
    );
    assert_eq!(rt;
        fault_of(alloc, nested(alloc, 50)?.as_bytes())?.as_str(),
        "Key 0 x"
    );
    Ok(())
}

#[test]
fn at_most_256_components(rt: HostRuntime) -> Result<(), Fail> {
    let alloc = rt.alloc();
    assert_eq!(rt;
        fault_of(alloc, receivers(alloc, 256)?.as_bytes())?.as_str(),
        ""
    );
    assert_eq!(rt;
        fault_of(alloc, receivers(alloc, 257)?.as_bytes())?.as_str(),
        "Limit"
    );
    Ok(())
}

#[test]
fn exits_are_named_or_those_of_the_kind(rt: HostRuntime) -> Result<(), Fail> {
    let alloc = rt.alloc();
    let named =
        "component = [{class = \"A\", kind = \"activity\", exits = [\"onPause\", \"onCreate\", \"onPause\"]}]";
    match read_list(alloc, named.as_bytes()) {
        Ok(listed) => assert_eq!(rt; first_exits(&listed), 9),
        Err(_) => assert!(rt; false),
    }
    match read_list(alloc, receivers(alloc, 1)?.as_bytes()) {
        Ok(listed) => assert_eq!(rt; first_exits(&listed), 1),
        Err(_) => assert!(rt; false),
    }
    Ok(())
}

#[test]
fn lifecycles_end_where_their_edges_end(rt: HostRuntime) -> Result<(), Fail> {
    assert_eq!(rt; edge_count(Kind::Activity), 11);
    assert!(rt; edge(Kind::Activity, 10).is_some());
    assert!(rt; edge(Kind::Activity, 11).is_none());
    assert!(rt; edge(Kind::Receiver, 1).is_none());
    Ok(())
}
