//! Files linked: each fault where it comes first, and numbers over two files.
ghost use Rattle.std.specs.Prelude.{◌≡◌, ◌≤◌, ◌+◌, ◌^◌, length, sum_by, IfOk, IsTrue};
ghost use Rattle.std.specs.List.{All};
ghost use Rattle.dex_file.specs.Sizes.{members_of, IsShort};
ghost use Rattle.app_rows.specs.Small.{AreSmall, IsSmall};

use crate::LinkFault;
use crate::linking::{check_parts, link};
use crate::ranks::rank_types;
use app_model::{App, AppRows, ClassRow};
use dalvik::Body;
use dex_file::{
    DexParts, FileClass, FileCode, FileField, FileMethod, FileParts, FileProto, read_dex,
};
use dex_tables::{FieldId, MethodId};
use ns_base::{ClassNo, Counted, TypeNo};
use std::alloc::{AllocError, Global};
use std::test::Fail;

// A class: its type, its superclass, its interfaces, and the flags of a method, with code or without.
#[derive(Clone, Copy)]
struct ClassForm {
    kind: u32,
    parent: Option<u32>,
    interfaces: &'static [u16],
    method: Option<(u32, bool)>,
}

// A file: its strings, each of which is a type; its classes; and how many fields of the second type
// each class has.
#[derive(Clone, Copy)]
struct FileForm {
    texts: &'static [&'static str],
    classes: &'static [ClassForm],
    fields: u32,
}

const LOCK: &str = "Landroid/os/PowerManager$WakeLock;";

const A: ClassForm = ClassForm {
    kind: 0,
    parent: None,
    interfaces: &[],
    method: None,
};

const ONE: FileForm = FileForm {
    texts: &["LA;", LOCK],
    classes: &[A],
    fields: 0,
};

fn texts_of(alloc: Global, texts: &[&str]) -> Result<Vec<Vec<u8>>, AllocError> {
    let mut list = Vec::new(alloc);
    for text in texts {
        list.push(text.as_bytes().to_vec(alloc)?)?;
    }
    Ok(list)
}

fn methods_of(alloc: Global, method: Option<(u32, bool)>) -> Result<Vec<FileMethod>, AllocError> {
    let mut list = Vec::new(alloc);
    if let Some((flags, has_code)) = method {
        let code = if has_code {
            Some(FileCode {
                ins: 0,
                body: Body::new(0, Vec::new(alloc)),
            })
        } else {
            None
        };
        list.push(FileMethod { id: 0, flags, code })?;
    }
    Ok(list)
}

fn fields_of(alloc: Global, count: u32) -> Result<Vec<FileField>, AllocError> {
    let mut list = Vec::new(alloc);
    for _ in 0..count {
        list.push(FileField { id: 0, flags: 8 })?;
    }
    Ok(list)
}

fn class_of(alloc: Global, form: ClassForm, fields: u32) -> Result<FileClass, AllocError> {
    Ok(FileClass {
        kind: form.kind,
        flags: 1,
        parent: form.parent,
        interfaces: form.interfaces.to_vec(alloc)?,
        statics: fields_of(alloc, fields)?,
        instances: Vec::new(alloc),
        directs: methods_of(alloc, form.method)?,
        virtuals: Vec::new(alloc),
    })
}

fn classes_of(alloc: Global, file: &FileForm) -> Result<Vec<FileClass>, AllocError> {
    let mut list = Vec::new(alloc);
    for class in file.classes {
        list.push(class_of(alloc, *class, file.fields)?)?;
    }
    Ok(list)
}

fn types_of(alloc: Global, texts: &[&str]) -> Result<Vec<u32>, AllocError> {
    let mut list = Vec::new(alloc);
    let mut row: u32 = 0;
    for _text in texts {
        list.push(row)?;
        row = row.saturating_add(1);
    }
    Ok(list)
}

fn file_of(alloc: Global, file: &FileForm) -> Result<FileParts, AllocError> {
    let mut protos = Vec::new(alloc);
    protos.push(FileProto {
        shorty: 0,
        result: 0,
        params: Vec::new(alloc),
    })?;
    Ok(FileParts {
        strings: texts_of(alloc, file.texts)?,
        types: types_of(alloc, file.texts)?,
        protos,
        fields: vec![in alloc; FieldId {
            class: 0,
            kind: 1,
            name: 0
        }; 1]?,
        methods: vec![in alloc; MethodId {
            class: 0,
            proto: 0,
            name: 0
        }; 1]?,
        classes: classes_of(alloc, file)?,
        units: 1,
    })
}

fn files_of(alloc: Global, forms: &[FileForm]) -> Result<Vec<FileParts>, AllocError> {
    let mut files = Vec::new(alloc);
    for form in forms {
        files.push(file_of(alloc, form)?)?;
    }
    Ok(files)
}

fn members_of(class: &FileClass) -> u128
    ensures value { result ≡ members_of class.now }
    ensures few { result ≤ 2 ^ 66 }
{
    class.statics.len() as u128
        + class.instances.len() as u128
        + class.directs.len() as u128
        + class.virtuals.len() as u128
}

fn count_members(classes: &[FileClass]) -> u128
    ensures { result ≡ sum_by members_of classes.now }
{
    let mut count = 0;
    for c in 0..classes.len() {
        count += members_of(&classes[c]);
    }
    count
}

fn is_small(file: &FileParts) -> bool
    ensures { IsTrue result → IsSmall file.now }
{
    let tables = file.strings.len() <= 8_388_608
        && file.types.len() <= 8_388_608
        && file.protos.len() <= 8_388_608
        && file.fields.len() <= 8_388_608
        && file.methods.len() <= 8_388_608
        && file.classes.len() <= 8_388_608;
    tables && count_members(&file.classes) <= 1_048_576
}

fn are_small(files: &[FileParts]) -> bool
    ensures { IsTrue result → AreSmall files.now }
{
    if files.len() > 16 {
        return false;
    }
    for n in 0..files.len() {
        if !is_small(&files[n]) {
            return false;
        }
    }
    true
}

fn check_forms(alloc: Global, forms: &[FileForm]) -> Result<AppRows, LinkFault> {
    let files = files_of(alloc, forms)?;
    if !are_small(&files) {
        return Err(LinkFault::Memory);
    }
    check_parts(alloc, files)
}

// Files, and their first fault.
const FAULTS: [(&[FileForm], LinkFault); 7] = [
    (&[ONE, ONE], LinkFault::DuplicateClass(1, 0, 0)),
    // A method that is neither abstract nor native, without code.
    (
        &[
            ONE,
            FileForm {
                texts: &["LB;", LOCK],
                classes: &[ClassForm {
                    method: Some((9, false)),
                    ..A
                }],
                fields: 0,
            },
        ],
        LinkFault::CodeMissing(1, 0),
    ),
    // An abstract one with code.
    (
        &[FileForm {
            classes: &[ClassForm {
                method: Some((0x401, true)),
                ..A
            }],
            ..ONE
        }],
        LinkFault::CodeUnwanted(0, 0),
    ),
    // A native one with code.
    (
        &[FileForm {
            classes: &[ClassForm {
                method: Some((0x101, true)),
                ..A
            }],
            ..ONE
        }],
        LinkFault::CodeUnwanted(0, 0),
    ),
    // A class that is its own superclass.
    (
        &[FileForm {
            classes: &[ClassForm {
                parent: Some(0),
                ..A
            }],
            ..ONE
        }],
        LinkFault::SuperCycle(0, 0),
    ),
    // A cycle through interfaces over two files, with a class below it before.
    (
        &[
            FileForm {
                texts: &["LA;", "LB;", "LC;"],
                classes: &[
                    ClassForm {
                        kind: 2,
                        parent: Some(0),
                        ..A
                    },
                    ClassForm {
                        interfaces: &[1],
                        ..A
                    },
                ],
                fields: 0,
            },
            FileForm {
                texts: &["LA;", "LB;", "LD;"],
                classes: &[
                    ClassForm {
                        kind: 2,
                        parent: Some(1),
                        ..A
                    },
                    ClassForm {
                        kind: 1,
                        interfaces: &[0],
                        ..A
                    },
                ],
                fields: 0,
            },
        ],
        LinkFault::SuperCycle(0, 1),
    ),
    // 65 wake-lock fields.
    (
        &[FileForm { fields: 65, ..ONE }],
        LinkFault::Limit(Counted::Locks),
    ),
];

#[test]
fn the_first_fault_is_told(rt: HostRuntime) -> Result<(), Fail> {
    for (forms, fault) in FAULTS {
        assert_eq!(rt; check_forms(rt.alloc(), forms).err(), Some(fault));
    }
    Ok(())
}

#[test]
fn as_many_locks_as_there_may_be(rt: HostRuntime) -> Result<(), Fail> {
    let rows = check_forms(rt.alloc(), &[FileForm { fields: 64, ..ONE }])
        .ok()
        .ok_or("the file links")?;
    assert_eq!(rt; (rows.locks.len(), rows.fields.len()), (64, 64));
    Ok(())
}

// The second file has its types in another order, and one of them is new.
const TWO: [FileForm; 2] = [
    FileForm {
        texts: &["LA;", "LB;"],
        classes: &[ClassForm { kind: 1, ..A }],
        fields: 0,
    },
    FileForm {
        texts: &["LC;", "LB;"],
        classes: &[ClassForm {
            kind: 0,
            parent: Some(1),
            method: Some((0x401, false)),
            interfaces: &[],
        }],
        fields: 0,
    },
];

#[test]
fn types_have_first_seen_numbers(rt: HostRuntime) -> Result<(), Fail> {
    let rows = check_forms(rt.alloc(), &TWO).ok().ok_or("the files link")?;
    let texts: [&[u8]; 3] = [b"LA;", b"LB;", b"LC;"];
    assert_eq!(rt; rows.types.len(), texts.len());
    for (text, want) in rows.types.iter().zip(texts) {
        assert_eq!(rt; text.as_slice(), want);
    }
    assert_eq!(rt; (rows.names.len(), rows.protos.len()), (3, 2));
    let [first, second] = rows.classes.as_slice() else {
        return Err("two classes".into());
    };
    assert_eq!(rt; (first.name, first.parent), (TypeNo(1), None));
    assert_eq!(rt; (second.name, second.parent), (TypeNo(2), Some(TypeNo(1))));
    let [method] = rows.methods.as_slice() else {
        return Err("one method".into());
    };
    assert_eq!(rt; method.class, ClassNo(1));
    Ok(())
}

// The third file has the superclass of the first one's class.
const THREE: [FileForm; 3] = [
    FileForm {
        texts: &["LA;", "LC;"],
        classes: &[ClassForm {
            parent: Some(1),
            ..A
        }],
        fields: 0,
    },
    FileForm {
        texts: &["LB;", "LA;"],
        classes: &[A],
        fields: 0,
    },
    FileForm {
        texts: &["LC;", "LB;"],
        classes: &[A],
        fields: 0,
    },
];

// A file that is a header alone.
static HEADER: [u8; 112] = [
    100, 101, 120, 10, 48, 51, 53, 0, 48, 12, 18, 61, 165, 252, 123, 234, 143, 169, 255, 170, 82,
    36, 53, 64, 200, 2, 96, 102, 81, 27, 159, 206, 112, 0, 0, 0, 112, 0, 0, 0, 120, 86, 52, 18, 0,
    0, 0, 0, 0, 0, 0, 0, 0, 0, 0, 0, 0, 0, 0, 0, 0, 0, 0, 0, 0, 0, 0, 0, 0, 0, 0, 0, 0, 0, 0, 0, 0,
    0, 0, 0, 0, 0, 0, 0, 0, 0, 0, 0, 0, 0, 0, 0, 0, 0, 0, 0, 0, 0, 0, 0, 0, 0, 0, 0, 0, 0, 0, 0, 0,
    0, 0, 0,
];

// One file more, with no class.
fn push_empty(alloc: Global, files: &mut Vec<DexParts>) -> Result<(), AllocError>
    requires { All IsShort files.old.items }
    ensures short { IfOk result (λ _. All IsShort files.new.items) }
    ensures count { IfOk result (λ _. length files.new.items ≡ length files.old.items + 1) }
{
    match read_dex(alloc, &HEADER) {
        Ok(file) => {
            files.push(file)?;
            Ok(())
        }
        Err(_) => Err(AllocError),
    }
}

fn link_empty(alloc: Global) -> Result<App, LinkFault> {
    let mut files = Vec::new(alloc);
    push_empty(alloc, &mut files)?;
    push_empty(alloc, &mut files)?;
    push_empty(alloc, &mut files)?;
    link(alloc, files)
}

#[test]
fn three_files_that_were_read_are_linked(rt: HostRuntime) -> Result<(), Fail> {
    let app = link_empty(rt.alloc()).ok().ok_or("the files link")?;
    assert_eq!(rt; app.class_count(), 0);
    Ok(())
}

#[test]
fn three_files_are_linked(rt: HostRuntime) -> Result<(), Fail> {
    let rows = check_forms(rt.alloc(), &THREE)
        .ok()
        .ok_or("the files link")?;
    let [first, second, third] = rows.classes.as_slice() else {
        return Err("three classes".into());
    };
    assert_eq!(rt; (first.name, first.parent), (TypeNo(0), Some(TypeNo(1))));
    assert_eq!(rt; (second.name, third.name), (TypeNo(2), TypeNo(1)));
    Ok(())
}

// A below B; C and D above each other; E its own superclass; F below D.
const RANKED: FileForm = FileForm {
    texts: &["LA;", "LB;", "LC;", "LD;", "LE;", "LF;"],
    classes: &[
        ClassForm {
            parent: Some(1),
            ..A
        },
        ClassForm { kind: 1, ..A },
        ClassForm {
            kind: 2,
            interfaces: &[3],
            ..A
        },
        ClassForm {
            kind: 3,
            parent: Some(2),
            ..A
        },
        ClassForm {
            kind: 4,
            parent: Some(4),
            ..A
        },
        ClassForm {
            kind: 5,
            parent: Some(3),
            ..A
        },
    ],
    fields: 0,
};

fn rows_of(alloc: Global, form: &FileForm) -> Result<Vec<ClassRow>, AllocError> {
    let mut rows = Vec::new(alloc);
    for class in form.classes {
        let mut interfaces = Vec::new(alloc);
        for kind in class.interfaces {
            interfaces.push(TypeNo(u32::from(*kind)))?;
        }
        rows.push(ClassRow {
            name: TypeNo(class.kind),
            parent: match class.parent {
                Some(kind) => Some(TypeNo(kind)),
                None => None,
            },
            interfaces,
            flags: 1,
        })?;
    }
    Ok(rows)
}

#[test]
fn odd_ranks_tell_cycles(rt: HostRuntime) -> Result<(), Fail> {
    let rows = rows_of(rt.alloc(), &RANKED)?;
    if rows.len() > 100 {
        return Err("six rows".into());
    }
    let ranks = rank_types(rt.alloc(), &rows)?;
    assert_eq!(rt; ranks.as_slice(), [4, 2, 7, 7, 9, 10].as_slice());
    Ok(())
}
