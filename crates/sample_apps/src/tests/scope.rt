//! The first rule of scope that an application breaks under a list, and where.
use super::{read_app, samples};
use crate::{Stop, subject_of};
use scope_check::ScopeFault;
use std::alloc::Global;
use std::test::Fail;

// The rule, the class and the method where it is broken, and the pc.
type Broken = (u8, &'static str, &'static str, u32);

// What is shown, the listed receiver, and the first break; none where it is in scope.
type Row = (&'static str, &'static str, Option<Broken>);

static CALLS_OUT: [Row; 14] = [
    (
        "a native callback",
        "NativeEntry",
        Some((1, "Lapp/NativeEntry;", "onReceive", 0)),
    ),
    (
        "a native callee",
        "NativeCall",
        Some((1, "Lapp/NativeCall;", "onReceive", 1)),
    ),
    (
        "a native library",
        "Loads",
        Some((1, "Lapp/Loads;", "onReceive", 2)),
    ),
    ("own methods of these names", "LoadsOwn", None),
    (
        "a class by its name",
        "Reflects",
        Some((2, "Lapp/Reflects;", "onReceive", 2)),
    ),
    (
        "a method of reflection",
        "Invokes",
        Some((2, "Lapp/Invokes;", "onReceive", 1)),
    ),
    (
        "a class loader",
        "LoadsClass",
        Some((2, "Lapp/LoadsClass;", "onReceive", 1)),
    ),
    ("another method of a class object", "NamesOnly", None),
    (
        "an object of a class below a thread's",
        "MakesThread",
        Some((3, "Lapp/MakesThread;", "onReceive", 0)),
    ),
    (
        "a call on one",
        "Starts",
        Some((3, "Lapp/Starts;", "onReceive", 1)),
    ),
    (
        "executors",
        "Pools",
        Some((3, "Lapp/Pools;", "onReceive", 0)),
    ),
    ("static calls of threads, other objects", "Sleeps", None),
    (
        "two rules at one instruction",
        "BothHere",
        Some((1, "Lapp/BothHere;", "onReceive", 1)),
    ),
    (
        "the lower rule, at its first place, though it comes later",
        "LowerLater",
        Some((2, "Lapp/LowerLater;", "onReceive", 4)),
    ),
];

// Where no lower rule is broken, the first class of the file breaks the rule of unreached code.
const UNREACHED: Option<Broken> = Some((8, "Lapp/First;", "onReceive", 1));

static LOCKS: [Row; 15] = [
    (
        "a lock over a call that may store",
        "Renews",
        Some((4, "Lapp/Renews;", "onReceive", 5)),
    ),
    (
        "a lock as an argument",
        "Passes",
        Some((4, "Lapp/Passes;", "onReceive", 2)),
    ),
    (
        "a lock in another field",
        "Keeps",
        Some((4, "Lapp/Keeps;", "onReceive", 2)),
    ),
    (
        "a lock in an array",
        "Fills",
        Some((4, "Lapp/Fills;", "onReceive", 2)),
    ),
    (
        "a lock that is thrown",
        "Throws",
        Some((4, "Lapp/Throws;", "onReceive", 2)),
    ),
    (
        "what is no lock, in a lock field",
        "Stores",
        Some((4, "Lapp/Stores;", "onReceive", 0)),
    ),
    (
        "lock calls, stores of a new lock and of null",
        "Uses",
        UNREACHED,
    ),
    (
        "another method of a wake lock",
        "Works",
        Some((5, "Lapp/Works;", "onReceive", 1)),
    ),
    (
        "newWakeLock in another form",
        "MakesStatic",
        Some((5, "Lapp/MakesStatic;", "onReceive", 1)),
    ),
    (
        "a lock call on what is no lock",
        "CallsThis",
        Some((5, "Lapp/CallsThis;", "onReceive", 0)),
    ),
    (
        "two stores of new locks, in two methods",
        "StoresTwice",
        Some((6, "Lapp/StoresTwice;", "onReceive", 15)),
    ),
    ("two stores to two fields", "StoresBoth", UNREACHED),
    (
        "a static access to an instance field",
        "Unfit",
        Some((7, "Lapp/Unfit;", "onReceive", 1)),
    ),
    ("an instance field of its one component", "Owns", UNREACHED),
    (
        "one whose component is made by hand",
        "MadeByHand",
        Some((7, "Lapp/MadeByHand;", "onReceive", 0)),
    ),
];

// What is shown, a file, of which the receiver R is listed, and the first break.
type FileRow = (&'static str, &'static [&'static str], Option<Broken>);

static FILES: [FileRow; 7] = [
    (
        "a receiver that makes, acquires and releases",
        &samples::RECEIVER,
        None,
    ),
    (
        "a field that its class initialises",
        &samples::INITIALISES,
        None,
    ),
    (
        "an unlisted callback by name",
        &samples::UNLISTED,
        Some((9, "Lapp/R;", "onCall", 0)),
    ),
    (
        "an unlisted runnable, by two calls",
        &samples::RUN_LEADS,
        Some((9, "Lapp/Run;", "run", 0)),
    ),
    (
        "a class initialiser that leads to a lock",
        &samples::CLASS_LEADS,
        Some((10, "Lapp/R;", "<clinit>", 0)),
    ),
    (
        "an initialiser of what a listed class inherits",
        &samples::MAKES_LEADS,
        Some((10, "Lapp/Base;", "<init>", 0)),
    ),
    (
        "a lock as an argument of a method that calls itself",
        &samples::TAGS,
        Some((4, "Lapp/R;", "again", 0)),
    ),
];

const TWO_OWNERS: &[u8] =
    b"[[component]]\nkind = \"receiver\"\nclass = \"Lapp/Owns;\"\n[[component]]\nkind = \"receiver\"\nclass = \"Lapp/OwnsAlso;\"\n";

const WITH_RUNNABLE: &[u8] =
    b"[[component]]\nkind = \"activity\"\nclass = \"Lapp/A;\"\n[[component]]\nkind = \"runnable\"\nclass = \"Lapp/A$1;\"\n";

fn is_broken(stopped: &Stop, broken: &Broken) -> bool {
    match stopped {
        Stop::Scope(
            ScopeFault::Rule {
                rule,
                pc,
                class_name,
                method_name,
                ..
            },
        ) => {
            *rule == broken.0
                && class_name.as_slice() == broken.1.as_bytes()
                && method_name.as_slice() == broken.2.as_bytes()
                && *pc == broken.3
        }
        _ => false,
    }
}

// Whether the application under the text of a list has this first break.
fn breaks(
    alloc: Global,
    digits: &[&str],
    text: &[u8],
    first: &Option<Broken>,
) -> Result<bool, Fail> {
    let app = read_app(alloc, digits)?;
    Ok(match (subject_of(alloc, app, text), first) {
        (Ok(_), None) => true,
        (Err(stopped), Some(broken)) => is_broken(&stopped, broken),
        _ => false,
    })
}

// The text of a list of one receiver.
fn list_of(alloc: Global, name: &str) -> Result<String, Fail> {
    let parts = [
        "[[component]]\nkind = \"receiver\"\nclass = \"Lapp/",
        name,
        ";\"\n",
    ];
    Ok(parts.concat(alloc)?)
}

// What is the first row with another break.
fn first_wrong(alloc: Global, digits: &[&str], rows: &[Row]) -> Result<Option<&'static str>, Fail> {
    for (what, name, first) in rows.iter() {
        let list = list_of(alloc, name)?;
        if !breaks(alloc, digits, list.as_bytes(), first)? {
            return Ok(Some(*what));
        }
    }
    Ok(None)
}

#[test]
fn native_code_reflection_and_threads_are_refused(rt: HostRuntime) -> Result<(), Fail> {
    assert_eq!(rt;
        first_wrong(rt.alloc(), &samples::CALLS_OUT, &CALLS_OUT)?,
        None
    );
    Ok(())
}

#[test]
fn locks_that_are_not_followed_are_refused(rt: HostRuntime) -> Result<(), Fail> {
    assert_eq!(rt; first_wrong(rt.alloc(), &samples::LOCKS, &LOCKS)?, None);
    Ok(())
}

#[test]
fn an_instance_field_has_one_owner(rt: HostRuntime) -> Result<(), Fail> {
    let broken = Some((7, "Lapp/Owns;", "onReceive", 0));
    let alloc = rt.alloc();
    assert!(rt; breaks(alloc, &samples::LOCKS, TWO_OWNERS, &broken)?);
    assert!(rt; breaks(alloc, &samples::INNER_CLASS, WITH_RUNNABLE, &None)?);
    Ok(())
}

#[test]
fn what_no_listed_callback_reaches_is_looked_at(rt: HostRuntime) -> Result<(), Fail> {
    let list = list_of(rt.alloc(), "R")?;
    for (what, digits, first) in FILES.iter() {
        assert!(rt;
            breaks(rt.alloc(), digits, list.as_bytes(), first)?,
            "{what}"
        );
    }
    let unlisted = Some((8, "Lapp/R;", "onReceive", 11));
    assert!(rt; breaks(rt.alloc(), &samples::RECEIVER, b"", &unlisted)?);
    Ok(())
}
