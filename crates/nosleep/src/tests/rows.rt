//! What `receiver` answers to one class. A new lock has status C0 in its field, one that is acquired
//! C1, C2 and then CT; L is a lock that is held and lost to its field. A broadcast may follow on any other.
use super::layout::Class;
use ns_base::Exit;

/// An exit, and the text that is written with it.
pub type Told = (Exit, &'static str);

/// What a row shows; the class of the file; its code in parts; the answer.
pub type Row = (&'static str, Class, &'static [&'static [u16]], Told);

pub const ACCEPTED: Told = (Exit::Accept, "accept\n");

const C1_AND_LOST: Told = (
    Exit::Reports,
    "report 1 of 2: Lapp/R;->wl is C1 after Lapp/R;->onReceive
report 2 of 2: Lapp/R;->wl is L after Lapp/R;->onReceive
",
);

const C2_CT_AND_LOST: Told = (
    Exit::Reports,
    "report 1 of 3: Lapp/R;->wl is C2 after Lapp/R;->onReceive
report 2 of 3: Lapp/R;->wl is CT after Lapp/R;->onReceive
report 3 of 3: Lapp/R;->wl is L after Lapp/R;->onReceive
",
);

const LOST: Told = (
    Exit::Reports,
    "report 1 of 1: Lapp/R;->wl is L after Lapp/R;->onReceive\n",
);

const SHOWN: Told = (
    Exit::Reports,
    "report 1 of 2: Lan\\x20app/R;->wl is C1 after Lan\\x20app/R;->onReceive
report 2 of 2: Lan\\x20app/R;->wl is L after Lan\\x20app/R;->onReceive
",
);

// ---- units, on the context in v4
/// The power manager of the context makes a lock, in v0.
pub const MAKE: &[u16] = &[
    0x001a, 9, 0x206e, 1, 0x0004, 0x000c, 0x001f, 8, 0x1112, 0x021a, 15, 0x306e, 2, 0x0210, 0x000c,
];

const PUT: &[u16] = &[0x0069, 0];

const GET: &[u16] = &[0x0062, 0];

const ACQUIRE: &[u16] = &[0x106e, 3, 0];

const RELEASE: &[u16] = &[0x106e, 4, 0];

// The string in v2 is no lock.
const RELEASE_STRING: &[u16] = &[0x106e, 4, 2];

// What v0 has goes to getSystemService in the place of a name.
const PASS: &[u16] = &[0x206e, 1, 0x0004];

const GC: &[u16] = &[0x0071, 5, 0];

const NULL: &[u16] = &[0x0012];

const NOP: &[u16] = &[0x0000];

/// The end.
pub const RETURN: &[u16] = &[0x000e];

// ---- classes
/// A receiver.
pub const R: Class = Class {
    name: "Lapp/R;",
    parent: "Landroid/content/BroadcastReceiver;",
    tail: &[],
    rows: 1,
    locks: 1,
    flags: &[1],
    has_code: true,
};

// One try, of the three units at 22, with a handler at 31.
pub const TRY: Class = Class {
    tail: &[22, 0, 0, 0, 3, 0, 1, 0, 1, 1, 11, 31],
    ..R
};

const BLANK: Class = Class {
    name: "Lan app/R;",
    ..R
};

const CONTEXT: Class = Class {
    name: "Landroid/content/Context;",
    ..R
};

const THREAD: Class = Class {
    parent: "Ljava/lang/Thread;",
    ..R
};

const CONTEXT_THREAD: Class = Class {
    name: "Landroid/content/Context;",
    ..THREAD
};

const OWN_PARENT: Class = Class {
    parent: "Lapp/R;",
    ..R
};

const TWICE: Class = Class { rows: 2, ..R };

const LOCKS: Class = Class { locks: 64, ..R };

const TOO_MANY_LOCKS: Class = Class { locks: 65, ..R };

// PUBLIC and ABSTRACT, PUBLIC and NATIVE.
const ABSTRACT: Class = Class {
    flags: &[0x81, 8],
    has_code: false,
    ..R
};

const NATIVE_WITH_CODE: Class = Class {
    flags: &[0x81, 2],
    ..R
};

const STATIC: Class = Class { flags: &[9], ..R };

const WITHOUT_CODE: Class = Class {
    has_code: false,
    ..R
};

// ---- code
/// Acquired and released.
pub const WORKS: &[&[u16]] = &[MAKE, PUT, GET, ACQUIRE, GET, RELEASE, RETURN];

const LEAKS: &[&[u16]] = &[MAKE, PUT, GET, ACQUIRE, RETURN];

// What the handler of a try does follows the return.
pub const HANDLES: &[&[u16]] = &[
    MAKE,
    PUT,
    GET,
    ACQUIRE,
    GC,
    GET,
    RELEASE,
    RETURN,
    &[0x000d],
    RETURN,
];

/// What is accepted, or reported.
pub static JUDGED: [Row; 20] = [
    ("acquired and released", R, WORKS, ACCEPTED),
    ("only returns", R, &[RETURN], ACCEPTED),
    ("does nothing, and returns", R, &[NOP, RETURN], ACCEPTED),
    (
        "acquired twice and released twice",
        R,
        &[
            MAKE, PUT, GET, ACQUIRE, GET, ACQUIRE, GET, RELEASE, GET, RELEASE, RETURN,
        ],
        ACCEPTED,
    ),
    (
        "released before null is stored",
        R,
        &[MAKE, PUT, GET, ACQUIRE, GET, RELEASE, NULL, PUT, RETURN],
        ACCEPTED,
    ),
    (
        "a release at count zero throws, so nothing is acquired",
        R,
        &[MAKE, PUT, GET, RELEASE, GET, ACQUIRE, RETURN],
        ACCEPTED,
    ),
    (
        "an acquire of null throws, so no lock is made",
        R,
        &[GET, ACQUIRE, MAKE, PUT, RETURN],
        ACCEPTED,
    ),
    (
        "a parent is a thread, and no call is of this class",
        THREAD,
        WORKS,
        ACCEPTED,
    ),
    (
        "the class has the name of the context",
        CONTEXT,
        WORKS,
        ACCEPTED,
    ),
    (
        "what an outside call throws ends the application",
        R,
        &[MAKE, PUT, GET, ACQUIRE, GC, GET, RELEASE, RETURN],
        ACCEPTED,
    ),
    ("a goto", R, &[&[0x0128], RETURN], ACCEPTED),
    ("a branch", R, &[NULL, &[0x0038, 2], RETURN], ACCEPTED),
    ("a move", R, &[NULL, &[0x0101], RETURN], ACCEPTED),
    ("64 lock fields", LOCKS, WORKS, ACCEPTED),
    ("acquired and not released", R, LEAKS, C1_AND_LOST),
    (
        "what an outside call throws is caught, and the lock stays held",
        TRY,
        HANDLES,
        C1_AND_LOST,
    ),
    (
        "acquired twice and released once",
        R,
        &[MAKE, PUT, GET, ACQUIRE, GET, ACQUIRE, GET, RELEASE, RETURN],
        C1_AND_LOST,
    ),
    (
        "acquired three times and released once: two levels or more",
        R,
        &[
            MAKE, PUT, GET, ACQUIRE, GET, ACQUIRE, GET, ACQUIRE, GET, RELEASE, RETURN,
        ],
        C2_CT_AND_LOST,
    ),
    (
        "null is stored over a held lock",
        R,
        &[MAKE, PUT, GET, ACQUIRE, NULL, PUT, RETURN],
        LOST,
    ),
    ("a name with a blank is shown", BLANK, LEAKS, SHOWN),
];

/// What is out of scope: the rule, the method with its number, and the pc.
pub static OUTSIDE: [Row; 6] = [
    (
        "a call on a context that is a thread",
        CONTEXT_THREAD,
        WORKS,
        (
            Exit::Scope,
            "refused N3 Landroid/content/Context;->onReceive 0 2\n",
        ),
    ),
    (
        "a second place stores a new lock",
        R,
        &[MAKE, PUT, GET, ACQUIRE, MAKE, PUT, RETURN],
        (Exit::Scope, "refused N6 Lapp/R;->onReceive 0 37\n"),
    ),
    (
        "what the field has is stored",
        R,
        &[MAKE, PUT, GET, PUT, RETURN],
        (Exit::Scope, "refused N4 Lapp/R;->onReceive 0 19\n"),
    ),
    (
        "a lock is acquired that is in no field",
        R,
        &[MAKE, ACQUIRE, RETURN],
        (Exit::Scope, "refused N4 Lapp/R;->onReceive 0 15\n"),
    ),
    (
        "a lock is passed to another call",
        R,
        &[MAKE, PUT, GET, PASS, RETURN],
        (Exit::Scope, "refused N4 Lapp/R;->onReceive 0 19\n"),
    ),
    (
        "a string is released, which is no lock",
        R,
        &[MAKE, PUT, RELEASE_STRING, RETURN],
        (Exit::Scope, "refused N5 Lapp/R;->onReceive 0 17\n"),
    ),
];

/// What is refused with the first fault or limit of reading, linking or binding.
pub static REFUSED: [Row; 16] = [
    (
        "an abstract method",
        ABSTRACT,
        &[],
        (Exit::Bad, "bad list NoCallback 0\n"),
    ),
    (
        "no opcode",
        R,
        &[&[0x003e], RETURN],
        (Exit::Bad, "bad dex 0 Code 0 BadOpcode 0 62\n"),
    ),
    (
        "a string past the table",
        R,
        &[&[0x001a, 24], RETURN],
        (Exit::Bad, "bad dex 0 Code 0 Operand 0 24\n"),
    ),
    (
        "a field past the table",
        R,
        &[&[0x0062, 1], RETURN],
        (Exit::Bad, "bad dex 0 Code 0 Operand 0 1\n"),
    ),
    (
        "a method past the table",
        R,
        &[&[0x106e, 6, 4], RETURN],
        (Exit::Bad, "bad dex 0 Code 0 Operand 0 6\n"),
    ),
    (
        "a register past the registers",
        R,
        &[&[0x061a, 9], RETURN],
        (Exit::Bad, "bad dex 0 Code 0 Register 0 6\n"),
    ),
    (
        "fewer argument words than the method takes",
        R,
        &[&[0x106e, 1, 4], RETURN],
        (Exit::Bad, "bad dex 0 Code 0 ArgCount 0\n"),
    ),
    (
        "falls off its end",
        R,
        &[MAKE, PUT],
        (Exit::Bad, "bad dex 0 Code 0 FallsOff 15\n"),
    ),
    (
        "no code unit",
        R,
        &[],
        (Exit::Bad, "bad dex 0 Code 0 FallsOff 0\n"),
    ),
    (
        "a branch behind the code",
        R,
        &[NULL, &[0x0038, 9], RETURN],
        (Exit::Bad, "bad dex 0 Code 0 Target 1 10\n"),
    ),
    (
        "a class that is its own superclass",
        OWN_PARENT,
        WORKS,
        (Exit::Bad, "bad link SuperCycle 0 0\n"),
    ),
    (
        "two rows of one class",
        TWICE,
        WORKS,
        (Exit::Bad, "bad link DuplicateClass Lapp/R; 0 0\n"),
    ),
    (
        "a static method",
        STATIC,
        WORKS,
        (Exit::Bad, "bad dex 0 Code 0 InsSize\n"),
    ),
    (
        "a native method with code",
        NATIVE_WITH_CODE,
        WORKS,
        (Exit::Bad, "bad link CodeUnwanted 0 0\n"),
    ),
    (
        "a method without code",
        WITHOUT_CODE,
        &[],
        (Exit::Bad, "bad link CodeMissing 0 0\n"),
    ),
    (
        "65 lock fields",
        TOO_MANY_LOCKS,
        WORKS,
        (Exit::Limit, "limit Locks\n"),
    ),
];
