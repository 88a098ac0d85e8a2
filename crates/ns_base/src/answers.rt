//! How a run ends, what is counted against a limit, and what observers are told.
ghost use Rattle.std.specs.Prelude.{◌≡◌};
ghost use Rattle.ns_base.specs.Answers.{limit_of, number_of};

/// What has a limit. `docs/command.md` lists the limits.
#[derive(Clone, Copy, Debug, PartialEq, Eq)]
pub enum Counted {
    /// DEX files named on the command line.
    Files,
    /// Bytes of one DEX file.
    FileBytes,
    /// Bytes of the component list.
    ListBytes,
    /// Bytes of a certificate, read or written.
    CertBytes,
    /// Bytes of string content, summed over the string ids of a file.
    Strings,
    /// Entries of type lists, summed over the prototypes and classes of a file.
    TypeLists,
    /// Fields and methods of the classes of a file.
    Members,
    /// Exception handlers, summed over the tries of a file's methods.
    Handlers,
    /// Code units, per file and in all, counted once a method.
    Units,
    /// Wake-lock fields.
    Locks,
    /// Calls of newWakeLock.
    Sites,
    /// Components of the list.
    Components,
    /// Entries of the call targets.
    Targets,
    /// Cells of the tag table.
    TagCells,
}

/// How a run ends. The process ends with `number` of it.
#[derive(Clone, Copy, Debug, PartialEq, Eq)]
pub enum Exit {
    /// No lock can be held at a policy exit.
    Accept,
    /// The rules derive a held lock at a policy exit.
    Reports,
    /// The application is outside what can be judged.
    Scope,
    /// An input is not what it should be.
    Bad,
    /// The command line has none of the forms.
    Usage,
    /// A file could not be read.
    ReadFault,
    /// The answer could not be written whole.
    WriteFault,
    /// An observer failed.
    WatcherFault,
    /// A count exceeds its limit.
    Limit,
    /// Memory ran out before anything was written.
    Memory,
    /// A certificate does not hold.
    Broken,
    /// Memory ran out while observers were told.
    Partly,
}

/// What an observer is told, after the whole answer was written.
#[derive(Clone, Copy, Debug, PartialEq, Eq)]
pub enum Event {
    /// A file was read whole; files count from 0 in reading order.
    Read {
        file: u32,
        bytes: u64,
    },
    /// A lock may be held at a policy exit, with this status number.
    Held {
        component: u32,
        callback: u32,
        lock: u32,
        status: u8,
    },
    /// The run ends with this number.
    Ended {
        exit: u8,
    },
}

/// The status with which the process ends.
pub fn number(exit: Exit) -> u8
    ensures { result ≡ number_of exit }
{
    match exit {
        Exit::Accept => 0,
        Exit::Reports => 1,
        Exit::Scope => 2,
        Exit::Bad => 3,
        Exit::Usage => 4,
        Exit::ReadFault => 5,
        Exit::WriteFault => 6,
        Exit::WatcherFault => 7,
        Exit::Limit => 8,
        Exit::Memory => 9,
        Exit::Broken => 10,
        Exit::Partly => 11,
    }
}

/// The largest count that is accepted.
pub fn limit(which: Counted) -> u64
    ensures { result ≡ limit_of which }
{
    match which {
        Counted::Files => 16,
        Counted::FileBytes => 33_554_432,
        Counted::ListBytes => 1_048_576,
        Counted::CertBytes => 268_435_456,
        Counted::Strings => 67_108_864,
        Counted::TypeLists => 4_194_304,
        Counted::Members => 1_048_576,
        Counted::Handlers => 4_194_304,
        Counted::Units => 4_194_304,
        Counted::Locks => 64,
        Counted::Sites => 64,
        Counted::Components => 256,
        Counted::Targets => 16_777_216,
        Counted::TagCells => 134_217_728,
    }
}
