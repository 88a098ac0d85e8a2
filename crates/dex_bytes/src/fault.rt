//! What can be wrong with a DEX file.
use ns_base::Counted;

/// The first fault of a DEX file in reading order. A place is a byte offset in the file.
#[derive(Clone, Copy, Debug, PartialEq, Eq)]
pub enum DexFault {
    /// A needed byte at this place or later is past the end; the piece that needs it begins here.
    Short(usize),
    /// The file does not begin as a DEX file does.
    Magic,
    /// The version is not 035.
    Version,
    /// The header's own size is not 112.
    HeaderSize,
    /// The file is not little-endian.
    Endian,
    /// The file size in the header is not the file's.
    FileSize,
    /// The Adler-32 in the header is not the file's.
    Checksum,
    /// The SHA-1 in the header is not the file's.
    Signature,
    /// The LEB128 number at this place does not fit 32 bits.
    Leb(usize),
    /// The byte at this place cannot stand there in MUTF-8.
    Mutf8(usize),
    /// This table (0 strings, 1 types, 2 protos, 3 fields, 4 methods, 5 classes) does not lie in the file.
    TableRange(u8),
    /// In this table and row stands this number, which is past the table that it names.
    Index(u8, u32, u32),
    /// The class member at this place is past its table, equal to the one before, or of another class.
    MemberIndex(usize),
    /// The code item at this place has more argument registers than registers.
    Registers(usize),
    /// The range of the try at this place is empty, ends past the code or begins before the last one ended.
    TryRange(usize),
    /// The handler offset of the try at this place begins no handler list.
    HandlerOffset(usize),
    /// The handler address at this place is past the code.
    HandlerAddress(usize),
    /// A count exceeds its limit.
    Limit(Counted),
    /// Memory ran out.
    Memory,
}
