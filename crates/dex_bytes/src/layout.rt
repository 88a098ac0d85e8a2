//! What the header of a DEX file says.

/// A table: how many rows it has, and where it begins.
#[derive(Clone, Copy, Debug, PartialEq, Eq)]
pub struct Part {
    pub size: u32,
    pub off: u32,
}

/// Where the six id tables stand.
#[derive(Clone, Copy, Debug, PartialEq, Eq)]
pub struct Header {
    pub strings: Part,
    pub types: Part,
    pub protos: Part,
    pub fields: Part,
    pub methods: Part,
    pub classes: Part,
}
