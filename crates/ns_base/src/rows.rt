//! Numbers of rows of the linked application, each of its own type.

/// A type, in the order in which the files first name it.
#[derive(Clone, Copy, Debug, PartialEq, Eq)]
pub struct TypeNo(pub u32);

/// A class, by file and class row.
#[derive(Clone, Copy, Debug, PartialEq, Eq)]
pub struct ClassNo(pub u32);

/// A method, by class, directs before virtuals.
#[derive(Clone, Copy, Debug, PartialEq, Eq)]
pub struct MethodNo(pub u32);

/// A field, by class, statics before instances.
#[derive(Clone, Copy, Debug, PartialEq, Eq)]
pub struct FieldNo(pub u32);

/// A name, in the order in which the files first name it.
#[derive(Clone, Copy, Debug, PartialEq, Eq)]
pub struct NameNo(pub u32);

/// A prototype, in the order in which the files first name it.
#[derive(Clone, Copy, Debug, PartialEq, Eq)]
pub struct ProtoNo(pub u32);

/// A wake-lock field, by its place among the application's lock fields.
#[derive(Clone, Copy, Debug, PartialEq, Eq)]
pub struct LockNo(pub u32);

/// A component, by its place in the component list.
#[derive(Clone, Copy, Debug, PartialEq, Eq)]
pub struct ComponentNo(pub u32);
