//! What the checker answers.

/// A flow rule, under the name that the program prints.
#[derive(Clone, Copy, Debug, PartialEq, Eq)]
pub enum Rule {
    V1,
    V2,
    V3,
    V4,
    V5,
    I1,
    I2,
    I3,
    C1,
    C2,
    C3,
}

/// The first cause why a certificate is refused, or that it is valid.
#[derive(Clone, Copy, Debug, PartialEq, Eq)]
pub enum Checked {
    Valid,
    /// The digest of the component list differs.
    ListDigest,
    /// The digest of this DEX file differs, or one side has no such file.
    DexDigest(u32),
    /// The part of this lock field is missing or one too many, has another name, or a row that does not fit.
    Shape(u32),
    /// An instance of the rule leads out of the facts of the lock field. For V1 the numbers are the component, 0 and 0;
    /// for V2 to V4 the component, its state and the edge; for V5 the watching component, its state and the moving one;
    /// for the others the method, the entry status and the pc.
    Broken {
        rule: Rule,
        lock: u32,
        a: u32,
        b: u32,
        c: u32,
    },
    /// The facts of the lock field break the exit policy.
    Unmet {
        component: u32,
        callback: u32,
        lock: u32,
        status: u8,
    },
}
