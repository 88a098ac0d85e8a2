//! Why there is no tag table.
use ns_base::Counted;
use thiserror::Error;

/// Why there is no tag table.
#[derive(Debug, Drop, Error)]
pub enum TagFault {
    #[error("more cells than the limit of {0:?}")]
    Limit(Counted),
    #[error("out of memory")]
    Memory,
}
