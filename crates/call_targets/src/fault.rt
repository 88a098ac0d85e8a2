//! Why there is no call graph.
use ns_base::Counted;
use thiserror::Error;

/// Why there is no call graph.
#[derive(Debug, Drop, Error)]
pub enum TargetFault {
    #[error("more entries than the limit of {0:?}")]
    Limit(Counted),
    #[error("out of memory")]
    Memory,
}
