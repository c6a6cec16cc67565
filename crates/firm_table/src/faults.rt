//! Why a service ends early.

/// Why a service ended early.
#[derive(Clone, Copy, Debug, PartialEq, Eq)]
pub enum ServeFault {
    /// A read failed.
    Read,
    /// A write, or the last flush, failed.
    Write,
    /// More bytes were read than the service takes.
    TooLong,
    /// Memory for the service itself, or for its watcher, was refused.
    Memory,
}
