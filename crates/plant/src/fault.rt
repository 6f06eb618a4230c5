//! Faults of the outside. Each comes only where its object's count of faults rose.

use gate_base::Sequence;

/// The disk failed.
#[derive(Clone, Copy, Debug, PartialEq, Eq)]
pub struct DiskFault;

/// The signer failed: it may have got the body, and its answer is lost.
#[derive(Clone, Copy, Debug, PartialEq, Eq)]
pub struct SignerFault;

#[derive(Clone, Copy, Debug, PartialEq, Eq)]
pub struct ClockFault;

#[derive(Clone, Copy, Debug, PartialEq, Eq)]
pub struct EntropyFault;

#[derive(Clone, Copy, Debug, PartialEq, Eq)]
pub struct TakeFault;

#[derive(Clone, Copy, Debug, PartialEq, Eq)]
pub struct PutFault;

/// How a call of a plant in memory fails. A call of the disk fails by each in the same way.
#[derive(Clone, Copy, Debug, PartialEq, Eq)]
pub enum Fail {
    Disk,
    /// The signer did not get the body.
    NotReceived,
    /// The signer got the body, and its answer is lost.
    ReplyLost,
}

/// The numbers of calls that fail, counted from 1, and how; of several pairs with one number the first counts.
pub type Fails = Sequence<(u64, Fail)>;
