//! What an audit says.

/// What is wrong with a line.
#[derive(Clone, Copy, Debug, PartialEq, Eq)]
pub enum RowFault {
    /// Status, lock, reason or version is that of no outcome of the step at this place.
    Ruling,
    /// The line takes back one that tells no accepted save or removal.
    TakenBack,
}

/// What an audit says of a segment.
#[derive(Clone, Copy, Debug, PartialEq, Eq)]
pub enum SegmentVerdict {
    /// A host that keeps the rules may have written it.
    Legal,
    /// The line with this number, counted from 1, is the first that none may have written. Contents are counted with
    /// their line.
    Bad { line: u64, fault: RowFault },
}
