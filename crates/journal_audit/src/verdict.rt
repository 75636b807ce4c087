//! What an audit says.

/// What is wrong with a line. They are tested in this order.
#[derive(Clone, Copy, Debug, PartialEq, Eq)]
pub enum AuditFault {
    /// The line isn't behind the former one by stamp and shard, its shard isn't that of its name, or its stamp
    /// isn't above the last one of its pass.
    Order,
    /// The time isn't the greater of the shard's last one and the moment.
    Now,
    /// Status, lock, reason or version is that of no outcome of the step at this place.
    Ruling,
}

/// What an audit says of a journal.
#[derive(Clone, Copy, Debug, PartialEq, Eq)]
pub enum Verdict {
    /// A host that keeps the rules may have written it.
    Legal,
    /// The line with this number, counted from 1 in the journal's second form, is the first that none may have
    /// written.
    Bad { line: u64, fault: AuditFault },
}
