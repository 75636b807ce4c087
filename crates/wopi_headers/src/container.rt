//! What a request asks for of the container, and of either a file or the container.
use crate::ask::Ask;
use wopi_text::Bytes;

/// An operation on the container, which is the folder of all files.
#[derive(Clone, Copy, Debug, PartialEq, Eq)]
pub enum ContainerOp {
    /// CheckContainerInfo.
    Info,
    /// EnumerateChildren.
    Children,
}

/// What a request asks for of the container, in the name of who holds the token. The token is the text as it
/// came, percent-decoded and not yet read.
#[derive(Drop)]
pub struct ContainerAsk {
    pub token: Bytes,
    pub op: ContainerOp,
}

/// What a request asks for, and where.
#[derive(Drop)]
pub enum Place {
    File(Ask),
    Container(ContainerAsk),
}
