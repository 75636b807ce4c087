//! What a container's token says.
use wopi_model::User;

/// Who may list the container and open each of its files, whether to write or only to read, and how long.
#[derive(Drop)]
pub struct ContainerToken {
    pub user: User,
    /// Whether the user may write.
    pub write: bool,
    pub serial: u64,
    /// In milliseconds since 1970.
    pub issued: u64,
    /// In milliseconds since 1970.
    pub expires: u64,
}
