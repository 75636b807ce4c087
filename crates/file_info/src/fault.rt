//! Why a body is refused.
ghost use Rattle.std.specs.Prelude.{◌≡◌};
ghost use Rattle.file_info.specs.Json.{member_name};

use thiserror::Error;

/// A member that a body needs.
#[derive(Clone, Copy, Debug, PartialEq, Eq)]
pub enum Required {
    BaseFileName,
    OwnerId,
    Size,
    UserId,
    Version,
    Name,
    Url,
}

impl Required {
    /// The member's name, as it stands in the body.
    pub fn name(self) -> &'static str
        ensures { result.now ≡ member_name self }
    {
        match self {
            Required::BaseFileName => "BaseFileName",
            Required::OwnerId => "OwnerId",
            Required::Size => "Size",
            Required::UserId => "UserId",
            Required::Version => "Version",
            Required::Name => "Name",
            Required::Url => "Url",
        }
    }
}

/// Why a body is refused.
#[derive(Clone, Copy, Debug, PartialEq, Eq, Error)]
pub enum InfoFault {
    /// The bytes are no JSON.
    #[error("the body is no JSON")]
    NotJson,
    /// The first member that the body needs and lacks, or has of another kind.
    #[error("the body has no {field:?} of its kind")]
    Missing { field: Required },
    /// Want of memory.
    #[error("want of memory")]
    Memory,
}

impl From<wopi_text::Memory> for InfoFault {
    ghost use Rattle.std.specs.Prelude.{◌≡◌};
    ghost use Rattle.file_info.specs.declared.fault.InfoFault.TheVariants.{Memory};

    ghost from_gives = { λ _ fault. fault ≡ Memory };

    fn from(_: wopi_text::Memory) -> InfoFault {
        InfoFault::Memory
    }
}
