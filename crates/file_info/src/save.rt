//! What a file's last save was.
ghost use Rattle.std.specs.Prelude.{◌<◌};
ghost use Rattle.wopi_text.specs.Moments.{moments_end};

/// When a file was last saved, and the SHA-256 digest of its contents.
#[derive(Clone, Copy)]
pub struct Saved {
    pub moment: u64,
    pub digest: [u8; 32],
    pub ghost moment_is: { moment < moments_end },
}
