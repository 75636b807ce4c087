//! What holds of the texts of the container's tokens.
ghost use Rattle.std.specs.Prelude.{◌≡◌, ℕ, List};
ghost use Rattle.access_tokens.specs.declared.keys.Keys.{Keys};
ghost use Rattle.containers.specs.TokenText.{ReadsAs, IsSigned, IsWritable, container_text};
ghost use Rattle.containers.specs.declared.token.ContainerToken.{ContainerToken};

/// A text reads as one number of a key, one token of the container and one code at most.
pub fn a_container_text_has_one_reading()
    ensures { (text : List ℕ) (number also_number : ℕ) (token other : ContainerToken) (mac code : List ℕ)
        → ReadsAs text number token mac → ReadsAs text also_number other code → (number ≡ also_number) × (token ≡ other) × (mac ≡ code) }
{}

/// What is minted of a token of the container whose moments are moments reads as that token under the same keys.
pub fn what_is_minted_for_the_container_is_read()
    ensures { (keys : Keys) (token : ContainerToken) → IsWritable token → IsSigned keys (container_text keys token) token }
{}
