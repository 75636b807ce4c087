//! What holds of the texts of tokens.
ghost use Rattle.std.specs.Prelude.{◌≡◌, ℕ, List, Option};
ghost use Rattle.wopi_model.specs.declared.token.Token.{Token};
ghost use Rattle.access_tokens.specs.TokenText.{ReadsAs, IsSigned, IsWritable, token_text};
ghost use Rattle.access_tokens.specs.declared.keys.Keys.{Keys};

/// A text reads as one number of a key, one token and one code at most.
pub fn a_text_has_one_reading()
    ensures { (text : List ℕ) (written also_written : Option ℕ) (token other : Token) (mac code : List ℕ)
        → ReadsAs text written token mac → ReadsAs text also_written other code → (written ≡ also_written) × (token ≡ other) × (mac ≡ code) }
{}

/// What is minted of a token whose moments are moments reads as that token under the same keys.
pub fn what_is_minted_is_read()
    ensures { (keys : Keys) (token : Token) → IsWritable token → IsSigned keys (token_text keys token) token }
{}
