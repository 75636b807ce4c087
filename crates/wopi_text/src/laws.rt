//! What holds of ids and decimals, as contracts of functions that do nothing.
ghost use Rattle.std.specs.Prelude.{◌≡◌, ◌<◌, ◌^◌, ◌↔◌, ℕ, List, Some, decimal};
ghost use Rattle.wopi_text.specs.Decimals.{decimal_of};
ghost use Rattle.wopi_text.specs.FileName.{IsFileName};
ghost use Rattle.wopi_text.specs.Ids.{id_of};

/// The id of a name is read as that name: two names have two ids.
pub fn an_id_reads_back()
    ensures { (name other : List ℕ) → IsFileName name → IsFileName other → id_of name ≡ id_of other → name ≡ other }
{}

/// Each number below 2^64 has one canonical decimal, the one that is written, and each canonical
/// decimal is that of its number.
pub fn numbers_have_one_decimal()
    ensures { (digits : List ℕ) (number : ℕ) → (decimal_of digits ≡ Some number) ↔ ((number < 2 ^ 64) × (digits ≡ decimal number)) }
{}
