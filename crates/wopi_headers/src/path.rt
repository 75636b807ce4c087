//! The path of a file, and the id in it.
ghost use Rattle.std.specs.Prelude.{ℕ, Bool, List, ◌≡◌, ◌≢◌, ◌++◌, MatchOption, codes};
ghost use Rattle.wopi_headers.specs.Paths.{IsFilePath, IsIdIn};

/// What follows the front that the paths of all files have.
fn behind_files(path: &[u8]) -> Option<&[u8]>
    ensures { MatchOption result ((rest : List ℕ) → path.now ≢ codes "/wopi/files/" ++ rest) (λ rest. path.now ≡ codes "/wopi/files/" ++ rest.now) }
{
    path.strip_prefix(b"/wopi/files/".as_slice())
}

/// What stands before the ending that the paths of contents have.
fn before_contents(rest: &[u8]) -> Option<&[u8]>
    ensures { MatchOption result ((id : List ℕ) → rest.now ≢ id ++ codes "/contents") (λ id. rest.now ≡ id.now ++ codes "/contents") }
{
    rest.strip_suffix(b"/contents".as_slice())
}

/// The id in the path of a file, and whether it is the path of the file's contents.
pub fn id_in(path: &[u8]) -> Option<(&[u8], bool)>
    ensures { MatchOption result ((name : List ℕ) (contents : Bool) → ¬ (IsFilePath path.now name contents))
        (λ found. IsIdIn path.now found.0.now found.1) }
{
    let Some(rest) = behind_files(path) else {
        return None;
    };
    match before_contents(rest) {
        Some(id) => Some((id, true)),
        None => Some((rest, false)),
    }
}
