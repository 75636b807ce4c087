//! What holds of the bodies.
ghost use Rattle.std.specs.Prelude.{◌≡◌, ℕ, List};
ghost use Rattle.file_info.specs.Info.{IsInfoOf, info_required};
ghost use Rattle.file_info.specs.Json.{IsFaultOf};
ghost use Rattle.file_info.specs.Relative.{IsRelativeOf, relative_required};
ghost use Rattle.file_info.specs.declared.fault.InfoFault.{InfoFault};
ghost use Rattle.file_info.specs.declared.info.Info.{Info};

/// A body that tells of a file tells one thing of it, and reading it fails for want of memory alone.
pub fn a_body_tells_one_thing_of_a_file()
    ensures one { (bytes : List ℕ) (info other : Info) → IsInfoOf bytes info → IsInfoOf bytes other → info ≡ other }
    ensures read { (bytes : List ℕ) (info : Info) (fault : InfoFault) → IsInfoOf bytes info → IsFaultOf info_required bytes fault → fault ≡ InfoFault.Memory }
{}

/// A body that names a new file gives it one name and one address, and reading it fails for want of
/// memory alone.
pub fn a_body_names_one_new_file()
    ensures one { (bytes name url other place : List ℕ) → IsRelativeOf bytes name url → IsRelativeOf bytes other place → (name ≡ other) × (url ≡ place) }
    ensures read { (bytes name url : List ℕ) (fault : InfoFault) → IsRelativeOf bytes name url → IsFaultOf relative_required bytes fault → fault ≡ InfoFault.Memory }
{}
