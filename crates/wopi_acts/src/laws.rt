//! What holds of acts and of what is told, as contracts of functions that do nothing.
ghost use Rattle.std.specs.Prelude.{◌≡◌, ◌≢◌, ◌↔◌, ℕ, List, [], None, unwrap_or};
ghost use Rattle.wopi_headers.specs.declared.ask.Op.{Op};
ghost use Rattle.wopi_headers.specs.declared.ask.Op.TheVariants.{PutRelative};
ghost use Rattle.wopi_headers.specs.declared.ask.Target.{Target};
ghost use Rattle.wopi_model.specs.declared.calls.Ruling.{Ruling};
ghost use Rattle.wopi_model.specs.Step.{bare};
ghost use Rattle.wopi_acts.specs.Acts.{act_of};
ghost use Rattle.wopi_acts.specs.Answers.{status_only, ruling_told};

/// PutRelativeFile is more than one act, and no other operation is.
pub fn only_a_copy_is_more_than_one_act()
    ensures { (op : Op) (body : List ℕ) → act_of op body ≡ None ↔ ((target : Target) × (op ≡ PutRelative target)) }
{}

/// Where the store didn't fail, the body that tells a ruling is the contents that it has, or empty.
pub fn contents_are_told()
    ensures { (ruling : Ruling) → ruling.status ≢ 500 → (ruling_told ruling).body ≡ unwrap_or ruling.contents [] }
{}

/// A ruling that has nothing but a status is told by that status alone, unless the store failed.
pub fn a_bare_ruling_tells_its_status_alone()
    ensures { (status : ℕ) → status ≢ 500 → ruling_told (bare status) ≡ status_only status }
{}
