//! That a shard which is opened from a life goes on.
ghost use Rattle.std.specs.Prelude.{◌≡◌, ℕ, List, Option, Some};
ghost use Rattle.outside.specs.Folder.{Files, Times};
ghost use Rattle.wopi_model.specs.Begin.{Begin};
ghost use Rattle.wopi_model.specs.Lives.{IsLeftBy};
ghost use Rattle.wopi_model.specs.Shard.{Item, after, begun, entries, last_from, stamps};
ghost use Rattle.host_core.specs.declared.life.Life.{Life};
ghost use Rattle.host_core.specs.Facts.{Dates};
ghost use Rattle.host_core.specs.Life.{IsGoodLife, IsReopened, TellsShard};

/// A shard that is told just where another one stands, and its last stamp, goes on from what that one's history leaves. So its history,
/// behind that of the other one, is a history that one shard may have (`a_life_goes_on` of wopi_model).
pub fn a_reopened_shard_goes_on()
    ensures { (only : Option ℕ) (files : Files) (times : Option Times) (life : Life) (begin next : Begin) (dates : Dates) (history : List Item)
        → IsGoodLife only life → TellsShard only files life (after (begun begin) history) → life.last ≡ last_from begin.last (stamps (entries history))
        → IsReopened only (Some files) times life next dates → IsLeftBy begin history next }
{}
