// That the laws of plans that keep what fits together say something, over an image with a table.
ghost use Rattle.std.specs.Prelude.{ℕ, ◌<◌};
ghost use Rattle.fitting_plans.specs.Transactions.{MayBegin, MayClear};
ghost use Rattle.shown_state.specs.CommitLaws.{two_commit_image};

/// In the image with two commits a transaction may begin in any object, and each object may be cleared.
pub fn beginning_law()
    ensures begins { (object : ℕ) → object < 16 → MayBegin two_commit_image object }
    ensures clears { (object : ℕ) → object < 16 → MayClear two_commit_image object }
{}
