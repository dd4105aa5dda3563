// What a moment of a run is pinned by.
ghost use Rattle.std.specs.Prelude.{◌≡◌, ℕ, List};
ghost use Rattle.mv_model.specs.declared.reply.Entry.{Entry};
ghost use Rattle.script_text.specs.declared.script.Line.{Line};
ghost use Rattle.session_serve.specs.Moments.{HasBehind, IsRun, Moment, decided, told_due};

/// The law of what is due in a run that is cut.
pub fn due_law()
    // No entry that has its place can be called due instead: the entries that are printed are all that are certain.
    ensures placed { (words : List ℕ) (script : List Line) (played : ℕ) (m : Moment) (front more : List Entry) →
        HasBehind m front more → IsRun words script played m →
        IsRun words script played (told_due m front more) → ⊥ }

    // A moment is determined by the calls that are decided, and by how many actions were played.
    ensures determined { (words : List ℕ) (script : List Line) (played : ℕ) (m other : Moment)
        → IsRun words script played m → IsRun words script played other → decided m ≡ decided other → m ≡ other }
{}
