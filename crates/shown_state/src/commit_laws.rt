// What the commits of an image are, by its stamps and dictionaries.
ghost use Rattle.shown_state.specs.CommitLaws.{CommitsAreCounted, CommitsAscend, CreatedAreStamped, CreatedHaveTheirValues, EndedAreStamped, OneTableIsShown, TwoCommitsAreShown};

/// The commits of the state that words show: how many there are, which rows each of them created and ended, with which
/// values, and in which order.
pub fn commits_law()
    ensures counted { CommitsAreCounted }
    ensures created { CreatedAreStamped }
    ensures ended { EndedAreStamped }
    ensures values { CreatedHaveTheirValues }
    ensures ascend { CommitsAscend }
{}

/// Two images, written out word by word, and the states that they show: one table without rows, and the same table with
/// two rows, two commits and two columns in extensions, of which one begins at the second row and one above both.
pub fn worked_images_law()
    ensures one_table { OneTableIsShown }
    ensures two_commits { TwoCommitsAreShown }
{}
