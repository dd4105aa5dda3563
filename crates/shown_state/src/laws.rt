// What the definitions of an image's words have to do with one another, and what opening leaves as it is.
ghost use Rattle.shown_state.specs.ImageLaws.{FormattedIsSound, IntactHasOwners, IntactIsApart, PointersNameTheirPlace, StoredLeavesAreWhole, WalksAreWhole};
ghost use Rattle.shown_state.specs.StepLaws.{EndIsSound, IntactFits, PartsRecover, SoundFits, StepsKeepCuts, StepsMakeOpening, StepsRecover};
ghost use Rattle.shown_state.specs.OpeningLaws.{FormattedIsRecoverable, FormattedShowsNothing, SoundIsRecoverable, SoundIsRecovered};
ghost use Rattle.shown_state.specs.ReadLaws.{ChangesDecide, NextChunksAreUnread, OtherBlocksAreUnread, ReadsDecide, ReadsFit, ReadsKeepOff, ReadsStand, TreeDecides, TreesDecide, UnfinishedAreUnread, UnreadMayDiffer, ValuesDecide};

/// A formatted image is sound.
pub fn formatted_law()
    ensures { FormattedIsSound }
{}

/// In an image of either version that is intact each live block has one owner, and owner words are apart.
pub fn owner_law()
    ensures owners { IntactHasOwners }
    ensures apart { IntactIsApart }
{}

/// Pointers name their place, and a walk of enough steps reaches all leaves that there are.
pub fn walk_law()
    ensures pointers { PointersNameTheirPlace }
    ensures walks { WalksAreWhole }
    ensures leaves { StoredLeavesAreWhole }
{}

/// A formatted image shows no table, opening changes no word of a sound image, and a sound image is recoverable.
pub fn opening_law()
    ensures formatted { FormattedShowsNothing }
    ensures sound { SoundIsRecovered }
    ensures recoverable { SoundIsRecoverable }
    ensures formatted_recoverable { FormattedIsRecoverable }
{}

/// A law for proofs: what the nine steps of opening keep, opening keeps, also where a power cut comes in it; what fits
/// together and has nothing left to mend is sound, so what fits is recoverable; and a sound image fits, as an intact
/// one does in version 1 where what version 2 reads beside it is 0.
pub fn fits_law()
    ensures opening { StepsMakeOpening }
    ensures words { PartsRecover }
    ensures cuts { StepsKeepCuts }
    ensures end { EndIsSound }
    ensures recovers { StepsRecover }
    ensures intact { IntactFits }
    ensures sound { SoundFits }
{}

/// A law for proofs: whatever stands in words that no structure reads, what is read of an image that fits is the same,
/// and so are the checks of the rules on it. What of this holds where only some of those words are the same; and where
/// words differ that are read for what they own alone, all others are the same. No word is read that is a lane's, a
/// block's mark, or an unfinished slot.
pub fn reads_law()
    ensures reads { ReadsDecide }
    ensures values { ValuesDecide }
    ensures trees { TreesDecide }
    ensures one_tree { TreeDecides }
    ensures changes { ChangesDecide }
    ensures fit { ReadsFit }
    ensures stand { ReadsStand }
    ensures keep_off { ReadsKeepOff }
    ensures unfinished { UnfinishedAreUnread }
    ensures unread { UnreadMayDiffer }
    ensures others { OtherBlocksAreUnread }
    ensures next_chunks { NextChunksAreUnread }
{}
