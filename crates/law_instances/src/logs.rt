// Why a recoverable image is asked for its logs: images, written out, that meet all else.
ghost use Rattle.std.specs.Prelude.{◌≡◌, length, take};
ghost use Rattle.image_layout.specs.Owners.{OwnersAreApart, owner_words};
ghost use Rattle.image_layout.specs.Trees.{dictionary_length};
ghost use Rattle.pm_model.specs.Device.{IsCrashImage};
ghost use Rattle.pm_model.specs.Plans.{at_rest, run};
ghost use Rattle.shown_state.specs.Logs.{LogsFit};
ghost use Rattle.shown_state.specs.OpeningParts.{opening_plan};
ghost use Rattle.law_instances.specs.HalfSplit.{freed_leaf_cut, freed_leaf_image, loose_leaf_cut, loose_leaf_image};
ghost use Rattle.law_instances.specs.TwoLanes.{IsRecoveredAlone, two_lanes_cut, two_lanes_image};

/// An image in which a lane allocates the page of another owner's block keeps the entry rules, its owner words are
/// apart, and opening it ends sound and shows the same; but a power cut after the first store of that leaves an owner
/// word that names no block. So it isn't recoverable, for its logs alone: a lane's block that begins a page has to have
/// its pages for itself.
pub fn logs_law()
    ensures alone { IsRecoveredAlone two_lanes_image }
    ensures cut { IsCrashImage (run 0 (take 1 (opening_plan two_lanes_image)) (at_rest two_lanes_image)) two_lanes_cut }
    ensures lost { OwnersAreApart two_lanes_cut → ⊥ }
    ensures logs { LogsFit two_lanes_image → ⊥ }
{}

/// An image in which a lane frees the new leaf of a split that is about to link meets all else too, and its opening
/// ends sound and shows the same; but after the first store of that the column's only value is gone from its
/// dictionary. So a lane may free only what is unfinished.
pub fn freed_leaf_law()
    ensures alone { IsRecoveredAlone freed_leaf_image }
    ensures cut { IsCrashImage (run 0 (take 1 (opening_plan freed_leaf_image)) (at_rest freed_leaf_image))
        freed_leaf_cut }
    ensures falls { (dictionary_length freed_leaf_image 2096 ≡ 1) × (dictionary_length freed_leaf_cut 2096 ≡ 0) }
    ensures logs { LogsFit freed_leaf_image → ⊥ }
{}

/// So does one in which the new leaf of such a split goes on to a leaf that nobody owns; but after the first store of
/// its opening, the link, there are two owner words more, of which one owns that leaf. So a new leaf has to go on where
/// the leaf that was split does.
pub fn loose_leaf_law()
    ensures alone { IsRecoveredAlone loose_leaf_image }
    ensures cut { IsCrashImage (run 0 (take 1 (opening_plan loose_leaf_image)) (at_rest loose_leaf_image))
        loose_leaf_cut }
    ensures grows { (length (owner_words loose_leaf_image) ≡ 2) × (length (owner_words loose_leaf_cut) ≡ 4) }
    ensures logs { LogsFit loose_leaf_image → ⊥ }
{}
