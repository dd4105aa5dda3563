// Why an allocation has to ask that no lane at work has its pages: an image, written out, where one has.
ghost use Rattle.image_layout.specs.Owners.{lane_targets};
ghost use Rattle.std.specs.Prelude.{Contains};
ghost use Rattle.heap_palloc.specs.Changes.{choice_owner};
ghost use Rattle.heap_palloc.specs.Choice.{MayMake, choice_parts};
ghost use Rattle.pm_model.specs.Plans.{EachCut};
ghost use Rattle.shown_state.specs.Fits.{Fits};
ghost use Rattle.shown_state.specs.OpeningParts.{IsImage};
ghost use Rattle.law_instances.specs.HeldPage.{held_page_image, on_held_page};

/// An image that fits together, in which a lane is about to allocate a page that is still free. What an allocation asks
/// of the heap is met by another one on that page, whose owner's word may be half done; but not each cut of that fits
/// together. So an allocation keeps what fits only where no lane at work has a block in its pages.
pub fn held_page_law()
    ensures fits { IsImage held_page_image × Fits held_page_image }
    ensures may { MayMake held_page_image on_held_page }
    ensures target { Contains (lane_targets held_page_image) (choice_owner on_held_page) }
    ensures lost { EachCut Fits (choice_parts held_page_image on_held_page) held_page_image → ⊥ }
{}
