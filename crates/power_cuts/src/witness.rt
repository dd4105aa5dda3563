// A memory that takes a picture of itself.
ghost use Rattle.std.specs.Prelude.{◌↔◌, IsNone, ◌≡◌, ◌≢◌, ◌+◌, ◌-◌, ◌^◌, ◌<◌, ◌≤◌, None, Some, min, ℕ, List, IfSome, length};
ghost use Rattle.pm_model.specs.Device.{CanAct, acted, image_of};

use pm_model::{Action, Keep, Memory, NoMemory, Place};

/// A memory that keeps the image which a power cut would have left after one of the actions played on it.
#[derive(Drop)]
pub struct Witness<M: Memory> {
    inner: M,
    at: u64,
    keep: Keep,
    played: u64,
    image: Option<Vec<u64>>,
}

impl<M: Memory> Witness<M> {
    /// Watches a memory. The image is that of a cut after so many actions, which keeps these words of the cache.
    pub fn new(inner: M, at: u64, keep: Keep) -> Witness<M>
        ensures { result ≡ record { inner = inner; at = at; keep = keep; played = 0; image = None } }
    {
        Witness {
            inner,
            at,
            keep,
            played: 0,
            image: None,
        }
    }

    /// How many actions were played, up to the largest `u64`.
    pub fn played(&self) -> u64
        ensures { result ≡ self.now.played }
    {
        self.played
    }

    /// The image. `None` before that action, and where memory was refused.
    pub fn image(&self) -> Option<&Vec<u64>>
        ensures none { IsNone result ↔ (self.now.image ≡ None) }
        ensures some { IfSome result (λ image. self.now.image ≡ Some image.now) }
    {
        self.image.as_ref()
    }
}

impl<M: Memory> Memory for Witness<M> {
    ghost device = { λ w. M.device w.inner };

    ghost whole = { λ w. M.whole w.inner };

    fn len(&self) -> u32 {
        self.inner.len()
    }

    fn load(&self, at: Place) -> u64 {
        self.inner.load(at)
    }

    fn is_clean(&self, at: Place) -> bool {
        self.inner.is_clean(at)
    }

    /// The image is taken once so many actions were played as the cut is to come after, and stays as it is at each
    /// other action.
    fn act(&mut self, session: u8, action: Action)
        requires session { session ≤ 16 }
        requires can_act { CanAct action (M.device self.old.inner) }
        ensures acted { M.device self.new.inner ≡ acted session action (M.device self.old.inner) }
        ensures played { self.new.played ≡ min (self.old.played + 1) (2 ^ 64 - 1) }
        ensures taken { self.new.played ≡ self.old.at
            → IfSome self.new.image (λ image. image.items ≡ image_of self.old.keep (M.device self.new.inner)) }
        ensures kept { self.new.played ≢ self.old.at → self.new.image ≡ self.old.image }
        ensures at { self.new.at ≡ self.old.at }
        ensures keep { self.new.keep ≡ self.old.keep }
    {
        self.inner.act(session, action);
        self.played = self.played.saturating_add(1);
        if self.played == self.at {
            self.image = self.inner.choose(self.keep).ok();
        }
    }

    fn choose(&self, keep: Keep) -> Result<Vec<u64>, NoMemory> {
        self.inner.choose(keep)
    }
}
