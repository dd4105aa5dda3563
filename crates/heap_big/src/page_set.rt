ghost use Rattle.std.specs.Prelude.{◌≡◌, ◌<◌, ◌≤◌, ◌↔◌, [], ◌∷◌, Contains, IsNone, IsTrue, IfSome, List, ℕ, slice_index};
ghost use Rattle.heap_big.specs.Pages.{GainsOne, IsRising};

use std::marker::Model;

// The pages of the largest heap have so many words of 64.
const WORDS: usize = 128;

/// Pages of a heap in ascending place, each once. No call takes memory, and none looks at all pages.
#[derive(Debug, Drop)]
pub struct PageSet {
    // A bit for each page.
    words: [u64; WORDS],
    // A bit for each word that isn't 0.
    used: u128,
}

impl Model for PageSet {
    ghost use Rattle.std.specs.Prelude.{List, ℕ};

    ghost Value = { List ℕ };

    ghost use Rattle.heap_big.specs.Pages.{pages_in, IsPageSet};

    ghost view = { pages_in };

    ghost invariant = { IsPageSet };
}

fn no_words() -> [u64; WORDS]
    ensures { (word : ℕ) → slice_index result word ≡ 0 }
{
    [0; WORDS]
}

impl PageSet {
    /// No pages.
    pub fn new() -> PageSet
        ensures { result ≡ [] }
    {
        PageSet {
            words: no_words(),
            used: 0,
        }
    }

    /// The lowest page; none where there is none.
    pub fn lowest(&self) -> Option<u16>
        ensures none { IsNone result ↔ (self.now ≡ []) }
        ensures lowest { IfSome result (λ page. (rest : List ℕ) × (self.now ≡ page ∷ rest)) }
        ensures least { IfSome result (λ page. (other : ℕ) → Contains self.now other → page ≤ other) }
        ensures within { IfSome result (λ page. page < 8192) }
    {
        if self.used == 0 {
            return None;
        }
        let at = self.used.trailing_zeros();
        let bit = self.words[at as usize].trailing_zeros();
        Some((64 * at + bit) as u16)
    }

    /// Whether it has no page.
    pub fn is_empty(&self) -> bool
        ensures { IsTrue result ↔ (self.now ≡ []) }
    {
        self.lowest().is_none()
    }

    /// Adds a page.
    pub fn insert(&mut self, page: u16)
        requires within { page < 8192 }
        requires new { Contains self.old page → ⊥ }
        ensures gains { GainsOne self.old page self.new }
        ensures rising { IsRising 0 self.new 8192 }
    {
        let at = usize::from(page / 64);
        self.words[at] |= 1 << (page % 64);
        self.used |= 1 << at;
    }

    /// Takes a page out.
    pub fn remove(&mut self, page: u16)
        requires { Contains self.old page }
        ensures loses { GainsOne self.new page self.old }
        ensures gone { Contains self.new page → ⊥ }
    {
        let at = usize::from(page / 64);
        let left = self.words[at] & !(1 << (page % 64));
        self.words[at] = left;
        if left == 0 {
            self.used &= !(1 << at);
        }
    }
}
