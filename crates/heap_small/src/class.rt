ghost use Rattle.std.specs.Prelude.{◌≡◌, ℕ, ◌<◌, ◌≤◌, ◌↔◌, IsNone, IfSome};
ghost use Rattle.heap_small.specs.Class.{slot_words, slots_of, IsLeastFor};

use std::marker::Model;

/// How large the slots of a small page are, seen as the number of the class, 0 to 5.
#[derive(Clone, Copy, Debug, PartialEq, Eq, PartialOrd, Ord, Hash)]
pub struct Class(u8);

impl Model for Class {
    ghost use Rattle.std.specs.Prelude.{ℕ, ◌<◌};

    ghost Value = { ℕ };

    ghost view = { λ class. class.0 };

    ghost invariant = { λ class. class.0 < 6 };

    ghost inverse = { λ number. record { 0 = number } };
}

impl Class {
    /// The class with this number, 0 to 5.
    pub fn new(number: u8) -> Class
        requires { number < 6 }
        ensures { result ≡ number }
    {
        Class(number)
    }

    /// The number of the class.
    pub fn number(self) -> u8
        ensures same { result ≡ self }
        ensures within { self < 6 }
    {
        self.0
    }
}

/// The least class whose slots hold so many words; none where these are above 256, a big block's.
pub fn class_for(words: u32) -> Option<Class>
    requires { 1 ≤ words }
    ensures none { IsNone result ↔ (256 < words) }
    ensures least { IfSome result (IsLeastFor words) }
{
    if words > 256 {
        return None;
    }
    // A slot of class `c` has 2^c lines of 8 words, numbered from 0: so the least class that holds the words is how
    // many bits the number of their last line has.
    let last_line = (words - 1) / 8;
    Some(Class((u32::BITS - last_line.leading_zeros()) as u8))
}

/// The words of one slot.
pub fn class_words(class: Class) -> u32
    ensures { result ≡ slot_words class }
{
    8 << class.0
}

/// How many slots a page has behind the line of its bitmap.
pub fn slots(class: Class) -> u32
    ensures count { result ≡ slots_of class }
    ensures within { result < 64 }
{
    504 / class_words(class)
}
