ghost use Rattle.std.specs.Prelude.{◌≡◌, ◌<◌, ◌↔◌, IsNone, IfSome};
ghost use Rattle.heap_small.specs.Bitmap.{IsSet, IsClear, IsFirstClear, AreSetBelow, SameBut, with_bit, without_bit};
ghost use Rattle.heap_small.specs.Class.{slots_of};

use crate::class::{Class, slots};

/// The least clear slot of a page; none where every slot of the class is set.
pub fn first_free(bitmap: u64, class: Class) -> Option<u8>
    ensures none { IsNone result ↔ AreSetBelow (slots_of class) bitmap }
    ensures within { IfSome result (λ slot. slot < slots_of class) }
    ensures first { IfSome result (IsFirstClear bitmap) }
{
    let slot = bitmap.trailing_ones();
    if slot < slots(class) {
        Some(slot as u8)
    } else {
        None
    }
}

/// The bitmap with this slot set.
pub fn with(bitmap: u64, slot: u8) -> u64
    requires { slot < 63 }
    ensures value { result ≡ with_bit bitmap slot }
    ensures set { IsSet result slot }
    ensures others { SameBut slot bitmap result }
{
    bitmap | (1 << slot)
}

/// The bitmap with this slot clear.
pub fn without(bitmap: u64, slot: u8) -> u64
    requires { slot < 63 }
    ensures value { result ≡ without_bit bitmap slot }
    ensures clear { IsClear result slot }
    ensures others { SameBut slot bitmap result }
{
    bitmap & !(1 << slot)
}
