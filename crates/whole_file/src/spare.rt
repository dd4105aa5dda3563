ghost use Rattle.std.specs.Prelude.{◌≡◌, ◌<◌, ◌+◌, ◌++◌, ◌∷◌, [], IfOk, codes, string_bytes};

use std::alloc::{AllocError, Global};

/// How many names there are for the new file beside a file.
pub const SPARES: u8 = 4;

/// The name of the new file beside the file with this path: the path, `.sofort-new` and the number as a digit. Another
/// run at the same file takes the next number.
pub fn spare_name(alloc: Global, path: &str, number: u8) -> Result<String, AllocError>
    requires { number < SPARES }
    ensures { IfOk result (λ name. string_bytes name ≡ path.now ++ codes ".sofort-new" ++ (48 + number) ∷ []) }
{
    let mut name = String::from_str(alloc, path)?;
    name.push_str(".sofort-new")?;
    name.push(char::from(b'0' + number))?;
    Ok(name)
}
