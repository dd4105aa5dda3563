ghost use Rattle.std.specs.Prelude.{◌≡◌, option_copied};
ghost use Rattle.sofort_main.specs.Paths.{path_in};

use mv_model::Text;
use session_serve::Paths;

/// What a file is to a command.
#[derive(Clone, Copy, Debug, PartialEq, Eq)]
pub(crate) enum Role {
    /// The image that is read.
    Image,
    /// The script that is read.
    Input,
    /// The image that is written.
    ImageOut,
}

/// The path of the file with this role, where the command has one. A source without a path is empty, and a sink without
/// one takes nothing.
pub(crate) fn path_of(paths: &Paths, role: Role) -> Option<&str>
    ensures { option_copied result ≡ path_in role paths.now }
{
    let path = match role {
        Role::Image => &paths.image,
        Role::Input => &paths.input,
        Role::ImageOut => &paths.image_out,
    };
    path.as_ref().map(Text::as_str)
}
