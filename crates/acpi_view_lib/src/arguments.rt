//! The program's arguments: a file, and the way to the root table in it.
ghost use Rattle.std.specs.Prelude.{◌≡◌, map, option_map};
ghost use Rattle.acpi_view_lib.specs.Command.{file_for, root_for};

use acpi_cli::root::{Root, parse_root};

/// The way to the root table that the arguments after the program's name have, or `None` if they are not a
/// command: IMAGE, which may be any text, and the arguments of `parse_root`.
pub fn parse_command(arguments: &[&str]) -> Option<Root>
    ensures { result ≡ root_for (map (λ w. w.now) arguments.now) }
{
    let [_image, rest @ ..] = arguments else {
        return None;
    };
    parse_root(rest)
}

/// The name of the file that is read for these arguments: the first of them, or `None` if they are not a command.
pub fn file_named<'w>(arguments: &[&'w str]) -> Option<&'w str>
    ensures { option_map (λ n. n.now) result ≡ file_for (map (λ w. w.now) arguments.now) }
{
    match (parse_command(arguments), arguments) {
        (Some(_), [image, ..]) => Some(*image),
        _ => None,
    }
}
