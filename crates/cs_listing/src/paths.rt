// The names along a path.
ghost use Rattle.std.specs.Prelude.{◌≡◌, ◌++◌, map, string_bytes, IfOk, OnOk};
ghost use Rattle.std.specs.Option.{option_to_list};
ghost use Rattle.cs_listing.specs.PathNames.{name_in, names_along};

use std::alloc::{AllocError, Global};

/// The names along a path, which are those between its slashes. `/` has none.
pub fn path_names(alloc: Global, path: &str) -> Result<Vec<String>, AllocError>
    ensures { IfOk result (λ names. map string_bytes names.items ≡ names_along path.now) }
{
    let mut names = Vec::new(alloc);
    let mut rest = path;
    'names: while let Some((name, later)) = rest.split_once('/') {
        push_name(alloc, &mut names, name)?;
        rest = later;
    }
    push_name(alloc, &mut names, rest)?;
    Ok(names)
}

/// Adds a name, unless it is empty.
fn push_name(alloc: Global, names: &mut Vec<String>, name: &str) -> Result<(), AllocError>
    ensures { OnOk result (map string_bytes names.new.items
        ≡ map string_bytes names.old.items ++ option_to_list (name_in name.now)) }
{
    if !name.is_empty() {
        names.push(String::from_str(alloc, name)?)?;
    }
    Ok(())
}
