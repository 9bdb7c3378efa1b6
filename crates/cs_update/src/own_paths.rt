// The paths of the own index.
ghost use Rattle.std.specs.Prelude.{◌≡◌, IfOk, map, string_bytes};
ghost use Rattle.cs_tree.specs.PathSet as set;
ghost use Rattle.cs_update.specs.Cited.{seen_of, paths_seen};

use cs_known::SeenFile;
use cs_state::{path_cover, takes_name};
use cs_tree::reduce;
use std::alloc::{AllocError, Global};

/// The covers of the files that can be learned, ascending.
pub(crate) fn own_paths(alloc: Global, files: &[SeenFile]) -> Result<Vec<String>, AllocError>
    ensures { IfOk result (λ paths. map string_bytes paths.items
        ≡ set.items (paths_seen (map seen_of files.now))) }
{
    let mut covers = Vec::new(alloc);
    'files: for file in files {
        let name = file.name.as_str();
        if takes_name(name) {
            covers.push(path_cover(alloc, name)?)?;
        }
    }
    let paths = reduce(alloc, &covers)?;
    Ok(paths)
}
