// The names that are printed for the files below a folder.
ghost use Rattle.std.specs.Prelude.{◌≡◌, string_bytes, IfOk};
ghost use Rattle.cs_project.specs.Names.{name_of, prefix_of, with_slash};

use std::alloc::{AllocError, Global};

/// How a path below a folder is printed: what stands for the folder, and then the rest of the path.
#[derive(Drop)]
pub struct NameForm {
    /// The path of the folder, with a slash at its end.
    pub(crate) stem: String,
    /// What stands for it.
    pub(crate) prefix: String,
}

impl NameForm {
    /// The names below a folder that a word of the command line names. An empty word stands for the
    /// current folder.
    pub(crate) fn new(alloc: Global, folder: &str, word: &str) -> Result<NameForm, AllocError>
        ensures stem { IfOk result (λ form. string_bytes form.stem ≡ with_slash folder.now) }
        ensures prefix { IfOk result (λ form. string_bytes form.prefix ≡ prefix_of word.now) }
    {
        Ok(NameForm {
            stem: with_slash(alloc, folder)?,
            prefix: prefix_of(alloc, word)?,
        })
    }

    /// The name of a path.
    pub(crate) fn name(&self, alloc: Global, path: &str) -> Result<String, AllocError>
        ensures { IfOk result (λ name. string_bytes name ≡ name_of self.now path.now) }
    {
        match path.strip_prefix(self.stem.as_str()) {
            Some(rest) => {
                let mut name = String::from_str(alloc, self.prefix.as_str())?;
                name.push_str(rest)?;
                Ok(name)
            }
            None => String::from_str(alloc, path),
        }
    }

    /// The name of the folder, or of a path below it, in the line of an error.
    pub(crate) fn error_name(&self, alloc: Global, path: &str) -> Result<String, AllocError> {
        if self.stem.as_str().strip_suffix('/') == Some(path) {
            let word = self.prefix.as_str().strip_suffix('/');
            return String::from_str(alloc, word.unwrap_or("."));
        }
        self.name(alloc, path)
    }
}

/// What stands for a folder in the names below it.
fn prefix_of(alloc: Global, word: &str) -> Result<String, AllocError>
    ensures { IfOk result (λ prefix. string_bytes prefix ≡ prefix_of word.now) }
{
    if word.is_empty() {
        return Ok(String::new(alloc));
    }
    with_slash(alloc, word)
}

/// A path with a slash at its end.
fn with_slash(alloc: Global, path: &str) -> Result<String, AllocError>
    ensures { IfOk result (λ all. string_bytes all ≡ with_slash path.now) }
{
    let mut all = String::from_str(alloc, path)?;
    if !path.as_bytes().ends_with(b"/") {
        all.push('/')?;
    }
    Ok(all)
}
