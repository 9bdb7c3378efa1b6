// Fixtures of several tools.
use cs_args::{Style, ToolFault};
use cs_fakes::{Item, MemTree, PutFault};
use cs_match::Program;
use cs_syntax::parse;
use std::alloc::{AllocError, Global};

pub mod files;
pub mod indexed;
pub mod jobs;

/// An item of a tree: a folder, or a file with this text.
pub type TreeItem<'a> = (&'a str, Option<&'a str>);

/// The style without options.
pub const PLAIN: Style = Style {
    count: false,
    list: false,
    number: false,
    bare: false,
};

/// The parts of a text between separators.
pub fn args_of(alloc: Global, text: &str, mark: char) -> Result<Vec<String>, AllocError> {
    let mut args = Vec::new(alloc);
    for word in text.split(mark) {
        args.push(String::from_str(alloc, word)?)?;
    }
    Ok(args)
}

/// A folder, or a file with this text.
pub fn item_of(alloc: Global, text: Option<&str>) -> Result<Item, AllocError> {
    match text {
        Some(text) => Ok(Item::File(text.as_bytes().to_vec(alloc)?)),
        None => Ok(Item::Folder),
    }
}

/// A tree with these items.
pub fn tree_of(alloc: Global, items: &[TreeItem<'_>]) -> Result<MemTree, PutFault> {
    let mut tree = MemTree::new(alloc, 2)?;
    for (path, text) in items {
        tree.put(*path, item_of(alloc, *text)?)?;
    }
    Ok(tree)
}

/// The program of a pattern.
pub fn program_of(alloc: Global, pattern: &str) -> Result<Program, ToolFault> {
    let pattern = parse(alloc, pattern, false)?;
    Ok(Program::compile(alloc, &pattern)?)
}
