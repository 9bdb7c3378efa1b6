// What the program is given.

/// The arguments of the process, and its current folder.
#[derive(Drop)]
pub(crate) struct Given {
    /// The path that the program is run by; empty if there is none or it is not UTF-8.
    pub(crate) program: String,
    /// The arguments after the program's name, up to the first that is not UTF-8.
    pub(crate) args: Vec<String>,
    /// Whether some argument is not UTF-8.
    pub(crate) has_non_text: bool,
    /// The current folder, if there is one and it is UTF-8.
    pub(crate) folder: Option<String>,
}
