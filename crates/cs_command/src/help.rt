// What `--help` prints.

/// The options.
pub const HELP: &str = "usage: cs [OPTION].. PATTERN [PATH]..
Prints the lines that match PATTERN in the files of this project, or in those below each PATH.
A file that a rule file (.gitignore, .ignore) leaves out is not searched.

Patterns
  -e PATTERN      a pattern; if there are several, lines that match one of them
  -F              patterns are texts, not regular expressions
  -i              letters match in either case
  -S, -s          so if no pattern has a capital letter; letters match in their own case
  -w, -x          only matches that are whole words; that are whole lines
  -v              lines that do not match
Output
  -l, -L, -c      only names of files that match; that do not match; only counts of lines
  -q              nothing; the status says whether a line matches
  -o              only the matches of a line
  -m N            at most N lines of a file
  -A N, -B N, -C N    N lines after, before, around each line that matches
  -n, -N          with line numbers (on a terminal, always); without
  -H, -h          with names of files; without
  -0, --null      a NUL byte after each name
  --column        with the column of the first match
  --vimgrep       one line for each match, with its column
  --heading       the name of a file above its lines
  --color WHEN    always, never or auto (on a terminal)
Files
  --files         only the names of the files that would be searched
  -g GLOB         only files that match; !GLOB: only files that do not match
  -t TYPE, -T TYPE    only files of a type; only files of other types
  --type-list     the types and their globs
  -d N            at most N names below the folder
  -a              binary files too
  --hidden        hidden files outside of repositories too
  -u              ignored and hidden files too
Other
  --update        no search: only learns what spares later searches the reading of files
  --no-update     a search that learns nothing
  --no-state      a search that reads every file, and learns nothing
  --help, --version    these options; the version
  --              what follows is no option

Long names are those of rg and grep: --ignore-case, --max-count=N, --type TYPE.
Status: 0 if a line matches, 1 if none matches, 2 after an error.
";
