// The types of files that a search may be limited to.
ghost use Rattle.std.specs.Prelude.{◌≡◌, map};
ghost use Rattle.cs_listing.specs.Reading.{lent};
ghost use Rattle.cs_listing.specs.Types.{globs_among, file_types, type_of};

/// The types in the order of their names, each with the globs of its files, which have spaces
/// between them.
pub const TYPES: [(&str, &str); 86] = [
    ("agda", "*.agda *.lagda"),
    ("asciidoc", "*.adoc *.asc *.asciidoc"),
    ("asm", "*.S *.asm *.s"),
    ("awk", "*.awk"),
    ("bazel", "*.BUILD *.bazel *.bazelrc *.bzl BUILD WORKSPACE"),
    ("c", "*.[chH] *.[chH].in *.cats"),
    ("clojure", "*.clj *.cljc *.cljs *.cljx"),
    ("cmake", "*.cmake CMakeLists.txt"),
    ("config", "*.cfg *.conf *.config *.ini"),
    ("coq", "*.v"),
    (
        "cpp",
        "*.[ChH] *.[ChH].in *.[ch]pp *.[ch]pp.in *.[ch]xx *.[ch]xx.in *.cc *.cc.in *.hh *.hh.in *.inl",
    ),
    ("cs", "*.cs"),
    ("css", "*.css *.scss"),
    ("csv", "*.csv"),
    ("cython", "*.pxd *.pxi *.pyx"),
    ("d", "*.d"),
    ("dart", "*.dart"),
    ("docker", "*Dockerfile*"),
    ("elixir", "*.eex *.ex *.exs"),
    ("elm", "*.elm"),
    ("erlang", "*.erl *.hrl"),
    ("fish", "*.fish"),
    (
        "fortran",
        "*.F *.F77 *.F90 *.F95 *.f *.f77 *.f90 *.f95 *.pfo",
    ),
    ("go", "*.go"),
    ("gradle", "*.gradle"),
    ("groovy", "*.gradle *.groovy"),
    ("h", "*.h *.hpp"),
    ("haskell", "*.c2hs *.cpphs *.hs *.hsc *.lhs"),
    ("html", "*.ejs *.htm *.html"),
    ("idris", "*.idr *.lidr"),
    ("java", "*.java *.jsp *.jspx *.properties"),
    ("js", "*.js *.jsx *.vue"),
    ("json", "*.json composer.lock"),
    ("jsonl", "*.jsonl"),
    ("julia", "*.jl"),
    ("jupyter", "*.ipynb *.jpynb"),
    ("kotlin", "*.kt *.kts"),
    ("less", "*.less"),
    (
        "license",
        "*[.-]LICEN[CS]E* AGPL-*[0-9]* APACHE-*[0-9]* BSD-*[0-9]* CC-BY-* COPYING COPYING[.-]* COPYRIGHT COPYRIGHT[.-]* EULA EULA[.-]* GFDL-*[0-9]* GNU-*[0-9]* GPL-*[0-9]* LGPL-*[0-9]* LICEN[CS]E LICEN[CS]E[.-]* MIT-*[0-9]* MPL-*[0-9]* NOTICE NOTICE[.-]* OFL-*[0-9]* PATENTS PATENTS[.-]* UNLICEN[CS]E UNLICEN[CS]E[.-]* agpl[.-]* gpl[.-]* lgpl[.-]* licen[cs]e licen[cs]e.*",
    ),
    ("lisp", "*.el *.jl *.lisp *.lsp *.sc *.scm"),
    ("lock", "*.lock package-lock.json"),
    ("log", "*.log"),
    ("lua", "*.lua"),
    ("m4", "*.ac *.m4"),
    (
        "make",
        "*.mak *.mk [Gg][Nn][Uu]makefile [Gg][Nn][Uu]makefile.am [Gg][Nn][Uu]makefile.in [Mm]akefile [Mm]akefile.am [Mm]akefile.in",
    ),
    ("man", "*.[0-9][cEFMmpSx] *.[0-9lnpx]"),
    ("markdown", "*.markdown *.md *.mdown *.mkdn"),
    ("md", "*.markdown *.md *.mdown *.mkdn"),
    ("meson", "meson.build meson_options.txt"),
    ("nix", "*.nix"),
    ("objc", "*.h *.m"),
    ("ocaml", "*.ml *.mli *.mll *.mly"),
    ("org", "*.org *.org_archive"),
    ("perl", "*.PL *.perl *.pl *.plh *.plx *.pm *.t"),
    ("php", "*.php *.php3 *.php4 *.php5 *.phtml"),
    ("protobuf", "*.proto"),
    ("ps", "*.cdxml *.ps1 *.ps1xml *.psd1 *.psm1"),
    ("puppet", "*.erb *.pp *.rb"),
    ("py", "*.py"),
    ("r", "*.R *.Rmd *.Rnw *.r"),
    ("racket", "*.rkt"),
    ("rst", "*.rst"),
    (
        "ruby",
        "*.gemspec *.rb *.rbw .irbrc Gemfile Rakefile config.ru",
    ),
    ("rust", "*.rs"),
    ("sass", "*.sass *.scss"),
    ("scala", "*.sbt *.scala"),
    (
        "sh",
        "*.bash *.bashrc *.csh *.cshrc *.ksh *.kshrc *.sh *.tcsh *.zsh .bash_login .bash_logout .bash_profile .bashrc .cshrc .kshrc .login .logout .profile .tcshrc .zlogin .zlogout .zprofile .zshenv .zshrc bash_login bash_logout bash_profile bashrc profile zlogin zlogout zprofile zshenv zshrc",
    ),
    ("sql", "*.psql *.sql"),
    ("svg", "*.svg"),
    ("swift", "*.swift"),
    (
        "systemd",
        "*.automount *.conf *.device *.link *.mount *.path *.scope *.service *.slice *.socket *.swap *.target *.timer",
    ),
    ("tcl", "*.tcl"),
    ("tex", "*.bib *.cls *.dtx *.ins *.ltx *.sty *.tex"),
    ("tf", "*.tf"),
    ("thrift", "*.thrift"),
    ("toml", "*.toml Cargo.lock"),
    ("ts", "*.ts *.tsx"),
    ("txt", "*.txt"),
    ("vala", "*.vala"),
    ("verilog", "*.sv *.svh *.v *.vh"),
    ("vhdl", "*.vhd *.vhdl"),
    ("vim", "*.vim"),
    (
        "xml",
        "*.dtd *.rng *.sch *.xhtml *.xjb *.xml *.xml.dist *.xsd *.xsl *.xslt",
    ),
    ("yaml", "*.yaml *.yml"),
    ("zig", "*.zig"),
    (
        "zsh",
        "*.zsh .zlogin .zlogout .zprofile .zshenv .zshrc zlogin zlogout zprofile zshenv zshrc",
    ),
];

/// The globs of a type, if it is one.
pub(crate) fn globs_of(name: &str) -> Option<&'static str>
    ensures { lent result ≡ globs_among file_types name.now }
{
    globs_in(&TYPES, name)
}

/// The globs of a type, if it is one of these.
fn globs_in<'t>(types: &'t [(&'t str, &'t str)], name: &str) -> Option<&'t str>
    ensures { lent result ≡ globs_among (map type_of types.now) name.now }
{
    'types: for (own, globs) in types {
        if *own == name {
            return Some(*globs);
        }
    }
    None
}
