ghost use Rattle.std.specs.Prelude.{◌≡◌};
ghost use Rattle.hq_cli.specs.Pages.{page_named, page_text};

/// A text in which the program tells of itself.
#[derive(Clone, Copy, Debug, PartialEq, Eq)]
pub enum Page {
    /// The commands with their words, and the statuses.
    Usage,
    /// The program's line, and that of the kit with which it is proved.
    Version,
}

/// The commands with their words, a line each, and the statuses.
pub const USAGE: &str = "\
hq query DIR [HEADER]... [--paged]    answers the request on the standard input over the directory, for the caller of the headers
hq sql DIR [HEADER]...      writes the text of SQL that query would ask
hq explain DIR [HEADER]...  tells in words what is wrong with the request or the directory, and where, or what the request asks
hq confine DIR [HEADER]...  says whether the SQL on the standard input can show more than the caller may see, and where
hq copy DIR PART [HEADER]...    writes a part of a copy that holds what the caller may see and nothing else: catalog, metadata or SCHEMA.TABLE
hq check DIR                reads the directory, and writes what it holds
hq serve DIR --port P --connections N [--admin-secret S] [--unauthorized-role R] [--paged]    serves N connections of HTTP at 127.0.0.1
hq live DIR --port P --connections N [--admin-secret S] [--unauthorized-role R]    talks of live queries over N WebSockets at 127.0.0.1
hq gen N                    answers requests over a generated database of N authors
hq help                     writes these lines
hq --version                writes the version of the program, and of the kit with which it is proved

A HEADER is one word, as \"X-Hasura-Role: user\"; without a role the caller is admin.
With --paged the tables are kept in the file hq.pages of the directory instead of in memory.

Status  0  done
        1  the request has a fault, which the reply tells, or confine does not say yes, or there is no such copy
        2  bad words
        3  a file of the directory is absent, too large or refused
        4  a read failed, or the port could not be opened
        5  a write failed
        6  the file of --paged failed while a request was answered
        7  out of memory
        8  the input is longer than 1,048,576 bytes
";

/// The program's line, and the kit's as `rt version` has it, which stands in README too.
pub const VERSION: &str = "hq 0.1.0\nKit: rattle-kit-13f logic dac8208d650f15bf\n";

impl Page {
    /// The page that this word asks for, where it is the only one.
    pub fn named(name: &str) -> Option<Page>
        ensures { result ≡ page_named name.now }
    {
        match name {
            "help" | "--help" | "-h" => Some(Page::Usage),
            "--version" => Some(Page::Version),
            _ => None,
        }
    }

    /// Its text.
    pub fn text(self) -> &'static str
        ensures { result.now ≡ page_text self }
    {
        match self {
            Page::Usage => USAGE,
            Page::Version => VERSION,
        }
    }
}
