use crate::{connections, loopback, secrets, words};
use hq_cases_file::{Case, Stop, Subject, Words};

/// What cases are about: a file of cases, and the public calls that these go through.
#[derive(Clone, Copy)]
pub enum About {
    Words,
    Secrets,
    Connections,
    Loopback,
}

impl About {
    /// Each subject, in the order of its line.
    pub const ALL: [About; 4] = [
        About::Words,
        About::Secrets,
        About::Connections,
        About::Loopback,
    ];
}

impl Subject for About {
    fn name(self) -> &'static str {
        match self {
            About::Words => "words",
            About::Secrets => "secrets",
            About::Connections => "connections",
            About::Loopback => "loopback",
        }
    }

    fn tell(self, rt: &HostRuntime, case: &Case, out: &mut Words) -> Result<(), Stop> {
        let alloc = rt.alloc();
        match self {
            About::Words => words::tell_command(alloc, case, out),
            About::Secrets => secrets::tell_caller(alloc, case, out),
            About::Connections => connections::tell_connection(alloc, case, out),
            About::Loopback => loopback::tell_connections(rt, case, out),
        }
    }
}
