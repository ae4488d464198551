use crate::{pins, runs, statements};
use hq_cases_file::{Case, Stop, Subject, Words};

/// What cases are about: a file of cases, and the public calls that these go through.
#[derive(Clone, Copy)]
pub enum About {
    Worked,
    Blog,
    Shop,
    ReachingFilters,
    InheritedRoles,
    Masks,
    Relationships,
    Aggregates,
    Introspection,
    Identities,
    Opaques,
    Worlds,
    Requests,
    Skipped,
    Directories,
    Runs,
    Explain,
    Confine,
    Copy,
    Serving,
    Live,
    Statements,
    Pins,
}

impl About {
    /// Each subject, in the order of its line.
    pub const ALL: [About; 23] = [
        About::Worked,
        About::Blog,
        About::Shop,
        About::ReachingFilters,
        About::InheritedRoles,
        About::Masks,
        About::Relationships,
        About::Aggregates,
        About::Introspection,
        About::Identities,
        About::Opaques,
        About::Worlds,
        About::Requests,
        About::Skipped,
        About::Directories,
        About::Runs,
        About::Explain,
        About::Confine,
        About::Copy,
        About::Serving,
        About::Live,
        About::Statements,
        About::Pins,
    ];
}

impl Subject for About {
    fn name(self) -> &'static str {
        match self {
            About::Worked => "worked",
            About::Blog => "blog",
            About::Shop => "shop",
            About::ReachingFilters => "reaching_filters",
            About::InheritedRoles => "inherited_roles",
            About::Masks => "masks",
            About::Relationships => "relationships",
            About::Aggregates => "aggregates",
            About::Introspection => "introspection",
            About::Identities => "identities",
            About::Opaques => "opaques",
            About::Worlds => "worlds",
            About::Requests => "requests",
            About::Skipped => "skipped",
            About::Directories => "directories",
            About::Runs => "runs",
            About::Explain => "explain",
            About::Confine => "confine",
            About::Copy => "copy",
            About::Serving => "serving",
            About::Live => "live",
            About::Statements => "statements",
            About::Pins => "pins",
        }
    }

    fn tell(self, rt: &HostRuntime, case: &Case, words: &mut Words) -> Result<(), Stop> {
        match self {
            About::Statements => statements::tell_answer(rt, case, words),
            About::Pins => pins::tell_outcomes(rt, case, words),
            _ => runs::tell_outcome(rt, case, words),
        }
    }
}
