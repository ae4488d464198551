use crate::{documents, headers, texts, words};
use hq_cases_file::{Case, Stop, Subject, Words};

/// What cases are about: a file of cases, and the public calls that these go through.
#[derive(Clone, Copy)]
pub enum About {
    Texts,
    Bodies,
    Values,
    Patterns,
    Names,
    Numbers,
    TruthValues,
    Uuids,
    Truths,
    Headers,
    Sessions,
    SessionVariables,
    Tokens,
    Documents,
}

impl About {
    /// Each subject, in the order of its line.
    pub const ALL: [About; 14] = [
        About::Texts,
        About::Bodies,
        About::Values,
        About::Patterns,
        About::Names,
        About::Numbers,
        About::TruthValues,
        About::Uuids,
        About::Truths,
        About::Headers,
        About::Sessions,
        About::SessionVariables,
        About::Tokens,
        About::Documents,
    ];
}

impl Subject for About {
    fn name(self) -> &'static str {
        match self {
            About::Texts => "texts",
            About::Bodies => "bodies",
            About::Values => "values",
            About::Patterns => "patterns",
            About::Names => "names",
            About::Numbers => "numbers",
            About::TruthValues => "truth_values",
            About::Uuids => "uuids",
            About::Truths => "truths",
            About::Headers => "headers",
            About::Sessions => "sessions",
            About::SessionVariables => "session_variables",
            About::Tokens => "tokens",
            About::Documents => "documents",
        }
    }

    fn tell(self, rt: &HostRuntime, case: &Case, out: &mut Words) -> Result<(), Stop> {
        let alloc = rt.alloc();
        match self {
            About::Texts => texts::tell_text(alloc, case, out),
            About::Bodies => texts::tell_body(alloc, case, out),
            About::Values => texts::tell_order(alloc, case, out),
            About::Patterns => texts::tell_pattern(alloc, case, out),
            About::Names => words::tell_name(alloc, case, out),
            About::Numbers => words::tell_number(alloc, case, out),
            About::TruthValues => words::tell_truth_value(alloc, case, out),
            About::Uuids => words::tell_uuid(alloc, case, out),
            About::Truths => words::tell_truths(case, out),
            About::Headers => headers::tell_header(alloc, case, out),
            About::Sessions => headers::tell_session(alloc, case, out),
            About::SessionVariables => headers::tell_variable(alloc, case, out),
            About::Tokens => documents::tell_tokens(alloc, case, out),
            About::Documents => documents::tell_document(alloc, case, out),
        }
    }
}
