use crate::{operations, requests, rules, variables};
use hq_cases_file::{Case, Stop, Subject, Words};

/// What cases are about: a file of cases, and the public calls that these go through.
#[derive(Clone, Copy)]
pub enum About {
    DocumentRules,
    FieldRules,
    MergingRule,
    Operations,
    Variables,
    Arguments,
    TypedRequests,
}

impl About {
    /// Each subject, in the order of its line.
    pub const ALL: [About; 7] = [
        About::DocumentRules,
        About::FieldRules,
        About::MergingRule,
        About::Operations,
        About::Variables,
        About::Arguments,
        About::TypedRequests,
    ];
}

impl Subject for About {
    fn name(self) -> &'static str {
        match self {
            About::DocumentRules => "document_rules",
            About::FieldRules => "field_rules",
            About::MergingRule => "merging_rule",
            About::Operations => "operations",
            About::Variables => "variables",
            About::Arguments => "arguments",
            About::TypedRequests => "typed_requests",
        }
    }

    fn tell(self, rt: &HostRuntime, case: &Case, words: &mut Words) -> Result<(), Stop> {
        let alloc = rt.alloc();
        match self {
            About::DocumentRules => rules::tell_of_document(alloc, case, words),
            About::FieldRules | About::MergingRule => rules::tell_of_fields(alloc, case, words),
            About::Operations => operations::tell_operation(alloc, case, words),
            About::Variables => variables::tell_values(alloc, case, words),
            About::Arguments | About::TypedRequests => requests::tell_request(alloc, case, words),
        }
    }
}
