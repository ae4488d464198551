use crate::RuleId;
use hq_base::Txt;
use hq_model::Want;

/// A fault of a request: the rule that is violated, the place in the query text if there is one, and for a session
/// variable its name and what it was to be read as.
#[derive(Debug, Drop)]
pub struct Fault {
    pub rule: RuleId,
    pub at: Option<u64>,
    pub name: Option<Txt>,
    pub want: Option<Want>,
}
