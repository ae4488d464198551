use hq_model::Described;
use hq_request_coerce::VarValues;
use hq_schema::Schema;

/// What the arguments of a field are read against: the coerced variables of the operation, the schema of the role, and the tables
/// behind it.
#[derive(Clone, Copy)]
pub struct Context<'a> {
    pub vars: &'a VarValues,
    pub schema: &'a Schema,
    pub scope: Described<'a>,
}
