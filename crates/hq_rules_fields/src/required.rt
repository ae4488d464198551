//! Required arguments and input fields that are not given.
ghost use Rattle.std.specs.Prelude.{◌≡◌, map};
ghost use Rattle.hq_schema.specs.Schema.{arg_view};
ghost use Rattle.hq_gql_tree.specs.Values.{argument_view};
ghost use Rattle.hq_rules_fields.specs.NodeRules.{is_required, is_given, lacks, lacks_any};

use hq_base::Txt;
use hq_gql_nodes::{is_non_null, is_null};
use hq_gql_tree::Argument;
use hq_schema::ArgDef;

fn is_required(arg: &ArgDef) -> bool
    ensures { result ≡ is_required (arg_view arg.now) }
{
    is_non_null(&arg.ty) && !arg.default_false
}

// Whether the first argument of a name is given, and is no null.
fn is_given(given: &[Argument], name: &Txt) -> bool
    ensures { result ≡ is_given (map argument_view given.now) name.now }
{
    for argument in given {
        if argument.name == *name {
            return !is_null(&argument.value.value);
        }
    }
    false
}

fn lacks(given: &[Argument], arg: &ArgDef) -> bool
    ensures { result ≡ lacks (map argument_view given.now) (arg_view arg.now) }
{
    is_required(arg) && !is_given(given, &arg.name)
}

/// Whether what is given lacks a required one of these.
pub fn lacks_any(given: &[Argument], args: &[ArgDef]) -> bool
    ensures { result ≡ lacks_any (map argument_view given.now) (map arg_view args.now) }
{
    for arg in args {
        if lacks(given, arg) {
            return true;
        }
    }
    false
}
