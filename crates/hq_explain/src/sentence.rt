use hq_gql_tree::RuleId;

/// A rule in a sentence.
pub fn sentence(rule: RuleId) -> &'static str {
    match rule {
        RuleId::InvalidBody =>
            "a body is one JSON text, whose numbers are whole and whose texts have no zero byte",
        RuleId::RequestForm => {
            "a body is an object with a text \"query\", and perhaps an object \"variables\" and a text \"operationName\""
        }
        RuleId::InvalidToken => "the text is made of tokens of GraphQL",
        RuleId::SyntaxError =>
            "the tokens spell operations and fragments, with at most 50 { and [ open at once",
        RuleId::OperationNameUniqueness => "operations have different names",
        RuleId::LoneAnonymousOperation => "an operation without a name is the only one",
        RuleId::SingleRootField => "a subscription has exactly one root field",
        RuleId::FieldSelections => "a field is one of the type that it stands in",
        RuleId::FieldSelectionMerging =>
            "fields of one response key are the same field with the same arguments",
        RuleId::LeafFieldSelections =>
            "a field of an object type has fields in braces, and no other has",
        RuleId::ArgumentNames => "an argument is one of its field or directive",
        RuleId::ArgumentUniqueness => "an argument is given once",
        RuleId::RequiredArguments => "a required argument is given",
        RuleId::FragmentNameUniqueness => "fragments have different names",
        RuleId::FragmentSpreadTypeExistence => "the type of a fragment is one of the schema",
        RuleId::FragmentsOnCompositeTypes => "the type of a fragment is an object type",
        RuleId::FragmentsMustBeUsed => "a fragment is spread somewhere",
        RuleId::FragmentSpreadTargetDefined => "a fragment that is spread is defined",
        RuleId::FragmentSpreadsMustNotFormCycles => "a fragment does not lead back to itself",
        RuleId::FragmentSpreadIsPossible => "a fragment is of the type that it is spread in",
        RuleId::ValuesOfCorrectType => "a value is of the type of its place",
        RuleId::InputObjectFieldNames => "a member of an input object is one of its type",
        RuleId::InputObjectFieldUniqueness => "a member of an input object is given once",
        RuleId::InputObjectRequiredFields => "a required member of an input object is given",
        RuleId::DirectivesAreDefined => "a directive is @include or @skip",
        RuleId::DirectivesAreInValidLocations =>
            "@include and @skip stand at fields, fragment spreads and inline fragments",
        RuleId::DirectivesAreUniquePerLocation => "a directive stands once at a place",
        RuleId::VariableUniqueness => "variables of an operation have different names",
        RuleId::VariablesAreInputTypes => "the type of a variable is one that values are given for",
        RuleId::AllVariableUsesDefined =>
            "a variable that is used is defined by each operation that uses it",
        RuleId::AllVariablesUsed => "a variable that is defined is used",
        RuleId::AllVariableUsagesAreAllowed =>
            "the type of a variable fits each place where it is used",
        RuleId::NoSuchOperation =>
            "the request names one operation of the document, or there is just one",
        RuleId::OnlyQueries => "hq reads only",
        RuleId::VariableValue => "each variable has a value of its type",
        RuleId::RequestSize => {
            "at most 5,000 fields, 50 levels, 50 keys of an object, and 1,048,576 values in arguments"
        }
        RuleId::NegativeLimit => "\"limit\" and \"offset\" are not negative",
        RuleId::DistinctOrder =>
            "the first sorts of \"order_by\" are by the columns of \"distinct_on\"",
        RuleId::PatternEscape => "a pattern does not end in an escape",
        RuleId::NullOperand => "null stands nowhere in \"where\" and \"order_by\"",
        RuleId::CountColumns => "\"count\" takes one column",
        RuleId::SortEntries => "\"order_by\" has at most 100 sorts",
        RuleId::UnorderedColumn =>
            "\"distinct_on\", and \"count\" with \"distinct\", name columns whose values have an order",
        RuleId::MissingVariable => "a filter's session variables are given",
        RuleId::UnreadableVariable =>
            "a filter's session variables are of the types of their columns",
    }
}
