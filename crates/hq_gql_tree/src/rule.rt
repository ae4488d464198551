ghost use Rattle.std.specs.Prelude.{◌≡◌, Some};
ghost use Rattle.hq_gql_tree.specs.Rules.{rule_text};

use std::fmt;

/// A rule that a request can violate: first those of reading, then the sections of the same titles in the GraphQL specification,
/// October 2021, section 5, which have no line of their own, and then those of the operation. Which fault of a request comes
/// first, hq_request says.
#[derive(Clone, Copy, Debug, PartialEq, Eq)]
pub enum RuleId {
    /// The body is no JSON text whose numbers are whole and whose texts hold no zero byte.
    InvalidBody,
    /// The body has not the form of a request.
    RequestForm,
    /// The query text has no tokens.
    InvalidToken,
    /// The tokens spell no document.
    SyntaxError,
    OperationNameUniqueness,
    LoneAnonymousOperation,
    SingleRootField,
    FieldSelections,
    FieldSelectionMerging,
    LeafFieldSelections,
    ArgumentNames,
    ArgumentUniqueness,
    RequiredArguments,
    FragmentNameUniqueness,
    FragmentSpreadTypeExistence,
    FragmentsOnCompositeTypes,
    FragmentsMustBeUsed,
    FragmentSpreadTargetDefined,
    FragmentSpreadsMustNotFormCycles,
    FragmentSpreadIsPossible,
    ValuesOfCorrectType,
    InputObjectFieldNames,
    InputObjectFieldUniqueness,
    InputObjectRequiredFields,
    DirectivesAreDefined,
    DirectivesAreInValidLocations,
    DirectivesAreUniquePerLocation,
    VariableUniqueness,
    VariablesAreInputTypes,
    AllVariableUsesDefined,
    AllVariablesUsed,
    AllVariableUsagesAreAllowed,
    /// The request names no operation of the document.
    NoSuchOperation,
    /// The chosen operation is no query.
    OnlyQueries,
    /// A variable is missing or of a wrong type.
    VariableValue,
    /// A limit on fields, depth or response keys is passed.
    RequestSize,
    /// `limit` or `offset` is negative.
    NegativeLimit,
    /// `distinct_on` does not match `order_by`.
    DistinctOrder,
    /// A pattern ends in an escape.
    PatternEscape,
    /// A null stands for a member of `where` or `order_by`.
    NullOperand,
    /// `count` is asked of two columns.
    CountColumns,
    /// `order_by` has too many entries.
    SortEntries,
    /// `distinct_on`, or `count` of different values, names a column whose values have no order.
    UnorderedColumn,
    /// A session variable is missing.
    MissingVariable,
    /// A session variable cannot be read.
    UnreadableVariable,
}

impl RuleId {
    /// The rule's number, as a fault shows it.
    #[tactic(auto, unfolding(crate::specs::Rules::rule_text))]
    pub fn text(self) -> &'static str
        ensures { result.now ≡ rule_text self }
    {
        match self {
            RuleId::InvalidBody => "F1",
            RuleId::RequestForm => "F2",
            RuleId::InvalidToken => "F3",
            RuleId::SyntaxError => "F4",
            RuleId::OperationNameUniqueness => "5.2.1.1",
            RuleId::LoneAnonymousOperation => "5.2.2.1",
            RuleId::SingleRootField => "5.2.3.1",
            RuleId::FieldSelections => "5.3.1",
            RuleId::FieldSelectionMerging => "5.3.2",
            RuleId::LeafFieldSelections => "5.3.3",
            RuleId::ArgumentNames => "5.4.1",
            RuleId::ArgumentUniqueness => "5.4.2",
            RuleId::RequiredArguments => "5.4.2.1",
            RuleId::FragmentNameUniqueness => "5.5.1.1",
            RuleId::FragmentSpreadTypeExistence => "5.5.1.2",
            RuleId::FragmentsOnCompositeTypes => "5.5.1.3",
            RuleId::FragmentsMustBeUsed => "5.5.1.4",
            RuleId::FragmentSpreadTargetDefined => "5.5.2.1",
            RuleId::FragmentSpreadsMustNotFormCycles => "5.5.2.2",
            RuleId::FragmentSpreadIsPossible => "5.5.2.3",
            RuleId::ValuesOfCorrectType => "5.6.1",
            RuleId::InputObjectFieldNames => "5.6.2",
            RuleId::InputObjectFieldUniqueness => "5.6.3",
            RuleId::InputObjectRequiredFields => "5.6.4",
            RuleId::DirectivesAreDefined => "5.7.1",
            RuleId::DirectivesAreInValidLocations => "5.7.2",
            RuleId::DirectivesAreUniquePerLocation => "5.7.3",
            RuleId::VariableUniqueness => "5.8.1",
            RuleId::VariablesAreInputTypes => "5.8.2",
            RuleId::AllVariableUsesDefined => "5.8.3",
            RuleId::AllVariablesUsed => "5.8.4",
            RuleId::AllVariableUsagesAreAllowed => "5.8.5",
            RuleId::NoSuchOperation => "F30",
            RuleId::OnlyQueries => "F35",
            RuleId::VariableValue => "F31",
            RuleId::RequestSize => "F32",
            RuleId::NegativeLimit => "F36",
            RuleId::DistinctOrder => "F37",
            RuleId::PatternEscape => "F38",
            RuleId::NullOperand => "F39",
            RuleId::CountColumns => "F40",
            RuleId::SortEntries => "F41",
            RuleId::UnorderedColumn => "F42",
            RuleId::MissingVariable => "F33",
            RuleId::UnreadableVariable => "F34",
        }
    }
}

impl fmt::Display for RuleId {
    ghost output = { λ rule. Some (rule_text rule) };

    fn fmt<W: fmt::Write>(&self, f: &mut fmt::Formatter<W>) -> fmt::Result {
        f.write_str(self.text())
    }
}
