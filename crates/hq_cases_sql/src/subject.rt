use crate::cells::Function;
use crate::texts::Look;
use crate::{cells, rows, texts};
use hq_base::Aggregate;
use hq_cases_file::{Case, Stop, Subject, Words};

/// What cases are about: a file of cases, and the public calls that these go through.
#[derive(Clone, Copy)]
pub enum About {
    SqlTexts,
    WellFormed,
    Scans,
    Tests,
    Cells,
    AggregateFunctions,
    Sums,
    Pages,
    Sorts,
    Groups,
}

// What is told of cells, in the order of the words.
static FUNCTIONS: [Function; 4] = [
    Function::Count { distinct: false },
    Function::Count { distinct: true },
    Function::Take(Aggregate::Min),
    Function::Take(Aggregate::Max),
];

static SUM: [Function; 1] = [Function::Take(Aggregate::Sum)];

impl About {
    /// Each subject, in the order of its line.
    pub const ALL: [About; 10] = [
        About::SqlTexts,
        About::WellFormed,
        About::Scans,
        About::Tests,
        About::Cells,
        About::AggregateFunctions,
        About::Sums,
        About::Pages,
        About::Sorts,
        About::Groups,
    ];
}

impl Subject for About {
    fn name(self) -> &'static str {
        match self {
            About::SqlTexts => "sql_texts",
            About::WellFormed => "well_formed",
            About::Scans => "scans",
            About::Tests => "tests",
            About::Cells => "cells",
            About::AggregateFunctions => "aggregate_functions",
            About::Sums => "sums",
            About::Pages => "pages",
            About::Sorts => "sorts",
            About::Groups => "groups",
        }
    }

    fn tell(self, rt: &HostRuntime, case: &Case, words: &mut Words) -> Result<(), Stop> {
        let alloc = rt.alloc();
        match self {
            About::SqlTexts => texts::tell(alloc, Look::Printed, case, words),
            About::WellFormed => texts::tell(alloc, Look::WellFormed, case, words),
            About::Scans => texts::tell(alloc, Look::Scans, case, words),
            About::Tests => cells::tell_test(alloc, case, words),
            About::Cells => cells::tell_json(alloc, case, words),
            About::AggregateFunctions => cells::tell_aggregates(alloc, &FUNCTIONS, case, words),
            About::Sums => cells::tell_aggregates(alloc, &SUM, case, words),
            About::Pages => rows::tell_page(alloc, case, words),
            About::Sorts => rows::tell_sort(alloc, case, words),
            About::Groups => rows::tell_groups(alloc, case, words),
        }
    }
}
