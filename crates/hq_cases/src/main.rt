//! With no word: runs the cases of `data/`, a file a subject, in the order of a request's path. The status is 1 where a case differs.
//! With the name of a directory: answers the statement of SQL on the standard input over it, as JSON on the standard output. The
//! status is 1 where it is refused.
#![tactic(auto)]

use hq_cases_file::run_all;
use hq_cases_request::answer_input;
use std::env;
use std::process::ExitCode;

fn cases_pass(rt: &HostRuntime) -> bool {
    let mut well = run_all(rt, &hq_cases_text::About::ALL);
    well &= run_all(rt, &hq_cases_data::About::ALL);
    well &= run_all(rt, &hq_cases_server::About::ALL);
    well &= run_all(rt, &hq_cases_ask::About::ALL);
    well &= run_all(rt, &hq_cases_sql::About::ALL);
    well &= run_all(rt, &hq_cases_request::About::ALL);
    well
}

// Whether the statement of the standard input was answered over a directory. What stops it is told.
fn is_answered(rt: &HostRuntime, directory: &str) -> bool {
    match answer_input(rt, directory) {
        Ok(is_answered) => is_answered,
        Err(stop) => {
            let _ = eprintln!(rt; "hq_cases: {stop}");
            false
        }
    }
}

// The first word behind the program's name.
fn first_word(rt: &HostRuntime) -> Option<String> {
    match env::args(rt) {
        Ok(words) => words.skip(1).next(),
        Err(_) => None,
    }
}

fn main(rt: HostRuntime) -> ExitCode {
    let well = match first_word(&rt) {
        Some(directory) => is_answered(&rt, directory.as_str()),
        None => cases_pass(&rt),
    };
    ExitCode::from(if well { 0 } else { 1 })
}
