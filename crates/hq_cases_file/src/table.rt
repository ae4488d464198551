//! A file of cases is read and run, and what differs is told.

use crate::{Case, Stop, Words};
use hq_base::Json;
use std::alloc::Global;
use std::fs;

/// What the cases of a file are about.
pub trait Subject: Copy {
    /// Its name, which is that of its file without `.json`.
    fn name(self) -> &'static str;

    /// Adds what comes of a case through the public calls of its layer, in words.
    fn tell(self, rt: &HostRuntime, case: &Case, words: &mut Words) -> Result<(), Stop>;
}

// The file of a subject.
fn file_of<S: Subject>(rt: &HostRuntime, subject: S) -> Result<Json, Stop> {
    let path = format!(in rt.alloc(); "{}.json", subject.name())?;
    let bytes = match fs::read(rt, path.as_str()) {
        Ok(bytes) => bytes,
        Err(_) => return Err(Stop::Unread),
    };
    Ok(Json::from_body(rt.alloc(), bytes.as_slice())?)
}

// What comes of a case.
fn told<S: Subject>(rt: &HostRuntime, subject: S, case: &Case) -> Result<String, Stop> {
    let mut words = Words::new(rt.alloc());
    subject.tell(rt, case, &mut words)?;
    words.told()
}

// Adds the name of a case that differs, what was due and what came.
fn push_differing(name: &str, due: &str, came: &str, lines: &mut Words) {
    lines.push_pair("  ", name);
    lines.push_pair("\n    due:  ", due);
    lines.push_pair("\n    came: ", came);
    lines.push("\n");
}

// Whether what came of a case is what was due. If not, it is told.
fn is_due(alloc: Global, case: &Case, came: &str, lines: &mut Words) -> Result<bool, Stop> {
    let due = case.text(alloc, "due")?;
    if came == due.as_str() {
        return Ok(true);
    }
    let name = case.text(alloc, "name")?;
    push_differing(name.as_str(), due.as_str(), came, lines);
    Ok(false)
}

// Runs a case, and returns whether it came out as it should. If not, it is told.
fn agrees<S: Subject>(
    rt: &HostRuntime,
    subject: S,
    case: &Case,
    lines: &mut Words,
) -> Result<bool, Stop> {
    let came = told(rt, subject, case)?;
    is_due(rt.alloc(), case, came.as_str(), lines)
}

// How many of the cases differ. These are told.
fn differing<S: Subject>(
    rt: &HostRuntime,
    subject: S,
    file: &Json,
    cases: &[Json],
    lines: &mut Words,
) -> Result<u64, Stop> {
    let mut differ = 0u64;
    for json in cases {
        if !agrees(rt, subject, &Case::new(file, json), lines)? {
            differ = differ.saturating_add(1);
        }
    }
    Ok(differ)
}

fn push_count(name: &str, cases: usize, differ: u64, out: &mut Words) {
    out.push_pair(name, ": ");
    out.push_place(cases);
    out.push(" cases, ");
    out.push_number(differ);
    out.push(" differ\n");
}

// Runs the cases of a file, adds its line and the lines of the cases that differ, and returns whether none does.
fn runs<S: Subject>(
    rt: &HostRuntime,
    subject: S,
    file: &Json,
    cases: &[Json],
    out: &mut Words,
) -> Result<bool, Stop> {
    let mut lines = Words::new(rt.alloc());
    let differ = differing(rt, subject, file, cases, &mut lines)?;
    push_count(subject.name(), cases.len(), differ, out);
    out.push_words(&lines);
    Ok(differ == 0)
}

// Runs the cases of a subject's file, as above.
fn passes<S: Subject>(rt: &HostRuntime, subject: S, out: &mut Words) -> Result<bool, Stop> {
    let file = file_of(rt, subject)?;
    match file.member("cases") {
        Some(Json::Arr(cases)) => runs(rt, subject, &file, cases, out),
        _ => Err(Stop::Shape),
    }
}

// Runs a subject's file, and returns whether all is well, and its lines.
fn lines_of<S: Subject>(rt: &HostRuntime, subject: S) -> Result<(bool, String), Stop> {
    let mut out = Words::new(rt.alloc());
    let well = passes(rt, subject, &mut out)?;
    Ok((well, out.told()?))
}

// Runs a subject's file and prints what came of it.
fn prints<S: Subject>(rt: &HostRuntime, subject: S) -> bool {
    match lines_of(rt, subject) {
        Ok((well, lines)) => print!(rt; "{}", lines.as_str()).is_ok() && well,
        Err(stop) => {
            let _ = println!(rt; "{}: {stop}", subject.name());
            false
        }
    }
}

/// Runs each subject's file in `data/`: a line a file, and the lines of the cases that differ. Returns whether none does.
pub fn run_all<S: Subject>(rt: &HostRuntime, subjects: &[S]) -> bool {
    let mut well = true;
    for subject in subjects {
        well = prints(rt, *subject) && well;
    }
    well
}
