//! The directory that a case names: the files of the member `names` that stand below `data/`, or what the case writes of them
//! in the member `files`, where null says that a file is not there.

use hq_base::{Bytes, Json, List, Txt};
use hq_cases_file::{Case, Stop, input_bytes};
use hq_io::{File, FileList, NumList, names_differ};
use hq_io_memory::MemFiles;
use std::alloc::Global;
use std::fs;

// The bytes of a file below `data/`.
fn bytes_at(rt: &HostRuntime, path: &str) -> Result<Bytes, Stop> {
    match fs::read(rt, path) {
        Ok(bytes) => Ok(Bytes::from_vec(bytes)),
        Err(_) => Err(Stop::Unread),
    }
}

// What a case writes of the file of a name.
fn written<'a>(case: &Case<'a>, name: &Txt) -> Option<&'a Json> {
    case.find("files")?.member(name.as_str())
}

// The bytes of the file of a name, which stands at this path, if it is there.
fn bytes_of(rt: &HostRuntime, case: &Case, name: &Txt, path: &str) -> Result<Option<Bytes>, Stop> {
    match written(case, name) {
        Some(Json::Null) => Ok(None),
        Some(pieces) => Ok(Some(input_bytes(rt.alloc(), pieces)?)),
        None => Ok(Some(bytes_at(rt, path)?)),
    }
}

// Adds the file of a name, if it is there.
fn push_file(
    rt: &HostRuntime,
    case: &Case,
    directory: &Txt,
    name: &Txt,
    files: &mut FileList,
) -> Result<(), Stop> {
    let path = format!(in rt.alloc(); "{}/{}", directory.as_str(), name.as_str())?;
    let Some(bytes) = bytes_of(rt, case, name, path.as_str())? else {
        return Ok(());
    };
    let name = Txt::of(rt.alloc(), path.as_bytes())?;
    Ok(files.push(File { name, bytes })?)
}

// The files of the directory.
fn files_of(rt: &HostRuntime, case: &Case) -> Result<FileList, Stop> {
    let directory = case.text(rt.alloc(), "directory")?;
    let names = case.texts(rt.alloc(), "names")?;
    let mut files = List::new(rt.alloc());
    for name in names.iter() {
        push_file(rt, case, &directory, name, &mut files)?;
    }
    Ok(files)
}

fn number(json: &Json) -> Result<u64, Stop> {
    match json {
        Json::Int(n) => u64::try_from(*n).map_err(|_| Stop::Shape),
        _ => Err(Stop::Shape),
    }
}

/// The numbers that the elements of a value are.
pub fn numbers(alloc: Global, json: &Json) -> Result<NumList, Stop> {
    let mut numbers = List::new(alloc);
    if let Json::Arr(elements) = json {
        for element in elements {
            numbers.push(number(element)?)?;
        }
    }
    Ok(numbers)
}

/// The numbers of the calls that fail: the elements of a member, or none where it is absent.
pub fn failing(alloc: Global, case: &Case, member: &str) -> Result<NumList, Stop> {
    match case.find(member) {
        Some(json) => numbers(alloc, json),
        None => Ok(List::new(alloc)),
    }
}

/// The folder that holds the directory.
pub fn folder(rt: &HostRuntime, case: &Case) -> Result<MemFiles, Stop> {
    let loads = failing(rt.alloc(), case, "loads")?;
    let files = files_of(rt, case)?;
    if !names_differ(files.as_slice()) {
        return Err(Stop::Shape);
    }
    Ok(MemFiles::new(files, loads))
}
