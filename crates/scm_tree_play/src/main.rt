//! Says what marks leave of trees: reads cases from standard input, one file or mark a line, and writes which files are
//! left out and what becomes of each path. A line `path P` asks what is wrong with the path P.
#![tactic(auto)]

use scm_tree::{DecideError, Decision, Entry, Mark, Moved, Version, Wish, decide, path_fault};
use std::alloc::{AllocError, Global};
use std::{io, str};

/// The files, marks and renames of a case.
#[derive(Drop)]
struct Case<'a> {
    old: Vec<Entry<'a>>,
    new: Vec<Entry<'a>>,
    marks: Vec<Mark<'a>>,
    moved: Vec<Moved<'a>>,
}

/// Returns the number that a word is, or 0.
fn number(word: &str) -> usize {
    match word.parse::<usize>() {
        Ok(number) => number,
        Err(_) => 0,
    }
}

/// Returns the version that a word names: `-`, or a mode and the number of its contents.
fn version(word: &str) -> Option<Version> {
    match word.split_once(',') {
        None => None,
        Some((mode, contents)) => Some(Version {
            mode: number(mode),
            contents: number(contents),
        }),
    }
}

/// Returns the file of a tree that a line describes, if it does.
fn entry<'a>(rest: &'a str) -> Option<Entry<'a>> {
    let (path, word) = rest.split_once(' ')?;
    Some(Entry {
        path: path.as_bytes(),
        version: version(word)?,
    })
}

/// Returns the mark that a line describes, if it does.
fn mark<'a>(rest: &'a str) -> Option<Mark<'a>> {
    let (path, rest) = rest.split_once(' ')?;
    let (file, wanted) = rest.split_once(' ')?;
    Some(Mark {
        path: path.as_bytes(),
        wish: Wish {
            file: number(file),
            wanted: version(wanted),
        },
    })
}

/// Returns the renamed file that a line describes, if it does.
fn moved<'a>(rest: &'a str) -> Option<Moved<'a>> {
    let (old, new) = rest.split_once(' ')?;
    Some(Moved {
        old: old.as_bytes(),
        new: new.as_bytes(),
    })
}

/// Returns a path as a text.
fn text<'a>(path: &'a [u8]) -> &'a str {
    match str::from_utf8(path) {
        Ok(text) => text,
        Err(_) => "?",
    }
}

/// Writes a version.
fn write_version(rt: &HostRuntime, version: Option<Version>) -> anyhow::Result<()> {
    match version {
        None => print!(rt; " -")?,
        Some(version) => print!(rt; " {},{}", version.mode, version.contents)?,
    }
    Ok(())
}

/// Writes what is decided.
fn write_decision(rt: &HostRuntime, decision: &Decision<'_>) -> anyhow::Result<()> {
    for (file, refusal) in decision.refused.iter().enumerate() {
        if let Some(refusal) = refusal {
            println!(rt; "refused {file} {} {}", refusal.comes, refusal.blocker)?;
        }
    }
    for outcome in decision.outcomes.iter() {
        print!(rt; "{}", text(outcome.path))?;
        write_version(rt, outcome.before)?;
        write_version(rt, outcome.after)?;
        println!(rt)?;
    }
    Ok(())
}

/// Writes why nothing is decided.
fn write_error(rt: &HostRuntime, error: DecideError<'_>) -> anyhow::Result<()> {
    match error {
        DecideError::Twice(path) => println!(rt; "twice {}", text(path))?,
        DecideError::Unknown(path) => println!(rt; "unknown {}", text(path))?,
        DecideError::Path(path, fault) => println!(rt; "path {} {fault:?}", text(path))?,
        DecideError::Rows(fault) => println!(rt; "rows {fault:?}")?,
        DecideError::Rename(number) => println!(rt; "rename {number}")?,
        DecideError::File(number) => println!(rt; "file {number}")?,
        DecideError::OutOfMemory => println!(rt; "out of memory")?,
    }
    Ok(())
}

/// Decides a case, and writes what is decided.
fn write_case(rt: &HostRuntime, case: &Case<'_>, count: usize) -> anyhow::Result<()> {
    let decided = decide(
        rt.alloc(),
        case.old.as_slice(),
        case.new.as_slice(),
        case.marks.as_slice(),
        case.moved.as_slice(),
        count,
    );
    match decided {
        Ok(decision) => write_decision(rt, &decision)?,
        Err(error) => write_error(rt, error)?,
    }
    println!(rt; "end")?;
    Ok(())
}

/// Writes what is wrong with a path.
fn write_path(rt: &HostRuntime, path: &str) -> anyhow::Result<()> {
    match path_fault(path.as_bytes()) {
        None => println!(rt; "path")?,
        Some(fault) => println!(rt; "path {fault:?}")?,
    }
    Ok(())
}

/// Adds what a line describes to the case.
fn read_line<'a>(case: &mut Case<'a>, word: &str, rest: &'a str) -> Result<(), AllocError> {
    if word == "old" {
        if let Some(entry) = entry(rest) {
            case.old.push(entry)?;
        }
    } else if word == "new" {
        if let Some(entry) = entry(rest) {
            case.new.push(entry)?;
        }
    } else if word == "mark" {
        if let Some(mark) = mark(rest) {
            case.marks.push(mark)?;
        }
    } else if word == "moved" {
        if let Some(moved) = moved(rest) {
            case.moved.push(moved)?;
        }
    }
    Ok(())
}

/// Returns a case without files.
fn empty_case<'a>(alloc: Global) -> Case<'a> {
    Case {
        old: Vec::new(alloc),
        new: Vec::new(alloc),
        marks: Vec::new(alloc),
        moved: Vec::new(alloc),
    }
}

fn main(rt: HostRuntime) -> anyhow::Result<()> {
    let input = io::read_to_string(rt.alloc(), rt.reader())?;
    let mut case = empty_case(rt.alloc());
    for line in input.as_str().lines() {
        let Some((word, rest)) = line.split_once(' ') else {
            continue;
        };
        if word == "go" {
            write_case(&rt, &case, number(rest))?;
            case = empty_case(rt.alloc());
        } else if word == "path" {
            write_path(&rt, rest)?;
        } else {
            read_line(&mut case, word, rest)?;
        }
    }
    Ok(())
}
