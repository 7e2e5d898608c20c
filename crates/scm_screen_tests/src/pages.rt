//! Pages of a pager: the lines of a side, and where keys take it.
use crate::checks::{check_equal, check_view, made};
use crate::states::{Part, file_of_parts};
use scm_pager::{Pager, hear, page};
use scm_samples::{ADDED, REMOVED};
use scm_types::File;
use std::alloc::Global;
use std::process::Abort;

/// What is typed into a pager at the beginning of the selected side on 24 columns and 4 rows, and what it shows.
type Page = (&'static str, &'static str);

/// The lines of the selected side have a context line, an added line that is marked, and a removed line that is not. The other side has
/// the other two changed lines. All keys of a step are typed somewhere.
const PAGES: &[Page] = &[
    (
        "",
        "\"  one⏎                  \"\n\"+ two⏎                  \"\n\"  four⏎                 \"\n\"f: with   1-3/4  p: back\"\n",
    ),
    (
        "j",
        "\"+ two⏎                  \"\n\"  four⏎                 \"\n\"  six⏎                  \"\n\"f: with   2-4/4  p: back\"\n",
    ),
    (
        "jjk",
        "\"  one⏎                  \"\n\"+ two⏎                  \"\n\"  four⏎                 \"\n\"f: with   1-3/4  p: back\"\n",
    ),
    (
        "G",
        "\"+ two⏎                  \"\n\"  four⏎                 \"\n\"  six⏎                  \"\n\"f: with   2-4/4  p: back\"\n",
    ),
    (
        "\x1b[4~",
        "\"+ two⏎                  \"\n\"  four⏎                 \"\n\"  six⏎                  \"\n\"f: with   2-4/4  p: back\"\n",
    ),
    (
        "G\x1b[1~",
        "\"  one⏎                  \"\n\"+ two⏎                  \"\n\"  four⏎                 \"\n\"f: with   1-3/4  p: back\"\n",
    ),
    (
        "Gg>",
        "\"                        \"\n\"+                       \"\n\"                        \"\n\"f: with   1-3/4  p: back\"\n",
    ),
    (
        "jP",
        "\"  one⏎                  \"\n\"  three⏎                \"\n\"- five⏎                 \"\n\"f: with   1-3/4  p: back\"\n",
    ),
    (
        "Pp",
        "\"  one⏎                  \"\n\"+ two⏎                  \"\n\"  four⏎                 \"\n\"f: with   1-3/4  p: back\"\n",
    ),
];

/// What closes a pager on the selected side.
const CLOSING: &[&str] = &["p", "q", "?", "\x1b", "\x03", "PP", "pj"];

/// The sections of the file of the pages.
const PARTS: &[Part] = &[
    Part::Context(&["one\n"]),
    Part::Changes(&[
        (true, ADDED, "two\n"),
        (false, ADDED, "three\n"),
        (false, REMOVED, "four\n"),
        (true, REMOVED, "five\n"),
    ]),
    Part::Context(&["six\n"]),
];

/// Returns the pager on the selected side after the keys `keys`.
fn pager_after(rt: &impl Abort, alloc: Global, file: &File<'_>, keys: &str) -> Pager {
    let pager = Pager::open(0, true);
    made(rt, hear(alloc, pager, file, keys.as_bytes(), 24, 4))
}

/// Checks what a pager shows after keys.
fn check_page(rt: &impl Abort, alloc: Global, file: &File<'_>, row: Page) {
    let pager = pager_after(rt, alloc, file, row.0);
    let shown = made(rt, page(alloc, pager, file, 24, 4));
    check_view(rt, &shown, row.1);
}

#[test]
fn pages_show_sides(rt: HostRuntime) {
    let file = file_of_parts(&rt, rt.alloc(), PARTS);
    for row in PAGES {
        check_page(&rt, rt.alloc(), &file, *row);
    }
}

/// Checks that `keys` close a pager.
fn check_closed(rt: &impl Abort, alloc: Global, file: &File<'_>, keys: &str) {
    let pager = pager_after(rt, alloc, file, keys);
    check_equal(rt, (keys, pager.is_open, pager.top), (keys, false, 0));
}

#[test]
fn keys_close_pagers(rt: HostRuntime) {
    let file = file_of_parts(&rt, rt.alloc(), PARTS);
    for keys in CLOSING {
        check_closed(&rt, rt.alloc(), &file, *keys);
    }
}

/// The sections of files, and what a page of as many rows shows of them: without changes there are no
/// sides, and binary contents have no lines.
const FILES: &[(&[Part], u16, &str)] = &[
    (
        &[Part::Context(&["one", "two\n"])],
        3,
        "\"  one                   \"\n\"  two⏎                  \"\n\"f         1-2/2  p: back\"\n",
    ),
    (
        &[
            Part::Context(&["one\n"]),
            Part::Changes(&[(true, ADDED, "two\n")]),
            Part::Bytes(true),
        ],
        2,
        "\"                        \"\n\"  binary contents  p: ba\"\n",
    ),
];

/// Checks what the first page of a file shows.
fn check_first_page(rt: &impl Abort, alloc: Global, row: (&[Part], u16, &str)) {
    let file = file_of_parts(rt, alloc, row.0);
    let shown = made(rt, page(alloc, Pager::open(0, true), &file, 24, row.1));
    check_view(rt, &shown, row.2);
}

#[test]
fn files_may_have_no_sides_or_no_lines(rt: HostRuntime) {
    for row in FILES {
        check_first_page(&rt, rt.alloc(), *row);
    }
}
