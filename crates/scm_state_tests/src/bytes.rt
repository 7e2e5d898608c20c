//! Tables of bytes as texts, and of words.
use crate::checks::{check_bytes, check_equal, check_owned, made};
use crate::sides::file_of;
use scm_diff::{WordSpan, bytes_of_text, has_nul, side_bytes, text_of_bytes, word_spans};
use scm_types::File;
use std::alloc::Global;
use std::process::Abort;

/// Bytes, and their text.
const TEXTS: &[(&[u8], &str)] = &[
    (b"", ""),
    (b"a\nb", "a\nb"),
    (b"a\rb\0\n", "a\rb\0\n"),
    (b"\xC3\xA9\xE6\x97\xA5\xF0\x9F\x98\x80", "é日\u{1F600}"),
    // Latin-1
    (b"caf\xE9\n", "caf\u{E00E9}\n"),
    (b"\xC3\n", "\u{E00C3}\n"),
    (b"\x80\xFF", "\u{E0080}\u{E00FF}"),
    // cut off, too long, a surrogate
    (b"\xE6\x97", "\u{E00E6}\u{E0097}"),
    (b"\xC0\x80", "\u{E00C0}\u{E0080}"),
    (b"\xED\xA0\x80", "\u{E00ED}\u{E00A0}\u{E0080}"),
    // a reserved character, and the ones around them
    (b"\xF3\xA0\x83\xA9", "\u{E00F3}\u{E00A0}\u{E0083}\u{E00A9}"),
    (b"\xF3\xA0\x81\xBF", "\u{E007F}"),
    (b"\xF3\xA0\x84\x80", "\u{E0100}"),
];

/// The old and the new bytes of a file.
const FILES: &[(&[u8], &[u8])] = &[
    (b"", b"a"),
    (b"caf\xE9\n", b"cafe\n"),
    (b"caf\xE9", b"caf\xE8"),
    (b"a\0b\n", b"a\0\n"),
    (b"\xF3\xA0\x83\xA9\n", b"\xE9\n"),
];

/// A span in which two lines differ: its bytes in the old one and in the new one.
type Span = (usize, usize, usize, usize);

/// Two lines, and the spans in which they differ.
type Difference = (&'static str, &'static str, &'static [Span]);

const WORDS: &[Difference] = &[
    ("a", "a", &[]),
    ("", "ab", &[(0, 0, 0, 2)]),
    ("foo(a, b)", "foo(x, b)", &[(4, 5, 4, 5)]),
    ("foo(a, b)", "foo(x, y)", &[(4, 5, 4, 5), (7, 8, 7, 8)]),
    ("let a_1 = 2;", "let a_2 = 2;", &[(4, 7, 4, 7)]),
    ("x = é;", "x = è;", &[(4, 6, 4, 6)]),
    // what is not ASCII belongs to words
    ("naïve café", "naive café", &[(0, 6, 0, 5)]),
    ("日本語 x", "日本 x", &[(0, 9, 0, 6)]),
    ("a «b» c", "a «d» c", &[(2, 7, 2, 7)]),
    ("f(\u{1F600})", "f(\u{1F601})", &[(2, 6, 2, 6)]),
    ("e\u{301}=1", "e=1", &[(0, 3, 0, 1)]),
    ("caf\u{E00E9}, b", "caf\u{E00E8}, b", &[(0, 7, 0, 7)]),
    ("a b", "a  b", &[(1, 2, 1, 3)]),
    ("end", "end\n", &[(3, 3, 3, 4)]),
    // a combining mark belongs to its sign, here U+0338 to `=`
    ("a = b", "a =\u{338} b", &[(2, 3, 2, 5)]),
    ("a =\u{338}b", "a =\u{338}c", &[(5, 6, 5, 6)]),
    ("x\u{301}(", "x\u{301}(\u{301}", &[(3, 4, 3, 6)]),
    ("a \u{301}b", "a b", &[(1, 4, 1, 2)]),
    // so does what a joiner joins, and what stands behind a sign that goes before
    ("+\u{200D}-", "+-", &[(0, 4, 0, 1)]),
    ("\u{600}=1", "\u{600}+1", &[(0, 3, 0, 3)]),
    ("x\r\n", "x\n", &[(1, 3, 1, 2)]),
];

/// Checks that `row.1` is the text of the bytes `row.0`, and gives them back.
fn check_row(rt: &impl Abort, alloc: Global, row: (&[u8], &str)) {
    check_owned(rt, text_of_bytes(alloc, row.0), row.1);
    check_bytes(rt, bytes_of_text(alloc, row.1), row.0);
}

/// Checks the sides of `file`: first nothing is checked, and then everything. `row` has the bytes of
/// both texts.
fn check_sides(rt: &impl Abort, alloc: Global, file: &mut File<'_>, row: (&[u8], &[u8])) {
    check_bytes(rt, side_bytes(alloc, file, true), row.0);
    check_bytes(rt, side_bytes(alloc, file, false), row.1);
    file.toggle_all();
    check_bytes(rt, side_bytes(alloc, file, true), row.1);
}

/// Checks the sides of the file of the texts of the bytes `row`.
fn check_file(rt: &impl Abort, alloc: Global, row: (&[u8], &[u8])) {
    let old = made(rt, text_of_bytes(alloc, row.0));
    let new = made(rt, text_of_bytes(alloc, row.1));
    let mut file = file_of(rt, alloc, old.as_str(), new.as_str());
    check_sides(rt, alloc, &mut file, row);
}

/// Checks that `found` are the spans `wanted`.
fn check_spans(rt: &impl Abort, found: &[WordSpan], wanted: &[Span]) {
    check_equal(rt, found.len(), wanted.len());
    for (span, ends) in found.iter().zip(wanted) {
        let (old_start, old_end, new_start, new_end) = *ends;
        let wanted = WordSpan {
            old_start,
            old_end,
            new_start,
            new_end,
        };
        check_equal(rt, *span, wanted);
    }
}

/// Checks the spans of two lines.
fn check_words(rt: &impl Abort, alloc: Global, row: Difference) {
    let spans = made(rt, word_spans(alloc, row.0, row.1));
    check_spans(rt, spans.as_slice(), row.2);
}

#[test]
fn bytes_are_texts(rt: HostRuntime) {
    for row in TEXTS {
        check_row(&rt, rt.alloc(), *row);
    }
    check_equal(&rt, (has_nul(b"a\0"), has_nul(b"a0")), (true, false));
}

#[test]
fn bytes_come_back(rt: HostRuntime) {
    for row in FILES {
        check_file(&rt, rt.alloc(), *row);
    }
}

#[test]
fn words_differ(rt: HostRuntime) {
    for row in WORDS {
        check_words(&rt, rt.alloc(), *row);
    }
}
