//! Tables of changed lines: how they are listed, and what one pair replaces.
use crate::checks::check_text;
use crate::sides::{check_side, file_of, mark};
use scm_types::{ChangeType, File, Section};
use std::alloc::{AllocError, Global};
use std::process::Abort;

/// Two texts, and the changed lines of their file: `-` for a removed one, `+` for an added one.
const ORDERS: &[(&str, &str, &str)] = &[
    ("", "a\nb\n", "++"),
    ("a\nb\n", "", "--"),
    ("a\nb\n", "x\ny\n", "-+-+"),
    ("a\nb\nc\n", "x\nb\ny\n", "-+-+"),
    // the first added line is like no removed one
    ("one(a)\n", "zero\none(b)\n", "+-+"),
    ("one(a)\n", "one(b)\nzero\n", "-++"),
    ("one(a)\ntwo\nsix(x)\n", "one(b)\nsix(y)\n", "-+--+"),
    ("cat\n", "1\n2\n", "-++"),
    ("    one(a)\n", "\tone(b)\n1\n", "-++"),
];

/// Two texts of two lines, the marks of the changed lines (the first one is the lowest bit), of which one
/// pair is checked, and the selected side.
const REPLACED: &[(&str, &str, usize, &str)] = &[
    ("a\nb\n", "x\ny\n", 0b0011, "x\nb\n"),
    ("a\nb\n", "x\ny\n", 0b1100, "a\ny\n"),
    ("a\nb", "x\ny\n", 0b0011, "x\nb"),
    ("a\nb", "x\ny\n", 0b1100, "a\ny\n"),
    ("a\nb\n", "x\ny", 0b0011, "x\nb\n"),
    ("a\nb\n", "x\ny", 0b1100, "a\ny"),
    (
        "one(a)\ntwo(b)\n",
        "one(c)\ntwo(d)\n",
        0b0011,
        "one(c)\ntwo(b)\n",
    ),
    (
        "one(a)\ntwo(b)\n",
        "one(c)\ntwo(d)\n",
        0b1100,
        "one(a)\ntwo(d)\n",
    ),
];

/// Ten lines, and the lines that replace them.
const OLD_TEN: &str = "zero\none\ntwo\nthree\nfour\nfive\nsix\nseven\neight\nnine\n";

const NEW_TEN: &str = "0\n1\n2\n3\n4\n5\n6\n7\n8\n9\n";

/// The marks of the changed lines, of which one pair of ten is checked, and the selected side.
const ONE_OF_TEN: &[(usize, &str)] = &[
    (
        0b11,
        "0\none\ntwo\nthree\nfour\nfive\nsix\nseven\neight\nnine\n",
    ),
    (
        0b11 << 2,
        "zero\n1\ntwo\nthree\nfour\nfive\nsix\nseven\neight\nnine\n",
    ),
    (
        0b11 << 4,
        "zero\none\n2\nthree\nfour\nfive\nsix\nseven\neight\nnine\n",
    ),
    (
        0b11 << 6,
        "zero\none\ntwo\n3\nfour\nfive\nsix\nseven\neight\nnine\n",
    ),
    (
        0b11 << 8,
        "zero\none\ntwo\nthree\n4\nfive\nsix\nseven\neight\nnine\n",
    ),
    (
        0b11 << 10,
        "zero\none\ntwo\nthree\nfour\n5\nsix\nseven\neight\nnine\n",
    ),
    (
        0b11 << 12,
        "zero\none\ntwo\nthree\nfour\nfive\n6\nseven\neight\nnine\n",
    ),
    (
        0b11 << 14,
        "zero\none\ntwo\nthree\nfour\nfive\nsix\n7\neight\nnine\n",
    ),
    (
        0b11 << 16,
        "zero\none\ntwo\nthree\nfour\nfive\nsix\nseven\n8\nnine\n",
    ),
    (
        0b11 << 18,
        "zero\none\ntwo\nthree\nfour\nfive\nsix\nseven\neight\n9\n",
    ),
];

/// Adds the signs of the changed lines of the section at the end of `signs`.
fn push_signs(signs: &mut String, section: &Section<'_>) -> Result<(), AllocError> {
    if let Section::Changed { lines } = section {
        for line in lines.iter() {
            let sign = match line.change_type {
                ChangeType::Removed => "-",
                ChangeType::Added => "+",
            };
            signs.push_str(sign)?;
        }
    }
    Ok(())
}

/// Returns the signs of the changed lines of `file`.
fn signs_of(alloc: Global, file: &File<'_>) -> Result<String, AllocError> {
    let mut signs = String::new(alloc);
    for section in file.sections.iter() {
        push_signs(&mut signs, section)?;
    }
    Ok(signs)
}

/// Checks how the lines of two texts are listed.
fn check_order(rt: &impl Abort, alloc: Global, row: (&str, &str, &str)) {
    let file = file_of(rt, alloc, row.0, row.1);
    check_text(rt, signs_of(alloc, &file), row.2);
}

/// Checks what the pair with the marks `row.2` replaces.
fn check_replaced(rt: &impl Abort, alloc: Global, row: (&str, &str, usize, &str)) {
    let mut file = file_of(rt, alloc, row.0, row.1);
    mark(&mut file, row.2);
    check_side(rt, alloc, &file, true, row.3);
}

#[test]
fn lines_stand_in_pairs(rt: HostRuntime) {
    for row in ORDERS {
        check_order(&rt, rt.alloc(), *row);
    }
}

#[test]
fn a_pair_replaces_one_line(rt: HostRuntime) {
    for row in REPLACED {
        check_replaced(&rt, rt.alloc(), *row);
    }
    for row in ONE_OF_TEN {
        check_replaced(&rt, rt.alloc(), (OLD_TEN, NEW_TEN, row.0, row.1));
    }
}
