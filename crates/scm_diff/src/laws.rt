//! Laws of lines, texts and bytes, each as the contract of a function that does nothing.
ghost use Rattle.std.specs.Prelude.{◌≡◌, ◌==◌, filter, true};
ghost use Rattle.std.specs.List.{AllByRecursion, concat};
ghost use Rattle.scm_embed.specs.Lines.{lines_of};
ghost use Rattle.scm_diff.specs.Bytes.{bytes_of_text, is_plain, text_of_bytes};
ghost use Rattle.scm_diff.specs.Change.{IsChange, text_in};
ghost use Rattle.scm_diff.specs.Files.{GivesBytesBack};
ghost use Rattle.scm_diff.specs.Sides.{IsLine, text_of, with_line_ends};
ghost use Rattle.scm_diff.specs.Words.{AreSpans, new_without, old_without};

use crate::change::Version;
use crate::words::WordSpan;
use scm_types::{File, Text};

/// Proves that the lines of `text`, joined, are `text`: as they are, and by the rule of sides. Each
/// of them is one line.
pub fn lines_are_the_text(text: &str)
    ensures joined { concat (lines_of text.now) ≡ text.now }
    ensures by_rule { text_of (lines_of text.now) ≡ text.now }
    ensures each { AllByRecursion IsLine (lines_of text.now) }
{}

/// Proves that lines that are joined stay lines: the lines of their text are these, each but the
/// last with a line end.
pub fn joined_lines_stay(lines: &[Text<'_>])
    ensures { AllByRecursion IsLine lines.now
        → lines_of (text_of lines.now) ≡ with_line_ends lines.now }
{}

/// Proves that the text of any bytes gives the bytes back, that it has the same line ends, and that
/// UTF-8 without a reserved character is its own text.
pub fn bytes_come_back(bytes: &[u8])
    ensures back { bytes_of_text (text_of_bytes bytes.now) ≡ bytes.now }
    ensures line_ends { filter (λ b. b == 10) (text_of_bytes bytes.now)
        ≡ filter (λ b. b == 10) bytes.now }
    ensures plain { is_plain bytes.now ≡ true → text_of_bytes bytes.now ≡ bytes.now }
{}

/// Proves the promise from file to file: if `file` shows how the text of the old bytes becomes the
/// text of the new ones, its sides are these bytes.
pub fn files_come_back(
    path: &str,
    old: Option<Version<'_>>,
    new: Option<Version<'_>>,
    old_bytes: &[u8],
    new_bytes: &[u8],
    file: &File<'_>,
)
    ensures { IsChange path.now old.entry new.entry file.now
        → text_in old.entry ≡ text_of_bytes old_bytes.now
        → text_in new.entry ≡ text_of_bytes new_bytes.now
        → GivesBytesBack old_bytes.now new_bytes.now file.now }
{}

/// Proves that two lines are equal without the spans in which they differ.
pub fn lines_are_equal_without_spans(old: &str, new: &str, spans: &[WordSpan])
    ensures { AreSpans old.now new.now spans.now
        → old_without old.now 0 spans.now ≡ new_without new.now 0 spans.now }
{}
