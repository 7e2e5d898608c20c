//! The tests of the program: the table of scripts, and streams and inputs that do not fit in a
//! table.
use crate::rows::{ROWS, STATES};
use crate::{play, read_state};
use scm_record::{RecordState, text_width};
use std::alloc::{AllocError, Global};
use std::io::{self, Read, Write};
use std::process::Abort;
use std::test::Fail;

/// Returns what `play` writes for `input`, and its status.
fn played(alloc: Global, input: &[u8]) -> Result<(String, u8), Fail> {
    let mut output = Vec::new(alloc);
    let status = play(alloc, input, &mut output);
    Ok((String::from_utf8(output)?, status))
}

/// Returns the JSON of the state called `name`, in which each `?` is still open.
fn form_of(name: &str) -> Option<&'static str> {
    for line in STATES.lines() {
        if let Some((found, form)) = line.split_once(' ') {
            if found == name {
                return Some(form);
            }
        }
    }
    None
}

/// Returns the JSON of `word`: a mark, a piece of JSON by its name, or a piece of JSON itself.
fn piece_of(word: &str) -> &str {
    match word {
        "0" => "false",
        "1" => "true",
        _ => form_of(word).unwrap_or(word),
    }
}

/// Returns the JSON of the state that `text` names, with each `?` replaced by one of the words
/// after the name.
fn state_of(alloc: Global, text: &str) -> Result<String, Fail> {
    let mut words = text.split(' ');
    let form = form_of(words.next().unwrap_or("")).ok_or("no state has that name")?;
    let mut state = String::new(alloc);
    for part in form.split_inclusive('?') {
        match part.strip_suffix('?') {
            Some(part) => {
                state.push_str(part)?;
                state.push_str(piece_of(words.next().ok_or("a mark is missing")?))?;
            }
            None => state.push_str(part)?,
        }
    }
    Ok(state)
}

/// Returns `text` with each state in `«»` replaced by its JSON.
fn with_states(alloc: Global, text: &str) -> Result<String, Fail> {
    let mut whole = String::new(alloc);
    for part in text.split('»') {
        match part.split_once('«') {
            Some((before, state)) => {
                whole.push_str(before)?;
                whole.push_str(state_of(alloc, state)?.as_str())?;
            }
            None => whole.push_str(part)?,
        }
    }
    Ok(whole)
}

/// Returns the lines of `half`, one half of a row.
fn lines_of(alloc: Global, half: &str) -> Result<String, Fail> {
    let mut lines = String::new(alloc);
    for line in half.split(" | ") {
        lines.push_str(with_states(alloc, line)?.as_str())?;
        lines.push_str("\n")?;
    }
    Ok(lines)
}

/// Returns the script of a row with the size `size`, the state `state` and `words`, a batch each.
fn script_of(alloc: Global, size: &str, state: &str, words: &str) -> Result<String, Fail> {
    let state = state_of(alloc, state)?;
    let mut script = format!(in alloc; "size {size}\n{state}\nscript\n")?;
    for word in words.split(' ') {
        if !word.is_empty() {
            script.push_str("batch ")?;
            script.push_str(word.replace(alloc, ",", " ")?.as_str())?;
            script.push_str("\n")?;
        }
    }
    Ok(script)
}

/// Returns the script of a row, whose first half is `half`.
pub fn input_of(alloc: Global, half: &str) -> Result<String, Fail> {
    match half.split_once('»') {
        Some((before, words)) if half.starts_with(|c: char| c == '«' || c.is_ascii_digit()) => {
            match before.split_once('«') {
                Some(("", state)) => script_of(alloc, "80 24", state, words),
                Some((size, state)) => script_of(alloc, size, state, words),
                None => Err(Fail::from("a state has a begin and an end")),
            }
        }
        _ => Ok(with_controls(alloc, lines_of(alloc, half)?.as_str())?),
    }
}

/// Replaces symbols by the control characters that they stand for, and removes the line ends after
/// `␃`.
fn with_controls(alloc: Global, text: &str) -> Result<String, AllocError> {
    let mut whole = String::new(alloc);
    for character in text.chars() {
        match character {
            '␍' => whole.push('\r')?,
            '␉' => whole.push('\t')?,
            _ => whole.push(character)?,
        }
    }
    whole.replace(alloc, "␃\n", "")
}

/// Returns the number that `word` is, or 0.
fn number_of(word: Option<&str>) -> usize {
    word.unwrap_or("").parse().unwrap_or(0)
}

/// Returns the columns and rows of a script's screen.
pub fn size_of(input: &str) -> (usize, usize) {
    let mut words = input.lines().next().unwrap_or("").split(' ').skip(1);
    let columns = number_of(words.next());
    (columns, number_of(words.next()))
}

/// Adds a row of a screen to `text`, with the spaces and the quote at its end, which `row` may
/// lack.
fn push_screen_row(text: &mut String, row: &str, columns: usize) -> Result<(), AllocError> {
    text.push_str(row)?;
    if row.len() < 2 || !row.ends_with('"') {
        for _ in text_width(row)..columns.saturating_add(1) {
            text.push(' ')?;
        }
        text.push('"')?;
    }
    text.push('\n')
}

/// Returns the output of a row, given its script `input`. In `half`, rows of a screen may lack the
/// spaces at their ends, and screens the blank rows at their ends.
fn output_of(alloc: Global, half: &str, input: &str) -> Result<String, Fail> {
    let (columns, rows) = size_of(input);
    let mut output = String::new(alloc);
    let mut rows_left: usize = 0;
    for line in lines_of(alloc, half)?.as_str().lines() {
        if line.starts_with('"') {
            rows_left = if rows_left == 0 { rows } else { rows_left };
            rows_left = rows_left.saturating_sub(1);
            push_screen_row(&mut output, line, columns)?;
        } else {
            for _ in 0..rows_left {
                push_screen_row(&mut output, "\"", columns)?;
            }
            rows_left = 0;
            output.push_str(line)?;
            output.push('\n')?;
        }
    }
    Ok(output)
}

/// Checks what is written for `input`. An `output` that ends in `…` is only the beginning.
fn check_output(
    rt: &impl Abort,
    alloc: Global,
    input: &str,
    output: &str,
    status: u8,
) -> Result<(), Fail> {
    let (written, ended) = played(alloc, input.as_bytes())?;
    match output.strip_suffix("…\n") {
        Some(begin) => assert!(rt; written.as_str().starts_with(begin), "{input}: {written}"),
        None => assert_eq!(rt; written.as_str(), output, "{input}"),
    }
    assert_eq!(rt; ended, status, "{input}");
    Ok(())
}

/// A script, and its output and status.
#[derive(Drop)]
pub struct Example {
    pub input: String,
    pub output: String,
    pub status: u8,
}

/// Returns the example of `row`.
pub fn example_of(alloc: Global, row: &str) -> Result<Example, Fail> {
    let (input, answer) = row.split_once(" => ").ok_or("a row has two halves")?;
    let (status, output) = answer.split_once(" | ").ok_or("a status and an output")?;
    let input = input_of(alloc, input)?;
    Ok(Example {
        output: output_of(alloc, output, input.as_str())?,
        input,
        status: status.parse::<u8>()?,
    })
}

/// Plays the script of `row`, and checks its output and status.
fn check_script(rt: &impl Abort, alloc: Global, row: &str) -> Result<(), Fail> {
    let example = example_of(alloc, row)?;
    check_output(
        rt,
        alloc,
        example.input.as_str(),
        example.output.as_str(),
        example.status,
    )
}

#[test]
fn each_script_has_its_output_and_status(rt: HostRuntime) -> Result<(), Fail> {
    let alloc = rt.alloc();
    for row in ROWS.replace(alloc, "\n| ", " | ")?.as_str().lines() {
        if !row.is_empty() && !row.starts_with('#') {
            check_script(&rt, alloc, row)?;
        }
    }
    Ok(())
}

/// A script of 74 bytes that ends in a comment, to be made longer.
const LONG_COMMENT: &str = "size 80 24 | «EMPTY_STATE» | script | batch q | #␃";

/// A script that ends in an answer, to be made longer and closed.
const LONG_ANSWER: &str =
    "size 80 24 | «TWO_MESSAGES \"m\" null» | script | batch e | batch c | answer \"␃";

/// A reader of the text `rest`: it returns at most `most` bytes a read, and fails after
/// `reads_left` reads.
#[derive(Drop)]
struct BrokenReader<'a> {
    rest: &'a [u8],
    most: usize,
    reads_left: usize,
}

impl Read for BrokenReader<'_> {
    fn read(&mut self, buf: &mut [u8]) -> io::Result<usize> {
        if self.reads_left == 0 {
            return Err(io::Error::from(io::ErrorKind::BrokenPipe));
        }
        self.reads_left -= 1;
        let length = self.rest.len().min(buf.len()).min(self.most);
        buf[..length].copy_from_slice(&self.rest[..length]);
        self.rest = &self.rest[length..];
        Ok(length)
    }
}

/// A writer that takes at most `most` bytes a write, and fails after `writes_left` writes, and in
/// its flush unless `flushes`.
#[derive(Drop)]
struct BrokenWriter {
    taken: Vec<u8>,
    most: usize,
    writes_left: usize,
    flushes: bool,
}

impl Write for BrokenWriter {
    fn write(&mut self, buf: &[u8]) -> io::Result<usize> {
        if self.writes_left == 0 {
            return Err(io::Error::from(io::ErrorKind::BrokenPipe));
        }
        self.writes_left -= 1;
        let length = buf.len().min(self.most);
        self.taken.extend_from_slice(&buf[..length])?;
        Ok(length)
    }

    fn flush(&mut self) -> io::Result<()> {
        if self.flushes {
            Ok(())
        } else {
            Err(io::Error::from(io::ErrorKind::BrokenPipe))
        }
    }
}

#[test]
fn states_are_read(rt: HostRuntime) -> Result<(), Fail> {
    let alloc = rt.alloc();
    assert!(rt; read_state(alloc, "{}")?.is_none());
    let nothing = state_of(alloc, "EMPTY_STATE")?;
    assert!(rt; read_state(alloc, nothing.as_str())? == Some(RecordState::empty(alloc)));
    Ok(())
}

/// Examples whose reads and writes are made to fail: one that accepts a state after a screenshot,
/// and one that ends in a fault.
const EXAMPLES: [&str; 2] = [
    "20 5 «NO_SECTIONS» shot c => 0 | screen 0 | \"[File] [Edit] [Selec | \"( ) foo/bar      (+) | accepted | «NO_SECTIONS» | file 0 | selected 100644 unchanged | unselected 100644 unchanged",
    "«EMPTY_STATE» q => 1 | fault: cancelled by user",
];

/// Plays an example from a reader that fails after `reads_left` reads. Returns whether that was
/// before the end; then the program writes only that it cannot read.
fn is_cut(
    rt: &impl Abort,
    alloc: Global,
    example: &Example,
    most: usize,
    reads_left: usize,
) -> bool {
    let reader = BrokenReader {
        rest: example.input.as_bytes(),
        most,
        reads_left,
    };
    let mut output = Vec::new(alloc);
    let status = play(alloc, reader, &mut output);
    let is_cut = status == 2;
    let (told, ended) = if is_cut {
        ("cannot read\n", 2)
    } else {
        (example.output.as_str(), example.status)
    };
    assert_eq!(rt; (output.as_slice(), status), (told.as_bytes(), ended));
    is_cut
}

/// Returns how many runs of an example fail to read, where the reader of run `n` fails after `n`
/// reads, from 0 on.
fn runs_cut(rt: &impl Abort, alloc: Global, example: &Example, most: usize) -> usize {
    let runs = 0..example.input.len().saturating_add(2);
    runs.filter(|reads| is_cut(rt, alloc, example, most, *reads))
        .count()
}

#[test]
fn a_read_that_fails_is_told(rt: HostRuntime) -> Result<(), Fail> {
    let alloc = rt.alloc();
    for row in EXAMPLES {
        let example = example_of(alloc, row)?;
        // the end takes a read too
        let reads = example.input.len().saturating_add(1);
        assert_eq!(rt; runs_cut(&rt, alloc, &example, 1), reads);
        assert!(rt; runs_cut(&rt, alloc, &example, usize::MAX) > 1);
    }
    Ok(())
}

#[test]
fn inputs_that_are_no_text_are_named(rt: HostRuntime) -> Result<(), Fail> {
    let (written, status) = played(rt.alloc(), b"size 80 24\nscript\nbatch \xff\n")?;
    assert_eq!(rt; (written.as_str(), status), ("bad input: not UTF-8\n", 2));
    Ok(())
}

/// Plays an example to a writer that fails after `writes` writes, or in its flush. Checks that the
/// writer got the beginning of the output, and nothing twice.
fn check_writes(
    rt: &impl Abort,
    alloc: Global,
    example: &Example,
    most: usize,
    writes: usize,
    flushes: bool,
) {
    let mut writer = BrokenWriter {
        taken: Vec::new(alloc),
        most,
        writes_left: writes,
        flushes,
    };
    let status = play(alloc, example.input.as_bytes(), &mut writer);
    let output = example.output.as_bytes();
    let length = writes.saturating_mul(most).min(output.len());
    let is_whole = length == output.len() && flushes;
    assert_eq!(rt; writer.taken.as_slice(), &output[..length]);
    assert_eq!(rt; status, if is_whole { example.status } else { 2 });
}

#[test]
fn a_write_that_fails_is_told(rt: HostRuntime) -> Result<(), Fail> {
    let alloc = rt.alloc();
    for row in EXAMPLES {
        let example = example_of(alloc, row)?;
        let length = example.output.len();
        for writes in 0..length {
            check_writes(&rt, alloc, &example, 1, writes, true);
        }
        for (most, writes, flushes) in [
            (1, length, true),
            (1, length, false),
            (usize::MAX, 0, true),
            (usize::MAX, 1, true),
            (usize::MAX, 1, false),
        ] {
            check_writes(&rt, alloc, &example, most, writes, flushes);
        }
    }
    Ok(())
}

/// Returns the input of `row`, with `more` more bytes and then `end`.
fn longer_input(alloc: Global, row: &str, more: usize, end: &str) -> Result<Vec<u8>, Fail> {
    let mut input = input_of(alloc, row)?.into_bytes();
    let length = input.len().saturating_add(more);
    input.resize(length, b'-')?;
    input.extend_from_slice(end.as_bytes())?;
    Ok(input)
}

/// Plays `input`, and checks that its output begins with `output`.
fn check_begin(
    rt: &impl Abort,
    alloc: Global,
    input: &[u8],
    output: &str,
    status: u8,
) -> Result<(), Fail> {
    let (written, ended) = played(alloc, input)?;
    assert!(rt; written.as_str().starts_with(output), "{output}");
    assert_eq!(rt; ended, status, "{output}");
    Ok(())
}

#[test]
fn long_inputs_are_named(rt: HostRuntime) -> Result<(), Fail> {
    let alloc = rt.alloc();
    for (row, more, end, output, status) in [
        (
            LONG_COMMENT,
            67_108_790,
            "",
            "fault: cancelled by user\n",
            1,
        ),
        (LONG_COMMENT, 67_108_791, "", "bad input: too long\n", 2),
        (LONG_ANSWER, 1_000_000, "\"", "accepted\n", 0),
        (
            LONG_ANSWER,
            1_000_001,
            "\"",
            "fault: commit message too long\n",
            1,
        ),
    ] {
        let input = longer_input(alloc, row, more, end)?;
        check_begin(&rt, alloc, input.as_slice(), output, status)?;
    }
    Ok(())
}

/// A text of three parts, the second of which is repeated `times` times.
#[derive(Clone, Copy)]
struct Long {
    begin: &'static str,
    middle: &'static str,
    times: usize,
    end: &'static str,
}

impl Long {
    /// Returns the whole text.
    fn text(self, alloc: Global) -> Result<String, AllocError> {
        let mut text = String::from_str(alloc, self.begin)?;
        for _ in 0..self.times {
            text.push_str(self.middle)?;
        }
        text.push_str(self.end)?;
        Ok(text)
    }
}

/// A reader of a long text, one part a read, which is not built as a whole.
#[derive(Drop)]
struct LongReader {
    part: &'static [u8],
    rest: Long,
}

impl LongReader {
    fn new(text: Long) -> LongReader {
        LongReader {
            part: text.begin.as_bytes(),
            rest: text,
        }
    }

    /// Goes to the next part, once a part is read to its end.
    fn advance(&mut self) {
        if self.rest.times > 0 {
            self.rest.times -= 1;
            self.part = self.rest.middle.as_bytes();
        } else {
            self.part = self.rest.end.as_bytes();
            self.rest.end = "";
        }
    }
}

impl Read for LongReader {
    fn read(&mut self, buf: &mut [u8]) -> io::Result<usize> {
        if self.part.is_empty() {
            self.advance();
        }
        let length = self.part.len().min(buf.len());
        buf[..length].copy_from_slice(&self.part[..length]);
        self.part = &self.part[length..];
        Ok(length)
    }
}

/// Plays a long input, and checks that its output begins with `output`.
fn check_long(rt: &impl Abort, alloc: Global, input: Long, output: &str) -> Result<(), Fail> {
    let mut written = Vec::new(alloc);
    let status = play(alloc, LongReader::new(input), &mut written);
    assert_eq!(rt; status, 0);
    assert!(rt; String::from_utf8(written)?.as_str().starts_with(output));
    Ok(())
}

/// A script that accepts a state of one file with 999,999 changed lines: 1,000,001 files, sections
/// and lines in all.
const MANY_LINES: Long = Long {
    begin: "size 80 24\n{\"is_read_only\":false,\"commits\":[],\"files\":[{\"old_path\":null,\"path\":\"f\",\"file_mode\":{\"Unix\":33188},\"sections\":[{\"Changed\":{\"lines\":[",
    middle: "{\"is_checked\":false,\"change_type\":\"Added\",\"line\":\"\"},",
    times: 999_998,
    end: "{\"is_checked\":false,\"change_type\":\"Added\",\"line\":\"\"}]}}]}]}\nscript\nbatch c\n",
};

/// Its output: the same state, with two commits.
const MANY_LINES_ACCEPTED: Long = Long {
    begin: "accepted\n{\"is_read_only\":false,\"commits\":[{\"message\":null},{\"message\":null}],\"files\":[{\"old_path\":null,\"path\":\"f\",\"file_mode\":{\"Unix\":33188},\"sections\":[{\"Changed\":{\"lines\":[",
    middle: "{\"is_checked\":false,\"change_type\":\"Added\",\"line\":\"\"},",
    times: 999_998,
    end: "{\"is_checked\":false,\"change_type\":\"Added\",\"line\":\"\"}]}}]}]}\nfile 0\n",
};

#[test]
fn states_of_many_lines_are_accepted(rt: HostRuntime) -> Result<(), Fail> {
    let output = MANY_LINES_ACCEPTED.text(rt.alloc())?;
    check_long(&rt, rt.alloc(), MANY_LINES, output.as_str())
}

/// A script that shows the last of 100,000 lines of context, before a changed line.
const MUCH_CONTEXT: Long = Long {
    begin: "size 24 7\n{\"is_read_only\":false,\"commits\":[],\"files\":[{\"old_path\":null,\"path\":\"f\",\"file_mode\":{\"Unix\":33188},\"sections\":[{\"Unchanged\":{\"lines\":[",
    middle: "\"x\\n\",",
    times: 99_999,
    end: "\"x\\n\"]}},{\"Changed\":{\"lines\":[{\"is_checked\":false,\"change_type\":\"Added\",\"line\":\"y\\n\"}]}}]}]}\nscript\nbatch l\nbatch shot\nbatch c\n",
};

/// Its screen: a number of six digits is shown in full, and moves the text by one column.
const MUCH_CONTEXT_SHOWN: &str =
    "screen 0 | \"[File] [Edit] [Select] [ | \"[ ] f                [-] | \"    99998 x⏎ | \"    99999 x⏎ | \"    100000 x⏎ | \"  ( ) Section 1/1    (-) | \"    [ ] + y⏎ | accepted";

#[test]
fn numbers_of_six_digits_stand_whole(rt: HostRuntime) -> Result<(), Fail> {
    let output = output_of(rt.alloc(), MUCH_CONTEXT_SHOWN, "size 24 7\n")?;
    check_long(&rt, rt.alloc(), MUCH_CONTEXT, output.as_str())
}

/// A script that scrolls down far past the end of ten lines in one batch, and then up by two rows.
const FAR_DOWN: Long = Long {
    begin: "size 24 8\n{\"is_read_only\":false,\"commits\":[],\"files\":[{\"old_path\":null,\"path\":\"f\",\"file_mode\":{\"Unix\":33188},\"sections\":[{\"Changed\":{\"lines\":[{\"is_checked\":false,\"change_type\":\"Added\",\"line\":\"0\\n\"},{\"is_checked\":false,\"change_type\":\"Added\",\"line\":\"1\\n\"},{\"is_checked\":false,\"change_type\":\"Added\",\"line\":\"2\\n\"},{\"is_checked\":false,\"change_type\":\"Added\",\"line\":\"3\\n\"},{\"is_checked\":false,\"change_type\":\"Added\",\"line\":\"4\\n\"},{\"is_checked\":false,\"change_type\":\"Added\",\"line\":\"5\\n\"},{\"is_checked\":false,\"change_type\":\"Added\",\"line\":\"6\\n\"},{\"is_checked\":false,\"change_type\":\"Added\",\"line\":\"7\\n\"},{\"is_checked\":false,\"change_type\":\"Added\",\"line\":\"8\\n\"},{\"is_checked\":false,\"change_type\":\"Added\",\"line\":\"9\\n\"}]}}]}]}\nscript\nbatch l\nbatch",
    middle: " wheel-down",
    times: 100_000,
    end: "\nbatch shot\nbatch wheel-up wheel-up\nbatch shot\nbatch c\n",
};

/// Its screens. At scroll 12, the row of the last line, only the menu bar is visible; at 10 the
/// last line is below the sticky header.
const FAR_DOWN_SHOWN: &str =
    "screen 0 | \"[File] [Edit] [Select] [ | screen 1 | \"[File] [Edit] [Select] [ | \"[ ] f                [-] | \"    [ ] + 9⏎ | accepted";

#[test]
fn a_long_scroll_ends_at_the_last_row(rt: HostRuntime) -> Result<(), Fail> {
    let output = output_of(rt.alloc(), FAR_DOWN_SHOWN, "size 24 8\n")?;
    check_long(&rt, rt.alloc(), FAR_DOWN, output.as_str())
}
