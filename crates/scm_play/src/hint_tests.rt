//! The hints: what the program writes to standard error for each refusal.
use crate::play_with_hints;
use crate::tests::input_of;
use std::alloc::Global;
use std::process::Abort;
use std::test::Fail;

/// A row for each refusal: the script as in the table of scripts, `=>`, and the hint, which may be
/// empty. `␂` is a byte order mark.
const HINTS: &str = r##"
# What has no hint: an accepted state, what the user gave up, a fault of the script.
«EMPTY_STATE» c =>
«EMPTY_STATE» q =>
size 80 24 | «EMPTY_STATE» | script | fault read no events left =>
size 80 24 | «EMPTY_STATE» | script | batch none | fault read gone | batch none =>

# The end of the script.
«EMPTY_STATE» none => the script ended and nothing was accepted: a script accepts by `batch c`, while no quit dialog is open
size 80 24 | «EMPTY_STATE» | script => the script ended and nothing was accepted: a script accepts by `batch c`, while no quit dialog is open
«NEW_FILE_ONE_LINE 1 1» q c => the script ended and nothing was accepted: a script accepts by `batch c`, while no quit dialog is open

# What did nothing: keys, and answers that no message was asked for. A line each.
«EMPTY_STATE» none E q c => line 5: the key "E" does nothing
«EMPTY_STATE» shift-up shot c => line 4: the key "shift-up" does nothing
«EMPTY_STATE» F => the script ended and nothing was accepted: a script accepts by `batch c`, while no quit dialog is open | line 4: the key "F" does nothing
size 80 24 | «EMPTY_STATE» | script | # batch F | batch c | batch F | batch E => line 6: the key "F" does nothing
size 80 24 | «EMPTY_STATE» | script | answer "a" | fault edit b | batch c => answers or faults of an edit that were never asked for: 2, the last ones of the script

# The first line.
␃ => line 1: wanted `size W H`, each a number from 0 to 65535 in digits alone, found ""
size 80 => line 1: wanted `size W H`, each a number from 0 to 65535 in digits alone, found "size 80"
size 80␉24 => line 1: wanted `size W H`, each a number from 0 to 65535 in digits alone, found "size 80\t24"
size 80 99999999999999999999999999999999999999999 => line 1: wanted `size W H`, each a number from 0 to 65535 in digits alone, found "size 80 99999999999999999999999999999999" ..
␂size 80 24 => line 1: a byte order mark (U+FEFF) stands before the first word: write the input without one

# Commands.
size 80 24 | «EMPTY_STATE» => no line is the word `script` alone: the state ends and the commands begin there
size 80 24 | «EMPTY_STATE» | script |  |   => line 5: the line has spaces alone: only an empty line is skipped
size 80 24 | «EMPTY_STATE» | script | BATCH q => line 4: "BATCH" is no command: wanted batch, fault, answer, or a # at the line's start
size 80 24 | «EMPTY_STATE» | script |  # no comment => line 4: "#" is no command: wanted batch, fault, answer, or a # at the line's start
size 80 24 | «EMPTY_STATE» | script | batch␉q => line 4: "batch\tq" is no command: wanted batch, fault, answer, or a # at the line's start
size 80 24 | «EMPTY_STATE» | script | answer x => line 4: wanted `answer` and one JSON string, as in answer "text"
size 80 24 | «EMPTY_STATE» | script | answer "a" b => line 4: wanted `answer` and one JSON string, as in answer "text"
size 80 24 | «EMPTY_STATE» | script | fault => line 4: wanted `fault read` or `fault edit`
size 80 24 | «EMPTY_STATE» | script | fault write x => line 4: "write" is no fault: wanted `fault read` or `fault edit`
size 80 24 | «EMPTY_STATE» | script | fault read => line 4: wanted one more space, and then the text of the fault, perhaps empty

# Words.
«EMPTY_STATE» none zz => line 5: "zz" is no word: wanted …
size 80 24 | «EMPTY_STATE» | script | batch q ctrl-ctrl-c zz => line 4: "ctrl-ctrl-c" is no word: wanted …
size 80 24 | «EMPTY_STATE» | script | batch q␉q => line 4: "q\tq" is no word: wanted …

# What is no JSON.
size 80 24 | script => line 2: the JSON of the state is not complete before this line
size 80 24 | { | "is_read_only":false, | script | batch c => line 4: the JSON of the state is not complete before this line
size 80 24 | { | "is_read_only":faLse, | script => line 3, column 16: invalid JSON
size 80 24 | «EMPTY_STATE» x | script => line 2, column 48: invalid JSON

size 80 24 | [} |  | script => line 2, column 2: invalid JSON
size 80 24 | «EMPTY_STATE»  | script => line 2, column 47: invalid JSON
size 80 24 | «EMPTY_STATE» |  | 1e999 | script => line 4, column 1: invalid JSON
size 80 24 | 1e999 |  | script => line 2, column 5: number out of range

# What nests too deep, what only holds many brackets, and what nests as deep as it may.
size 1 1 | [[[[[[[[[[[[[[[[[[[[[[[[[[[[[[[[[[[[[[[[[[[[[[[[[[[[[[[[[[[[[[[[[[[[[[[[[[[[[[[[[[[[[[[[[[[[[[[[[[[[[[[[[[[[[[[[[[[[[[[[[[[[[[[[[[[[[[[[[[[[[[[[[[[[[[[[[[[[[[[[[[[[[[[[[[[[[[[[[[[[[[[[[[[[[[[[[[[[[[[[]]]]]]]]]]]]]]]]]]]]]]]]]]]]]]]]]]]]]]]]]]]]]]]]]]]]]]]]]]]]]]]]]]]]]]]]]]]]]]]]]]]]]]]]]]]]]]]]]]]]]]]]]]]]]]]]]]]]]]]]]]]]]]]]]]]]]]]]]]]]]]]]]]]]]]]]]]]]]]]]]]]]]]]]]]]]]]]]]]]]]]]]]]]]]]]]]]]]]]]] | script => line 2, column 129: too deep, lists and objects may nest 127 levels
size 1 1 | { |  | "is_read_only":[[[[[[[[[[[[[[[[[[[[[[[[[[[[[[[[[[[[[[[[[[[[[[[[[[[[[[[[[[[[[[[[[[[[[[[[[[[[[[[[[[[[[[[[[[[[[[[[[[[[[[[[[[[[[[[[[[[[[[[[[[[[[[[[[[[[[[[[[[[[[[[[[[[[[[[[[[[[[[[[[[[[[[[[[[[[[[[[[[[[[[[[[[[[[[[[[[[[[[[[]]]]]]]]]]]]]]]]]]]]]]]]]]]]]]]]]]]]]]]]]]]]]]]]]]]]]]]]]]]]]]]]]]]]]]]]]]]]]]]]]]]]]]]]]]]]]]]]]]]]]]]]]]]]]]]]]]]]]]]]]]]]]]]]]]]]]]]]]]]]]]]]]]]]]]]]]]]]]]]]]]]]]]]]]]]]]]]]]]]]]]]]]]]]]]]]]]]]]]]]} | script => line 4, column 143: too deep, lists and objects may nest 127 levels
size 1 1 | ["[[[[[[[[[[[[[[[[[[[[[[[[[[[[[[[[[[[[[[[[[[[[[[[[[[[[[[[[[[[[[[[[[[[[[[[[[[[[[[[[[[[[[[[[[[[[[[[[[[[[[[[[[[[[[[[[[[[[[[[[[[[[[[[[[[[[[[[[[[[[[[[[[[[[[[",[],[],[],[],[],[],[],[],[],[],[],[],[],[],[],[],[],[],[],[],[],[],[],[],[],[],[],[],[],[],[],[],[],[],[],[],[],[],[],[],[],[],[],[],[],[],[],[],[],[],[],[],[],[],[],[],[],[],[],[],} | script => line 2, column 335: invalid JSON
size 1 1 | [[[[[[[[[[[[[[[[[[[[[[[[[[[[[[[[[[[[[[[[[[[[[[[[[[[[[[[[[[[[[[[[[[[[[[[[[[[[[[[[[[[[[[[[[[[[[[[[[[[[[[[[[[[[[[[[[[[[[[[[[[[[[[[x | script => line 2, column 128: invalid JSON

# What is no state.
size 80 24 | [] | script => the state: wanted an object, found a list
size 80 24 | {} | script => the state: no member is_read_only
size 80 24 | {"is_read_only":false,"commits":[],"files":[],"more":1} | script => the state: unknown member "more"
size 80 24 | {"is_read_only":0,"commits":[],"files":[]} | script => is_read_only: wanted true or false, found a number
size 80 24 | {"is_read_only":false,"commits":null,"files":[]} | script => commits: wanted a list, found null
size 80 24 | {"is_read_only":false,"commits":[{"message":null},{}],"files":[]} | script => commits[1]: no member message
«TWO_MESSAGES "m" 7» c => commits[1].message: wanted a text, found a number
size 80 24 | {"is_read_only":false,"commits":[],"files":[{"old_path":null,"path":"p","file_mode":"absent","sections":[]}]} | script => files[0].file_mode: wanted "Absent" or {"Unix":NUMBER}, found "absent"
size 80 24 | {"is_read_only":false,"commits":[],"files":[{"old_path":null,"path":"p","file_mode":{"Unix":1.0},"sections":[]}]} | script => files[0].file_mode.Unix: wanted a number from 0 to 18446744073709551615, without sign, fraction or exponent, found a number
«READ_ONLY_RENAMED_FILE_OF_1 {"Changed":{"lines":[{"is_checked":true,"change_type":"Added","line":"b\n"},{"change_type":"Added","line":"c\n"}]}}» c => files[0].sections[0].Changed.lines[1]: no member is_checked
«READ_ONLY_RENAMED_FILE_OF_1 {"Changed":{"lines":[{"is_checked":true,"change_type":"Moved","line":"b\n"}]}}» c => files[0].sections[0].Changed.lines[0].change_type: wanted "Added" or "Removed", found "Moved"
«READ_ONLY_RENAMED_FILE_OF_1 {"Changed":{"lines":{}}}» c => files[0].sections[0].Changed.lines: wanted a list, found an empty object
«READ_ONLY_RENAMED_FILE_OF_1 {"Unchanged":{"lines":["a\n",true]}}» c => files[0].sections[0].Unchanged.lines[1]: wanted a text, found a truth value
«READ_ONLY_RENAMED_FILE_OF_1 {"FileMode":{"is_checked":true,"mode":{"Unix":1,"unix":1}}}» c => files[0].sections[0].FileMode.mode: unknown member "unix"
«READ_ONLY_RENAMED_FILE_OF_1 {"Binary":{"is_checked":true,"old_description":null}}» c => files[0].sections[0].Binary: no member new_description
«READ_ONLY_RENAMED_FILE_OF_1 {"changed":{"lines":[]}}» c => files[0].sections[0]: wanted an object of one member: Unchanged, Changed, FileMode or Binary, found an object with the member "changed"

# What is not accepted.
size 80 24 | {"is_read_only":false,"commits":[{"message":null},{"message":null},{"message":null}],"files":[]} | script => the state has 3 commits, and may have 2
"##;

/// Returns what standard error says about `input`.
fn hint_for(alloc: Global, input: &[u8]) -> Result<String, Fail> {
    let mut output = Vec::new(alloc);
    let mut hints = Vec::new(alloc);
    play_with_hints(alloc, input, &mut output, &mut hints);
    Ok(String::from_utf8(hints)?)
}

/// Checks the hint of `row`, whose lines are separated by ` | `. A hint with `…` is only the
/// beginning.
fn check_hint(rt: &impl Abort, alloc: Global, row: &str) -> Result<(), Fail> {
    let (input, hint) = row.split_once(" =>").ok_or("a row has two halves")?;
    let hint = hint.trim_start_matches(' ');
    let input = input_of(alloc, input)?.replace(alloc, "␂", "\u{feff}")?;
    let found = hint_for(alloc, input.as_bytes())?;
    let found = found.trim_end_matches('\n').replace(alloc, "\n", " | ")?;
    match hint.split_once('…') {
        Some((begin, _)) => assert!(rt; found.as_str().starts_with(begin), "{row}: {found}"),
        None => assert_eq!(rt; found.as_str(), hint, "{row}"),
    }
    Ok(())
}

#[test]
fn each_refusal_has_its_hint(rt: HostRuntime) -> Result<(), Fail> {
    for row in HINTS.lines() {
        if !row.is_empty() && !row.starts_with('#') {
            check_hint(&rt, rt.alloc(), row)?;
        }
    }
    Ok(())
}
