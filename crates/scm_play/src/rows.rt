//! The table of scripts: what the program reads, and what it writes.

/// States, and pieces of states, by their names. Each `?` stands for what a row fills in: `1` or
/// `0` for a mark, the name of a piece, or a piece of JSON.
pub const STATES: &str = r#"
EMPTY_STATE {"is_read_only":false,"commits":[],"files":[]}
TWO_COMMITS {"is_read_only":false,"commits":[{"message":null},{"message":null}],"files":[]}
TWO_MESSAGES {"is_read_only":false,"commits":[{"message":?},{"message":?}],"files":[]}
NEW_FILE_ONE_LINE {"is_read_only":false,"commits":[{"message":null},{"message":null}],"files":[{"old_path":null,"path":"n","file_mode":"Absent","sections":[{"Changed":{"lines":[{"is_checked":?,"change_type":"Added","line":"n\n"}]}},{"FileMode":{"is_checked":?,"mode":{"Unix":33188}}}]}]}
NO_SECTIONS {"is_read_only":false,"commits":[{"message":null},{"message":null}],"files":[{"old_path":null,"path":"foo/bar","file_mode":{"Unix":33188},"sections":[]}]}
NEW_FILE_MODE_FIRST {"is_read_only":false,"commits":[{"message":null},{"message":null}],"files":[{"old_path":null,"path":"n","file_mode":"Absent","sections":[{"FileMode":{"is_checked":?,"mode":{"Unix":33188}}},{"Changed":{"lines":[{"is_checked":?,"change_type":"Added","line":"a\n"},{"is_checked":?,"change_type":"Added","line":"b\n"}]}}]}]}
DELETED_FILE_MODE_FIRST {"is_read_only":false,"commits":[{"message":null},{"message":null}],"files":[{"old_path":null,"path":"g","file_mode":{"Unix":33188},"sections":[{"FileMode":{"is_checked":?,"mode":"Absent"}},{"Changed":{"lines":[{"is_checked":?,"change_type":"Removed","line":"a\n"},{"is_checked":?,"change_type":"Removed","line":"b\n"}]}}]}]}
NEW_FILE_TWO_MODES {"is_read_only":false,"commits":[{"message":null},{"message":null}],"files":[{"old_path":null,"path":"b","file_mode":"Absent","sections":[{"Changed":{"lines":[{"is_checked":?,"change_type":"Added","line":"a\n"}]}},{"FileMode":{"is_checked":?,"mode":{"Unix":33188}}},{"FileMode":{"is_checked":?,"mode":"Absent"}}]}]}
NEW_BINARY_FILE_TWO_MODES {"is_read_only":false,"commits":[{"message":null},{"message":null}],"files":[{"old_path":null,"path":"b","file_mode":"Absent","sections":[{"Binary":{"is_checked":?,"old_description":null,"new_description":"x y"}},{"Changed":{"lines":[{"is_checked":?,"change_type":"Added","line":"a\n"}]}},{"FileMode":{"is_checked":?,"mode":{"Unix":33188}}},{"FileMode":{"is_checked":?,"mode":"Absent"}}]}]}
NEW_EMPTY_FILE {"is_read_only":false,"commits":[{"message":null},{"message":null}],"files":[{"old_path":null,"path":"e","file_mode":"Absent","sections":[{"FileMode":{"is_checked":?,"mode":{"Unix":33188}}}]}]}
TWO_FILES {"is_read_only":?,"commits":[{"message":null},{"message":null}],"files":[{"old_path":null,"path":"p","file_mode":{"Unix":33188},"sections":[{"Changed":{"lines":[{"is_checked":?,"change_type":"Added","line":"x\n"},{"is_checked":?,"change_type":"Added","line":"y\n"}]}},{"Changed":{"lines":[{"is_checked":?,"change_type":"Added","line":"z\n"}]}}]},{"old_path":null,"path":"q","file_mode":{"Unix":33188},"sections":[{"Changed":{"lines":[{"is_checked":?,"change_type":"Added","line":"w\n"}]}}]}]}
SECOND_FILE_TWO_SECTIONS {"is_read_only":false,"commits":[{"message":null},{"message":null}],"files":[{"old_path":null,"path":"p","file_mode":{"Unix":33188},"sections":[]},{"old_path":null,"path":"q","file_mode":{"Unix":33188},"sections":[{"Changed":{"lines":[{"is_checked":?,"change_type":"Added","line":"x\n"},{"is_checked":?,"change_type":"Added","line":"y\n"}]}},{"Changed":{"lines":[{"is_checked":?,"change_type":"Added","line":"z\n"}]}}]}]}
MODE_CHANGE_AND_TWO_LINES {"is_read_only":false,"commits":[{"message":null},{"message":null}],"files":[{"old_path":null,"path":"p","file_mode":{"Unix":33188},"sections":[{"FileMode":{"is_checked":?,"mode":{"Unix":33261}}}]},{"old_path":null,"path":"q","file_mode":{"Unix":33188},"sections":[{"Changed":{"lines":[{"is_checked":?,"change_type":"Added","line":"x\n"},{"is_checked":?,"change_type":"Added","line":"y\n"}]}}]}]}
ALTERNATING_LINES {"is_read_only":false,"commits":[{"message":null},{"message":null}],"files":[{"old_path":null,"path":"m","file_mode":{"Unix":33188},"sections":[{"Unchanged":{"lines":["a\n"]}},{"Changed":{"lines":[{"is_checked":?,"change_type":"Added","line":"b\n"},{"is_checked":?,"change_type":"Removed","line":"c\n"},{"is_checked":?,"change_type":"Added","line":"d\n"},{"is_checked":?,"change_type":"Removed","line":"e\n"}]}}]}]}
READ_ONLY_RENAMED_FILE_OF_1 {"is_read_only":true,"commits":[{"message":"m\n"},{"message":null}],"files":[{"old_path":"o","path":"p","file_mode":{"Unix":18446744073709551615},"sections":[?]}]}
DUPLICATE_MEMBER {"is_read_only":?,"is_read_only":false,"commits":[],"files":[]}
CONTEXT_AND_CHANGE {"is_read_only":false,"commits":[{"message":null},{"message":null}],"files":[{"old_path":null,"path":"f","file_mode":{"Unix":33188},"sections":[{"Unchanged":{"lines":["a\n"]}},{"Changed":{"lines":[{"is_checked":?,"change_type":"Removed","line":"b\n"},{"is_checked":?,"change_type":"Added","line":"c\n"}]}}]}]}
FILE_OF_1 {"is_read_only":false,"commits":[{"message":null},{"message":null}],"files":[{"old_path":null,"path":"f","file_mode":{"Unix":33188},"sections":[?]}]}
FILE_OF_2 {"is_read_only":false,"commits":[{"message":null},{"message":null}],"files":[{"old_path":null,"path":"f","file_mode":{"Unix":33188},"sections":[?,?]}]}
FILE_OF_3 {"is_read_only":false,"commits":[{"message":null},{"message":null}],"files":[{"old_path":null,"path":"f","file_mode":{"Unix":33188},"sections":[?,?,?]}]}
FILE_OF_4 {"is_read_only":false,"commits":[{"message":null},{"message":null}],"files":[{"old_path":null,"path":"f","file_mode":{"Unix":33188},"sections":[?,?,?,?]}]}
FILE_OF_5 {"is_read_only":false,"commits":[{"message":null},{"message":null}],"files":[{"old_path":null,"path":"f","file_mode":{"Unix":33188},"sections":[?,?,?,?,?]}]}
READ_ONLY_FILE_OF_3 {"is_read_only":true,"commits":[{"message":null},{"message":null}],"files":[{"old_path":null,"path":"f","file_mode":{"Unix":33188},"sections":[?,?,?]}]}
MESSAGES_ONE_LINE {"is_read_only":false,"commits":[{"message":?},{"message":?}],"files":[{"old_path":null,"path":"foo/bar","file_mode":{"Unix":33188},"sections":[{"Changed":{"lines":[{"is_checked":?,"change_type":"Added","line":"n\n"}]}}]}]}
PATHS {"is_read_only":false,"commits":[{"message":null},{"message":null}],"files":[{"old_path":?,"path":?,"file_mode":{"Unix":33188},"sections":[]}]}
MESSAGE_TWO_LINES {"is_read_only":false,"commits":[{"message":?},{"message":null}],"files":[{"old_path":null,"path":"f","file_mode":{"Unix":33188},"sections":[{"Changed":{"lines":[{"is_checked":?,"change_type":"Added","line":"x\n"},{"is_checked":?,"change_type":"Added","line":"y\n"}]}}]}]}
MESSAGES_NO_SECTIONS {"is_read_only":false,"commits":[{"message":?},{"message":?}],"files":[{"old_path":null,"path":"f","file_mode":{"Unix":33188},"sections":[]}]}
FILES_OF_1_AND_1 {"is_read_only":false,"commits":[{"message":null},{"message":null}],"files":[{"old_path":null,"path":"f","file_mode":{"Unix":33188},"sections":[?]},{"old_path":null,"path":"g","file_mode":{"Unix":33188},"sections":[?]}]}
LONG_PATH_AND_FILE_OF_1 {"is_read_only":false,"commits":[{"message":null},{"message":null}],"files":[{"old_path":null,"path":"a/long/path/of/a/file","file_mode":{"Unix":33188},"sections":[]},{"old_path":null,"path":"g","file_mode":{"Unix":33188},"sections":[?]}]}
DELETED_FILE_MODE_LAST {"is_read_only":false,"commits":[{"message":null},{"message":null}],"files":[{"old_path":null,"path":"r","file_mode":{"Unix":33188},"sections":[{"Changed":{"lines":[{"is_checked":?,"change_type":"Removed","line":"x\n"},{"is_checked":?,"change_type":"Removed","line":"y\n"}]}},{"FileMode":{"is_checked":?,"mode":"Absent"}}]}]}
NEW_FILE_MODE_LAST {"is_read_only":false,"commits":[{"message":null},{"message":null}],"files":[{"old_path":null,"path":"n","file_mode":"Absent","sections":[{"Changed":{"lines":[{"is_checked":?,"change_type":"Added","line":"n\n"},{"is_checked":?,"change_type":"Added","line":"m\n"}]}},{"FileMode":{"is_checked":?,"mode":{"Unix":33188}}}]}]}
STAYS_ABSENT {"is_read_only":false,"commits":[{"message":null},{"message":null}],"files":[{"old_path":null,"path":"u","file_mode":"Absent","sections":[{"Changed":{"lines":[{"is_checked":?,"change_type":"Added","line":"a\n"},{"is_checked":?,"change_type":"Added","line":"b\n"}]}},{"FileMode":{"is_checked":?,"mode":"Absent"}}]}]}
SECOND_FILE_ONE_LINE {"is_read_only":false,"commits":[{"message":null},{"message":null}],"files":[{"old_path":null,"path":"p","file_mode":{"Unix":33188},"sections":[]},{"old_path":null,"path":"q","file_mode":{"Unix":33188},"sections":[{"Changed":{"lines":[{"is_checked":?,"change_type":"Added","line":"x\n"}]}}]}]}
TWO_ADDED_LINES {"is_read_only":false,"commits":[{"message":null},{"message":null}],"files":[{"old_path":null,"path":"p","file_mode":{"Unix":33188},"sections":[{"Changed":{"lines":[{"is_checked":?,"change_type":"Added","line":"x\n"},{"is_checked":?,"change_type":"Added","line":"y\n"}]}}]}]}
NEW_FILE_NO_LINES {"is_read_only":false,"commits":[{"message":null},{"message":null}],"files":[{"old_path":null,"path":"e","file_mode":"Absent","sections":[{"Changed":{"lines":[]}},{"FileMode":{"is_checked":?,"mode":{"Unix":33188}}}]}]}
ADDED {"Changed":{"lines":[{"is_checked":false,"change_type":"Added","line":"x\n"}]}}
REMOVED {"Changed":{"lines":[{"is_checked":false,"change_type":"Removed","line":"y\n"}]}}
CHECKED {"Changed":{"lines":[{"is_checked":true,"change_type":"Added","line":"c\n"}]}}
NO_LINES {"Changed":{"lines":[]}}
TEN_ADDED {"Changed":{"lines":[{"is_checked":false,"change_type":"Added","line":"0\n"},{"is_checked":false,"change_type":"Added","line":"1\n"},{"is_checked":false,"change_type":"Added","line":"2\n"},{"is_checked":false,"change_type":"Added","line":"3\n"},{"is_checked":false,"change_type":"Added","line":"4\n"},{"is_checked":false,"change_type":"Added","line":"5\n"},{"is_checked":false,"change_type":"Added","line":"6\n"},{"is_checked":false,"change_type":"Added","line":"7\n"},{"is_checked":false,"change_type":"Added","line":"8\n"},{"is_checked":false,"change_type":"Added","line":"9\n"}]}}
LONG_LINE_AND_NO_END {"Changed":{"lines":[{"is_checked":false,"change_type":"Added","line":"the first line of a long file\n"},{"is_checked":true,"change_type":"Removed","line":"no end"}]}}
CONTEXT_0 {"Unchanged":{"lines":[]}}
CONTEXT_1 {"Unchanged":{"lines":["a\n"]}}
CONTEXT_3 {"Unchanged":{"lines":["a\n","b\n","c\n"]}}
CONTEXT_4 {"Unchanged":{"lines":["a\n","b\n","c\n","d\n"]}}
CONTEXT_6 {"Unchanged":{"lines":["a\n","b\n","c\n","d\n","e\n","f\n"]}}
CONTEXT_7 {"Unchanged":{"lines":["a\n","b\n","c\n","d\n","e\n","f\n","g\n"]}}
MODE_CHANGE {"FileMode":{"is_checked":false,"mode":{"Unix":33261}}}
DELETION {"FileMode":{"is_checked":true,"mode":"Absent"}}
BINARY_NONE {"Binary":{"is_checked":false,"old_description":null,"new_description":null}}
BINARY_OLD {"Binary":{"is_checked":false,"old_description":"a","new_description":null}}
BINARY_BOTH {"Binary":{"is_checked":false,"old_description":"a","new_description":"b"}}
BINARY_NEW {"Binary":{"is_checked":false,"old_description":null,"new_description":"b"}}
"#;

/// A row for each script: its lines, `=>`, the status, and the lines of the output. A ` | `
/// separates two lines.
///
/// A state is written in `«»`: its name, and then a word for each `?`. A script that begins with a
/// state runs on 80 by 24, or on the size before the state. Each word after the state is a batch;
/// words joined by `,` are one batch.
///
/// In a script `␍` is a carriage return and `␉` a tab. A text that ends in `␃` has no line end
/// there. A line that begins with `| ` continues the row above it.
///
/// In an output, rows of a screen lack the spaces at their ends and the closing quote. A screen
/// lacks its blank rows at the end, but not its first row. A `…` at the end of a row stands for the
/// rest of the output.
pub const ROWS: &str = r##"
# The form of a script: sizes, spaces, carriage returns, comments, empty lines, leading zeros, and no line end at the end.
size 80 24 | «EMPTY_STATE» | script | batch c => 0 | accepted | «TWO_COMMITS»
  size  0080 65535 ␍ | ␍ | «EMPTY_STATE»␍ |  script␍ | ␍ | # a comment␍ |   batch   c  ␃ => 0 | accepted | «TWO_COMMITS»
size 0 0 |  | { "files" : [ ], |  | "commits":[],"is_read_only":false } | script | batch c => 0 | accepted | «TWO_COMMITS»
␃ => 2 | bad input: line 1
size 65536 1 | «EMPTY_STATE» | script => 2 | bad input: line 1
size 1 65536 | «EMPTY_STATE» | script => 2 | bad input: line 1
size 99999999999999999999 1 | «EMPTY_STATE» | script => 2 | bad input: line 1
size +80 24 | «EMPTY_STATE» | script => 2 | bad input: line 1
size 80 -1 | «EMPTY_STATE» | script => 2 | bad input: line 1
size 80 | «EMPTY_STATE» | script => 2 | bad input: line 1
size 80 24 1 | «EMPTY_STATE» | script => 2 | bad input: line 1
size␉80 24 | «EMPTY_STATE» | script => 2 | bad input: line 1
size 80 24␍␃ => 2 | bad input: line 1
size 80 24␃ => 2 | bad input: no script
size 80 24 | «EMPTY_STATE» => 2 | bad input: no script
size 80 24 | «EMPTY_STATE» | batch q => 2 | bad input: no script
size 80 24 | «EMPTY_STATE» | script q => 2 | bad input: no script
size 80 24 | «EMPTY_STATE» | script␍␃ => 2 | bad input: no script
size 80 24 | «EMPTY_STATE» | script |  | batch zz => 2 | bad input: line 5
size 80 24 | «EMPTY_STATE» | script | batch q | batches => 2 | bad input: line 5
size 80 24 | «EMPTY_STATE» | script |   => 2 | bad input: line 4
size 80 24 | «EMPTY_STATE» | script |  # no comment => 2 | bad input: line 4
size 80 24 | «EMPTY_STATE» | script | batch␉q => 2 | bad input: line 4
size 80 24 | «EMPTY_STATE» | script | batch q␍␃ => 2 | bad input: line 4
size 80 24 | «EMPTY_STATE» | script | script => 2 | bad input: line 4

# A bad command comes before a bad state, and that before a run.
size 20 5 | { | script | batch zz => 2 | bad input: line 4
size 20 5 | { | script | batch q => 2 | bad state
size 20 5 | script | batch q => 2 | bad state
size 20 5 | {"is_read_only":false,"commits":[{"message":null},{"message":null},{"message":null}],"files":[]} | script => 2 | state not accepted

# What is no state: no JSON, more than JSON, a key left out, a key more, another shape.
null => 2 | bad input: line 1
size 1 1 | null | script => 2 | bad state
size 1 1 | [] | script => 2 | bad state
size 1 1 | «EMPTY_STATE» 1 | script => 2 | bad state
size 1 1 | {"is_read_only":false,"commits":[],"files":[] | script => 2 | bad state
size 1 1 | {"is_read_only":false,"commits":[]} | script => 2 | bad state
size 1 1 | {"is_read_only":false,"commits":[{}],"files":[]} | script => 2 | bad state
size 1 1 | {"is_read_only":false,"commits":[],"files":[],"more":1} | script => 2 | bad state
size 1 1 | {"is_read_only":0,"commits":[],"files":[]} | script => 2 | bad state
size 1 1 | {"is_read_only":false,"commits":{},"files":[]} | script => 2 | bad state
«TWO_MESSAGES null 1» c => 2 | bad state
«TWO_MESSAGES null "\ud800"» c => 2 | bad state
«READ_ONLY_RENAMED_FILE_OF_1 {"Hidden":{"lines":[]}}» c => 2 | bad state
«READ_ONLY_RENAMED_FILE_OF_1 {"Unchanged":{"lines":[]},"Changed":{"lines":[]}}» c => 2 | bad state
«READ_ONLY_RENAMED_FILE_OF_1 {"Unchanged":{"lines":[null]}}» c => 2 | bad state
«READ_ONLY_RENAMED_FILE_OF_1 {"Unchanged":{"lines":["a"],"more":0}}» c => 2 | bad state
«READ_ONLY_RENAMED_FILE_OF_1 {"Changed":{"lines":["a"]}}» c => 2 | bad state
«READ_ONLY_RENAMED_FILE_OF_1 {"Changed":{"lines":[{"is_checked":true,"change_type":"Moved","line":"a"}]}}» c => 2 | bad state
«READ_ONLY_RENAMED_FILE_OF_1 {"Changed":{"lines":[{"is_checked":true,"line":"a"}]}}» c => 2 | bad state
«READ_ONLY_RENAMED_FILE_OF_1 {"FileMode":{"is_checked":true,"mode":"Unix"}}» c => 2 | bad state
«READ_ONLY_RENAMED_FILE_OF_1 {"FileMode":{"is_checked":true,"mode":{"Unix":-1}}}» c => 2 | bad state
«READ_ONLY_RENAMED_FILE_OF_1 {"FileMode":{"is_checked":true,"mode":{"Unix":-0}}}» c => 2 | bad state
«READ_ONLY_RENAMED_FILE_OF_1 {"FileMode":{"is_checked":true,"mode":{"Unix":1.0}}}» c => 2 | bad state
«READ_ONLY_RENAMED_FILE_OF_1 {"FileMode":{"is_checked":true,"mode":{"Unix":33188.5}}}» c => 2 | bad state
«READ_ONLY_RENAMED_FILE_OF_1 {"FileMode":{"is_checked":true,"mode":{"Unix":1e2}}}» c => 2 | bad state
«READ_ONLY_RENAMED_FILE_OF_1 {"FileMode":{"is_checked":true,"mode":{"Unix":18446744073709551616}}}» c => 2 | bad state
«READ_ONLY_RENAMED_FILE_OF_1 {"Binary":{"is_checked":true,"old_description":null}}» c => 2 | bad state
«READ_ONLY_RENAMED_FILE_OF_1 {"Binary":{"is_checked":null,"old_description":null,"new_description":null}}» c => 2 | bad state

# Of a key that stands twice the last value counts; JSON nests 127 levels.
«DUPLICATE_MEMBER true» c => 0 | accepted | «TWO_COMMITS»
«DUPLICATE_MEMBER [[[[[[[[[[[[[[[[[[[[[[[[[[[[[[[[[[[[[[[[[[[[[[[[[[[[[[[[[[[[[[[[[[[[[[[[[[[[[[[[[[[[[[[[[[[[[[[[[[[[[[[[[[[[[[[[[[[[[[[[[[[[[[]]]]]]]]]]]]]]]]]]]]]]]]]]]]]]]]]]]]]]]]]]]]]]]]]]]]]]]]]]]]]]]]]]]]]]]]]]]]]]]]]]]]]]]]]]]]]]]]]]]]]]]]]]]]]]]]]]]]]]]]]]]]]]» c => 0 | accepted | «TWO_COMMITS»
«DUPLICATE_MEMBER [[[[[[[[[[[[[[[[[[[[[[[[[[[[[[[[[[[[[[[[[[[[[[[[[[[[[[[[[[[[[[[[[[[[[[[[[[[[[[[[[[[[[[[[[[[[[[[[[[[[[[[[[[[[[[[[[[[[[[[[[[[[[[[]]]]]]]]]]]]]]]]]]]]]]]]]]]]]]]]]]]]]]]]]]]]]]]]]]]]]]]]]]]]]]]]]]]]]]]]]]]]]]]]]]]]]]]]]]]]]]]]]]]]]]]]]]]]]]]]]]]]]]]]]]]]]]]» c => 2 | bad state
size 1 1 | {"is_read_only":false,"commits":[],"files":[[[[[[[[[[[[[[[[[[[[[[[[[[[[[[[[[[[[[[[[[[[[[[[[[[[[[[[[[[[[[[[[[[[[[[[[[[[[[[[[[[[[[[[[[[[[[[[[[[[[[[[[[[[[[[[[[[[[[[[[[[[[[[[[[[[[[[[[[[[[[[[[[[[[[[[[[[[[[[[[[[[[[[[[[[[[[[[[[[[[[[[[[[[[[[[[[[[[[[[[]]]]]]]]]]]]]]]]]]]]]]]]]]]]]]]]]]]]]]]]]]]]]]]]]]]]]]]]]]]]]]]]]]]]]]]]]]]]]]]]]]]]]]]]]]]]]]]]]]]]]]]]]]]]]]]]]]]]]]]]]]]]]]]]]]]]]]]]]]]]]]]]]]]]]]]]]]]]]]]]]]]]]]]]]]]]]]]]]]]]]]]]]]]]]]]]]]]]]]]]} | script => 2 | bad state
size 1 1 | {"is_read_only":false,"comm | script => 2 | bad state

# What is printed of a state is what was read: each kind of section, and both commits' messages.
«READ_ONLY_RENAMED_FILE_OF_1 {"Unchanged":{"lines":["a\n","\u0001\"\\"]}}» c => 0 | accepted | «READ_ONLY_RENAMED_FILE_OF_1 {"Unchanged":{"lines":["a\n","\u0001\"\\"]}}» | file 0 | selected 1777777777777777777777 text "a\n\u0001\"\\" | unselected 1777777777777777777777 text "a\n\u0001\"\\"
«READ_ONLY_RENAMED_FILE_OF_1 {"Changed":{"lines":[{"is_checked":true,"change_type":"Added","line":"b\n"},{"is_checked":false,"change_type":"Removed","line":"日"}]}}» c => 0 | accepted | «READ_ONLY_RENAMED_FILE_OF_1 {"Changed":{"lines":[{"is_checked":true,"change_type":"Added","line":"b\n"},{"is_checked":false,"change_type":"Removed","line":"日"}]}}» | file 0 | selected 1777777777777777777777 text "b\n日" | unselected 1777777777777777777777 unchanged
«READ_ONLY_RENAMED_FILE_OF_1 {"FileMode":{"is_checked":false,"mode":"Absent"}}» c => 0 | accepted | «READ_ONLY_RENAMED_FILE_OF_1 {"FileMode":{"is_checked":false,"mode":"Absent"}}» | file 0 | selected 1777777777777777777777 unchanged | unselected <absent> unchanged
«READ_ONLY_RENAMED_FILE_OF_1 {"FileMode":{"is_checked":true,"mode":{"Unix":0}}}» c => 0 | accepted | «READ_ONLY_RENAMED_FILE_OF_1 {"FileMode":{"is_checked":true,"mode":{"Unix":0}}}» | file 0 | selected 0 unchanged | unselected 1777777777777777777777 unchanged
«READ_ONLY_RENAMED_FILE_OF_1 {"Binary":{"is_checked":true,"old_description":null,"new_description":"x"}}» c => 0 | accepted | «READ_ONLY_RENAMED_FILE_OF_1 {"Binary":{"is_checked":true,"old_description":null,"new_description":"x"}}» | file 0 | selected 1777777777777777777777 binary null "x" | unselected 1777777777777777777777 unchanged
«READ_ONLY_RENAMED_FILE_OF_1 {"Binary":{"is_checked":false,"old_description":"o","new_description":null}}» c => 0 | accepted | «READ_ONLY_RENAMED_FILE_OF_1 {"Binary":{"is_checked":false,"old_description":"o","new_description":null}}» | file 0 | selected 1777777777777777777777 unchanged | unselected 1777777777777777777777 binary "o" null
«TWO_MESSAGES "m" "\"n\"\n"» c => 0 | accepted | «TWO_MESSAGES "m" "\"n\"\n"»
«NO_SECTIONS» c => 0 | accepted | «NO_SECTIONS» | file 0 | selected 100644 unchanged | unselected 100644 unchanged

# The two sides of a file: lines of each kind, a removal of all lines, a binary before a text, a file that is made empty, and a new one whose marks do not fit.
«ALTERNATING_LINES 1 0 0 1» c => 0 | accepted | «ALTERNATING_LINES 1 0 0 1» | file 0 | selected 100644 text "a\nb\nc\n" | unselected 100644 text "a\nd\ne\n"
«ALTERNATING_LINES 0 1 1 0» c => 0 | accepted | «ALTERNATING_LINES 0 1 1 0» | file 0 | selected 100644 text "a\nd\ne\n" | unselected 100644 text "a\nb\nc\n"
«READ_ONLY_RENAMED_FILE_OF_1 {"Changed":{"lines":[{"is_checked":true,"change_type":"Removed","line":"x\n"}]}}» c => 0 | accepted | «READ_ONLY_RENAMED_FILE_OF_1 {"Changed":{"lines":[{"is_checked":true,"change_type":"Removed","line":"x\n"}]}}» | file 0 | selected 1777777777777777777777 text "" | unselected 1777777777777777777777 text "x\n"
«READ_ONLY_RENAMED_FILE_OF_1 {"Changed":{"lines":[{"is_checked":true,"change_type":"Removed","line":"x\n"}]}},{"FileMode":{"is_checked":true,"mode":"Absent"}}» c => 0 | accepted | «READ_ONLY_RENAMED_FILE_OF_1 {"Changed":{"lines":[{"is_checked":true,"change_type":"Removed","line":"x\n"}]}},{"FileMode":{"is_checked":true,"mode":"Absent"}}» | file 0 | selected <absent> unchanged | unselected 1777777777777777777777 text "x\n"
«READ_ONLY_RENAMED_FILE_OF_1 {"Binary":{"is_checked":true,"old_description":"o","new_description":"n"}},{"Unchanged":{"lines":["z\n"]}}» c => 0 | accepted | «READ_ONLY_RENAMED_FILE_OF_1 {"Binary":{"is_checked":true,"old_description":"o","new_description":"n"}},{"Unchanged":{"lines":["z\n"]}}» | file 0 | selected 1777777777777777777777 binary "o" "n" | unselected 1777777777777777777777 text "z\n"
«NEW_EMPTY_FILE 1» c => 0 | accepted | «NEW_EMPTY_FILE 1» | file 0 | selected 100644 text "" | unselected <absent> unchanged
«NEW_EMPTY_FILE 0» c => 0 | accepted | «NEW_EMPTY_FILE 0» | file 0 | selected <absent> unchanged | unselected 100644 text ""
«NEW_FILE_ONE_LINE 1 0» c => 0 | accepted | «NEW_FILE_ONE_LINE 1 0» | file 0 | selected <absent> text "n\n" | unselected 100644 text ""
«NEW_FILE_ONE_LINE 0 1» c => 0 | accepted | «NEW_FILE_ONE_LINE 0 1» | file 0 | selected 100644 text "" | unselected <absent> text "n\n"

# The example of a new file of one line: a bad word, the end of the script, giving up, and the toggle that creates the file.
«NEW_FILE_ONE_LINE 0 0» zz => 2 | bad input: line 4
«NEW_FILE_ONE_LINE 0 0» none => 1 | fault: failed to read user input: no events left
«NEW_FILE_ONE_LINE 0 0» q => 1 | fault: cancelled by user
«NEW_FILE_ONE_LINE 0 0» l l space c => 0 | accepted | «NEW_FILE_ONE_LINE 1 1» | file 0 | selected 100644 text "n\n" | unselected <absent> unchanged

# A new file, step by step; a toggle of its creation, and of its section.
«NEW_FILE_MODE_FIRST 0 0 0» l l space c => 0 | accepted | «NEW_FILE_MODE_FIRST 1 1 0» | file 0 | selected 100644 text "a\n" | unselected <absent> text "b\n"
«NEW_FILE_MODE_FIRST 0 0 0» l l space h k space c => 0 | accepted | «NEW_FILE_MODE_FIRST 0 0 0» | file 0 | selected <absent> unchanged | unselected 100644 text "a\nb\n"
«NEW_FILE_MODE_FIRST 0 0 0» l l space h k space j space c => 0 | accepted | «NEW_FILE_MODE_FIRST 1 1 1» | file 0 | selected 100644 text "a\nb\n" | unselected <absent> unchanged
«NEW_FILE_MODE_FIRST 0 0 0» l l space h k space j space l j space c => 0 | accepted | «NEW_FILE_MODE_FIRST 1 1 0» | file 0 | selected 100644 text "a\n" | unselected <absent> text "b\n"
«NEW_FILE_MODE_FIRST 0 0 0» l space c => 0 | accepted | «NEW_FILE_MODE_FIRST 1 0 0» | file 0 | selected 100644 text "" | unselected <absent> text "a\nb\n"
«NEW_FILE_MODE_FIRST 1 1 1» l space c => 0 | accepted | «NEW_FILE_MODE_FIRST 0 0 0» | file 0 | selected <absent> unchanged | unselected 100644 text "a\nb\n"
«NEW_FILE_MODE_FIRST 1 1 0» l j space c => 0 | accepted | «NEW_FILE_MODE_FIRST 1 0 0» | file 0 | selected 100644 text "" | unselected <absent> text "a\nb\n"

# A deleted file, step by step; a toggle of its deletion, and of its section.
«DELETED_FILE_MODE_FIRST 0 0 0» l space c => 0 | accepted | «DELETED_FILE_MODE_FIRST 1 1 1» | file 0 | selected <absent> unchanged | unselected 100644 text "a\nb\n"
«DELETED_FILE_MODE_FIRST 0 0 0» l space l space c => 0 | accepted | «DELETED_FILE_MODE_FIRST 0 0 1» | file 0 | selected 100644 text "a\n" | unselected <absent> text "b\n"
«DELETED_FILE_MODE_FIRST 0 0 0» l space l space space c => 0 | accepted | «DELETED_FILE_MODE_FIRST 0 1 1» | file 0 | selected 100644 text "" | unselected <absent> text "a\nb\n"
«DELETED_FILE_MODE_FIRST 1 1 1» l space c => 0 | accepted | «DELETED_FILE_MODE_FIRST 0 1 1» | file 0 | selected 100644 text "" | unselected <absent> text "a\nb\n"
«DELETED_FILE_MODE_FIRST 1 1 1» l j space c => 0 | accepted | «DELETED_FILE_MODE_FIRST 0 0 0» | file 0 | selected 100644 text "a\nb\n" | unselected <absent> unchanged
«DELETED_FILE_MODE_FIRST 0 0 0» l j space c => 0 | accepted | «DELETED_FILE_MODE_FIRST 0 1 1» | file 0 | selected 100644 text "" | unselected <absent> text "a\nb\n"

# A file that is new and deleted: the deletion takes the line, and leaves the creation alone.
«NEW_FILE_TWO_MODES 0 0 0» l j j j space c => 0 | accepted | «NEW_FILE_TWO_MODES 1 0 1» | file 0 | selected <absent> text "a\n" | unselected 100644 text ""
«NEW_FILE_TWO_MODES 0 0 0» l l space c => 0 | accepted | «NEW_FILE_TWO_MODES 1 1 1» | file 0 | selected 100644 text "a\n" | unselected <absent> unchanged
«NEW_FILE_TWO_MODES 1 1 1» l l space c => 0 | accepted | «NEW_FILE_TWO_MODES 0 1 0» | file 0 | selected 100644 text "" | unselected <absent> text "a\n"
«NEW_FILE_TWO_MODES 1 1 1» l j j j space c => 0 | accepted | «NEW_FILE_TWO_MODES 0 0 0» | file 0 | selected <absent> unchanged | unselected 100644 text "a\n"

# A section of bytes, and a whole file, have no effect on the rest.
«NEW_BINARY_FILE_TWO_MODES 0 0 0 0» l space c => 0 | accepted | «NEW_BINARY_FILE_TWO_MODES 1 0 0 0» | file 0 | selected <absent> binary null "x y" | unselected 100644 text "a\n"
«NEW_BINARY_FILE_TWO_MODES 1 0 0 1» l space c => 0 | accepted | «NEW_BINARY_FILE_TWO_MODES 0 0 0 1» | file 0 | selected <absent> unchanged | unselected 100644 binary null "x y"
«DELETED_FILE_MODE_FIRST 0 1 0» space c => 0 | accepted | «DELETED_FILE_MODE_FIRST 0 0 0» | file 0 | selected 100644 text "a\nb\n" | unselected <absent> unchanged
«NEW_FILE_TWO_MODES 0 0 0» space c => 0 | accepted | «NEW_FILE_TWO_MODES 1 1 1» | file 0 | selected 100644 text "a\n" | unselected <absent> unchanged

# Toggles of a file and of a section that are checked in part, and of what must not be changed.
«TWO_FILES 0 1 0 0 0» space c => 0 | accepted | «TWO_FILES 0 0 0 0 0» | file 0 | selected 100644 text "" | unselected 100644 text "x\ny\nz\n" | file 1 | selected 100644 text "" | unselected 100644 text "w\n"
«TWO_FILES 0 1 0 1 0» l space c => 0 | accepted | «TWO_FILES 0 0 0 1 0» | file 0 | selected 100644 text "z\n" | unselected 100644 text "x\ny\n" | file 1 | selected 100644 text "" | unselected 100644 text "w\n"
«TWO_FILES 1 0 1 0 0» space l space l space c => 0 | accepted | «TWO_FILES 1 0 1 0 0» | file 0 | selected 100644 text "y\n" | unselected 100644 text "x\nz\n" | file 1 | selected 100644 text "" | unselected 100644 text "w\n"

# Giving up where nothing is marked and no message is written, and what ends a run.
«TWO_FILES 0 0 0 0 0» q c => 1 | fault: cancelled by user
«TWO_FILES 0 0 0 0 0» ctrl-c c => 1 | fault: cancelled by user
«TWO_MESSAGES "" ""» q c => 1 | fault: cancelled by user
«NO_SECTIONS» space q c => 1 | fault: cancelled by user
«EMPTY_STATE» q c => 1 | fault: cancelled by user
«EMPTY_STATE» c q => 0 | accepted | «TWO_COMMITS»
«EMPTY_STATE» l h shift-h j k space => 1 | fault: failed to read user input: no events left
size 80 24 | {"is_read_only":false,"commits":[{"message":"m"}],"files":[]} | script | batch c => 0 | accepted | «TWO_MESSAGES "m" null»

# The quit dialog: what opens it, what its buttons and keys do, and that all else waits.
«NEW_FILE_ONE_LINE 1 1» q c => 1 | fault: failed to read user input: no events left
«NEW_FILE_ONE_LINE 1 1» ctrl-c c => 1 | fault: failed to read user input: no events left
«TWO_FILES 0 0 0 0 1» q c => 1 | fault: failed to read user input: no events left
«TWO_FILES 0 1 0 0 0» q c => 1 | fault: failed to read user input: no events left
«TWO_MESSAGES "m" null» q c => 1 | fault: failed to read user input: no events left
«TWO_MESSAGES null "n"» q c => 1 | fault: failed to read user input: no events left
«TWO_MESSAGES "m" null» q h space c => 0 | accepted | «TWO_MESSAGES "m" null»
«NEW_FILE_ONE_LINE 1 1» q space c => 1 | fault: cancelled by user
«NEW_FILE_ONE_LINE 1 1» q ctrl-c c => 1 | fault: cancelled by user
«NEW_FILE_ONE_LINE 1 1» ctrl-c space c => 1 | fault: cancelled by user
«NEW_FILE_ONE_LINE 1 1» q h l space c => 1 | fault: cancelled by user
«NEW_FILE_ONE_LINE 1 1» q j k space c => 1 | fault: cancelled by user
«NEW_FILE_ONE_LINE 1 1» q h q q space c => 1 | fault: cancelled by user
«NEW_FILE_ONE_LINE 1 1» q h space c => 0 | accepted | «NEW_FILE_ONE_LINE 1 1»…
«NEW_FILE_ONE_LINE 1 1» q shift-h space c => 0 | accepted | «NEW_FILE_ONE_LINE 1 1»…
«NEW_FILE_ONE_LINE 1 1» q q c => 0 | accepted | «NEW_FILE_ONE_LINE 1 1»…
«NEW_FILE_ONE_LINE 1 1» q none q c => 0 | accepted | «NEW_FILE_ONE_LINE 1 1»…
«TWO_FILES 0 1 0 0 0» q j q space c => 0 | accepted | «TWO_FILES 0 0 0 0 0»…

# To the key before and the key behind, among those that are seen.
«TWO_FILES 0 0 0 0 0» space c => 0 | accepted | «TWO_FILES 0 1 1 1 0»…
«TWO_FILES 0 0 0 0 0» k space c => 0 | accepted | «TWO_FILES 0 1 1 1 0»…
«TWO_FILES 0 0 0 0 0» j space c => 0 | accepted | «TWO_FILES 0 0 0 0 1»…
«TWO_FILES 0 0 0 0 0» j j space c => 0 | accepted | «TWO_FILES 0 0 0 0 1»…
«TWO_FILES 0 0 0 0 0» j k space c => 0 | accepted | «TWO_FILES 0 1 1 1 0»…
«TWO_FILES 0 0 0 0 0» l k space c => 0 | accepted | «TWO_FILES 0 1 1 1 0»…
«TWO_FILES 0 0 0 0 0» l j j space c => 0 | accepted | «TWO_FILES 0 0 1 0 0»…
«TWO_FILES 0 0 0 0 0» l j j j space c => 0 | accepted | «TWO_FILES 0 0 0 1 0»…
«TWO_FILES 0 0 0 0 0» l j j j j j space c => 0 | accepted | «TWO_FILES 0 0 0 0 1»…
«TWO_FILES 0 0 0 0 0» l j j j j j k k space c => 0 | accepted | «TWO_FILES 0 0 0 1 0»…

# Inwards: to a section, to a line, into a later file, and no further.
«TWO_FILES 0 0 0 0 0» l space c => 0 | accepted | «TWO_FILES 0 1 1 0 0»…
«TWO_FILES 0 0 0 0 0» l l space c => 0 | accepted | «TWO_FILES 0 1 0 0 0»…
«TWO_FILES 0 0 0 0 0» l l l space c => 0 | accepted | «TWO_FILES 0 1 0 0 0»…
«TWO_FILES 0 0 0 0 0» l j j l space c => 0 | accepted | «TWO_FILES 0 0 1 0 0»…
«SECOND_FILE_TWO_SECTIONS 0 0 0» l space c => 0 | accepted | «SECOND_FILE_TWO_SECTIONS 1 1 0»…
«SECOND_FILE_TWO_SECTIONS 0 0 0» l l space c => 0 | accepted | «SECOND_FILE_TWO_SECTIONS 1 0 0»…
«SECOND_FILE_TWO_SECTIONS 0 0 0» l k k space c => 0 | accepted | «SECOND_FILE_TWO_SECTIONS 0 0 0»…
«MODE_CHANGE_AND_TWO_LINES 0 0 0» l space c => 0 | accepted | «MODE_CHANGE_AND_TWO_LINES 1 0 0»…
«MODE_CHANGE_AND_TWO_LINES 0 0 0» l l space c => 0 | accepted | «MODE_CHANGE_AND_TWO_LINES 0 1 0»…
«NO_SECTIONS» l space c => 0 | accepted | «NO_SECTIONS»…

# Outwards: out of a line to its section and its file, with folds and without.
«TWO_FILES 0 0 0 0 0» l l h space c => 0 | accepted | «TWO_FILES 0 1 1 0 0»…
«TWO_FILES 0 0 0 0 0» l l h j space c => 0 | accepted | «TWO_FILES 0 1 0 0 0»…
«TWO_FILES 0 0 0 0 0» l l shift-h space c => 0 | accepted | «TWO_FILES 0 1 1 0 0»…
«TWO_FILES 0 0 0 0 0» l l shift-h shift-h space c => 0 | accepted | «TWO_FILES 0 1 1 1 0»…
«TWO_FILES 0 0 0 0 0» l l h h space c => 0 | accepted | «TWO_FILES 0 1 1 0 0»…
«TWO_FILES 0 0 0 0 0» l l h h j space c => 0 | accepted | «TWO_FILES 0 0 0 1 0»…
«TWO_FILES 0 0 0 0 0» l l h h h space c => 0 | accepted | «TWO_FILES 0 1 1 1 0»…
«TWO_FILES 0 0 0 0 0» l shift-h j space c => 0 | accepted | «TWO_FILES 0 1 1 0 0»…
«TWO_FILES 0 0 0 0 0» l shift-h h j space c => 0 | accepted | «TWO_FILES 0 0 0 0 1»…
«TWO_FILES 0 0 0 0 0» l shift-h shift-h j space c => 0 | accepted | «TWO_FILES 0 0 0 0 1»…
«TWO_FILES 0 0 0 0 0» h j space c => 0 | accepted | «TWO_FILES 0 0 0 0 1»…
«TWO_FILES 0 0 0 0 0» l h h h l j space c => 0 | accepted | «TWO_FILES 0 0 0 1 0»…
«TWO_FILES 0 0 0 0 0» l h h h l l space c => 0 | accepted | «TWO_FILES 0 1 0 0 0»…

# To the key of the same kind before and behind.
«TWO_FILES 0 0 0 0 0» pagedown space c => 0 | accepted | «TWO_FILES 0 0 0 0 1»…
«TWO_FILES 0 0 0 0 0» pagedown pagedown space c => 0 | accepted | «TWO_FILES 0 0 0 0 1»…
«TWO_FILES 0 0 0 0 0» pagedown pageup space c => 0 | accepted | «TWO_FILES 0 1 1 1 0»…
«TWO_FILES 0 0 0 0 0» l shift-h pagedown space c => 0 | accepted | «TWO_FILES 0 0 0 0 1»…
«TWO_FILES 0 0 0 0 0» l pageup space c => 0 | accepted | «TWO_FILES 0 1 1 0 0»…
«TWO_FILES 0 0 0 0 0» l pagedown space c => 0 | accepted | «TWO_FILES 0 0 0 1 0»…
«TWO_FILES 0 0 0 0 0» l pagedown pagedown space c => 0 | accepted | «TWO_FILES 0 0 0 1 0»…
«TWO_FILES 0 0 0 0 0» l shift-h pagedown l pageup space c => 0 | accepted | «TWO_FILES 0 0 0 1 0»…
«TWO_FILES 0 0 0 0 0» l l pageup space c => 0 | accepted | «TWO_FILES 0 1 0 0 0»…
«TWO_FILES 0 0 0 0 0» l l pagedown space c => 0 | accepted | «TWO_FILES 0 0 1 0 0»…
«TWO_FILES 0 0 0 0 0» l l pagedown pagedown space c => 0 | accepted | «TWO_FILES 0 0 0 1 0»…
«TWO_FILES 0 0 0 0 0» l l pagedown pagedown pageup pageup space c => 0 | accepted | «TWO_FILES 0 1 0 0 0»…

# A toggle, and on to the next of the same kind, or no further.
«TWO_FILES 0 0 0 0 0» enter space c => 0 | accepted | «TWO_FILES 0 1 1 1 1»…
«TWO_FILES 0 0 0 0 0» l enter space c => 0 | accepted | «TWO_FILES 0 1 1 1 0»…
«TWO_FILES 0 0 0 0 0» l l enter space c => 0 | accepted | «TWO_FILES 0 1 1 0 0»…
«TWO_FILES 0 0 0 0 0» l l enter enter space c => 0 | accepted | «TWO_FILES 0 1 1 1 0»…
«TWO_FILES 0 0 0 0 0» l l enter enter enter enter c => 0 | accepted | «TWO_FILES 0 1 1 0 0»…
«NEW_FILE_MODE_FIRST 0 0 0» l l enter c => 0 | accepted | «NEW_FILE_MODE_FIRST 1 1 0»…
«EMPTY_STATE» enter c => 0 | accepted | «TWO_COMMITS»

# Every mark inverted, and each file repaired; all checked, or all unchecked where every file is checked.
«TWO_FILES 0 1 0 1 0» a c => 0 | accepted | «TWO_FILES 0 0 1 0 1»…
«TWO_FILES 1 1 0 1 0» a c => 0 | accepted | «TWO_FILES 1 1 0 1 0»…
«TWO_FILES 0 1 0 1 0» a a c => 0 | accepted | «TWO_FILES 0 1 0 1 0»…
«NEW_FILE_MODE_FIRST 1 1 0» a c => 0 | accepted | «NEW_FILE_MODE_FIRST 1 0 1»…
«NEW_FILE_MODE_FIRST 1 0 1» a a c => 0 | accepted | «NEW_FILE_MODE_FIRST 1 0 1»…
«DELETED_FILE_MODE_FIRST 0 1 1» a c => 0 | accepted | «DELETED_FILE_MODE_FIRST 0 0 0»…
«NEW_BINARY_FILE_TWO_MODES 1 0 0 1» a c => 0 | accepted | «NEW_BINARY_FILE_TWO_MODES 0 1 1 1»…
«TWO_FILES 0 1 0 1 0» shift-A c => 0 | accepted | «TWO_FILES 0 1 1 1 1»…
«TWO_FILES 0 1 0 1 0» shift-A shift-A c => 0 | accepted | «TWO_FILES 0 0 0 0 0»…
«TWO_FILES 1 1 0 1 0» shift-A c => 0 | accepted | «TWO_FILES 1 1 0 1 0»…
«SECOND_FILE_TWO_SECTIONS 1 1 1» shift-A c => 0 | accepted | «SECOND_FILE_TWO_SECTIONS 1 1 1»…
«SECOND_FILE_TWO_SECTIONS 1 1 1» shift-A shift-A c => 0 | accepted | «SECOND_FILE_TWO_SECTIONS 1 1 1»…
«NEW_BINARY_FILE_TWO_MODES 1 1 1 1» shift-A c => 0 | accepted | «NEW_BINARY_FILE_TWO_MODES 0 0 0 0»…
«EMPTY_STATE» a shift-A c => 0 | accepted | «TWO_COMMITS»

# An inversion unchecks a deletion beside an unchecked line, and checks the creation of a new file with a checked line: by its key, and in the Edit menu.
«DELETED_FILE_MODE_LAST 1 0 0» a c => 0 | accepted | «DELETED_FILE_MODE_LAST 0 1 0» | file 0 | selected 100644 text "x\n" | unselected <absent> text "y\n"
«NEW_FILE_MODE_LAST 1 0 1» a c => 0 | accepted | «NEW_FILE_MODE_LAST 0 1 1» | file 0 | selected 100644 text "m\n" | unselected <absent> text "n\n"
«STAYS_ABSENT 1 0 1» a c => 0 | accepted | «STAYS_ABSENT 0 1 1» | file 0 | selected <absent> text "b\n" | unselected <absent> text "a\n"
«DELETED_FILE_MODE_LAST 1 0 0» click:0:7 click:4:8 c => 0 | accepted | «DELETED_FILE_MODE_LAST 0 1 0» | file 0 | selected 100644 text "x\n" | unselected <absent> text "y\n"
«NEW_FILE_MODE_LAST 1 0 1» click:0:7 click:4:8 c => 0 | accepted | «NEW_FILE_MODE_LAST 0 1 1» | file 0 | selected 100644 text "m\n" | unselected <absent> text "n\n"
«STAYS_ABSENT 1 0 1» click:0:7 click:4:8 c => 0 | accepted | «STAYS_ABSENT 0 1 1» | file 0 | selected <absent> text "b\n" | unselected <absent> text "a\n"

# Folds of a file, of a section, of a line (nothing), and of all.
«TWO_FILES 0 0 0 0 0» f j space c => 0 | accepted | «TWO_FILES 0 1 1 0 0»…
«TWO_FILES 0 0 0 0 0» f f j space c => 0 | accepted | «TWO_FILES 0 0 0 0 1»…
«TWO_FILES 0 0 0 0 0» l f j space c => 0 | accepted | «TWO_FILES 0 0 0 1 0»…
«TWO_FILES 0 0 0 0 0» l f f j space c => 0 | accepted | «TWO_FILES 0 1 0 0 0»…
«TWO_FILES 0 0 0 0 0» l l f j space c => 0 | accepted | «TWO_FILES 0 0 1 0 0»…
«TWO_FILES 0 0 0 0 0» l l f space c => 0 | accepted | «TWO_FILES 0 1 0 0 0»…
«TWO_FILES 0 0 0 0 0» shift-F j space c => 0 | accepted | «TWO_FILES 0 1 1 0 0»…
«TWO_FILES 0 0 0 0 0» shift-F shift-F j space c => 0 | accepted | «TWO_FILES 0 0 0 0 1»…
«TWO_FILES 0 0 0 0 0» shift-F f shift-F j space c => 0 | accepted | «TWO_FILES 0 1 1 0 0»…
«TWO_FILES 0 0 0 0 0» l l shift-F space c => 0 | accepted | «TWO_FILES 0 1 0 0 0»…
«TWO_FILES 0 0 0 0 0» l l shift-F shift-F space c => 0 | accepted | «TWO_FILES 0 1 1 1 0»…
«TWO_FILES 0 0 0 0 0» l l shift-F shift-F l j space c => 0 | accepted | «TWO_FILES 0 0 0 1 0»…
«EMPTY_STATE» f shift-F c => 0 | accepted | «TWO_COMMITS»

# Edits of the message: the answers in order, a fault, none left, and no edit where there is no message.
size 80 24 | «TWO_MESSAGES "hello" "n"» | script | answer "bye" | batch e | batch c => 0 | accepted | «TWO_MESSAGES "bye" "n"»
size 80 24 | «TWO_MESSAGES "hello" "n"» | script | batch e | batch e | answer "a" | answer "\"é\u00e9\"\n" | batch c => 0 | accepted | «TWO_MESSAGES "\"éé\"\n" "n"»
size 80 24 | «TWO_MESSAGES "hello" "n"» | script | answer "" | batch e | batch q | batch c => 1 | fault: failed to read user input: no events left
size 80 24 | «TWO_MESSAGES "hello" null» | script | answer "" | batch e | batch q | batch c => 1 | fault: cancelled by user
size 80 24 | «TWO_MESSAGES "hello" "n"» | script | batch e | batch c => 1 | fault: No more commit messages available
size 80 24 | «TWO_MESSAGES "hello" "n"» | script | answer "a" | batch e | batch e | batch c => 1 | fault: No more commit messages available
size 80 24 | «TWO_MESSAGES "hello" "n"» | script | fault edit all gone | batch e | batch c => 1 | fault: all gone
size 80 24 | «TWO_MESSAGES "hello" "n"» | script | answer "a" | fault edit gone | batch e | batch e | batch c => 1 | fault: gone
size 80 24 | «TWO_MESSAGES null "n"» | script | fault edit gone | batch e | batch c => 0 | accepted | «TWO_MESSAGES null "n"»
«TWO_MESSAGES null "n"» e e c => 0 | accepted | «TWO_MESSAGES null "n"»

# Batches: all events are handled in order, and those after the accepting one are dropped. A batch may be empty, and may leave nothing behind.
size 80 24 | «MESSAGE_TWO_LINES null 0 0» | script | batch l l space j space | batch c => 0 | accepted | «MESSAGE_TWO_LINES null 1 1»…
size 80 24 | «MESSAGE_TWO_LINES null 0 0» | script | batch l l j | batch space c => 0 | accepted | «MESSAGE_TWO_LINES null 0 1»…
size 80 24 | «MESSAGE_TWO_LINES null 0 0» | script | batch space c space => 0 | accepted | «MESSAGE_TWO_LINES null 1 1»…
size 80 24 | «MESSAGE_TWO_LINES "hello" 0 0» | script | batch space c q => 0 | accepted | «MESSAGE_TWO_LINES "hello" 1 1»…
size 80 24 | «MESSAGE_TWO_LINES null 0 0» | script | batch space | batch | batch c => 0 | accepted | «MESSAGE_TWO_LINES null 1 1»…
size 80 24 | «MESSAGE_TWO_LINES null 0 0» | script | batch click:65535:65535 click:65535:65535 c click:65535:65535 => 0 | accepted | «MESSAGE_TWO_LINES null 0 0»…
size 80 24 | «MESSAGE_TWO_LINES "hello" 0 0» | script | batch click:65535:65535 c => 0 | accepted | «MESSAGE_TWO_LINES "hello" 0 0»…
size 80 24 | «MESSAGE_TWO_LINES null 0 0» | script | batch l q space => 1 | fault: cancelled by user
size 80 24 | «MESSAGE_TWO_LINES null 0 0» | script | batch space ctrl-c ctrl-c c => 1 | fault: cancelled by user
size 80 24 | «MESSAGE_TWO_LINES "hello" 0 0» | script | batch => 1 | fault: failed to read user input: no events left
size 80 24 | «MESSAGE_TWO_LINES "hello" 0 0» | script | batch | batch space click:65535:65535 => 1 | fault: failed to read user input: no events left
size 80 24 | «MESSAGE_TWO_LINES "hello" 0 0» | script | batch click:65535:65535 click:65535:65535 => 1 | fault: failed to read user input: no events left

# A click acts on the frame before its batch, where a menu is closed or open; what it leaves pending is handled after the rest of its batch.
size 80 24 | «MESSAGE_TWO_LINES null 0 0» | script | batch click:0:8 click:2:8 | batch c => 0 | accepted | «MESSAGE_TWO_LINES null 0 0»…
size 80 24 | «MESSAGE_TWO_LINES null 0 0» | script | batch click:0:8 | batch click:2:8 | batch c => 0 | accepted | «MESSAGE_TWO_LINES null 1 1»…
size 80 24 | «MESSAGE_TWO_LINES null 0 0» | script | batch click:0:8 | batch click:2:8 l l | batch c => 0 | accepted | «MESSAGE_TWO_LINES null 1 0»…
size 80 24 | «MESSAGE_TWO_LINES "hello" 0 0» | script | batch click:0:1 click:1:2 | batch space c => 0 | accepted | «MESSAGE_TWO_LINES "hello" 1 1»…
size 80 24 | «MESSAGE_TWO_LINES "hello" 0 0» | script | answer "bye" | batch click:0:1 click:2:2 | batch c => 0 | accepted | «MESSAGE_TWO_LINES "bye" 0 0»…
size 80 24 | «MESSAGE_TWO_LINES "hello" 0 0» | script | answer "bye" | batch click:2:2 space click:0:1 | batch c => 0 | accepted | «MESSAGE_TWO_LINES "bye" 1 1»…
size 80 24 | «MESSAGE_TWO_LINES "hello" 0 0» | script | answer "bye" | answer "bye" | batch click:0:8 e click:2:8 | batch c => 0 | accepted | «MESSAGE_TWO_LINES "bye" 0 0»…
size 80 24 | «MESSAGE_TWO_LINES "hello" 0 0» | script | answer "bye" | batch click:0:8 | batch click:0:8 e click:2:8 | batch c => 0 | accepted | «MESSAGE_TWO_LINES "bye" 1 1»…
size 80 24 | «MESSAGE_TWO_LINES "hello" 0 0» | script | answer "bye" | batch click:0:8 | batch l click:1:8 | batch space c => 0 | accepted | «MESSAGE_TWO_LINES "bye" 1 1»…
size 80 24 | «MESSAGE_TWO_LINES "hello" 0 0» | script | answer "bye" | batch click:0:8 | batch click:1:8 click:2:8 | batch c => 0 | accepted | «MESSAGE_TWO_LINES "bye" 1 1»…
size 80 24 | «MESSAGE_TWO_LINES "hello" 0 0» | script | answer "bye" | answer "bye" | batch click:0:8 | batch click:1:8 click:1:8 space | batch c => 0 | accepted | «MESSAGE_TWO_LINES "bye" 1 1»…

# A message that is asked for within a batch: the rest of the batch is handled after it, may ask again, and may end the run.
size 80 24 | «MESSAGE_TWO_LINES "hello" 0 0» | script | answer "bye" | batch space e | batch c => 0 | accepted | «MESSAGE_TWO_LINES "bye" 1 1»…
size 80 24 | «MESSAGE_TWO_LINES null 0 0» | script | batch e click:65535:65535 space | batch c => 0 | accepted | «MESSAGE_TWO_LINES null 1 1»…
size 80 24 | «MESSAGE_TWO_LINES "hello" 0 0» | script | answer "bye" | batch e c => 0 | accepted | «MESSAGE_TWO_LINES "bye" 0 0»…
size 80 24 | «MESSAGE_TWO_LINES "hello" 0 0» | script | answer "bye" | batch e l l space | batch c => 0 | accepted | «MESSAGE_TWO_LINES "bye" 1 0»…
size 80 24 | «MESSAGE_TWO_LINES "hello" 0 0» | script | answer "bye" | answer "bye" | answer "bye" | batch space | batch e space e e | batch c => 0 | accepted | «MESSAGE_TWO_LINES "bye" 0 0»…
size 80 24 | «MESSAGE_TWO_LINES "hello" 0 0» | script | answer "bye" | batch e q space => 1 | fault: cancelled by user
size 80 24 | «MESSAGE_TWO_LINES "hello" 0 0» | script | answer "bye" | answer "bye" | batch e space e => 1 | fault: failed to read user input: no events left

# The forms of answers and of faults.
size 80 24 | «TWO_MESSAGES "hello" "n"» | script |   answer   ␉"a" ␍ | batch e | batch c => 0 | accepted | «TWO_MESSAGES "a" "n"»
size 80 24 | «EMPTY_STATE» | script | answer => 2 | bad input: line 4
size 80 24 | «EMPTY_STATE» | script | answer  => 2 | bad input: line 4
size 80 24 | «EMPTY_STATE» | script | answer x => 2 | bad input: line 4
size 80 24 | «EMPTY_STATE» | script | answer"a" => 2 | bad input: line 4
size 80 24 | «EMPTY_STATE» | script | answer␉"a" => 2 | bad input: line 4
size 80 24 | «EMPTY_STATE» | script | answer 1 => 2 | bad input: line 4
size 80 24 | «EMPTY_STATE» | script | answer null => 2 | bad input: line 4
size 80 24 | «EMPTY_STATE» | script | answer "a" "b" => 2 | bad input: line 4
size 80 24 | «EMPTY_STATE» | script | answer "a => 2 | bad input: line 4
size 80 24 | «EMPTY_STATE» | script | fault => 2 | bad input: line 4
size 80 24 | «EMPTY_STATE» | script | fault read => 2 | bad input: line 4
size 80 24 | «EMPTY_STATE» | script | fault edit => 2 | bad input: line 4
size 80 24 | «EMPTY_STATE» | script | fault write x => 2 | bad input: line 4
size 80 24 | «EMPTY_STATE» | script | faults read x => 2 | bad input: line 4
size 80 24 | «EMPTY_STATE» | script | fault read disk gone | batch c => 1 | fault: failed to read user input: disk gone
size 80 24 | «EMPTY_STATE» | script | batch none |   fault   read  two  spaces | batch c => 1 | fault: failed to read user input:  two  spaces
size 80 24 | «EMPTY_STATE» | script | fault read  | batch c => 1 | fault: failed to read user input:…
size 80 24 | «EMPTY_STATE» | script | batch c | fault read gone => 0 | accepted | «TWO_COMMITS»

# Escape, and each new key while the quit dialog is open.
«NEW_FILE_ONE_LINE 1 1» esc c => 0 | accepted | «NEW_FILE_ONE_LINE 1 1»…
«NEW_FILE_ONE_LINE 1 1» q esc c => 0 | accepted | «NEW_FILE_ONE_LINE 1 1»…
«NEW_FILE_ONE_LINE 1 1» q esc q space c => 1 | fault: cancelled by user
«NEW_FILE_ONE_LINE 1 1» q enter c => 1 | fault: cancelled by user
«NEW_FILE_ONE_LINE 1 1» q h enter c => 0 | accepted | «NEW_FILE_ONE_LINE 1 1»…
«TWO_FILES 0 1 0 0 0» q pagedown q space c => 0 | accepted | «TWO_FILES 0 0 0 0 0»…
«TWO_FILES 0 1 0 0 0» q pagedown pageup q pagedown space c => 0 | accepted | «TWO_FILES 0 1 0 0 1»…
«TWO_FILES 0 1 0 0 0» q a q c => 0 | accepted | «TWO_FILES 0 1 0 0 0»…
«TWO_FILES 0 1 0 0 0» q shift-A q c => 0 | accepted | «TWO_FILES 0 1 0 0 0»…
«TWO_FILES 0 1 0 0 0» q f q j space c => 0 | accepted | «TWO_FILES 0 1 0 0 1»…
«TWO_FILES 0 1 0 0 0» q shift-F q j space c => 0 | accepted | «TWO_FILES 0 1 0 0 1»…
size 80 24 | «TWO_MESSAGES "m" null» | script | answer "x" | batch q | batch e | batch q | batch c => 0 | accepted | «TWO_MESSAGES "m" null»

# Words: all of them are known, and a batch has any number of them, also none.
size 80 24 | «EMPTY_STATE» | script | batch shot redraw ensure view none click:0:0 click:00065535:65535 wheel-up wheel-down | batch zz => 2 | bad input: line 5
size 80 24 | «EMPTY_STATE» | script | batch up down left right pageup pagedown enter esc space q Q é 日 - : # " ␉ | batch zz => 2 | bad input: line 5
size 80 24 | «EMPTY_STATE» | script | batch ctrl-up alt-down shift-left ctrl-alt-right alt-shift-ctrl-space shift-alt-pageup ctrl-- alt-- shift-: ctrl-é | batch zz => 2 | bad input: line 5
size 80 24 | «TWO_FILES 0 0 0 0 0» | script | batch l l space | batch |   batch   j  space   | batch c => 0 | accepted | «TWO_FILES 0 1 1 0 0»…
size 80 24 | «TWO_FILES 0 0 0 0 0» | script | batch none none l none l none space c space => 0 | accepted | «TWO_FILES 0 1 0 0 0»…
size 80 24 | «EMPTY_STATE» | script | batch | batch => 1 | fault: failed to read user input: no events left
size 80 24 | «TWO_MESSAGES "a" null» | script | answer "b" | answer "c" | batch e e c => 0 | accepted | «TWO_MESSAGES "c" null»
size 80 24 | «NEW_FILE_ONE_LINE 1 1» | script | batch q h space c => 0 | accepted | «NEW_FILE_ONE_LINE 1 1»…
size 80 24 | «EMPTY_STATE» | script | batch c q => 0 | accepted | «TWO_COMMITS»
size 80 24 | «EMPTY_STATE» | script | batch q c => 1 | fault: cancelled by user

# Keys by their names, and with shift.
«TWO_FILES 0 0 0 0 0» right right space c => 0 | accepted | «TWO_FILES 0 1 0 0 0»…
«TWO_FILES 0 0 0 0 0» right shift-right space c => 0 | accepted | «TWO_FILES 0 1 0 0 0»…
«TWO_FILES 0 0 0 0 0» shift-l shift-l space c => 0 | accepted | «TWO_FILES 0 1 0 0 0»…
«TWO_FILES 0 0 0 0 0» down space c => 0 | accepted | «TWO_FILES 0 0 0 0 1»…
«TWO_FILES 0 0 0 0 0» down up space c => 0 | accepted | «TWO_FILES 0 1 1 1 0»…
«TWO_FILES 0 0 0 0 0» right right left left down space c => 0 | accepted | «TWO_FILES 0 0 0 1 0»…
«TWO_FILES 0 0 0 0 0» right right shift-left shift-left space c => 0 | accepted | «TWO_FILES 0 1 1 1 0»…

# Keys that mean nothing: with something held too much, or too little, and any other key.
«NEW_FILE_ONE_LINE 1 1» alt-q shift-q ctrl-q Q shift-Q c => 0 | accepted | «NEW_FILE_ONE_LINE 1 1»…
«NEW_FILE_ONE_LINE 1 1» shift-c alt-c C shift-C ctrl-shift-c shift-ctrl-c ctrl-alt-c ctrl-C c => 0 | accepted | «NEW_FILE_ONE_LINE 1 1»…
«NEW_FILE_ONE_LINE 1 1» shift-space alt-space ctrl-space shift-enter ctrl-enter alt-enter c => 0 | accepted | «NEW_FILE_ONE_LINE 1 1»…
«NEW_FILE_ONE_LINE 1 1» A F shift-a shift-f ctrl-a alt-a ctrl-shift-A alt-shift-A c => 0 | accepted | «NEW_FILE_ONE_LINE 1 1»…
«TWO_FILES 0 0 0 0 0» J shift-j shift-J shift-down alt-down alt-j ctrl-j shift-pagedown alt-pagedown space c => 0 | accepted | «TWO_FILES 0 1 1 1 0»…
«TWO_FILES 0 0 0 0 0» ctrl-right ctrl-l alt-l L shift-L shift-alt-right l l H shift-H ctrl-h alt-h ctrl-left alt-left space c => 0 | accepted | «TWO_FILES 0 1 0 0 0»…
«TWO_MESSAGES "m" null» shift-e alt-e E shift-E ctrl-alt-e c => 0 | accepted | «TWO_MESSAGES "m" null»
«NEW_FILE_ONE_LINE 1 1» x é 日 - : # " 1 shift-? alt-? c => 0 | accepted | «NEW_FILE_ONE_LINE 1 1»…
size 80 24 | «EMPTY_STATE» | script | batch ␉ c => 0 | accepted | «TWO_COMMITS»

# Bad words.
«EMPTY_STATE» ctrl-ctrl-c => 2 | bad input: line 4
«EMPTY_STATE» shift-ctrl-shift-c => 2 | bad input: line 4
«EMPTY_STATE» alt-shift-ctrl-alt-c => 2 | bad input: line 4
«EMPTY_STATE» ctrl- => 2 | bad input: line 4
«EMPTY_STATE» alt-shift- => 2 | bad input: line 4
«EMPTY_STATE» Ctrl-c => 2 | bad input: line 4
«EMPTY_STATE» ctrl+c => 2 | bad input: line 4
«EMPTY_STATE» control-c => 2 | bad input: line 4
«EMPTY_STATE» click:65536:0 => 2 | bad input: line 4
«EMPTY_STATE» click:0:65536 => 2 | bad input: line 4
«EMPTY_STATE» click:-1:0 => 2 | bad input: line 4
«EMPTY_STATE» click:+1:0 => 2 | bad input: line 4
«EMPTY_STATE» click:1 => 2 | bad input: line 4
«EMPTY_STATE» click:1: => 2 | bad input: line 4
«EMPTY_STATE» click::1 => 2 | bad input: line 4
«EMPTY_STATE» click:1:2:3 => 2 | bad input: line 4
«EMPTY_STATE» click: => 2 | bad input: line 4
«EMPTY_STATE» click => 2 | bad input: line 4
«EMPTY_STATE» shift-click:1:2 => 2 | bad input: line 4
«EMPTY_STATE» wheel => 2 | bad input: line 4
«EMPTY_STATE» wheel-left => 2 | bad input: line 4
«EMPTY_STATE» ctrl-wheel-up => 2 | bad input: line 4
«EMPTY_STATE» ctrl-shot => 2 | bad input: line 4
«EMPTY_STATE» shift-none => 2 | bad input: line 4
«EMPTY_STATE» Shot => 2 | bad input: line 4
«EMPTY_STATE» Enter => 2 | bad input: line 4
«EMPTY_STATE» page-up => 2 | bad input: line 4
«EMPTY_STATE» qq => 2 | bad input: line 4
«EMPTY_STATE» é => 2 | bad input: line 4
«EMPTY_STATE» q c zz q => 2 | bad input: line 6
size 80 24 | «EMPTY_STATE» | script | batch q c zz q => 2 | bad input: line 4
size 80 24 | «EMPTY_STATE» | script | batch q␉c => 2 | bad input: line 4
size 80 24 | «EMPTY_STATE» | script | batch shot zz => 2 | bad input: line 4

# Bad commands.
size 80 24 | «EMPTY_STATE» | script | BATCH q => 2 | bad input: line 4
size 80 24 | «EMPTY_STATE» | script | batchq => 2 | bad input: line 4
size 80 24 | «EMPTY_STATE» | script | shot => 2 | bad input: line 4
size 80 24 | «EMPTY_STATE» | script | Answer "a" => 2 | bad input: line 4
size 80 24 | «EMPTY_STATE» | script | answer x => 2 | bad input: line 4
size 80 24 | «EMPTY_STATE» | script | answer "a" b => 2 | bad input: line 4
size 80 24 | «EMPTY_STATE» | script | answer 'a' => 2 | bad input: line 4
size 80 24 | «EMPTY_STATE» | script | fault␉read x => 2 | bad input: line 4
size 80 24 | «EMPTY_STATE» | script | fault read␉x => 2 | bad input: line 4
size 80 24 | «EMPTY_STATE» | script | fault Read x => 2 | bad input: line 4
size 80 24 | «EMPTY_STATE» | script | ! | batch zz => 2 | bad input: line 4

# Places that no screenshot was taken to, before each way to end; a refused input has no screens.
«EMPTY_STATE» c shot => 0 | screen 0 | <this screenshot was never assigned> | accepted | «TWO_COMMITS»
size 80 24 | «EMPTY_STATE» | script | batch c shot shot | batch shot => 0 | screen 0 | <this screenshot was never assigned> | screen 1 | <this screenshot was never assigned> | screen 2 | <this screenshot was never assigned> | accepted | «TWO_COMMITS»
«EMPTY_STATE» q shot => 1 | screen 0 | <this screenshot was never assigned> | fault: cancelled by user
size 80 24 | «EMPTY_STATE» | script | fault read gone | batch shot => 1 | screen 0 | <this screenshot was never assigned> | fault: failed to read user input: gone
size 80 24 | [] | script | batch shot => 2 | bad state
size 20 5 | {"is_read_only":false,"commits":[{"message":null},{"message":null},{"message":null}],"files":[]} | script | batch shot => 2 | state not accepted

# The scripts of the folder examples.
size 80 24 | { |   "is_read_only": false, |   "commits": [], |   "files": [ |     { |       "old_path": null, |       "path": "shopping.txt", |       "file_mode": {"Unix": 33188}, |       "sections": [ |         {"Unchanged": {"lines": ["Shopping\n"]}}, |         {"Changed": {"lines": [ |           {"is_checked": false, "change_type": "Removed", "line": "milk\n"}, |           {"is_checked": false, "change_type": "Added", "line": "oat milk\n"} |         ]}}, |         {"Unchanged": {"lines": ["bread\n"]}}, |         {"Changed": {"lines": [ |           {"is_checked": false, "change_type": "Added", "line": "apples\n"}, |           {"is_checked": false, "change_type": "Added", "line": "pears\n"} |         ]}} |       ] |     }, |     { |       "old_path": null, |       "path": "todo.txt", |       "file_mode": {"Unix": 33188}, |       "sections": [ |         {"Unchanged": {"lines": ["Water the plants\n"]}}, |         {"Changed": {"lines": [ |           {"is_checked": false, "change_type": "Added", "line": "Call the bank\n"} |         ]}} |       ] |     } |   ] | } | script | # Take the whole first change of shopping.txt. | batch l | batch space | # Go down past its two lines to the second change, and take the pears alone. | batch j | batch j | batch j | batch j | batch j | batch space | # Accept. All of todo.txt waits for another commit. | batch c => 0 | accepted | {"is_read_only":false,"commits":[{"message":null},{"message":null}],"files":[{"old_path":null,"path":"shopping.txt","file_mode":{"Unix":33188},"sections":[{"Unchanged":{"lines":["Shopping\n"]}},{"Changed":{"lines":[{"is_checked":true,"change_type":"Removed","line":"milk\n"},{"is_checked":true,"change_type":"Added","line":"oat milk\n"}]}},{"Unchanged":{"lines":["bread\n"]}},{"Changed":{"lines":[{"is_checked":false,"change_type":"Added","line":"apples\n"},{"is_checked":true,"change_type":"Added","line":"pears\n"}]}}]},{"old_path":null,"path":"todo.txt","file_mode":{"Unix":33188},"sections":[{"Unchanged":{"lines":["Water the plants\n"]}},{"Changed":{"lines":[{"is_checked":false,"change_type":"Added","line":"Call the bank\n"}]}}]}]} | file 0 | selected 100644 text "Shopping\noat milk\nbread\npears\n" | unselected 100644 text "Shopping\nmilk\nbread\napples\n" | file 1 | selected 100644 text "Water the plants\n" | unselected 100644 text "Water the plants\nCall the bank\n"
size 80 24 | { |   "is_read_only": false, |   "commits": [], |   "files": [ |     { |       "old_path": null, |       "path": "deploy.sh", |       "file_mode": {"Unix": 33188}, |       "sections": [ |         {"FileMode": {"is_checked": false, "mode": {"Unix": 33261}}}, |         {"Unchanged": {"lines": ["#!/bin/sh\n"]}}, |         {"Changed": {"lines": [ |           {"is_checked": false, "change_type": "Removed", "line": "cp -r site /srv\n"}, |           {"is_checked": false, "change_type": "Added", "line": "rsync -r site /srv\n"} |         ]}} |       ] |     } |   ] | } | script | # The file becomes executable in this commit, and its line changes in another one. | batch l | batch space | batch c => 0 | accepted | {"is_read_only":false,"commits":[{"message":null},{"message":null}],"files":[{"old_path":null,"path":"deploy.sh","file_mode":{"Unix":33188},"sections":[{"FileMode":{"is_checked":true,"mode":{"Unix":33261}}},{"Unchanged":{"lines":["#!/bin/sh\n"]}},{"Changed":{"lines":[{"is_checked":false,"change_type":"Removed","line":"cp -r site /srv\n"},{"is_checked":false,"change_type":"Added","line":"rsync -r site /srv\n"}]}}]}]} | file 0 | selected 100755 text "#!/bin/sh\ncp -r site /srv\n" | unselected 100644 text "#!/bin/sh\nrsync -r site /srv\n"
size 80 24 | { |   "is_read_only": false, |   "commits": [], |   "files": [ |     { |       "old_path": null, |       "path": "index.html", |       "file_mode": {"Unix": 33188}, |       "sections": [ |         {"Changed": {"lines": [ |           {"is_checked": false, "change_type": "Removed", "line": "<img src=\"logo.gif\">\n"}, |           {"is_checked": false, "change_type": "Added", "line": "<img src=\"logo.png\">\n"} |         ]}}, |         {"Unchanged": {"lines": ["<p>Welcome.</p>\n"]}} |       ] |     }, |     { |       "old_path": null, |       "path": "logo.png", |       "file_mode": {"Unix": 33188}, |       "sections": [ |         {"Binary": { |           "is_checked": false, |           "old_description": "a1b2c3 (2048 bytes)", |           "new_description": "d4e5f6 (1024 bytes)" |         }} |       ] |     } |   ] | } | script | # Take the new picture, and leave the page that shows it. | batch j | batch space | batch c => 0 | accepted | {"is_read_only":false,"commits":[{"message":null},{"message":null}],"files":[{"old_path":null,"path":"index.html","file_mode":{"Unix":33188},"sections":[{"Changed":{"lines":[{"is_checked":false,"change_type":"Removed","line":"<img src=\"logo.gif\">\n"},{"is_checked":false,"change_type":"Added","line":"<img src=\"logo.png\">\n"}]}},{"Unchanged":{"lines":["<p>Welcome.</p>\n"]}}]},{"old_path":null,"path":"logo.png","file_mode":{"Unix":33188},"sections":[{"Binary":{"is_checked":true,"old_description":"a1b2c3 (2048 bytes)","new_description":"d4e5f6 (1024 bytes)"}}]}]} | file 0 | selected 100644 text "<img src=\"logo.gif\">\n<p>Welcome.</p>\n" | unselected 100644 text "<img src=\"logo.png\">\n<p>Welcome.</p>\n" | file 1 | selected 100644 binary "a1b2c3 (2048 bytes)" "d4e5f6 (1024 bytes)" | unselected 100644 unchanged

# The first screen of a file; a file that is open, with its section selected; and the same scrolled down, with its header pinned.
20 5 «NO_SECTIONS» shot c => 0
| screen 0
| "[File] [Edit] [Selec
| "( ) foo/bar      (+)
| accepted…
24 8 «CONTEXT_AND_CHANGE 0 1» l shot ctrl-down ctrl-down shot c => 0
| screen 0
| "[File] [Edit] [Select] [
| "[◐] f                [-]
| "        1 a⏎
| "  (◐) Section 1/1    (-)
| "    [ ] - b⏎
| "    [●] + c⏎
| screen 1
| "[File] [Edit] [Select] [
| "[◐] f                [-]
| "    [ ] - b⏎
| "    [●] + c⏎
| accepted
| «CONTEXT_AND_CHANGE 0 1»…
10 2 «MESSAGES_NO_SECTIONS "hello" null» ctrl-down shot c => 0
| screen 0
| "[File] [Ed
| "[Edit mes…
| accepted…
24 8 «FILE_OF_1 TEN_ADDED» l l j j j j j shot c => 0
| screen 0
| "[File] [Edit] [Select] [
| "[ ] f                [-]
| "    [ ] + 0⏎
| "    [ ] + 1⏎
| "    [ ] + 2⏎
| "    [ ] + 3⏎
| "    [ ] + 4⏎
| "    ( ) + 5⏎
| accepted…
24 14 «FILE_OF_3 ADDED CONTEXT_7 REMOVED» l shot c => 0
| screen 0
| "[File] [Edit] [Select] [
| "[ ] f                [-]
| "  ( ) Section 1/2    (-)
| "    [ ] + x⏎
| "        1 a⏎
| "        2 b⏎
| "        3 c⏎
| "        ⋮
| "        5 e⏎
| "        6 f⏎
| "        7 g⏎
| "  [ ] Section 2/2    [-]
| "    [ ] - y⏎
| accepted…
24 7 «SECOND_FILE_TWO_SECTIONS 0 0 0» l shot c => 0
| screen 0
| "[File] [Edit] [Select] [
| "[ ] p                [+]
| "[ ] q                [-]
| "  ( ) Section 1/2    (-)
| "    [ ] + x⏎
| "    [ ] + y⏎
| "  [ ] Section 2/2    [-]
| accepted
| «SECOND_FILE_TWO_SECTIONS 0 0 0»…

# A path that is too wide is cut with an ellipsis, and a symbol is never cut in half.
13 2 «PATHS null "日本語"» shot c => 0
| screen 0
| "[File] [Edit]
| "( ) 日本語(+)
| accepted…
12 2 «PATHS null "日本語"» shot c => 0
| screen 0
| "[File] [Edit
| "( ) 日本…(+)
| accepted…
11 2 «PATHS null "日本語"» shot c => 0
| screen 0
| "[File] [Edi
| "( ) 日 …(+)
| accepted…
24 5 «PATHS null "日本語日本語"» click:0:8 shot click:0:8 ? shot c c => 0
| screen 0
| "[File] [Edit] [Select] [
| "( ) 日 [Edit message (e)
| "       [Toggle current (
| "       [Toggle current a
| "       [Invert all items
| screen 1
| "┌Help──────────────────┐
| "│You can click the menu│
| "│                      │
| "│    General           │
| "└───────────────(Close)┘
| accepted…

# Scrolling: held between 0 and the last row that is drawn, and the extent begins at row 1 once the menu bar has left row 0.
30 3 «NO_SECTIONS» shot ctrl-down shot ctrl-down shot ctrl-down shot ctrl-up shot ctrl-up shot c => 0
| screen 0
| "[File] [Edit] [Select] [View]
| "( ) foo/bar                (+)
| screen 1
| "[File] [Edit] [Select] [View]
| screen 2
| "[File] [Edit] [Select] [View]
| "( ) foo/bar                (+)
| screen 3
| "[File] [Edit] [Select] [View]
| screen 4
| "[File] [Edit] [Select] [View]
| "( ) foo/bar                (+)
| screen 5
| "[File] [Edit] [Select] [View]
| "( ) foo/bar                (+)
| accepted…
24 8 «FILE_OF_1 TEN_ADDED» l ctrl-f shot ctrl-f shot ctrl-b shot ctrl-b shot c => 0
| screen 0
| "[File] [Edit] [Select] [
| "[ ] f                [-]
| "    [ ] + 7⏎
| "    [ ] + 8⏎
| "    [ ] + 9⏎
| screen 1
| "[File] [Edit] [Select] [
| "[ ] f                [-]
| screen 2
| "[File] [Edit] [Select] [
| "[ ] f                [-]
| "    [ ] + 2⏎
| "    [ ] + 3⏎
| "    [ ] + 4⏎
| "    [ ] + 5⏎
| "    [ ] + 6⏎
| "    [ ] + 7⏎
| screen 3
| "[File] [Edit] [Select] [
| "[ ] f                [-]
| "  ( ) Section 1/1    (-)
| "    [ ] + 0⏎
| "    [ ] + 1⏎
| "    [ ] + 2⏎
| "    [ ] + 3⏎
| "    [ ] + 4⏎
| accepted…
24 8 «FILE_OF_1 TEN_ADDED» l ctrl-down,ctrl-down,ctrl-down,ctrl-down,ctrl-down,ctrl-down,ctrl-down,ctrl-down,ctrl-down,ctrl-down,ctrl-down,ctrl-down,ctrl-down,ctrl-down shot wheel-up wheel-up shot wheel-down shot c => 0
| screen 0
| "[File] [Edit] [Select] [
| screen 1
| "[File] [Edit] [Select] [
| "[ ] f                [-]
| "    [ ] + 9⏎
| screen 2
| "[File] [Edit] [Select] [
| "[ ] f                [-]
| accepted…

# An open menu and an open dialog lengthen what may be scrolled over, and stand in the document: they move with the screen.
34 8 «NO_SECTIONS» click:0:24 ctrl-f shot ctrl-f shot click:0:24 ctrl-f shot c => 0
| screen 0
| "[File] [Edit] [Select] [View]
| "                       [Fold/unfol
| "                       [Fold/unfol
| "                       [Scroll up
| "                       [Scroll dow
| "                       [Previous p
| "                       [Next page
| screen 1
| "[File] [Edit] [Select] [View]
| "                       [Fold/unfol
| "                       [Fold/unfol
| "                       [Scroll up
| "                       [Scroll dow
| "                       [Previous p
| "                       [Next page
| screen 2
| "[File] [Edit] [Select] [View]
| accepted…
40 6 «NO_SECTIONS» ? ctrl-f shot ? ctrl-down shot c => 0
| screen 0
| "┌Help──────────────────────────────────┐
| "│You can click the menus with a mouse, │
| "│                                      │
| "│    General                           │
| "│    Quit/Cancel             q         │
| "└───────────────────────────────(Close)┘
| screen 1
| "[File] [Edit] [Select] [View]
| accepted…

# Pages of the selection: by half a screen, past keys that are not drawn, to the last key that way, and to nothing.
24 8 «FILE_OF_1 TEN_ADDED» l ctrl-d shot ctrl-d shot ctrl-u shot c => 0
| screen 0
| "[File] [Edit] [Select] [
| "[ ] f                [-]
| "  [ ] Section 1/1    [-]
| "    [ ] + 0⏎
| "    [ ] + 1⏎
| "    [ ] + 2⏎
| "    ( ) + 3⏎
| "    [ ] + 4⏎
| screen 1
| "[File] [Edit] [Select] [
| "[ ] f                [-]
| "    [ ] + 2⏎
| "    [ ] + 3⏎
| "    [ ] + 4⏎
| "    [ ] + 5⏎
| "    [ ] + 6⏎
| "    ( ) + 7⏎
| screen 2
| "[File] [Edit] [Select] [
| "[ ] f                [-]
| "    [ ] + 2⏎
| "    ( ) + 3⏎
| "    [ ] + 4⏎
| "    [ ] + 5⏎
| "    [ ] + 6⏎
| "    [ ] + 7⏎
| accepted…
24 8 «FILE_OF_1 TEN_ADDED» l ctrl-d ctrl-d ctrl-d shot ctrl-d shot ctrl-u,ctrl-u,ctrl-u,ctrl-u shot c => 0
| screen 0
| "[File] [Edit] [Select] [
| "[ ] f                [-]
| "    [ ] + 4⏎
| "    [ ] + 5⏎
| "    [ ] + 6⏎
| "    [ ] + 7⏎
| "    [ ] + 8⏎
| "    ( ) + 9⏎
| screen 1
| "[File] [Edit] [Select] [
| "[ ] f                [-]
| "    [ ] + 4⏎
| "    [ ] + 5⏎
| "    [ ] + 6⏎
| "    [ ] + 7⏎
| "    [ ] + 8⏎
| "    ( ) + 9⏎
| screen 2
| "[File] [Edit] [Select] [
| "( ) f                (-)
| "  [ ] Section 1/1    [-]
| "    [ ] + 0⏎
| "    [ ] + 1⏎
| "    [ ] + 2⏎
| "    [ ] + 3⏎
| "    [ ] + 4⏎
| accepted…
24 1 «TWO_FILES 0 0 0 0 0» l ctrl-d space c => 0 | accepted | «TWO_FILES 0 1 0 0 0»…
24 0 «TWO_FILES 0 0 0 0 0» l ctrl-d ctrl-d ctrl-u space c => 0 | accepted | «TWO_FILES 0 1 0 0 0»…
24 8 «FILE_OF_1 TEN_ADDED» l,ctrl-d shot j shot c => 0
| screen 0
| "[File] [Edit] [Select] [
| "[ ] f                [-]
| "  [ ] Section 1/1    [-]
| "    [ ] + 0⏎
| "    [ ] + 1⏎
| "    [ ] + 2⏎
| "    [ ] + 3⏎
| "    [ ] + 4⏎
| screen 1
| "[File] [Edit] [Select] [
| "( ) f                (-)
| "  [ ] Section 1/1    [-]
| "    [ ] + 0⏎
| "    [ ] + 1⏎
| "    [ ] + 2⏎
| "    [ ] + 3⏎
| "    [ ] + 4⏎
| accepted…
24 6 «FILES_OF_1_AND_1 ADDED TEN_ADDED» click:2:21,click:2:21,click:1:9,ctrl-d shot c => 0
| screen 0
| "[File] [Edit] [Select] [
| "[ ] g                [-]
| "    [ ] + 6⏎
| "    [ ] + 7⏎
| "    [ ] + 8⏎
| "    ( ) + 9⏎
| accepted…
24 9 «FILE_OF_3 ADDED CONTEXT_3 REMOVED» l click:5:9 ctrl-d shot j shot c => 0
| screen 0
| "[File] [Edit] [Select] [
| "[ ] f                [-]
| "  [ ] Section 1/2    [-]
| "    [ ] + x⏎
| "        1 a⏎
| "        2 b⏎
| "        3 c⏎
| "  [ ] Section 2/2    [-]
| "    [ ] - y⏎
| screen 1
| "[File] [Edit] [Select] [
| "( ) f                (-)
| "  [ ] Section 1/2    [-]
| "    [ ] + x⏎
| "        1 a⏎
| "        2 b⏎
| "        3 c⏎
| "  [ ] Section 2/2    [-]
| "    [ ] - y⏎
| accepted…

# The selection is brought onto the screen by every move, also one that stays, and by folds; not by a click that selects.
24 5 «FILE_OF_1 TEN_ADDED» l l pageup shot ctrl-f k shot ctrl-f f shot c => 0
| screen 0
| "[File] [Edit] [Select] [
| "[ ] f                [-]
| "  [ ] Section 1/1    [-]
| "    ( ) + 0⏎
| "    [ ] + 1⏎
| screen 1
| "[File] [Edit] [Select] [
| "[ ] f                [-]
| "  ( ) Section 1/1    (-)
| "    [ ] + 0⏎
| "    [ ] + 1⏎
| screen 2
| "[File] [Edit] [Select] [
| "[ ] f                [±]
| "  ( ) Section 1/1    (+)
| accepted…
24 5 «FILE_OF_1 TEN_ADDED» l ctrl-f ensure shot c => 0
| screen 0
| "[File] [Edit] [Select] [
| "[ ] f                [-]
| "  ( ) Section 1/1    (-)
| "    [ ] + 0⏎
| "    [ ] + 1⏎
| accepted…
24 5 «FILE_OF_1 TEN_ADDED» l ctrl-f,ensure shot click:4:9 shot c => 0
| screen 0
| "[File] [Edit] [Select] [
| "[ ] f                [-]
| "  ( ) Section 1/1    (-)
| "    [ ] + 0⏎
| "    [ ] + 1⏎
| screen 1
| "[File] [Edit] [Select] [
| "[ ] f                [-]
| "  [ ] Section 1/1    [-]
| "    [ ] + 0⏎
| "    ( ) + 1⏎
| accepted…
24 5 «FILE_OF_1 TEN_ADDED» l l click:2:9 ctrl-f none shot h shot c => 0
| screen 0
| "[File] [Edit] [Select] [
| "[ ] f                [-]
| "    [ ] + 4⏎
| "    [ ] + 5⏎
| "    [ ] + 6⏎
| screen 1
| "[File] [Edit] [Select] [
| "[ ] f                [±]
| "  ( ) Section 1/1    (+)
| accepted…
24 6 «FILES_OF_1_AND_1 TEN_ADDED ADDED» l l ctrl-f ctrl-f click:1:1 shot ctrl-b h shot shift-F shot c => 0
| screen 0
| "[File] [Edit] [Select] [
| "( ) g                (+)
| screen 1
| "[File] [Edit] [Select] [
| "[ ] f                [-]
| "    [ ] + 7⏎
| "    [ ] + 8⏎
| "    [ ] + 9⏎
| "( ) g                (+)
| screen 2
| "[File] [Edit] [Select] [
| "[ ] f                [-]
| "    [ ] + 9⏎
| "( ) g                (-)
| "  [ ] Section 1/1    [-]
| "    [ ] + x⏎
| accepted…

# Three states meet in a batch: what was drawn last says what is hit, how far one may scroll, and where the selection stands; the scroll and the selection are those of now.
24 8 «CONTEXT_AND_CHANGE 0 1» l ctrl-down,click:3:10 shot c => 0
| screen 0
| "[File] [Edit] [Select] [
| "[◐] f                [-]
| "  [◐] Section 1/1    [-]
| "    ( ) - b⏎
| "    [●] + c⏎
| accepted…
24 8 «CONTEXT_AND_CHANGE 0 1» l l h ctrl-down ctrl-down ctrl-up,click:0:0,click:0:0 shot c => 0
| screen 0
| "[File] [Edit] [Select] [
| "(◐) f                (-)
| "  [◐] Section 1/1    [-]
| "    [ ] - b⏎
| "    [●] + c⏎
| accepted
| «CONTEXT_AND_CHANGE 0 1»…
24 8 «CONTEXT_AND_CHANGE 0 1» l l h ctrl-down ctrl-down ctrl-up,click:0:22,click:0:22,shot shot click:1:22 shot c => 0
| screen 0
| "[File] [Edit] [Select] [
| "[◐] f                [-]
| "    [ ] - b⏎
| "    [●] + c⏎
| screen 1
| "[File] [Edit] [Select] [
| "(◐) f                (-)
| "  [◐] Section 1/1    [-]
| "    [ ] - b⏎
| "    [●] + c⏎
| screen 2
| "[File] [Edit] [Select] [
| "(◐) f                (+)
| accepted
| «CONTEXT_AND_CHANGE 0 1»…
24 8 «CONTEXT_AND_CHANGE 0 1» l j,click:4:9,space shot c => 0
| screen 0
| "[File] [Edit] [Select] [
| "[●] f                [-]
| "        1 a⏎
| "  [●] Section 1/1    [-]
| "    (●) - b⏎
| "    [●] + c⏎
| accepted
| «CONTEXT_AND_CHANGE 1 1»…
24 4 «FILES_OF_1_AND_1 ADDED ADDED» j,l,k,k,click:2:9,shot shot c => 0
| screen 0
| "[File] [Edit] [Select] [
| "( ) f                (+)
| "[ ] g                [+]
| screen 1
| "[File] [Edit] [Select] [
| "( ) g                (-)
| "  [ ] Section 1/1    [-]
| "    [ ] + x⏎
| accepted…
«NO_SECTIONS» click:0:1 click:0:8,click:1:3 => 0 | accepted | «NO_SECTIONS»…
24 8 «FILE_OF_3 ADDED CONTEXT_7 REMOVED» l click:4:0 enter shift-F shift-F,ctrl-f shot c => 0
| screen 0
| "[File] [Edit] [Select] [
| accepted…

# A file without sections before one of a line, and a file of two lines: what is inverted, folded and moved to.
«SECOND_FILE_ONE_LINE 1» shift-A shift-A c => 0 | accepted | «SECOND_FILE_ONE_LINE 1»…
«TWO_ADDED_LINES 0 0» l l shift-F shift-F space c => 0 | accepted | «TWO_ADDED_LINES 1 1»…
«TWO_ADDED_LINES 0 0» l l shift-F space c => 0 | accepted | «TWO_ADDED_LINES 1 0»…
«TWO_ADDED_LINES 0 0» l l enter space c => 0 | accepted | «TWO_ADDED_LINES 1 1»…
«SECOND_FILE_ONE_LINE 0» l shot space c => 0
| screen 0
| "[File] [Edit] [Select] [View]
| "[ ] p                                                                        [+]
| "[ ] q                                                                        [-]
| "  ( ) Section 1/1                                                            (-)
| "    [ ] + x⏎
| accepted
| «SECOND_FILE_ONE_LINE 1»…

# On a large screen: a folded file is scrolled over and back, a menu is opened and left or chosen from, and a click below the screen hits nothing.
«FILE_OF_1 ADDED» ctrl-down shot ctrl-down shot ctrl-down shot c => 0
| screen 0
| "[File] [Edit] [Select] [View]
| screen 1
| "[File] [Edit] [Select] [View]
| "( ) f                                                                        (+)
| screen 2
| "[File] [Edit] [Select] [View]
| accepted
| «FILE_OF_1 ADDED»…
«NO_SECTIONS» click:0:1 shot click:1:30 shot c => 0
| screen 0
| "[File] [Edit] [Select] [View]
| "[Confirm (c)]                                                                (+)
| "[Quit (q)]
| screen 1
| "[File] [Edit] [Select] [View]
| "( ) foo/bar                                                                  (+)
| accepted
| «NO_SECTIONS»…
«NO_SECTIONS» click:0:1 click:2:3 c => 1 | fault: cancelled by user
«NO_SECTIONS» shot click:24:0 shot c => 0
| screen 0
| "[File] [Edit] [Select] [View]
| "( ) foo/bar                                                                  (+)
| screen 1
| "[File] [Edit] [Select] [View]
| "( ) foo/bar                                                                  (+)
| accepted
| «NO_SECTIONS»…

# A line of context is selected by a click and toggles nothing, and the next key from there is the file; a menu's item moves to the next key.
24 14 «FILE_OF_3 ADDED CONTEXT_7 REMOVED» l click:4:0 enter shot j shot c => 0
| screen 0
| "[File] [Edit] [Select] [
| "[ ] f                [-]
| "  [ ] Section 1/2    [-]
| "    [ ] + x⏎
| "        1 a⏎
| "        2 b⏎
| "        3 c⏎
| "        ⋮
| "        5 e⏎
| "        6 f⏎
| "        7 g⏎
| "  [ ] Section 2/2    [-]
| "    [ ] - y⏎
| screen 1
| "[File] [Edit] [Select] [
| "( ) f                (-)
| "  [ ] Section 1/2    [-]
| "    [ ] + x⏎
| "        1 a⏎
| "        2 b⏎
| "        3 c⏎
| "        ⋮
| "        5 e⏎
| "        6 f⏎
| "        7 g⏎
| "  [ ] Section 2/2    [-]
| "    [ ] - y⏎
| accepted
| «FILE_OF_3 ADDED CONTEXT_7 REMOVED»…
24 8 «FILE_OF_1 TEN_ADDED» l click:0:15 click:2:15 shot c => 0
| screen 0
| "[File] [Edit] [Select] [
| "[ ] f                [-]
| "  [ ] Section 1/1    [-]
| "    ( ) + 0⏎
| "    [ ] + 1⏎
| "    [ ] + 2⏎
| "    [ ] + 3⏎
| "    [ ] + 4⏎
| accepted
| «FILE_OF_1 TEN_ADDED»…

# After Redraw the screen is blank until the next frame.
20 5 «NO_SECTIONS» redraw,shot shot c => 0
| screen 0
| "
| screen 1
| "[File] [Edit] [Selec
| "( ) foo/bar      (+)
| accepted…
size 24 4 | «MESSAGES_NO_SECTIONS "m" null» | script | answer "new" | batch shot e shot | batch shot redraw shot c => 0
| screen 0
| "[File] [Edit] [Select] [
| "
| "[Edit message]  •  m
| screen 1
| "[File] [Edit] [Select] [
| "
| "[Edit message]  •  m
| screen 2
| "[File] [Edit] [Select] [
| "
| "[Edit message]  •  new
| screen 3
| "
| accepted
| «MESSAGES_NO_SECTIONS "new" null»…

# In one batch: into a file of each kind of section, a screenshot, which is of the frame before, and the end.
24 3 «NO_SECTIONS» l,shot,c => 0
| screen 0
| "[File] [Edit] [Select] [
| "( ) foo/bar          (+)
| accepted
| «NO_SECTIONS»…
24 3 «FILE_OF_1 CONTEXT_0» l,shot,c => 0
| screen 0
| "[File] [Edit] [Select] [
| "( ) f                (+)
| accepted
| «FILE_OF_1 CONTEXT_0»…
24 3 «FILE_OF_1 NO_LINES» l,shot,c => 0
| screen 0
| "[File] [Edit] [Select] [
| "( ) f                (+)
| accepted
| «FILE_OF_1 NO_LINES»…
24 3 «FILE_OF_1 {"Binary":{"is_checked":true,"old_description":"old","new_description":null}}» l,shot,c => 0
| screen 0
| "[File] [Edit] [Select] [
| "(●) f                (+)
| accepted
| «FILE_OF_1 {"Binary":{"is_checked":true,"old_description":"old","new_description":null}}»…
24 3 «FILE_OF_1 DELETION» l,shot,c => 0
| screen 0
| "[File] [Edit] [Select] [
| "(●) f                (+)
| accepted
| «FILE_OF_1 DELETION»…
24 3 «FILE_OF_3 CONTEXT_1 ADDED BINARY_OLD» l,shot,c => 0
| screen 0
| "[File] [Edit] [Select] [
| "( ) f                (+)
| accepted
| «FILE_OF_3 CONTEXT_1 ADDED BINARY_OLD»…

# Context: nothing, one to six lines, or more, as the first, a middle, the last and the only section.
24 5 «FILE_OF_2 CONTEXT_0 ADDED» l shot c => 0
| screen 0
| "[File] [Edit] [Select] [
| "[ ] f                [-]
| "
| "  ( ) Section 1/1    (-)
| "    [ ] + x⏎
| accepted…
24 5 «FILE_OF_2 CONTEXT_1 ADDED» l shot c => 0
| screen 0
| "[File] [Edit] [Select] [
| "[ ] f                [-]
| "        1 a⏎
| "  ( ) Section 1/1    (-)
| "    [ ] + x⏎
| accepted…
24 7 «FILE_OF_2 CONTEXT_3 ADDED» l shot c => 0
| screen 0
| "[File] [Edit] [Select] [
| "[ ] f                [-]
| "        1 a⏎
| "        2 b⏎
| "        3 c⏎
| "  ( ) Section 1/1    (-)
| "    [ ] + x⏎
| accepted…
24 7 «FILE_OF_2 CONTEXT_4 ADDED» l shot c => 0
| screen 0
| "[File] [Edit] [Select] [
| "[ ] f                [-]
| "        2 b⏎
| "        3 c⏎
| "        4 d⏎
| "  ( ) Section 1/1    (-)
| "    [ ] + x⏎
| accepted…
24 7 «FILE_OF_2 CONTEXT_6 ADDED» l shot c => 0
| screen 0
| "[File] [Edit] [Select] [
| "[ ] f                [-]
| "        4 d⏎
| "        5 e⏎
| "        6 f⏎
| "  ( ) Section 1/1    (-)
| "    [ ] + x⏎
| accepted…
24 7 «FILE_OF_2 CONTEXT_7 ADDED» l shot c => 0
| screen 0
| "[File] [Edit] [Select] [
| "[ ] f                [-]
| "        5 e⏎
| "        6 f⏎
| "        7 g⏎
| "  ( ) Section 1/1    (-)
| "    [ ] + x⏎
| accepted…
24 12 «FILE_OF_3 ADDED CONTEXT_0 REMOVED» l shot c => 0
| screen 0
| "[File] [Edit] [Select] [
| "[ ] f                [-]
| "  ( ) Section 1/2    (-)
| "    [ ] + x⏎
| "
| "  [ ] Section 2/2    [-]
| "    [ ] - y⏎
| accepted…
24 12 «FILE_OF_3 ADDED CONTEXT_1 REMOVED» l shot c => 0
| screen 0
| "[File] [Edit] [Select] [
| "[ ] f                [-]
| "  ( ) Section 1/2    (-)
| "    [ ] + x⏎
| "        1 a⏎
| "  [ ] Section 2/2    [-]
| "    [ ] - y⏎
| accepted…
24 12 «FILE_OF_3 ADDED CONTEXT_3 REMOVED» l shot c => 0
| screen 0
| "[File] [Edit] [Select] [
| "[ ] f                [-]
| "  ( ) Section 1/2    (-)
| "    [ ] + x⏎
| "        1 a⏎
| "        2 b⏎
| "        3 c⏎
| "  [ ] Section 2/2    [-]
| "    [ ] - y⏎
| accepted…
24 12 «FILE_OF_3 ADDED CONTEXT_6 REMOVED» l shot c => 0
| screen 0
| "[File] [Edit] [Select] [
| "[ ] f                [-]
| "  ( ) Section 1/2    (-)
| "    [ ] + x⏎
| "        1 a⏎
| "        2 b⏎
| "        3 c⏎
| "        4 d⏎
| "        5 e⏎
| "        6 f⏎
| "  [ ] Section 2/2    [-]
| "    [ ] - y⏎
| accepted…
24 12 «FILE_OF_3 ADDED CONTEXT_7 REMOVED» l shot c => 0
| screen 0
| "[File] [Edit] [Select] [
| "[ ] f                [-]
| "  ( ) Section 1/2    (-)
| "    [ ] + x⏎
| "        1 a⏎
| "        2 b⏎
| "        3 c⏎
| "        ⋮
| "        5 e⏎
| "        6 f⏎
| "        7 g⏎
| "  [ ] Section 2/2    [-]
| accepted…
24 8 «FILE_OF_2 ADDED CONTEXT_0» l shot c => 0
| screen 0
| "[File] [Edit] [Select] [
| "[ ] f                [-]
| "  ( ) Section 1/1    (-)
| "    [ ] + x⏎
| accepted…
24 8 «FILE_OF_2 ADDED CONTEXT_1» l shot c => 0
| screen 0
| "[File] [Edit] [Select] [
| "[ ] f                [-]
| "  ( ) Section 1/1    (-)
| "    [ ] + x⏎
| "        1 a⏎
| accepted…
24 8 «FILE_OF_2 ADDED CONTEXT_3» l shot c => 0
| screen 0
| "[File] [Edit] [Select] [
| "[ ] f                [-]
| "  ( ) Section 1/1    (-)
| "    [ ] + x⏎
| "        1 a⏎
| "        2 b⏎
| "        3 c⏎
| accepted…
24 8 «FILE_OF_2 ADDED CONTEXT_4» l shot c => 0
| screen 0
| "[File] [Edit] [Select] [
| "[ ] f                [-]
| "  ( ) Section 1/1    (-)
| "    [ ] + x⏎
| "        1 a⏎
| "        2 b⏎
| "        3 c⏎
| "        ⋮
| accepted…
24 8 «FILE_OF_2 ADDED CONTEXT_6» l shot c => 0
| screen 0
| "[File] [Edit] [Select] [
| "[ ] f                [-]
| "  ( ) Section 1/1    (-)
| "    [ ] + x⏎
| "        1 a⏎
| "        2 b⏎
| "        3 c⏎
| "        ⋮
| accepted…
24 8 «FILE_OF_2 ADDED CONTEXT_7» l shot c => 0
| screen 0
| "[File] [Edit] [Select] [
| "[ ] f                [-]
| "  ( ) Section 1/1    (-)
| "    [ ] + x⏎
| "        1 a⏎
| "        2 b⏎
| "        3 c⏎
| "        ⋮
| accepted…
24 4 «FILE_OF_1 CONTEXT_0» f shot c => 0
| screen 0
| "[File] [Edit] [Select] [
| "( ) f                (-)
| accepted…
24 4 «FILE_OF_1 CONTEXT_4» f shot c => 0
| screen 0
| "[File] [Edit] [Select] [
| "( ) f                (-)
| accepted…
24 9 «FILE_OF_4 CONTEXT_1 ADDED CONTEXT_1 CONTEXT_1» l shot f shot c => 0
| screen 0
| "[File] [Edit] [Select] [
| "[ ] f                [-]
| "        1 a⏎
| "  ( ) Section 1/1    (-)
| "    [ ] + x⏎
| "        2 a⏎
| screen 1
| "[File] [Edit] [Select] [
| "[ ] f                [±]
| "  ( ) Section 1/1    (+)
| accepted…
24 14 «FILE_OF_5 ADDED CONTEXT_7 ADDED CONTEXT_7 REMOVED» l f shot c => 0
| screen 0
| "[File] [Edit] [Select] [
| "[ ] f                [±]
| "  ( ) Section 1/3    (+)
| "        1 a⏎
| "        2 b⏎
| "        3 c⏎
| "        ⋮
| "        5 e⏎
| "        6 f⏎
| "        7 g⏎
| "  [ ] Section 2/3    [-]
| "    [ ] + x⏎
| "        8 a⏎
| "        9 b⏎
| accepted…
24 14 «FILE_OF_5 CONTEXT_1 MODE_CHANGE CONTEXT_1 BINARY_BOTH CONTEXT_1» l shot h f shot c => 0
| screen 0
| "[File] [Edit] [Select] [
| "[ ] f                [-]
| "        1 a⏎
| "  ( ) File mode set to …
| "        2 a⏎
| "  [ ] (binary contents:…
| "        3 a⏎
| screen 1
| "[File] [Edit] [Select] [
| "[ ] f                [-]
| "        1 a⏎
| "  ( ) File mode set to …
| "        2 a⏎
| "  [ ] (binary contents:…
| "        3 a⏎
| accepted…

# A section without lines is toggled on, with its effect on a new file.
«NEW_FILE_NO_LINES 0» l space c => 0 | accepted | «NEW_FILE_NO_LINES 1»…

# Modes, and contents that are no text; boxes where nothing may be changed.
40 9 «FILE_OF_5 MODE_CHANGE DELETION BINARY_NONE BINARY_OLD BINARY_BOTH» l shot space shot c => 0
| screen 0
| "[File] [Edit] [Select] [View]
| "[◐] f                                [-]
| "  ( ) File mode set to 100755
| "  [●] File deleted
| "  [ ] (binary contents )
| "  [ ] (binary contents: a)
| "  [ ] (binary contents: a -> b)
| screen 1
| "[File] [Edit] [Select] [View]
| "[◐] f                                [-]
| "  (●) File mode set to 100755
| "  [●] File deleted
| "  [ ] (binary contents )
| "  [ ] (binary contents: a)
| "  [ ] (binary contents: a -> b)
| accepted…
24 5 «FILE_OF_3 BINARY_NEW MODE_CHANGE DELETION» l pagedown shot c => 0
| screen 0
| "[File] [Edit] [Select] [
| "[◐] f                [-]
| "  [ ] (binary contents:…
| "  ( ) File mode set to …
| "  [●] File deleted
| accepted…
40 8 «READ_ONLY_FILE_OF_3 LONG_LINE_AND_NO_END DELETION BINARY_BOTH» l shot space enter a shift-A shot l shot c => 0
| screen 0
| "[File] [Edit] [Select] [View]
| "<◐> f                                [-]
| "  <◐> Section 1/3                    (-)
| "    < > + the first line of a long file⏎
| "    <●> - no end
| "  <●> File deleted
| "  < > (binary contents: a -> b)
| screen 1
| "[File] [Edit] [Select] [View]
| "<◐> f                                [-]
| "  <◐> Section 1/3                    [-]
| "    < > + the first line of a long file⏎
| "    <●> - no end
| "  <●> File deleted
| "  < > (binary contents: a -> b)
| screen 2
| "[File] [Edit] [Select] [View]
| "<◐> f                                [-]
| "  <◐> Section 1/3                    [-]
| "    < > + the first line of a long file⏎
| "    <●> - no end
| "  <●> File deleted
| "  < > (binary contents: a -> b)
| accepted
| «READ_ONLY_FILE_OF_3 LONG_LINE_AND_NO_END DELETION BINARY_BOTH»…
24 5 «FILE_OF_1 LONG_LINE_AND_NO_END» l shot c => 0
| screen 0
| "[File] [Edit] [Select] [
| "[◐] f                [-]
| "  (◐) Section 1/1    (-)
| "    [ ] + the first lin…
| "    [●] - no end
| accepted…

# Folds of a file: closed, open in part, open; and of an empty section.
24 7 «FILE_OF_3 ADDED NO_LINES MODE_CHANGE» shot l shot f shot shift-F shot shift-F shot c => 0
| screen 0
| "[File] [Edit] [Select] [
| "( ) f                (+)
| screen 1
| "[File] [Edit] [Select] [
| "[ ] f                [-]
| "  ( ) Section 1/3    (-)
| "    [ ] + x⏎
| "  [ ] Section 2/3    [-]
| "  [ ] File mode set to …
| screen 2
| "[File] [Edit] [Select] [
| "[ ] f                [±]
| "  ( ) Section 1/3    (+)
| "  [ ] Section 2/3    [-]
| "  [ ] File mode set to …
| screen 3
| "[File] [Edit] [Select] [
| "[ ] f                [-]
| "  ( ) Section 1/3    (-)
| "    [ ] + x⏎
| "  [ ] Section 2/3    [-]
| "  [ ] File mode set to …
| screen 4
| "[File] [Edit] [Select] [
| "( ) f                (+)
| accepted…

# Messages: none, an empty one, spaces, two lines, one that is too wide, and characters that take no column.
40 6 «MESSAGES_NO_SECTIONS "" null» shot c => 0
| screen 0
| "[File] [Edit] [Select] [View]
| "
| "[Edit message]  •  (no message)
| "
| "( ) f                                (+)
| accepted…
40 6 «MESSAGES_NO_SECTIONS "\u0020\t\u3000\nsecond" null» shot c => 0
| screen 0
| "[File] [Edit] [Select] [View]
| "
| "[Edit message]  •  (no message)
| "
| "( ) f                                (+)
| accepted…
40 6 «MESSAGES_NO_SECTIONS "\u2003first\u0020\r\nsecond" null» shot c => 0
| screen 0
| "[File] [Edit] [Select] [View]
| "
| "[Edit message]  •  first
| "
| "( ) f                                (+)
| accepted…
40 6 «MESSAGES_NO_SECTIONS "a\u0020message\u0020that\u0020is\u0020too\u0020wide" null» shot c => 0
| screen 0
| "[File] [Edit] [Select] [View]
| "
| "[Edit message]  •  a message that is to…
| "
| "( ) f                                (+)
| accepted…
40 6 «MESSAGES_NO_SECTIONS "a\tb\u001cc" null» shot c => 0
| screen 0
| "[File] [Edit] [Select] [View]
| "
| "[Edit message]  •  abc
| "
| "( ) f                                (+)
| accepted…
40 6 «MESSAGES_NO_SECTIONS "\u001c" null» shot c => 0
| screen 0
| "[File] [Edit] [Select] [View]
| "
| "[Edit message]  •
| "
| "( ) f                                (+)
| accepted…
40 3 «MESSAGES_NO_SECTIONS null "m"» shot c => 0
| screen 0
| "[File] [Edit] [Select] [View]
| "( ) f                                (+)
| accepted…

# Paths: an old one, wide symbols, a combining mark, controls; and the characters of a line, of which none vanishes.
30 2 «PATHS "old" "new"» shot c => 0
| screen 0
| "[File] [Edit] [Select] [View]
| "( ) old => new             (+)
| accepted…
14 2 «PATHS "old" "new"» shot c => 0
| screen 0
| "[File] [Edit]
| "( ) old =>…(+)
| accepted…
24 2 «PATHS null "a\tb"» shot c => 0
| screen 0
| "[File] [Edit] [Select] [
| "( ) ab               (+)
| accepted…
24 2 «PATHS null "e\u0301\u001b\u0000日"» shot c => 0
| screen 0
| "[File] [Edit] [Select] [
| "( ) é日              (+)
| accepted…
24 2 «PATHS null ""» shot c => 0
| screen 0
| "[File] [Edit] [Select] [
| "( )                  (+)
| accepted…
24 8 «FILE_OF_1 {"Changed":{"lines":[{"is_checked":false,"change_type":"Added","line":"a\u0301\u0000日\n"}]}}» l shot c => 0
| screen 0
| "[File] [Edit] [Select] [
| "[ ] f                [-]
| "  ( ) Section 1/1    (-)
| "    [ ] + a�␀日⏎
| accepted…
40 9 «FILE_OF_2 {"Unchanged":{"lines":["\u007f\u001b\u0085","\r\n"]}} {"Changed":{"lines":[{"is_checked":false,"change_type":"Added","line":"\ta\tb"},{"is_checked":true,"change_type":"Removed","line":"e\u0301日\u200d"},{"is_checked":true,"change_type":"Removed","line":""}]}}» l shot c => 0
| screen 0
| "[File] [Edit] [Select] [View]
| "[◐] f                                [-]
| "        1 ␡␛�
| "        2 ␍⏎
| "  (◐) Section 1/1                    (-)
| "    [ ] + →   a→   b
| "    [●] - e�日�
| "    [●] -
| accepted…

# The picture of each control character.
60 4 «FILE_OF_1 {"Changed":{"lines":[{"is_checked":false,"change_type":"Added","line":"\u0000\u0001\u0002\u0003\u0004\u0005\u0006\u0007\u0008\u0009\u000a\u000b\u000c\u000d\u000e\u000f\u0010\u0011\u0012\u0013\u0014\u0015\u0016\u0017\u0018\u0019\u001a\u001b\u001c\u001d\u001e\u001f\u007f\n"}]}}» l shot c => 0
| screen 0
| "[File] [Edit] [Select] [View]
| "[ ] f                                                    [-]
| "  ( ) Section 1/1                                        (-)
| "    [ ] + ␀␁␂␃␄␅␆␇␈→   ⏎␋␌␍␎␏␐␑␒␓␔␕␖␗␘␙␚␛␜␝␞␟␡⏎
| accepted…

# Without files.
«EMPTY_STATE» shot c => 0
| screen 0
| "[File] [Edit] [Select] [View]
| "
| "
| "
| "
| "
| "                    There are no changes to view.
| accepted…
20 3 «EMPTY_STATE» shot c => 0
| screen 0
| "[File] [Edit] [Selec
| "There are no change…
| accepted…
1 1 «EMPTY_STATE» shot c => 0
| screen 0
| "[
| accepted…
40 9 «TWO_MESSAGES "m" null» shot c => 0
| screen 0
| "[File] [Edit] [Select] [View]
| "
| "[Edit message]  •  m
| "     There are no changes to view.
| accepted…
40 3 «TWO_MESSAGES "m" null» shot c => 0
| screen 0
| "[File] [Edit] [Select] [View]
| "     There are no changes to view.
| "[Edit message]  •  m
| accepted…
40 12 «TWO_MESSAGES "m" null» ctrl-down ctrl-down ctrl-down shot c => 0
| screen 0
| "[File] [Edit] [Select] [View]
| "     There are no changes to view.
| accepted…
40 12 «EMPTY_STATE» ctrl-down ctrl-down ctrl-down shot c => 0
| screen 0
| "[File] [Edit] [Select] [View]
| "
| "     There are no changes to view.
| accepted…
«TWO_MESSAGES null null» l h j ctrl-d space enter f shift-F a c => 0
| accepted
| «TWO_MESSAGES null null»…

# Screens of any size: what has no place is not shown.
0 0 «NO_SECTIONS» shot l ? q shot space c => 0
| screen 0
| screen 1
| accepted…
0 5 «NO_SECTIONS» shot click:0:0 c => 0
| screen 0
| accepted…
5 0 «NO_SECTIONS» shot ctrl-f ctrl-d l c => 0
| screen 0
| accepted…
1 1 «FILE_OF_1 CHECKED» shot l shot q shot ? shot ctrl-c => 1
| screen 0
| "[
| screen 1
| "[
| screen 2
| "┌
| screen 3
| "┌
| fault: cancelled by user
1 2 «NO_SECTIONS» shot c => 0
| screen 0
| "[
| ")
| accepted…
2 2 «NO_SECTIONS» shot c => 0
| screen 0
| "[F
| "+)
| accepted…
3 3 «FILE_OF_1 CHECKED» l shot c => 0
| screen 0
| "[Fi
| "[-]
| "(-)
| accepted…
3 3 «TWO_ADDED_LINES 0 0» l shot ctrl-down,ctrl-down,ctrl-down shot c => 0
| screen 0
| "[Fi
| "[-]
| "(-)
| screen 1
| "[Fi
| "[-]
| accepted
| «TWO_ADDED_LINES 0 0»…
3 3 «TWO_ADDED_LINES 0 0» l ctrl-down,ctrl-down,ctrl-down,ctrl-down,ctrl-down,ctrl-down,ctrl-down,ctrl-down shot c => 0
| screen 0
| "[Fi
| accepted
| «TWO_ADDED_LINES 0 0»…
5 4 «FILE_OF_1 CHECKED» l shot c => 0
| screen 0
| "[File
| "[…[-]
| "  (-)
| "    …
| accepted…
7 4 «FILE_OF_1 CHECKED» l shot c => 0
| screen 0
| "[File]
| "[●]…[-]
| "  (…(-)
| "    [●…
| accepted…
8 5 «FILE_OF_2 CHECKED CONTEXT_1» l shot c => 0
| screen 0
| "[File] [
| "[●] f[-]
| "  (●…(-)
| "    [●]…
| "       …
| accepted…
9 2 «NO_SECTIONS» shot c => 0
| screen 0
| "[File] [E
| "( ) f…(+)
| accepted…
size 9 4 | «MESSAGES_NO_SECTIONS "m" null» | script | answer "n" | batch shot | batch click:2:8 | batch c => 0
| screen 0
| "[File] [E
| "
| "[Edit me…
| accepted
| «MESSAGES_NO_SECTIONS "n" null»…
10 2 «NO_SECTIONS» shot c => 0
| screen 0
| "[File] [Ed
| "( ) fo…(+)
| accepted…
65535 1 «NO_SECTIONS» shot c => 0
| screen 0
| "[File] [Edit] [Select] [View]
| accepted…
1 65535 «NO_SECTIONS» ctrl-f ctrl-f c => 0
| accepted…

# A click off the screen does nothing. A click on the screen selects, or toggles or folds the selection.
24 4 «NO_SECTIONS» click:4:0 click:0:65535 click:65535:65535 click:1:24 shot c => 0
| screen 0
| "[File] [Edit] [Select] [
| "( ) foo/bar          (+)
| accepted…
24 7 «FILE_OF_2 CHECKED MODE_CHANGE» click:1:22 shot click:2:7 shot click:2:3 shot click:3:0 shot click:3:5 shot click:4:20 shot click:4:2 shot click:1:1 click:1:1 shot c => 0
| screen 0
| "[File] [Edit] [Select] [
| "(◐) f                (-)
| "  [●] Section 1/2    [-]
| "    [●] + c⏎
| "  [ ] File mode set to …
| screen 1
| "[File] [Edit] [Select] [
| "[◐] f                [-]
| "  (●) Section 1/2    (-)
| "    [●] + c⏎
| "  [ ] File mode set to …
| screen 2
| "[File] [Edit] [Select] [
| "[ ] f                [-]
| "  ( ) Section 1/2    (-)
| "    [ ] + c⏎
| "  [ ] File mode set to …
| screen 3
| "[File] [Edit] [Select] [
| "[ ] f                [-]
| "  [ ] Section 1/2    [-]
| "    ( ) + c⏎
| "  [ ] File mode set to …
| screen 4
| "[File] [Edit] [Select] [
| "[◐] f                [-]
| "  [●] Section 1/2    [-]
| "    (●) + c⏎
| "  [ ] File mode set to …
| screen 5
| "[File] [Edit] [Select] [
| "[◐] f                [-]
| "  [●] Section 1/2    [-]
| "    [●] + c⏎
| "  ( ) File mode set to …
| screen 6
| "[File] [Edit] [Select] [
| "[●] f                [-]
| "  [●] Section 1/2    [-]
| "    [●] + c⏎
| "  (●) File mode set to …
| screen 7
| "[File] [Edit] [Select] [
| "( ) f                (-)
| "  [ ] Section 1/2    [-]
| "    [ ] + c⏎
| "  [ ] File mode set to …
| accepted…
24 7 «FILES_OF_1_AND_1 ADDED REMOVED» click:2:12 shot click:2:21 shot click:3:4 click:3:4 shot c => 0
| screen 0
| "[File] [Edit] [Select] [
| "[ ] f                [+]
| "( ) g                (+)
| screen 1
| "[File] [Edit] [Select] [
| "[ ] f                [+]
| "( ) g                (-)
| "  [ ] Section 1/1    [-]
| "    [ ] - y⏎
| screen 2
| "[File] [Edit] [Select] [
| "[ ] f                [+]
| "[●] g                [-]
| "  (●) Section 1/1    (-)
| "    [●] - y⏎
| accepted…

# Columns 0 and 1 of the rows of a section are the file's, unless the section shows a line, or can be changed and is selected.
24 8 «FILE_OF_3 ADDED MODE_CHANGE CONTEXT_0» l click:2:0 shot click:4:0 shot click:4:8,click:4:1 shot click:4:8 click:4:1 shot c => 0
| screen 0
| "[File] [Edit] [Select] [
| "[ ] f                [-]
| "  ( ) Section 1/2    (-)
| "    [ ] + x⏎
| "  [ ] File mode set to …
| screen 1
| "[File] [Edit] [Select] [
| "( ) f                (-)
| "  [ ] Section 1/2    [-]
| "    [ ] + x⏎
| "  [ ] File mode set to …
| screen 2
| "[File] [Edit] [Select] [
| "( ) f                (-)
| "  [ ] Section 1/2    [-]
| "    [ ] + x⏎
| "  [ ] File mode set to …
| screen 3
| "[File] [Edit] [Select] [
| "[ ] f                [-]
| "  [ ] Section 1/2    [-]
| "    [ ] + x⏎
| "  ( ) File mode set to …
| accepted…
24 8 «FILE_OF_3 ADDED MODE_CHANGE CONTEXT_0» l click:2:3 click:2:22 click:2:22 shot click:2:1 shot click:2:9 click:2:1 shot c => 0
| screen 0
| "[File] [Edit] [Select] [
| "[◐] f                [-]
| "  (●) Section 1/2    (-)
| "    [●] + x⏎
| "  [ ] File mode set to …
| screen 1
| "[File] [Edit] [Select] [
| "[◐] f                [-]
| "  (●) Section 1/2    (-)
| "    [●] + x⏎
| "  [ ] File mode set to …
| screen 2
| "[File] [Edit] [Select] [
| "[◐] f                [-]
| "  (●) Section 1/2    (-)
| "    [●] + x⏎
| "  [ ] File mode set to …
| accepted…
24 10 «FILE_OF_3 ADDED CONTEXT_0 REMOVED» l click:4:1 shot click:4:2 shot click:4:1 shot click:1:5,click:4:20 enter shot c => 0
| screen 0
| "[File] [Edit] [Select] [
| "( ) f                (-)
| "  [ ] Section 1/2    [-]
| "    [ ] + x⏎
| "
| "  [ ] Section 2/2    [-]
| "    [ ] - y⏎
| screen 1
| "[File] [Edit] [Select] [
| "[ ] f                [-]
| "  [ ] Section 1/2    [-]
| "    [ ] + x⏎
| "
| "  [ ] Section 2/2    [-]
| "    [ ] - y⏎
| screen 2
| "[File] [Edit] [Select] [
| "( ) f                (-)
| "  [ ] Section 1/2    [-]
| "    [ ] + x⏎
| "
| "  [ ] Section 2/2    [-]
| "    [ ] - y⏎
| screen 3
| "[File] [Edit] [Select] [
| "[ ] f                [-]
| "  [ ] Section 1/2    [-]
| "    [ ] + x⏎
| "
| "  [ ] Section 2/2    [-]
| "    [ ] - y⏎
| accepted…
24 9 «FILE_OF_2 CONTEXT_7 ADDED» l click:2:0 shot space enter shot c => 0
| screen 0
| "[File] [Edit] [Select] [
| "[ ] f                [-]
| "        ⋮
| "        5 e⏎
| "        6 f⏎
| "        7 g⏎
| "  [ ] Section 1/1    [-]
| "    [ ] + x⏎
| screen 1
| "[File] [Edit] [Select] [
| "[ ] f                [-]
| "        ⋮
| "        5 e⏎
| "        6 f⏎
| "        7 g⏎
| "  [ ] Section 1/1    [-]
| "    [ ] + x⏎
| accepted…

# The file of a pinned header owns the row of its own header.
24 5 «FILE_OF_1 TEN_ADDED» l l j j j j click:1:1 shot ctrl-up,ctrl-up,ctrl-up,ctrl-up,click:1:22 shot c => 0
| screen 0
| "[File] [Edit] [Select] [
| "( ) f                (-)
| "    [ ] + 2⏎
| "    [ ] + 3⏎
| "    [ ] + 4⏎
| screen 1
| "[File] [Edit] [Select] [
| "( ) f                (-)
| "  [ ] Section 1/1    [-]
| "    [ ] + 0⏎
| "    [ ] + 1⏎
| accepted…
24 5 «FILES_OF_1_AND_1 TEN_ADDED ADDED» l l j j j j click:1:22 shot click:1:22 shot c => 0
| screen 0
| "[File] [Edit] [Select] [
| "( ) f                (-)
| "    [ ] + 2⏎
| "    [ ] + 3⏎
| "    [ ] + 4⏎
| screen 1
| "[File] [Edit] [Select] [
| "( ) f                (+)
| "[ ] g                [+]
| accepted…

# Each item of each menu, whole.
80 10 «NO_SECTIONS» click:0:1 shot click:0:8 shot click:0:15 shot click:0:24 shot c => 0
| screen 0
| "[File] [Edit] [Select] [View]
| "[Confirm (c)]                                                                (+)
| "[Quit (q)]
| screen 1
| "[File] [Edit] [Select] [View]
| "( ) foo[Edit message (e)]                                                    (+)
| "       [Toggle current (space)]
| "       [Toggle current and advance (enter)]
| "       [Invert all items (a)]
| "       [Invert all items uniformly (A)]
| screen 2
| "[File] [Edit] [Select] [View]
| "( ) foo/bar   [Previous item (up, k)]                                        (+)
| "              [Next item (down, j)]
| "              [Previous item of the same kind (page-up)]
| "              [Next item of the same kind (page-down)]
| "              [Outer item without folding (shift-left, shift-h)]
| "              [Outer item with folding (left, h)]
| "              [Inner item with unfolding (right, l)]
| "              [Previous page (ctrl-u)]
| "              [Next page (ctrl-d)]
| screen 3
| "[File] [Edit] [Select] [View]
| "( ) foo/bar            [Fold/unfold current (f)]                             (+)
| "                       [Fold/unfold all (F)]
| "                       [Scroll up (ctrl-up, ctrl-y)]
| "                       [Scroll down (ctrl-down, ctrl-e)]
| "                       [Previous page (ctrl-page-up, ctrl-b)]
| "                       [Next page (ctrl-page-down, ctrl-f)]
| accepted…

# Menus: opened and closed by their headers, closed by the bar on every row of theirs, and each item is its own label alone.
80 4 «NO_SECTIONS» click:0:1 shot click:1:30 shot click:0:8 shot click:0:8 shot click:0:15 click:0:7 shot click:1:25 shot c => 0
| screen 0
| "[File] [Edit] [Select] [View]
| "[Confirm (c)]                                                                (+)
| "[Quit (q)]
| screen 1
| "[File] [Edit] [Select] [View]
| "( ) foo/bar                                                                  (+)
| screen 2
| "[File] [Edit] [Select] [View]
| "( ) foo[Edit message (e)]                                                    (+)
| "       [Toggle current (space)]
| "       [Toggle current and advance (enter)]
| screen 3
| "[File] [Edit] [Select] [View]
| "( ) foo/bar                                                                  (+)
| screen 4
| "[File] [Edit] [Select] [View]
| "( ) foo[Edit message (e)]                                                    (+)
| "       [Toggle current (space)]
| "       [Toggle current and advance (enter)]
| screen 5
| "[File] [Edit] [Select] [View]
| "( ) foo/bar                                                                  (+)
| accepted…
«NO_SECTIONS» click:0:1 click:2:3 c => 1 | fault: cancelled by user
«FILE_OF_1 CHECKED» click:0:1 click:2:3 space c => 1 | fault: cancelled by user
24 8 «FILE_OF_1 TEN_ADDED» l click:0:15 click:2:15 shot c => 0
| screen 0
| "[File] [Edit] [Select] [
| "[ ] f                [-]
| "  [ ] Section 1/1    [-]
| "    ( ) + 0⏎
| "    [ ] + 1⏎
| "    [ ] + 2⏎
| "    [ ] + 3⏎
| "    [ ] + 4⏎
| accepted…
24 6 «FILE_OF_2 ADDED REMOVED» l ctrl-down ctrl-down click:0:2 shot click:2:3 c => 1
| screen 0
| "[File] [Edit] [Select] [
| "[Confirm (c)]        [-]
| "[Quit (q)]    2/2    [-]
| "    [ ] - y⏎
| fault: cancelled by user
50 11 «FILE_OF_2 ADDED REMOVED» click:0:14 shot click:7:20 click:0:14 click:2:15 click:0:14 click:5:15 shot c => 0
| screen 0
| "[File] [Edit] [Select] [View]
| "( ) f         [Previous item (up, k)]
| "              [Next item (down, j)]
| "              [Previous item of the same kind (pag
| "              [Next item of the same kind (page-do
| "              [Outer item without folding (shift-l
| "              [Outer item with folding (left, h)]
| "              [Inner item with unfolding (right, l
| "              [Previous page (ctrl-u)]
| "              [Next page (ctrl-d)]
| screen 1
| "[File] [Edit] [Select] [View]
| "[ ] f                                          [-]
| "  ( ) Section 1/2                              (-)
| "    [ ] + x⏎
| "  [ ] Section 2/2                              [-]
| "    [ ] - y⏎
| accepted…
44 7 «FILE_OF_1 ADDED» click:0:24 click:2:24 shot click:0:24 click:4:24 shot click:0:24 click:6:30 shot click:0:24 click:5:30 click:0:24 click:3:30 click:0:24 click:1:24 shot c => 0
| screen 0
| "[File] [Edit] [Select] [View]
| "( ) f                                    (-)
| "  [ ] Section 1/1                        [-]
| "    [ ] + x⏎
| screen 1
| "[File] [Edit] [Select] [View]
| "( ) f                                    (-)
| "    [ ] + x⏎
| screen 2
| "[File] [Edit] [Select] [View]
| "( ) f                                    (-)
| screen 3
| "[File] [Edit] [Select] [View]
| "( ) f                                    (+)
| accepted…
40 7 «FILE_OF_2 ADDED CHECKED» click:0:7 shot click:2:8 click:0:7 click:4:8 shot click:0:7 click:5:8 shot click:0:7 click:3:8 shot c => 0
| screen 0
| "[File] [Edit] [Select] [View]
| "(◐) f  [Edit message (e)]
| "       [Toggle current (space)]
| "       [Toggle current and advance (ente
| "       [Invert all items (a)]
| "       [Invert all items uniformly (A)]
| screen 1
| "[File] [Edit] [Select] [View]
| "(●) f                                (+)
| screen 2
| "[File] [Edit] [Select] [View]
| "( ) f                                (+)
| screen 3
| "[File] [Edit] [Select] [View]
| "(●) f                                (+)
| accepted…
44 12 «FILE_OF_3 ADDED REMOVED TEN_ADDED» click:0:14 click:7:15 click:0:14 click:4:15 click:0:14 click:3:15 click:0:14 click:9:15 shot click:0:14 click:8:15 click:0:14 click:6:15 click:0:14 click:1:15 shot c => 0
| screen 0
| "[File] [Edit] [Select] [View]
| "[ ] f                                    [-]
| "  [ ] Section 1/3                        [-]
| "    [ ] + x⏎
| "  [ ] Section 2/3                        [-]
| "    [ ] - y⏎
| "  [ ] Section 3/3                        [-]
| "    [ ] + 0⏎
| "    ( ) + 1⏎
| "    [ ] + 2⏎
| "    [ ] + 3⏎
| "    [ ] + 4⏎
| screen 1
| "[File] [Edit] [Select] [View]
| "( ) f                                    (±)
| "  [ ] Section 1/3                        [+]
| "  [ ] Section 2/3                        [-]
| "    [ ] - y⏎
| "  [ ] Section 3/3                        [-]
| "    [ ] + 0⏎
| "    [ ] + 1⏎
| "    [ ] + 2⏎
| "    [ ] + 3⏎
| "    [ ] + 4⏎
| "    [ ] + 5⏎
| accepted…
24 5 «NO_SECTIONS» click:0:1 j shot space click:4:3 click:1:3 c => 0
| screen 0
| "[File] [Edit] [Select] [
| "[Confirm (c)]        (+)
| "[Quit (q)]
| accepted
| «NO_SECTIONS»…
7 3 «NO_SECTIONS» click:0:6 shot click:0:1 shot c => 0
| screen 0
| "[File]
| "( )…(+)
| screen 1
| "[File]
| "[Confir
| "[Quit (
| accepted…
size 40 5 | «MESSAGES_NO_SECTIONS "m" null» | script | answer "n" | batch click:0:7 | batch click:1:9 | batch shot | batch c => 0
| screen 0
| "[File] [Edit] [Select] [View]
| "
| "[Edit message]  •  n
| "
| "( ) f                                (+)
| accepted
| «MESSAGES_NO_SECTIONS "n" null»…

# The quit dialog: in the middle of the screen, at any scroll; both buttons by click and by key; what a click behind it does.
«FILE_OF_1 CHECKED» q shot click:12:55 c => 0
| screen 0
| "[File] [Edit] [Select] [View]
| "(●) f                                                                        (+)
| "
| "
| "
| "
| "
| "
| "
| "          ┌Quit──────────────────────────────────────────────────────┐
| "          │You have changes to 1 file. Are you sure you want to quit?│
| "          │                                                          │
| "          └──────────────────────────────────────────[Go Back]─(Quit)┘
| accepted
| «FILE_OF_1 CHECKED»…
80 6 «FILE_OF_1 CHECKED» ctrl-down q shot click:4:55 click:3:55 shot c => 0
| screen 0
| "[File] [Edit] [Select] [View]
| "          ┌Quit──────────────────────────────────────────────────────┐
| "          │You have changes to 1 file. Are you sure you want to quit?│
| "          └──────────────────────────────────────────[Go Back]─(Quit)┘
| screen 1
| "[File] [Edit] [Select] [View]
| accepted
| «FILE_OF_1 CHECKED»…
«FILE_OF_1 CHECKED» ctrl-down q click:12:55 c => 0 | accepted | «FILE_OF_1 CHECKED»…
«FILE_OF_1 CHECKED» q click:12:65 c => 1 | fault: cancelled by user
«FILE_OF_1 CHECKED» q click:11:12 click:9:12 click:12:52 q c => 0 | accepted | «FILE_OF_1 CHECKED»…
64 4 «FILE_OF_1 CHECKED» q h shot l shot shift-h shot space shot q enter c => 1
| screen 0
| "[F┌Quit──────────────────────────────────────────────────────┐
| "(●│You have changes to 1 file. Are you sure you want to quit?│+)
| "  └──────────────────────────────────────────(Go Back)─[Quit]┘
| screen 1
| "[F┌Quit──────────────────────────────────────────────────────┐
| "(●│You have changes to 1 file. Are you sure you want to quit?│+)
| "  └──────────────────────────────────────────[Go Back]─(Quit)┘
| screen 2
| "[F┌Quit──────────────────────────────────────────────────────┐
| "(●│You have changes to 1 file. Are you sure you want to quit?│+)
| "  └──────────────────────────────────────────(Go Back)─[Quit]┘
| screen 3
| "[File] [Edit] [Select] [View]
| "(●) f                                                        (+)
| fault: cancelled by user
10 2 «FILE_OF_1 CHECKED» q shot click:1:0 shot q click:1:1 q click:1:4 c => 1
| screen 0
| "┌Quit────┐
| "k]─(Quit)┘
| screen 1
| "[File] [Ed
| "(●) f  (+)
| fault: cancelled by user
70 4 «MESSAGES_NO_SECTIONS "a" "b"» q shot ctrl-c => 1
| screen 0
| "[Fi┌Quit──────────────────────────────────────────────────────────┐
| "   │You have changes to 2 messages. Are you sure you want to quit?│
| "[Ed└──────────────────────────────────────────────[Go Back]─(Quit)┘
| fault: cancelled by user
80 4 «MESSAGES_ONE_LINE "a" "b" 1» q shot ctrl-c => 1
| screen 0
| "[F┌Quit─────────────────────────────────────────────────────────────────────┐
| "  │You have changes to 2 messages and 1 file. Are you sure you want to quit?│
| "[E└─────────────────────────────────────────────────────────[Go Back]─(Quit)┘
| fault: cancelled by user
66 4 «FILES_OF_1_AND_1 CHECKED CHECKED» q shot ctrl-c => 1
| screen 0
| "[F┌Quit───────────────────────────────────────────────────────┐
| "(●│You have changes to 2 files. Are you sure you want to quit?│(+)
| "[●└───────────────────────────────────────────[Go Back]─(Quit)┘[+]
| fault: cancelled by user
size 70 6 | «MESSAGES_ONE_LINE "a" null 0» | script | answer "n" | batch q | batch e | batch click:2:5 | batch click:2:1 | batch shot | batch q | batch c => 0
| screen 0
| "[File] [Edit] [Select] [View]
| "   ┌Quit─────────────────────────────────────────────────────────┐
| "[Ed│You have changes to 1 message. Are you sure you want to quit?│
| "   └─────────────────────────────────────────────[Go Back]─(Quit)┘
| "( ) foo/bar                                                        (+)
| accepted
| «MESSAGES_ONE_LINE "n" null 0»…
70 8 «FILE_OF_2 CHECKED MODE_CHANGE» q click:1:1 shot click:1:68 shot click:0:9 shot q c => 0
| screen 0
| "[File] [Edit] [Select] [View]
| "( ) f                                                              (+)
| "     ┌Quit──────────────────────────────────────────────────────┐
| "     │You have changes to 1 file. Are you sure you want to quit?│
| "     └──────────────────────────────────────────[Go Back]─(Quit)┘
| screen 1
| "[File] [Edit] [Select] [View]
| "( ) f                                                              (-)
| "  [ ]┌Quit──────────────────────────────────────────────────────┐  [-]
| "    [│You have changes to 1 file. Are you sure you want to quit?│
| "  [ ]└──────────────────────────────────────────[Go Back]─(Quit)┘
| screen 2
| "[File] [Edit] [Select] [View]
| "( ) f  [Edit message (e)]                                          (-)
| "  [ ]┌Quit──────────────────────────────────────────────────────┐  [-]
| "    [│You have changes to 1 file. Are you sure you want to quit?│
| "  [ ]└──────────────────────────────────────────[Go Back]─(Quit)┘
| "       [Invert all items uniformly (A)]
| accepted…

# Help, and help over the quit dialog, with each key that closes it; an interrupt opens the quit dialog under help.
«NO_SECTIONS» ? shot c c => 0
| screen 0
| "[File] [Edit] [Select] [View]
| "( ) foo/bar                                                                  (+)
| "┌Help──────────────────────────────────────────────────────────────────────────┐
| "│You can click the menus with a mouse, or use these keyboard shortcuts:        │
| "│                                                                              │
| "│    General                             Navigation                            │
| "│    Quit/Cancel             q           Next/Prev               j/k or ↓/↑    │
| "│    Confirm changes         c           Next/Prev of same type  PgDn/PgUp     │
| "│    Force quit              ^c          Move out & fold         h or ←        │
| "│                                        Move out & don't fold   H or Shift-←  │
| "│    View controls                       Move in & unfold        l or →        │
| "│    Expand/Collapse         f                                                 │
| "│    Expand/Collapse all     F           Scrolling                             │
| "│    Edit commit message     e           Scroll up/down          ^y/^e         │
| "│                                                             or ^↑/^↓         │
| "│    Selection                           Page up/down            ^b/^f         │
| "│    Toggle current          Space                            or ^PgUp/^PgDn   │
| "│    Toggle and advance      Enter       Previous/Next page      ^u/^d         │
| "│    Invert all              a                                                 │
| "│    Invert all uniformly    A                                                 │
| "└───────────────────────────────────────────────────────────────────────(Close)┘
| accepted
| «NO_SECTIONS»…
«NO_SECTIONS» ? click:20:75 shot c => 0
| screen 0
| "[File] [Edit] [Select] [View]
| "( ) foo/bar                                                                  (+)
| accepted
| «NO_SECTIONS»…
60 5 «FILE_OF_1 CHECKED» q shot ? shot q shot ctrl-c => 1
| screen 0
| "[File] [Edit] [Select] [View]
| "┌Quit──────────────────────────────────────────────────────┐
| "│You have changes to 1 file. Are you sure you want to quit?│
| "└──────────────────────────────────────────[Go Back]─(Quit)┘
| screen 1
| "┌Help──────────────────────────────────────────────────────┐
| "│You can click the menus with a mouse, or use these keyboar│
| "│                                                          │
| "│    General                             Navigation        │
| "└───────────────────────────────────────────────────(Close)┘
| screen 2
| "[File] [Edit] [Select] [View]
| "┌Quit──────────────────────────────────────────────────────┐
| "│You have changes to 1 file. Are you sure you want to quit?│
| "└──────────────────────────────────────────[Go Back]─(Quit)┘
| fault: cancelled by user
60 4 «FILE_OF_1 CHECKED» q ? ? shot ? esc shot ? space shot ? enter shot ? c shot ctrl-c => 1
| screen 0
| "┌Quit──────────────────────────────────────────────────────┐
| "│You have changes to 1 file. Are you sure you want to quit?│
| "└──────────────────────────────────────────[Go Back]─(Quit)┘
| screen 1
| "┌Quit──────────────────────────────────────────────────────┐
| "│You have changes to 1 file. Are you sure you want to quit?│
| "└──────────────────────────────────────────[Go Back]─(Quit)┘
| screen 2
| "┌Quit──────────────────────────────────────────────────────┐
| "│You have changes to 1 file. Are you sure you want to quit?│
| "└──────────────────────────────────────────[Go Back]─(Quit)┘
| screen 3
| "┌Quit──────────────────────────────────────────────────────┐
| "│You have changes to 1 file. Are you sure you want to quit?│
| "└──────────────────────────────────────────[Go Back]─(Quit)┘
| screen 4
| "┌Help──────────────────────────────────────────────────────┐
| "│You can click the menus with a mouse, or use these keyboar│
| "│                                                          │
| "└───────────────────────────────────────────────────(Close)┘
| fault: cancelled by user
60 4 «FILE_OF_1 CHECKED» ? ctrl-c shot q shot q shot c => 0
| screen 0
| "┌Help──────────────────────────────────────────────────────┐
| "│You can click the menus with a mouse, or use these keyboar│
| "│                                                          │
| "└───────────────────────────────────────────────────(Close)┘
| screen 1
| "┌Quit──────────────────────────────────────────────────────┐
| "│You have changes to 1 file. Are you sure you want to quit?│
| "└──────────────────────────────────────────[Go Back]─(Quit)┘
| screen 2
| "[File] [Edit] [Select] [View]
| "(●) f                                                    (+)
| accepted
| «FILE_OF_1 CHECKED»…
«NO_SECTIONS» ? ctrl-c c => 1 | fault: cancelled by user
«FILE_OF_1 CHECKED» ? space ? enter ? esc ? q ? ? ? c c => 0 | accepted | «FILE_OF_1 CHECKED»…
60 6 «FILE_OF_1 CHECKED» ? j l a click:1:2 click:0:1 shot click:5:54 shot c => 0
| screen 0
| "┌Help──────────────────────────────────────────────────────┐
| "│You can click the menus with a mouse, or use these keyboar│
| "│                                                          │
| "│    General                             Navigation        │
| "│    Quit/Cancel             q           Next/Prev         │
| "└───────────────────────────────────────────────────(Close)┘
| screen 1
| "[File] [Edit] [Select] [View]
| "[ ] f                                                    [-]
| "  ( ) Section 1/1                                        (-)
| "    [ ] + c⏎
| accepted…

# Both commits side by side: each with its own keys, from the column behind what the first one draws.
41 5 «MESSAGES_ONE_LINE null null 0» view shot c => 0
| screen 0
| "[File] [Edit] [Select] [View]
| "( ) foo/bar      (+) [ ] foo/bar      [+]
| accepted…
41 5 «MESSAGES_ONE_LINE null null 0» view click:1:22 shot c => 0
| screen 0
| "[File] [Edit] [Select] [View]
| "[ ] foo/bar      [+] ( ) foo/bar      (+)
| accepted…
41 5 «MESSAGES_ONE_LINE null null 0» view click:1:22 click:1:22 c => 0 | accepted | «MESSAGES_ONE_LINE null null 1»…
41 5 «MESSAGES_ONE_LINE null null 0» view click:1:39 click:1:39 shot c => 0
| screen 0
| "[File] [Edit] [Select] [View]
| "[ ] foo/bar      [+] ( ) foo/bar      (±)
| "                       [ ] Section 1/1[+]
| accepted…
size 41 5 | «MESSAGES_ONE_LINE "a" "b" 0» | script | answer "z" | batch view | batch shot | batch click:2:22 | batch shot | batch c => 0
| screen 0
| "[File] [Edit] [Select] [View]
| "
| "[Edit message]  •  a [Edit message]  •  b
| "
| "( ) foo/bar      (+) [ ] foo/bar      [+]
| screen 1
| "[File] [Edit] [Select] [View]
| "
| "[Edit message]  •  a [Edit message]  •  z
| "
| "( ) foo/bar      (+) [ ] foo/bar      [+]
| accepted
| «MESSAGES_ONE_LINE "a" "z" 0»…
41 5 «MESSAGES_ONE_LINE null null 0» view view shot c => 0
| screen 0
| "[File] [Edit] [Select] [View]
| "( ) foo/bar                           (+)
| accepted…
61 6 «MESSAGES_ONE_LINE "a" null 0» view shot c => 0
| screen 0
| "[File] [Edit] [Select] [View]
| "                               [ ] foo/bar                [+]
| "[Edit message]  •  a
| "
| "( ) foo/bar                (+)
| accepted…
61 6 «MESSAGES_ONE_LINE null "b" 0» view shot c => 0
| screen 0
| "[File] [Edit] [Select] [View]
| "( ) foo/bar                (+)
| "                               [Edit message]  •  b
| "
| "                               [ ] foo/bar                [+]
| accepted…
size 41 5 | «MESSAGES_ONE_LINE "a" null 0» | script | answer "z" | batch view | batch click:2:5 click:2:22 | batch shot | batch c => 0
| screen 0
| "[File] [Edit] [Select] [View]
| "                     [ ] foo/bar      [+]
| "[Edit message]  •  z
| "
| "( ) foo/bar      (+)
| accepted
| «MESSAGES_ONE_LINE "z" null 0»…

# Both commits without files, with and without messages: the second begins behind the words of the first.
80 7 «EMPTY_STATE» view shot c => 0
| screen 0
| "[File] [Edit] [Select] [View]
| "
| "     There are no changes to view. There are no changes to view.
| accepted…
80 7 «TWO_MESSAGES "a" null» view shot c => 0
| screen 0
| "[File] [Edit] [Select] [View]
| "
| "[EditThere are no changes to view.           There are no changes to view.
| accepted…
80 7 «TWO_MESSAGES null "b"» view shot c => 0
| screen 0
| "[File] [Edit] [Select] [View]
| "
| "     There are no changes to v[EditThere are no changes to view.
| accepted…
41 5 «TWO_MESSAGES "a" "b"» view shot c => 0
| screen 0
| "[File] [Edit] [Select] [View]
| "
| "There are no change… There are no change…
| accepted…
41 5 «EMPTY_STATE» view shot c => 0
| screen 0
| "[File] [Edit] [Select] [View]
| "
| "There are no change… There are no change…
| accepted…

# The second commit's message blanks its first and its third row, from the second view's column on: there the first view's words go.
67 2 «TWO_MESSAGES null ""» view shot c => 0
| screen 0
| "[File] [Edit] [Select] [View]
| "  There are no changes to view  There are no changes to view.
| accepted…
67 4 «TWO_MESSAGES null ""» view shot c => 0
| screen 0
| "[File] [Edit] [Select] [View]
| "  There are no changes to view  There are no changes to view.
| "                              [Edit message]  •  (no message)
| accepted…
241 3 «TWO_MESSAGES null ""» view shot c => 0
| screen 0
| "[File] [Edit] [Select] [View]
| "                                                            There are no changes to view.
| "                              [Edit message]  •  (no message)
| accepted…
61 6 «TWO_MESSAGES null ""» view shot c => 0
| screen 0
| "[File] [Edit] [Select] [View]
| "
| "There are no changes to view. There are no changes to view.…
| accepted…

# Both commits on screens of any width.
0 4 «MESSAGES_ONE_LINE "a" "b" 1» view shot ctrl-f c => 0
| screen 0
| accepted…
1 4 «MESSAGES_ONE_LINE "a" "b" 1» view shot ctrl-f c => 0
| screen 0
| "[
| accepted…
2 4 «MESSAGES_ONE_LINE "a" "b" 1» view shot ctrl-f c => 0
| screen 0
| "[F
| accepted…
3 4 «MESSAGES_ONE_LINE "a" "b" 1» view shot ctrl-f c => 0
| screen 0
| "[Fi
| "
| "… …
| accepted…
9 4 «MESSAGES_ONE_LINE "a" "b" 1» view shot ctrl-f c => 0
| screen 0
| "[File] [E
| "
| "[Ed… [Ed…
| accepted…
10 4 «MESSAGES_ONE_LINE "a" "b" 1» view shot ctrl-f c => 0
| screen 0
| "[File] [Ed
| "
| "[Ed… [Ed…
| accepted…
9 3 «MESSAGES_ONE_LINE null null 0» view shot c => 0
| screen 0
| "[File] [E
| "…(+) …[+]
| accepted…
10 3 «MESSAGES_ONE_LINE null null 0» view shot c => 0
| screen 0
| "[File] [Ed
| "…(+) …[+]
| accepted…
80 6 «MESSAGES_ONE_LINE "a" null 1» view l shot c => 0
| screen 0
| "[File] [Edit] [Select] [View]
| "[Edit message]  •  a
| "
| "[●] foo/bar                         [-]
| "  (●) Section 1/1                   (-)
| "    [●] + n⏎
| accepted…
300 5 «MESSAGES_ONE_LINE null "b" 1» view shot click:1:122 shot c => 0
| screen 0
| "[File] [Edit] [Select] [View]
| "(●) foo/bar                                                                                                          (+)
| "                                                                                                                         [Edit message]  •  b
| "
| "                                                                                                                         [●] foo/bar                                                                                                          [+]
| screen 1
| "[File] [Edit] [Select] [View]
| "(●) foo/bar                                                                                                          (+)
| "                                                                                                                         [Edit message]  •  b
| "
| "                                                                                                                         [●] foo/bar                                                                                                          [+]
| accepted…
20 1 «MESSAGES_ONE_LINE null null 0» view shot c => 0
| screen 0
| "[File] [Edit] [Selec
| accepted…

# Texts of the first commit reach as far as they are wide for a click, where the second one has nothing.
41 5 «LONG_PATH_AND_FILE_OF_1 ADDED» view click:2:30 shot click:1:20 shot c => 0
| screen 0
| "[File] [Edit] [Select] [View]
| "[ ] a/long/path/…[+] [ ] a/long/path/…[+]
| "[ ] g            [+] ( ) g            (+)
| screen 1
| "[File] [Edit] [Select] [View]
| "( ) a/long/path/…(+) [ ] a/long/path/…[+]
| "[ ] g            [+] [ ] g            [+]
| accepted…
41 6 «FILE_OF_2 LONG_LINE_AND_NO_END CONTEXT_1» l view click:3:40 shot click:3:39 shot click:5:9 click:5:23 shot click:4:20 shot c => 0
| screen 0
| "[File] [Edit] [Select] [View]
| "[◐] f            [-] [◐] f            [+]
| "  (◐) Section 1/1(-)
| "    [ ] + the first…
| "    [●] - no end
| "        2 a⏎
| screen 1
| "[File] [Edit] [Select] [View]
| "[◐] f            [-] [◐] f            [+]
| "  [◐] Section 1/1[-]
| "    ( ) + the first…
| "    [●] - no end
| "        2 a⏎
| screen 2
| "[File] [Edit] [Select] [View]
| "(◐) f            (-) [◐] f            [+]
| "  [◐] Section 1/1[-]
| "    [ ] + the first…
| "    [●] - no end
| "        2 a⏎
| screen 3
| "[File] [Edit] [Select] [View]
| "[◐] f            [-] [◐] f            [+]
| "  (◐) Section 1/1(-)
| "    [ ] + the first…
| "    [●] - no end
| "        2 a⏎
| accepted…
41 7 «FILE_OF_2 LONG_LINE_AND_NO_END CONTEXT_1» l view click:1:39 click:1:39 click:2:39 click:2:39 shot click:4:36 shot c => 0
| screen 0
| "[File] [Edit] [Select] [View]
| "[◐] f            [-] [◐] f            [-]
| "  [◐] Section 1/1[-]   (◐) Section 1/1(-)
| "    [ ] + the first…     [ ] + the first…
| "    [●] - no end         [●] - no end
| "        2 a⏎                 2 a⏎
| screen 1
| "[File] [Edit] [Select] [View]
| "[◐] f            [-] [◐] f            [-]
| "  [◐] Section 1/1[-]   [◐] Section 1/1[-]
| "    [ ] + the first…     [ ] + the first…
| "    [●] - no end         (●) - no end
| "        2 a⏎                 2 a⏎
| accepted…

# Menus and dialogs over both commits.
61 7 «MESSAGES_ONE_LINE null null 1» view click:0:1 shot click:1:40 shot click:0:1 click:2:2 shot ? shot click:0:20 q q shot c => 0
| screen 0
| "[File] [Edit] [Select] [View]
| "[Confirm (c)]              (+) [●] foo/bar                [+]
| "[Quit (q)]
| screen 1
| "[File] [Edit] [Select] [View]
| "(●) foo/bar                (+) [●] foo/bar                [+]
| screen 2
| "[File] [Edit] [Select] [View]
| "(●) foo/bar                (+) [●] foo/bar                [+]
| "┌Quit──────────────────────────────────────────────────────┐
| "│You have changes to 1 file. Are you sure you want to quit?│
| "└──────────────────────────────────────────[Go Back]─(Quit)┘
| screen 3
| "┌Help───────────────────────────────────────────────────────┐
| "│You can click the menus with a mouse, or use these keyboard│
| "│                                                           │
| "│    General                             Navigation         │
| "│    Quit/Cancel             q           Next/Prev          │
| "│    Confirm changes         c           Next/Prev of same t│
| "└────────────────────────────────────────────────────(Close)┘
| screen 4
| "[File] [Edit] [Select] [View]
| "(●) foo/bar                (+) [●] foo/bar                [+]
| accepted
| «MESSAGES_ONE_LINE null null 1»…
70 5 «FILE_OF_1 CHECKED» q view shot ctrl-c => 1
| screen 0
| "[File] [Edit] [Select] [View]
| "(●) f┌Quit──────────────────────────────────────────────────────┐ [+]
| "     │You have changes to 1 file. Are you sure you want to quit?│
| "     └──────────────────────────────────────────[Go Back]─(Quit)┘
| fault: cancelled by user
80 4 «MESSAGES_ONE_LINE "a" "b" 1» view q shot click:2:38 click:2:38 h space c => 0
| screen 0
| "[F┌Quit─────────────────────────────────────────────────────────────────────┐
| "  │You have changes to 2 messages and 1 file. Are you sure you want to quit?│
| "[E└─────────────────────────────────────────────────────────[Go Back]─(Quit)┘
| accepted…

# Moves, pages, folds and toggles with the selection in the second commit: its keys are among no keys that a move goes by.
41 6 «MESSAGES_ONE_LINE null null 0» view click:1:22 f shot space shot h shot j shot c => 0
| screen 0
| "[File] [Edit] [Select] [View]
| "[ ] foo/bar      [+] ( ) foo/bar      (±)
| "                       [ ] Section 1/1[+]
| screen 1
| "[File] [Edit] [Select] [View]
| "[●] foo/bar      [+] (●) foo/bar      (±)
| "                       [●] Section 1/1[+]
| screen 2
| "[File] [Edit] [Select] [View]
| "[●] foo/bar      [+] (●) foo/bar      (+)
| screen 3
| "[File] [Edit] [Select] [View]
| "(●) foo/bar      (+) [●] foo/bar      [+]
| accepted
| «MESSAGES_ONE_LINE null null 1»…
41 6 «MESSAGES_ONE_LINE null null 0» view click:1:22 f click:2:30 shot f shot click:3:26 click:3:26 shot h shot h h shot c => 0
| screen 0
| "[File] [Edit] [Select] [View]
| "[ ] foo/bar      [+] [ ] foo/bar      [±]
| "                       ( ) Section 1/1(+)
| screen 1
| "[File] [Edit] [Select] [View]
| "[ ] foo/bar      [+] [ ] foo/bar      [-]
| "                       ( ) Section 1/1(-)
| "                         [ ] + n⏎
| screen 2
| "[File] [Edit] [Select] [View]
| "[●] foo/bar      [+] [●] foo/bar      [-]
| "                       [●] Section 1/1[-]
| "                         (●) + n⏎
| screen 3
| "[File] [Edit] [Select] [View]
| "[●] foo/bar      [+] [●] foo/bar      [-]
| "                       (●) Section 1/1(-)
| "                         [●] + n⏎
| screen 4
| "[File] [Edit] [Select] [View]
| "[●] foo/bar      [+] (●) foo/bar      (±)
| "                       [●] Section 1/1[+]
| accepted
| «MESSAGES_ONE_LINE null null 1»…
41 6 «MESSAGES_ONE_LINE null null 0» l view click:1:22 f click:2:38 click:2:38 shot shift-F shot click:1:21 l shot ctrl-d shot k shot c => 0
| screen 0
| "[File] [Edit] [Select] [View]
| "[ ] foo/bar      [-] [ ] foo/bar      [-]
| "  [ ] Section 1/1[-]   ( ) Section 1/1(-)
| "    [ ] + n⏎             [ ] + n⏎
| screen 1
| "[File] [Edit] [Select] [View]
| "[ ] foo/bar      [-] [ ] foo/bar      [+]
| "  [ ] Section 1/1[-]
| "    [ ] + n⏎
| screen 2
| "[File] [Edit] [Select] [View]
| "[ ] foo/bar      [-] ( ) foo/bar      (+)
| "  [ ] Section 1/1[-]
| "    [ ] + n⏎
| screen 3
| "[File] [Edit] [Select] [View]
| "[ ] foo/bar      [-] [ ] foo/bar      [+]
| "  [ ] Section 1/1[-]
| "    [ ] + n⏎
| screen 4
| "[File] [Edit] [Select] [View]
| "( ) foo/bar      (-) [ ] foo/bar      [+]
| "  [ ] Section 1/1[-]
| "    [ ] + n⏎
| accepted…
41 5 «FILE_OF_1 TEN_ADDED» view click:1:22 f click:2:39 click:2:39 ctrl-f f shot c => 0
| screen 0
| "[File] [Edit] [Select] [View]
| "[ ] f            [+] [ ] f            [±]
| "                       ( ) Section 1/1(+)
| accepted…
41 5 «FILE_OF_1 TEN_ADDED» l view ctrl-d shot ctrl-d shot click:1:21 enter shot c => 0
| screen 0
| "[File] [Edit] [Select] [View]
| "[ ] f            [-] [ ] f            [+]
| "  [ ] Section 1/1[-]
| "    [ ] + 0⏎
| "    ( ) + 1⏎
| screen 1
| "[File] [Edit] [Select] [View]
| "[ ] f            [-]
| "    [ ] + 1⏎
| "    [ ] + 2⏎
| "    ( ) + 3⏎
| screen 2
| "[File] [Edit] [Select] [View]
| "[◐] f            [-]
| "    [ ] + 2⏎
| "    [●] + 3⏎
| "    ( ) + 4⏎
| accepted…
41 6 «FILE_OF_1 TEN_ADDED» view l l j j j shot ctrl-f shot view shot c => 0
| screen 0
| "[File] [Edit] [Select] [View]
| "[ ] f            [-]
| "    [ ] + 0⏎
| "    [ ] + 1⏎
| "    [ ] + 2⏎
| "    ( ) + 3⏎
| screen 1
| "[File] [Edit] [Select] [View]
| "[ ] f            [-]
| "    [ ] + 6⏎
| "    [ ] + 7⏎
| "    [ ] + 8⏎
| "    [ ] + 9⏎
| screen 2
| "[File] [Edit] [Select] [View]
| "[ ] f                                 [-]
| "    [ ] + 6⏎
| "    [ ] + 7⏎
| "    [ ] + 8⏎
| "    [ ] + 9⏎
| accepted…
41 6 «FILE_OF_1 TEN_ADDED» l view click:1:39 click:1:39 click:2:39 click:2:39 wheel-down wheel-down wheel-down shot click:3:30 shot click:1:22 shot space shot click:1:19 click:1:19 shot c => 0
| screen 0
| "[File] [Edit] [Select] [View]
| "[ ] f            [-] [ ] f            [-]
| "    [ ] + 2⏎             [ ] + 2⏎
| "    [ ] + 3⏎             [ ] + 3⏎
| "    [ ] + 4⏎             [ ] + 4⏎
| "    [ ] + 5⏎             [ ] + 5⏎
| screen 1
| "[File] [Edit] [Select] [View]
| "[ ] f            [-] [ ] f            [-]
| "    [ ] + 2⏎             [ ] + 2⏎
| "    [ ] + 3⏎             ( ) + 3⏎
| "    [ ] + 4⏎             [ ] + 4⏎
| "    [ ] + 5⏎             [ ] + 5⏎
| screen 2
| "[File] [Edit] [Select] [View]
| "[ ] f            [-] ( ) f            (-)
| "    [ ] + 2⏎             [ ] + 2⏎
| "    [ ] + 3⏎             [ ] + 3⏎
| "    [ ] + 4⏎             [ ] + 4⏎
| "    [ ] + 5⏎             [ ] + 5⏎
| screen 3
| "[File] [Edit] [Select] [View]
| "[●] f            [-] (●) f            (-)
| "    [●] + 2⏎             [●] + 2⏎
| "    [●] + 3⏎             [●] + 3⏎
| "    [●] + 4⏎             [●] + 4⏎
| "    [●] + 5⏎             [●] + 5⏎
| screen 4
| "[File] [Edit] [Select] [View]
| "(●) f            (+) [●] f            [-]
| "                       [●] Section 1/1[-]
| "                         [●] + 0⏎
| "                         [●] + 1⏎
| "                         [●] + 2⏎
| accepted…

# All keys are compared with those of the first commit: a key of context, or of the second commit, makes the set another one.
24 7 «FILE_OF_2 CONTEXT_1 ADDED» l shift-F click:2:9 shift-F shot shift-F shot c => 0
| screen 0
| "[File] [Edit] [Select] [
| "[ ] f                [-]
| "        1 a⏎
| "  [ ] Section 1/1    [-]
| "    [ ] + x⏎
| screen 1
| "[File] [Edit] [Select] [
| "( ) f                (+)
| accepted…
41 5 «MESSAGES_ONE_LINE null null 0» l shift-F view click:1:22 click:1:39 shift-F shot shift-F shot c => 0
| screen 0
| "[File] [Edit] [Select] [View]
| "[ ] foo/bar      [-] ( ) foo/bar      (+)
| "  [ ] Section 1/1[-]
| "    [ ] + n⏎
| screen 1
| "[File] [Edit] [Select] [View]
| "[ ] foo/bar      [+] ( ) foo/bar      (+)
| accepted…

# Screens of a script: places in order of the words, and one that no screen was taken at.
size 20 5 | «NO_SECTIONS» | script | batch shot | fault read disk gone | batch shot => 1
| screen 0
| "[File] [Edit] [Selec
| "( ) foo/bar      (+)
| screen 1
| <this screenshot was never assigned>
| fault: failed to read user input: disk gone
20 2 «NO_SECTIONS» none,shot,c,shot shot => 0
| screen 0
| "[File] [Edit] [Selec
| "( ) foo/bar      (+)
| screen 1
| <this screenshot was never assigned>
| screen 2
| <this screenshot was never assigned>
| accepted
| «NO_SECTIONS»…
"##;
