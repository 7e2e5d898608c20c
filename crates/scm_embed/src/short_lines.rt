//! The shortest lines, which need no memory.
ghost use Rattle.std.specs.Prelude.{◌≡◌, ◌∷◌, [], ◌++◌, IfSome, IsTrue};

/// Each ASCII character with a line end, by its code.
const SHORT_LINES: &str = "\
    \0\n\x01\n\x02\n\x03\n\x04\n\x05\n\x06\n\x07\n\x08\n\t\n\n\n\x0b\n\x0c\n\r\n\x0e\n\x0f\n\
    \x10\n\x11\n\x12\n\x13\n\x14\n\x15\n\x16\n\x17\n\x18\n\x19\n\x1a\n\x1b\n\x1c\n\x1d\n\x1e\n\
    \x1f\n \n!\n\"\n#\n$\n%\n&\n'\n(\n)\n*\n+\n,\n-\n.\n/\n0\n1\n2\n3\n4\n5\n6\n7\n8\n9\n:\n\
    ;\n<\n=\n>\n?\n@\nA\nB\nC\nD\nE\nF\nG\nH\nI\nJ\nK\nL\nM\nN\nO\nP\nQ\nR\nS\nT\nU\nV\nW\nX\n\
    Y\nZ\n[\n\\\n]\n^\n_\n`\na\nb\nc\nd\ne\nf\ng\nh\ni\nj\nk\nl\nm\nn\no\np\nq\nr\ns\nt\nu\n\
    v\nw\nx\ny\nz\n{\n|\n}\n~\n\x7f\n";

/// Returns the text in `SHORT_LINES` of the first character of `line`, or a line end if `line` is
/// empty.
fn candidate(line: &str) -> Option<&'static str> {
    match line.as_bytes().first() {
        Some(byte) => {
            let start = *byte as usize * 2;
            SHORT_LINES.get(start..start + 2)
        }
        None => Some("\n"),
    }
}

/// Returns `text` without its line end, if it has one.
fn without_line_end(text: &str) -> Option<&str>
    ensures { IfSome result (λ line. text.now ≡ line.now ++ 10 ∷ []) }
{
    text.strip_suffix('\n')
}

/// Returns whether `text` is `line` with a line end.
fn is_with_line_end(text: &str, line: &str) -> bool
    ensures { IsTrue result → text.now ≡ line.now ++ 10 ∷ [] }
{
    match without_line_end(text) {
        Some(start) => start == line,
        None => false,
    }
}

/// Returns `line` with a line end, if `line` is empty or an ASCII character. Returns `None` for any
/// other line.
pub(crate) fn short_line(line: &str) -> Option<&'static str>
    ensures { IfSome result (λ text. text.now ≡ line.now ++ 10 ∷ []) }
{
    if line.len() > 1 {
        return None;
    }
    candidate(line).filter(|text| is_with_line_end(text, line))
}
