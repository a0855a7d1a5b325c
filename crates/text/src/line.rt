// The lines of a script.
ghost use Rattle.std.specs.Prelude.{◌≡◌};
ghost use Rattle.text.specs.Lines.{content_of, skipped};

// A line without the newline, or carriage return and newline, at its end.
pub fn content(line: &[u8]) -> &[u8]
    ensures { result.now ≡ content_of line.now }
{
    match line {
        [rest @ .., b'\r', b'\n'] => rest,
        [rest @ .., b'\n'] => rest,
        _ => line,
    }
}

// Whether a line asks for nothing: it is empty, or begins with the mark of a comment.
pub fn is_skipped(line: &str) -> bool
    ensures { result ≡ skipped line.now }
{
    line.is_empty() || line.starts_with('#')
}
