//! Blanks, comments and columns: where the first other byte is. `docs/LANGUAGE.md, Lines and tokens`.
ghost use Rattle.std.specs.Prelude.{◌≡◌, ◌≤◌, ◌*◌, length};
ghost use Rattle.occ_lines.specs.Lexeme.{after_blanks as spec_after_blanks, is_blank as spec_is_blank, is_end as spec_is_end};
ghost use Rattle.occ_lines.specs.Lines.{column as spec_column};

/// Whether the byte is a space or a tab.
pub fn is_blank(b: u8) -> bool
    ensures { result ≡ spec_is_blank b }
{
    b == b' ' || b == b'\t'
}

/// What stands after the blanks in front.
pub fn after_blanks(text: &[u8]) -> &[u8]
    ensures { result.now ≡ spec_after_blanks text.now }
{
    for (i, b) in text.iter().enumerate() {
        if !is_blank(*b) {
            return text.split_at(i).1;
        }
    }
    &[]
}

/// Whether there is nothing, or a comment.
pub fn is_end(text: &[u8]) -> bool
    ensures { result ≡ spec_is_end text.now }
{
    match text {
        [] | [b'-', b'-', ..] => true,
        _ => false,
    }
}

/// The column of the first byte that is no blank, and what stands from it on.
pub fn indented(line: &[u8]) -> (u32, &[u8])
    requires { length line.now ≤ 262144 }
    ensures column { result.0 ≡ spec_column line.now }
    ensures text { result.1.now ≡ spec_after_blanks line.now }
{
    let mut column = 0;
    for (i, b) in line.iter().enumerate() {
        match *b {
            b' ' => column += 1,
            b'\t' => column = (column / 8 + 1) * 8,
            _ => return (column, line.split_at(i).1),
        }
    }
    (column, &[])
}

/// The column of the first byte that is no blank.
pub fn column(line: &[u8]) -> u32
    requires { length line.now ≤ 262144 }
    ensures { result ≡ spec_column line.now }
{
    indented(line).0
}
