//! Names that are almost one.
use super::text::next_word;

/// Whether two names differ in the case of letters alone, or in one letter.
pub fn is_like(word: &[u8], name: &[u8]) -> bool {
    if word.eq_ignore_ascii_case(name) {
        return true;
    }
    name.len() >= 3 && is_one_off(word, name)
}

/// Whether two names are one but for one byte that is changed, left out or put in.
fn is_one_off(word: &[u8], name: &[u8]) -> bool {
    let front = word.iter().zip(name).take_while(|(a, b)| a == b).count();
    let (rest, others) = (tail(word, front), tail(name, front));
    tail(rest, 1) == tail(others, 1) || tail(rest, 1) == others || rest == tail(others, 1)
}

/// What is left of some bytes after so many.
fn tail(bytes: &[u8], count: usize) -> &[u8] {
    bytes.get(count..).unwrap_or(&[])
}

/// A word of a line that is almost a name.
pub fn like_in<'a>(line: &'a [u8], name: &[u8]) -> &'a [u8] {
    let mut rest = line;
    for _ in 0..line.len() {
        let Some((word, more)) = next_word(rest) else {
            break;
        };
        if word != name && is_like(word, name) {
            return word;
        }
        rest = more;
    }
    &[]
}
