//! The lines of a head: one of them tells how long the message is.
ghost use Rattle.occ_editor_edits.specs.Frames.{names_length, number_of, told_by};
ghost use Rattle.std.specs.Prelude.{◌≡◌, ◌<◌};

const LENGTH: &[u8; 16] = b"Content-Length: ";

/// The number that digits tell behind others, up to the end of a line.
fn number(so_far: u32, digits: &[u8]) -> Option<u32>
    requires { so_far < 1000000000 }
    ensures { result ≡ number_of so_far digits.now }
{
    match digits.split_first() {
        None => None,
        Some((first, rest)) => {
            let byte = *first;
            if 48 <= byte && byte <= 57 {
                if so_far < 100_000_000 {
                    number(10 * so_far + u32::from(byte - 48), rest)
                } else {
                    None
                }
            } else if digits == b"\r\n".as_slice() {
                Some(so_far)
            } else {
                None
            }
        }
    }
}

/// Whether bytes begin with the words before a length.
fn is_length(rest: &[u8]) -> bool
    ensures { result ≡ names_length rest.now }
{
    if rest.len() < 16 {
        return false;
    }
    let (name, _) = rest.split_at(16);
    name == LENGTH.as_slice()
}

/// How long a line of a head tells the message to be. What a broken message left may stand before it.
pub fn told(line: &[u8]) -> Option<u32>
    ensures { result ≡ told_by line.now }
{
    match line.split_first() {
        None => None,
        Some((_, _)) if is_length(line) => number(0, &line[16..]),
        Some((_, rest)) => told(rest),
    }
}
