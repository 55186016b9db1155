//! The whole lines of a script, up to the limit of 67,108,864 bytes.
ghost use Rattle.std.specs.Bool.{MatchBool};
ghost use Rattle.std.specs.Prelude.{◌≡◌, ◌+◌, ◌≤◌, ◌<◌, ℕ, List, IfOk, OnErr, drop, length, false, take, true};
ghost use Rattle.occheck_commands.specs.Ended.{IsEnded, IsOpen};
ghost use Rattle.occheck_commands.specs.Lines.{cut_lines, ended_lines, feeds, last_lines, script_limit, whole_lines};
ghost use Rattle.occheck_commands.specs.Script.{is_over};

use std::alloc::{AllocError, Global};

/// The greatest number of bytes of a script.
pub const LIMIT: usize = 67_108_864;

/// The lines of a script that lie whole within the limit, each with its LF.
#[derive(Drop)]
pub struct ScriptText {
    pub bytes: Vec<u8>,
    /// Whether more bytes than the limit were given.
    pub over: bool,
}

/// The whole lines of a script, of which all bytes were read, or one more than the limit.
///
/// # Errors
///
/// Where memory is refused.
pub fn whole_text(bytes: Vec<u8>) -> Result<ScriptText, AllocError>
    ensures ended { IfOk result (λ text. IsEnded text.bytes.items) }
    ensures short { length bytes.items ≤ script_limit + 1 → IfOk result (λ text. length text.bytes.items ≤ script_limit + 1) }
    ensures lines { IfOk result (λ text. (all : List ℕ) → bytes.items ≡ take (script_limit + 1) all → cut_lines text.bytes.items ≡ whole_lines all) }
    ensures over { IfOk result (λ text. (all : List ℕ) → bytes.items ≡ take (script_limit + 1) all → text.over ≡ is_over all) }
{
    if bytes.len() > LIMIT {
        return Ok(cut_off(bytes));
    }
    let bytes = end_last(bytes)?;
    Ok(ScriptText { bytes, over: false })
}

/// The whole lines of more bytes than the limit.
fn cut_off(bytes: Vec<u8>) -> ScriptText
    requires { script_limit < length bytes.items }
    ensures over { result.over ≡ true }
    ensures ended { IsEnded result.bytes.items }
    ensures short { length result.bytes.items ≤ script_limit }
    ensures lines { cut_lines result.bytes.items ≡ take (feeds (take script_limit bytes.items)) (cut_lines (take script_limit bytes.items)) }
{
    let mut bytes = bytes;
    bytes.truncate(LIMIT);
    ScriptText {
        bytes: ended_part(bytes),
        over: true,
    }
}

/// How many bytes stand up to the last LF, with it.
pub fn ended_length(bytes: &[u8]) -> usize
    ensures within { result ≤ length bytes.now }
    ensures ended { IsEnded (take result bytes.now) }
    ensures none { feeds (drop result bytes.now) ≡ 0 }
{
    let mut length = bytes.len();
    while length > 0 && bytes[length - 1] != b'\n' {
        length -= 1;
    }
    length
}

/// The last bytes of a script with all their lines ended, those that count: where there are bytes over the limit behind them, no
/// line that is not ended counts.
///
/// # Errors
///
/// Where memory is refused.
#[tactic(auto, using(crate::proofs::Going::last_ended))]
pub fn closed(bytes: Vec<u8>, over: bool) -> Result<Vec<u8>, AllocError>
    ensures ended { IfOk result (λ closed. IsEnded closed.items) }
    ensures short { IfOk result (λ closed. length closed.items ≤ length bytes.items + 1) }
    ensures lines { IfOk result (λ closed. last_lines over closed.items ≡ last_lines over bytes.items) }
    ensures refused { OnErr result (0 < length bytes.items) }
{
    if over {
        return Ok(ended_part(bytes));
    }
    end_last(bytes)
}

/// The bytes up to the last LF.
fn ended_part(bytes: Vec<u8>) -> Vec<u8>
    ensures ended { IsEnded result.items }
    ensures short { length result.items ≤ length bytes.items }
    ensures lines { cut_lines result.items ≡ ended_lines bytes.items }
{
    let mut bytes = bytes;
    let length = ended_length(bytes.as_slice());
    bytes.truncate(length);
    bytes
}

/// The bytes with the last line ended like the others.
#[tactic(auto, using(crate::proofs::Whole::close_last, crate::proofs::Whole::ended_close))]
fn end_last(bytes: Vec<u8>) -> Result<Vec<u8>, AllocError>
    ensures ended { IfOk result (λ whole. IsEnded whole.items) }
    ensures short { IfOk result (λ whole. length whole.items ≤ length bytes.items + 1) }
    ensures lines { IfOk result (λ whole. cut_lines whole.items ≡ cut_lines bytes.items) }
    ensures refused { OnErr result (0 < length bytes.items) }
{
    let mut bytes = bytes;
    if !is_ended(bytes.as_slice()) {
        bytes.push(b'\n')?;
    }
    Ok(bytes)
}

/// Whether the last line is ended.
fn is_ended(bytes: &[u8]) -> bool
    ensures { MatchBool result (IsEnded bytes.now) (IsOpen bytes.now) }
{
    match bytes {
        [] => true,
        [.., last] => *last == b'\n',
    }
}
