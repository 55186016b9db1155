//! Directives.
ghost use Rattle.std.specs.Prelude.{◌≡◌, ◌≤◌, ◌==◌, ◌++◌, cond, IfOk, MatchOption, None, Some, codes, length, nat_eq};
ghost use Rattle.std.specs.List.{ends_with, prefix_len};
ghost use Rattle.std.specs.Result.{result_err};
ghost use Rattle.occ_base.specs.FileName.{name_fault};
ghost use Rattle.occ_lines.specs.Directive.{after_word as spec_after_word, directive_body as spec_directive_body, directive_of as spec_directive_of, include_body as spec_include_body, is_quoted_byte as spec_is_quoted_byte, last_dot as spec_last_dot, list_name, quoted_name as spec_quoted_name, use_body as spec_use_body, unit_name as spec_unit_name, without_suffix as spec_without_suffix};

use super::blanks::{after_blanks, is_end};
use super::lexeme::{after_first, found_in};
use super::quoted::following;
use super::scan::name_len;
use super::text::Body;
use occ_base::{Boxed, Code, FileName, NameFault, Shared};
use std::alloc::{AllocError, Global};

/// What a directive asks for.
#[derive(Clone, Copy)]
pub enum Directive {
    /// The lines of a file.
    Include,
    /// The exports of a unit.
    Use,
    /// Nothing: the line is dropped.
    Dropped,
}

/// The words of directives.
const DIRECTIVES: [(&[u8], Directive); 5] = [
    (b"INCLUDE", Directive::Include),
    (b"USE", Directive::Use),
    (b"COMMENT", Directive::Dropped),
    (b"OPTION", Directive::Dropped),
    (b"PRAGMA", Directive::Dropped),
];

/// The directive that begins the text.
#[tactic(auto, unfolding(crate::specs::Directive::directive_of))]
#[inline(always)]
pub fn directive_of(text: &[u8]) -> Option<Directive>
    ensures { result ≡ spec_directive_of text.now }
{
    let word = following(text, b'#')?;
    found_in(&DIRECTIVES, word.split_at(name_len(word)).0)
}

/// What stands after the word of a directive.
fn after_word(text: &[u8]) -> &[u8]
    ensures { result.now ≡ spec_after_word text.now }
{
    let word = after_first(text);
    after_blanks(word.split_at(name_len(word)).1)
}

/// Whether the byte may stand in a quoted name.
fn is_quoted_byte(b: u8) -> bool
    ensures { result ≡ spec_is_quoted_byte b }
{
    32 <= b && b <= 126 && b != b'"'
}

/// How many bytes in front may stand in a quoted name.
fn quoted_len(text: &[u8]) -> usize
    ensures value { result ≡ prefix_len spec_is_quoted_byte text.now }
    ensures within { result ≤ length text.now }
{
    for (i, b) in text.iter().enumerate() {
        if !is_quoted_byte(*b) {
            return i;
        }
    }
    text.len()
}

/// The name between quotes, where nothing else stands on the line.
fn quoted_name(text: &[u8]) -> Option<&[u8]>
    ensures { MatchOption result (spec_quoted_name text.now ≡ None) (λ name. spec_quoted_name text.now ≡ Some name.now) }
{
    let body = following(text, b'"')?;
    let (name, rest) = body.split_at(quoted_len(body));
    let rest = following(rest, b'"')?;
    if is_end(after_blanks(rest)) {
        Some(name)
    } else {
        None
    }
}

/// Where the last dot stands, where a further byte stands there.
fn later_dot(last: Option<usize>, place: usize, b: u8) -> Option<usize>
    ensures { result ≡ cond (b == 46) (Some place) last }
{
    if b == b'.' { Some(place) } else { last }
}

/// Where the last dot stands.
fn last_dot(name: &[u8]) -> Option<usize>
    ensures { result ≡ spec_last_dot name.now }
{
    let mut last = None;
    for (i, b) in name.iter().enumerate() {
        last = later_dot(last, i, *b);
    }
    last
}

/// The name without its suffix.
fn without_suffix(name: &[u8]) -> &[u8]
    ensures { result.now ≡ spec_without_suffix name.now }
{
    match last_dot(name) {
        Some(dot) => name.split_at(dot).0,
        None => name,
    }
}

/// What a line holds that includes what is named after its word.
fn include_body(alloc: Global, text: &[u8]) -> Result<Body, AllocError>
    ensures { IfOk result (λ body. body ≡ spec_include_body (spec_quoted_name text.now)) }
{
    let Some(name) = quoted_name(text) else {
        return Ok(Body::Fault(Code::L1));
    };
    match FileName::read(name) {
        Ok(name) => Ok(Body::Include(Boxed::new(alloc, name)?)),
        Err(_) => Ok(Body::Fault(Code::L1)),
    }
}

/// The unit that is used by that name, or why it has no name of a file.
pub fn unit_of(name: &[u8]) -> Result<FileName, NameFault>
    ensures ok { IfOk result (λ unit. unit ≡ spec_unit_name name.now) }
    ensures fault { result_err result ≡ name_fault (spec_unit_name name.now) }
{
    with_suffix(without_suffix(name), b".occ")
}

/// The file of that name with the suffix, or why it is none.
fn with_suffix(front: &[u8], suffix: &[u8; 4]) -> Result<FileName, NameFault>
    ensures ok { IfOk result (λ file. file ≡ front.now ++ suffix.now) }
    ensures fault { result_err result ≡ name_fault (front.now ++ suffix.now) }
{
    if front.len() > 60 {
        return Err(NameFault::Length);
    }
    let mut whole = [0; 64];
    let (before, after) = whole.split_at_mut(front.len());
    before.copy_from_slice(front);
    after.split_at_mut(4).0.copy_from_slice(suffix);
    FileName::read(whole.split_at(front.len() + 4).0)
}

/// Whether the name is that of a library.
fn is_library(name: &[u8]) -> bool
    ensures { result ≡ ends_with nat_eq name.now (codes ".lib") }
{
    name.len() >= 4 && name.split_at(name.len() - 4).1 == b".lib".as_slice()
}

/// The list of a library that is used by that name, of which the unit has a file name.
fn list_of(alloc: Global, name: &[u8]) -> Result<Option<Boxed<FileName>>, AllocError>
    requires { name_fault (spec_unit_name name.now) ≡ None }
    ensures { IfOk result (λ list. list ≡ list_name name.now) }
{
    if !is_library(name) {
        return Ok(None);
    }
    match with_suffix(without_suffix(name), b".lbb") {
        Ok(list) => Ok(Some(Boxed::new(alloc, list)?)),
        Err(_) => Ok(None),
    }
}

/// What a line holds that uses what is named after its word.
fn use_body(alloc: Global, text: &[u8]) -> Result<Body, AllocError>
    ensures { IfOk result (λ body. body ≡ spec_use_body (spec_quoted_name text.now)) }
{
    let Some(name) = quoted_name(text) else {
        return Ok(Body::Fault(Code::L1));
    };
    match unit_of(name) {
        Ok(unit) => {
            let unit = Shared::new(alloc, unit)?;
            Ok(Body::Uses(unit, list_of(alloc, name)?))
        }
        Err(_) => Ok(Body::Fault(Code::L1)),
    }
}

/// What the line of a directive holds, if it is not dropped. The text begins with the directive.
pub fn directive_body(
    alloc: Global,
    directive: Directive,
    text: &[u8],
) -> Result<Option<Body>, AllocError>
    ensures { IfOk result (λ body. body ≡ spec_directive_body directive text.now) }
{
    match directive {
        Directive::Include => Ok(Some(include_body(alloc, after_word(text))?)),
        Directive::Use => Ok(Some(use_body(alloc, after_word(text))?)),
        Directive::Dropped => Ok(None),
    }
}
