//! Takes single tokens from the front of a list: a symbol, a word, a name.
ghost use Rattle.occ_lines.specs.declared.token.Token.TheVariants as t;
ghost use Rattle.occ_lines.specs.declared.token.Token.{Token as AToken};
ghost use Rattle.std.specs.Prelude.{IfOk, IsTrue, List, MatchOption, [], ℕ, ◌∷◌, ◌≡◌, ◌≢◌, ◌↔◌};

use occ_base::Name;
use occ_lines::{Symbol, Token, Word};
use std::alloc::{AllocError, Global};

/// The first token, and what follows it.
pub fn first(tokens: &[Token]) -> Option<(&Token, &[Token])>
    ensures { MatchOption result (tokens.now ≡ []) (λ x. tokens.now ≡ x.0.now ∷ x.1.now) }
{
    match tokens {
        [first, rest @ ..] => Some((first, rest)),
        [] => None,
    }
}

/// What follows the symbol, where it stands first.
pub fn after(tokens: &[Token], symbol: Symbol) -> Option<&[Token]>
    ensures { MatchOption result ((k : List AToken) → tokens.now ≢ t.Symbol symbol ∷ k) (λ rest. tokens.now ≡ t.Symbol symbol ∷ rest.now) }
{
    match tokens {
        [Token::Symbol(first), rest @ ..] if *first == symbol => Some(rest),
        _ => None,
    }
}

/// Whether two words are one.
fn same_word(a: Word, b: Word) -> bool
    ensures { IsTrue result ↔ (a ≡ b) }
{
    a == b
}

/// What follows the word, where it stands first.
pub fn after_word(tokens: &[Token], word: Word) -> Option<&[Token]>
    ensures { MatchOption result ((k : List AToken) → tokens.now ≢ t.Word word ∷ k) (λ rest. tokens.now ≡ t.Word word ∷ rest.now) }
{
    match tokens {
        [Token::Word(first), rest @ ..] if same_word(*first, word) => Some(rest),
        _ => None,
    }
}

/// The name that stands first, and what follows it.
#[inline(always)]
pub fn name(alloc: Global, tokens: &[Token]) -> Result<Option<(Name, &[Token])>, AllocError>
    ensures { IfOk result (λ r. MatchOption r ((n : List ℕ) (k : List AToken) → tokens.now ≢ t.Name n ∷ k) (λ x. tokens.now ≡ t.Name x.0 ∷ x.1.now)) }
{
    match tokens {
        [Token::Name(name), rest @ ..] => Ok(Some((name.copied(alloc)?, rest))),
        _ => Ok(None),
    }
}
