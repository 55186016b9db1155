//! Lines that are one word or one symbol.
ghost use Rattle.occ_lines.specs.declared.token.Token.TheVariants as t;
ghost use Rattle.std.specs.Prelude.{MatchOption, [], ◌∷◌, ◌≡◌, ◌≢◌};

use super::from_tokens::alone;
use occ_forms_expressions::{after, after_word};
use occ_lines::{Symbol, Token, Word};

/// What the word alone stands for.
pub fn word_alone<T: Drop>(tokens: &[Token], word: Word, meant: T) -> Option<T>
    ensures { MatchOption result (tokens.now ≢ t.Word word ∷ []) (λ found. (found ≡ meant) × (tokens.now ≡ t.Word word ∷ [])) }
{
    let rest = after_word(tokens, word)?;
    alone(meant, rest)
}

/// What the symbol alone stands for.
pub fn symbol_alone<T: Drop>(tokens: &[Token], symbol: Symbol, meant: T) -> Option<T>
    ensures { MatchOption result (tokens.now ≢ t.Symbol symbol ∷ []) (λ found. (found ≡ meant) × (tokens.now ≡ t.Symbol symbol ∷ [])) }
{
    let rest = after(tokens, symbol)?;
    alone(meant, rest)
}
