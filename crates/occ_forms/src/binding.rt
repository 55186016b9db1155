//! How a name is bound to what follows: IS, RETYPES or RESHAPES.
ghost use Rattle.occ_lines.specs.declared.token.Token.TheVariants as t;
ghost use Rattle.occ_lines.specs.declared.token.Token.{Token as AToken};
ghost use Rattle.occ_forms.specs.SpecificationReading.{binding_word};
ghost use Rattle.occ_forms.specs.declared.binding.Binding.{Binding as ABinding};
ghost use Rattle.std.specs.Prelude.{List, MatchOption, ◌∷◌, ◌≡◌, ◌≢◌};

use super::specification_tree::Recast;
use occ_lines::{Token, Word};

/// How a name is specified to stand for what follows.
#[derive(Clone, Copy)]
pub enum Binding {
    /// By `IS`.
    Is,
    Recast(Recast),
}

/// The word of a binding, and what follows it.
pub fn bound_by(tokens: &[Token]) -> Option<(Binding, &[Token])>
    ensures { MatchOption result ((b : ABinding) (k : List AToken) → tokens.now ≢ t.Word (binding_word b) ∷ k) (λ x. tokens.now ≡ t.Word (binding_word x.0) ∷ x.1.now) }
{
    match tokens {
        [Token::Word(Word::Is), rest @ ..] => Some((Binding::Is, rest)),
        [Token::Word(Word::Retypes), rest @ ..] => Some((Binding::Recast(Recast::Retypes), rest)),
        [Token::Word(Word::Reshapes), rest @ ..] => Some((Binding::Recast(Recast::Reshapes), rest)),
        _ => None,
    }
}
