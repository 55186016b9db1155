//! Forms of lines of one word, such as `SEQ`, `SKIP` and `ELSE`. Many lines are such, and those of one word share their form.
ghost use Rattle.occ_forms.specs.Depth.{HasForm};
ghost use Rattle.occ_lines.specs.declared.token.Token.TheVariants as token;
ghost use Rattle.std.specs.Prelude.{◌≡◌, ◌∷◌, [], IfSome};

use super::tree::Form;
use occ_base::Shared;
use occ_lines::Word;
use std::marker::Model;

/// The form of a line of one word: in contracts the word.
#[derive(Drop)]
pub(crate) struct WordForm {
    word: Word,
    form: Shared<Form>,
}

impl Model for WordForm {
    ghost use Rattle.occ_lines.specs.declared.token.Word.{Word};
    ghost use Rattle.std.specs.Coded.{codes};
    ghost use Rattle.occ_forms.specs.inside.Words.{IsOfWord};

    ghost Value = { Word };

    ghost coded = { Prim.hlevel codes };

    ghost view = { λ one. one.word };

    ghost invariant = { IsOfWord };
}

impl WordForm {
    /// This is the form of a line of this word.
    pub(crate) fn new(word: Word, form: Shared<Form>) -> WordForm
        requires { HasForm (token.Word word ∷ []) form }
        ensures { result ≡ word }
    {
        WordForm { word, form }
    }

    /// The form of a line of a word, if this is it.
    fn form_of(&self, word: Word) -> Option<&Shared<Form>>
        ensures { IfSome result (λ form. HasForm (token.Word word ∷ []) form.now) }
    {
        if self.word == word {
            Some(&self.form)
        } else {
            None
        }
    }
}

/// The form of a line of a word, if it is among these.
pub(crate) fn form_among(words: &[WordForm], word: Word) -> Option<&Shared<Form>>
    ensures { IfSome result (λ form. HasForm (token.Word word ∷ []) form.now) }
{
    for one in words {
        if let Some(form) = one.form_of(word) {
            return Some(form);
        }
    }
    None
}
