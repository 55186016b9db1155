//! The form of a line: its class is found first, and then parsed. `docs/LANGUAGE.md, Forms`.
ghost use Rattle.occ_forms.specs.Reading.{IsFormOf};
ghost use Rattle.std.specs.Prelude.{IfOk};

use super::action::{assignment, input_line, output};
use super::class::{Class, classify};
use super::construct::{replicable, selection, while_loop};
use super::end::word_alone;
use super::part::{expressions, guard, packed, results, tagged_line};
use super::specifying::{close_or_declaration, specification};
use super::tree::{Action, Form, PartForm};
use occ_lines::{Token, Word};
use std::alloc::{AllocError, Global};

/// The form of a line: the first token that stands in no expression and no type says which class it is of.
pub fn line(alloc: Global, tokens: &[Token]) -> Result<Option<Form>, AllocError>
    ensures { IfOk result (λ answer. IsFormOf tokens.now answer) }
{
    match classify(tokens) {
        Class::Close => close_or_declaration(alloc, tokens),
        Class::Skip => Ok(word_alone(tokens, Word::Skip, Form::Action(Action::Skip))),
        Class::Stop => Ok(word_alone(tokens, Word::Stop, Form::Action(Action::Stop))),
        Class::Else => Ok(word_alone(tokens, Word::Else, Form::Part(PartForm::Else))),
        Class::ValueOf => Ok(word_alone(tokens, Word::ValOf, Form::Part(PartForm::ValueOf))),
        Class::Record => Ok(word_alone(tokens, Word::Record, Form::Part(PartForm::Record))),
        Class::PackedRecord => Ok(packed(tokens)),
        Class::Replicable => replicable(alloc, tokens),
        Class::While => while_loop(alloc, tokens),
        Class::Case => selection(alloc, tokens),
        Class::Result => results(alloc, tokens),
        Class::Expressions => expressions(alloc, tokens),
        Class::Assignment => assignment(alloc, tokens),
        Class::Output => output(alloc, tokens),
        Class::Input => input_line(alloc, tokens),
        Class::Guard => guard(alloc, tokens),
        Class::Tagged => tagged_line(alloc, tokens),
        Class::Other => specification(alloc, tokens),
    }
}
