//! That tokens are spelled by one form, and a text has one list of lines.
ghost use Rattle.occ_forms.specs.Prepared.{IsPrepared};
ghost use Rattle.occ_forms.specs.Spelling.{form_tokens};
ghost use Rattle.occ_forms.specs.declared.source.SourceLine.{SourceLine as ASourceLine};
ghost use Rattle.occ_forms.specs.declared.tree.Form.{Form as AForm};
ghost use Rattle.std.specs.Prelude.{◌≡◌, ℕ, List};

use occ_lines::lines_law;

/// The tokens of a line are spelled by one form.
pub fn one_form_law()
    ensures { (a b : AForm) → form_tokens a ≡ form_tokens b → a ≡ b }
{}

/// A text has one list of lines, and no other.
pub fn source_law()
    ensures { (text : List ℕ) (lines others : List ASourceLine) → IsPrepared text lines → IsPrepared text others → lines ≡ others }
{
    lines_law();
    one_form_law();
}
