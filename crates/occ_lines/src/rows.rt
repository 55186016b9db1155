//! Worked rows of the definitions: each function has an empty body, and its clauses are computed.
ghost use Rattle.std.specs.Prelude.{◌≡◌, ◌++◌, [], ◌∷◌, ℕ, List, codes, false, true};
ghost use Rattle.std.specs.List.{list_all, list_any};
ghost use Rattle.occ_base.specs.declared.code.Code.TheVariants as code;
ghost use Rattle.occ_lines.specs.Lexeme.{IsFirst, Lexes, hexadecimal_token, is_hexadecimal, is_name, is_number, is_symbol, name_token, number_token, symbol_token};
ghost use Rattle.occ_lines.specs.Quoted.{unit};
ghost use Rattle.occ_lines.specs.Directive.{directive_body, directive_of};
ghost use Rattle.occ_lines.specs.declared.directive.Directive.TheVariants as d;
ghost use Rattle.occ_lines.specs.declared.ending.Ending.TheVariants as ending;
ghost use Rattle.occ_lines.specs.Listing.{listed, name_on};
ghost use Rattle.occ_lines.specs.Lines.{IsLines, column, continues, goes_on, goes_on_symbol, goes_on_word, is_skipped, logical_of, resumes, takes};
ghost use Rattle.occ_lines.specs.declared.text.Body.TheVariants as body;
ghost use Rattle.occ_lines.specs.declared.text.Logical.{Logical as ALogical};
ghost use Rattle.occ_lines.specs.declared.token.Symbol.TheVariants as s;
ghost use Rattle.occ_lines.specs.declared.token.Token.{Token as AToken};
ghost use Rattle.occ_lines.specs.declared.token.Token.TheVariants as t;
ghost use Rattle.occ_lines.specs.declared.token.Word.TheVariants as w;

/// Which bytes are names and numbers.
pub fn class_rows()
    ensures name { is_name (codes "a1.b") ≡ true }
    ensures dot { is_name (codes ".a") ≡ false }
    ensures line { is_name (codes "a_b") ≡ false }
    ensures none { is_name [] ≡ false }
    ensures number { is_number (codes "0012") ≡ true }
    ensures mixed { is_number (codes "12a") ≡ false }
    ensures hexadecimal { is_hexadecimal (codes "#0fF") ≡ true }
    ensures hash { is_hexadecimal (codes "#") ≡ false }
    ensures letter { is_hexadecimal (codes "#g") ≡ false }
    ensures nothing { is_number [] ≡ false }
{}

/// Which bytes are symbols.
#[tactic(auto, unfolding(crate::specs::Lexeme::is_symbol, crate::specs::Lexeme::symbol_row))]
pub fn symbol_rows()
    ensures assign { is_symbol (codes ":=") ≡ true }
    ensures counted { is_symbol (codes "::") ≡ true }
    ensures broken { is_symbol (codes "=:") ≡ false }
    ensures dollar { is_symbol (codes "$") ≡ false }
    ensures equal { is_symbol (codes "=") ≡ true }
    ensures none { is_symbol [] ≡ false }
{}

/// What names are.
#[tactic(auto, unfolding(crate::specs::Lexeme::name_token, crate::specs::Lexeme::reserved_row))]
pub fn name_rows()
    ensures proc { name_token (codes "PROC") ≡ t.Word w.Proc }
    ensures int { name_token (codes "INT") ≡ t.Word w.Int }
    ensures seq { name_token (codes "SEQ") ≡ t.Word w.Seq }
    ensures par { name_token (codes "PAR") ≡ t.Word w.Par }
    ensures skip { name_token (codes "SKIP") ≡ t.Word w.Skip }
    ensures later { name_token (codes "WHILE") ≡ t.Word w.While }
    ensures small { name_token (codes "skip") ≡ t.Name (codes "skip") }
    ensures longer { name_token (codes "INT8") ≡ t.Name (codes "INT8") }
    ensures free { name_token (codes "IN") ≡ t.Name (codes "IN") }
{}

/// What digits are.
#[tactic(auto, unfolding(crate::specs::Lexeme::number_token, crate::specs::Lexeme::hexadecimal_token))]
pub fn number_rows()
    ensures zeros { number_token (codes "0012") ≡ Some (t.Decimal 12) }
    ensures greatest { number_token (codes "18446744073709551615") ≡ Some (t.Decimal 18446744073709551615) }
    ensures hexadecimal { hexadecimal_token (codes "#00fF") ≡ Some (t.Hexadecimal 255) }
    ensures most { hexadecimal_token (codes "#FFFFFFFFFFFFFFFF") ≡ Some (t.Hexadecimal 18446744073709551615) }
    ensures more { hexadecimal_token (codes "#10000000000000000") ≡ None }
    ensures over { number_token (codes "18446744073709551616") ≡ None }
{}

/// What symbols are.
#[tactic(auto, unfolding(crate::specs::Lexeme::symbol_token, crate::specs::Lexeme::symbol_row))]
pub fn symbol_token_rows()
    ensures assign { symbol_token (codes ":=") ≡ Some (t.Symbol s.Assign) }
    ensures counted { symbol_token (codes "::") ≡ Some (t.Symbol s.Counted) }
    ensures colon { symbol_token (codes ":") ≡ Some (t.Symbol s.Colon) }
{}

/// Which token is first, and what follows it.
pub fn first_rows()
    ensures name { IsFirst (codes "ab+c") (t.Name (codes "ab")) (codes "+c") }
    ensures number { IsFirst (codes "12ab") (t.Decimal 12) (codes "ab") }
    ensures symbol { IsFirst (codes ":=b") (t.Symbol s.Assign) (codes "b") }
    ensures bad { (token : AToken) (rest : List ℕ) → IsFirst (codes "$a") token rest → ⊥ }
    ensures line { Lexes (codes " ab --") (t.Name (codes "ab") ∷ []) ending.Whole }
    ensures none { Lexes (codes " $a") [] (ending.Bad code.L1) }
{}

/// What stands between quotes.
pub fn quoted_rows()
    ensures plain { unit 34 (codes "ab") ≡ Some (97, codes "b") }
    ensures carriage { unit 34 (codes "*Cb") ≡ Some (13, codes "b") }
    ensures line { unit 34 (codes "*nb") ≡ Some (10, codes "b") }
    ensures tab { unit 34 (codes "*tb") ≡ Some (9, codes "b") }
    ensures space { unit 34 (codes "*Sb") ≡ Some (32, codes "b") }
    ensures star { unit 34 (codes "**b") ≡ Some (42, codes "b") }
    ensures byte { unit 34 (codes "*#fFb") ≡ Some (255, codes "b") }
    ensures short { unit 34 (codes "*#f") ≡ None }
    ensures none { unit 34 (codes "*l") ≡ None }
    ensures broken { unit 34 (codes "*") ≡ None }
    ensures closed { unit 34 (34 ∷ []) ≡ None }
    ensures single { unit 34 (39 ∷ []) ≡ Some (39, []) }
    ensures double { unit 39 (34 ∷ []) ≡ Some (34, []) }
    ensures tabulator { unit 34 (9 ∷ []) ≡ None }
    ensures high { unit 34 (127 ∷ []) ≡ None }
{}

/// Columns, the lines that are skipped, and those that go on with a statement.
#[tactic(auto, unfolding(crate::specs::Directive::directive_of))]
pub fn line_rows()
    ensures plain { column (codes "ab") ≡ 0 }
    ensures spaces { column (codes "   ab") ≡ 3 }
    ensures tab { column (9 ∷ codes "a") ≡ 8 }
    ensures mixed { column (32 ∷ 9 ∷ 32 ∷ codes "a") ≡ 9 }
    ensures full { column (codes "        " ++ 9 ∷ codes "a") ≡ 16 }
    ensures empty { is_skipped [] ≡ true }
    ensures blank { is_skipped (32 ∷ 9 ∷ []) ≡ true }
    ensures comment { is_skipped (codes "   --" ++ 255 ∷ []) ≡ true }
    ensures minus { is_skipped (codes "-") ≡ false }
    ensures following { is_skipped (codes "a --") ≡ false }
    ensures odd { logical_of 7 1 (body.Fault code.L1) ≡ logical_of 7 1 (body.Fault code.L2) }
    ensures same { continues 2 (codes "   x") ≡ true }
    ensures left { continues 2 (codes " x") ≡ false }
    ensures crossed { continues 0 (codes "  #USE b") ≡ false }
    ensures star { resumes 2 (codes "   *a") ≡ true }
    ensures none { resumes 2 (codes " *a") ≡ false }
    ensures closed { resumes 0 (codes "a") ≡ false }
    ensures taken { takes 2 (codes "--") ≡ true }
    ensures lost { takes 2 (codes "  #USE b") ≡ false }
{}

/// Which directive begins a text, and what it names.
#[tactic(auto, unfolding(crate::specs::Directive::directive_of))]
pub fn directive_rows()
    ensures include { directive_of (codes "#INCLUDE\"k.inc") ≡ Some d.Include }
    ensures usage { directive_of (codes "#USE b") ≡ Some d.Use }
    ensures pragma { directive_of (codes "#PRAGMA") ≡ Some d.Dropped }
    ensures longer { directive_of (codes "#USE.x") ≡ None }
    ensures small { directive_of (codes "#use") ≡ None }
    ensures apart { directive_of (codes "# USE") ≡ None }
    ensures file { directive_body d.Include (codes "#INCLUDE \"k.inc\" --") ≡ Some (body.Include (codes "k.inc")) }
    ensures following { directive_body d.Include (codes "#INCLUDE \"k.inc\" x") ≡ Some (body.Fault code.L1) }
    ensures unit { directive_body d.Use (codes "#USE \"a.b.c\"") ≡ Some (body.Uses (codes "a.b.occ") None) }
    ensures empty { directive_body d.Use (codes "#USE\"\"") ≡ Some (body.Uses (codes ".occ") None) }
    ensures library { directive_body d.Use (codes "#USE \"z.lib\"") ≡ Some (body.Uses (codes "z.occ") (Some (codes "z.lbb"))) }
    ensures capitals { directive_body d.Use (codes "#USE \"z.LIB\"") ≡ Some (body.Uses (codes "z.occ") None) }
    ensures list { directive_body d.Use (codes "#USE \"z.lbb\"") ≡ Some (body.Uses (codes "z.occ") None) }
    ensures bad { directive_body d.Use (codes "#USE \"a?b\"") ≡ Some (body.Fault code.L1) }
    ensures dropped { directive_body d.Dropped (codes "#OPTION") ≡ None }
{}

/// What the lines of a list name, and of which lines it is none.
#[tactic(auto, unfolding(bstr::specs::Text::line_len, bstr::specs::Text::lines_from, crate::specs::Listing::listed))]
pub fn listing_rows()
    ensures names { name_on (9 ∷ codes " q.occ  ") ≡ codes "q.occ" }
    ensures comment { name_on (codes "q  -- q.occ") ≡ codes "q" }
    ensures beside { name_on (codes "q--x -- y") ≡ codes "q--x" }
    ensures within { name_on (codes "q x") ≡ codes "q x" }
    ensures carriage { name_on (codes "q" ++ 13 ∷ []) ≡ codes "q" ++ 13 ∷ [] }
    ensures some { listed (codes "q.occ" ++ 13 ∷ 10 ∷ 10 ∷ codes "-- x" ++ 10 ∷ codes " s.tco") ≡ Some (codes "q.occ" ∷ codes "s.occ" ∷ []) }
    ensures again { listed (codes "q" ++ 10 ∷ codes "s" ++ 10 ∷ codes "q.x" ++ 10 ∷ []) ≡ Some (codes "q.occ" ∷ codes "s.occ" ∷ []) }
    ensures empty { listed [] ≡ Some [] }
    ensures bad { listed (codes "s" ++ 10 ∷ codes "q!") ≡ None }
    ensures two { listed (codes "q s") ≡ None }
    ensures blank_behind { listed (codes "q.o s") ≡ None }
    ensures carriage_behind { listed (codes "q.occ" ++ 13 ∷ []) ≡ None }
{}

/// After which tokens a statement goes on.
pub fn goes_on_rows()
    ensures none { goes_on [] ≡ false }
    ensures assign { goes_on (t.Name (codes "a") ∷ t.Symbol s.Assign ∷ []) ≡ true }
    ensures number { goes_on (t.Symbol s.Plus ∷ t.Decimal 1 ∷ []) ≡ false }
    ensures monadic { goes_on (t.Word w.Not ∷ []) ≡ true }
    ensures output { goes_on (t.Symbol s.Output ∷ []) ≡ false }
    ensures counted { goes_on (t.Symbol s.Counted ∷ []) ≡ false }
    ensures of { goes_on (t.Word w.Of ∷ []) ≡ false }
    ensures branch { goes_on (t.Word w.Case ∷ []) ≡ false }
    ensures words { list_all goes_on_word (w.Rem ∷ w.Plus ∷ w.Minus ∷ w.Times ∷ w.BitAnd ∷ w.BitOr ∷ w.And ∷ w.Or ∷ w.After ∷ w.BitNot ∷ w.Not ∷ w.Size ∷ []) ≡ true }
    ensures marks { list_all goes_on_word (w.Is ∷ w.From ∷ w.For ∷ w.Retypes ∷ w.Reshapes ∷ []) ≡ true }
    ensures operators { list_all goes_on_symbol (s.Plus ∷ s.Minus ∷ s.Times ∷ s.Divide ∷ s.Remainder ∷ s.BitAnd ∷ s.BitOr ∷ s.BitXor ∷ s.ShiftLeft ∷ s.ShiftRight ∷ s.BitNot ∷ []) ≡ true }
    ensures comparisons { list_all goes_on_symbol (s.Equal ∷ s.Unequal ∷ s.Less ∷ s.Greater ∷ s.AtMost ∷ s.AtLeast ∷ []) ≡ true }
    ensures commas { list_all goes_on_symbol (s.Comma ∷ s.Semicolon ∷ s.Assign ∷ s.Ampersand ∷ []) ≡ true }
    ensures ends { list_any goes_on_symbol (s.Counted ∷ s.Open ∷ s.Close ∷ s.OpenIndex ∷ s.CloseIndex ∷ s.Colon ∷ s.Input ∷ s.Output ∷ []) ≡ false }
{}

/// What whole texts spell: a statement of three lines, of which one is skipped, and one that a directive ends.
pub fn text_rows()
    ensures continued { IsLines (codes "a:=" ++ 10 ∷ codes "--" ++ 10 ∷ codes "  1") (logical_of 1 0 (body.Tokens (t.Name (codes "a") ∷ t.Symbol s.Assign ∷ t.Decimal 1 ∷ [])) ∷ []) }
    ensures crossed { IsLines (codes "  a," ++ 10 ∷ codes "#USE \"b\"") (logical_of 1 2 (body.Fault code.L3) ∷ logical_of 2 0 (body.Uses (codes "b.occ") None) ∷ []) }
{}

/// The law of the lines: a text spells one list of logical lines, and no other.
#[tactic(auto, using(crate::proofs::Cut::some_lines, crate::proofs::Cut::one_lines))]
pub fn lines_law()
    ensures some { (text : List ℕ) → (xs : List ALogical) × IsLines text xs }
    ensures one { (text : List ℕ) (xs : List ALogical) (ys : List ALogical) → IsLines text xs → IsLines text ys → xs ≡ ys }
{}
