//! Worked rows: lines, words, numbers, first lines of commands, whole scripts.
ghost use Rattle.std.specs.Prelude.{◌≡◌, ◌∷◌, ◌++◌, [], codes, None, Some};
ghost use Rattle.occheck_commands.specs.Lines.{cut_lines, text_of, words};
ghost use Rattle.occheck_commands.specs.Script.{header, number, script_of};
ghost use Rattle.occheck_commands.specs.Script.Command.{Change, Checkpoint, Drop, Finish, Open, Remove, Report, Settle, Take};
ghost use Rattle.occheck_commands.specs.Script.Edit.{Changing, Opening};
ghost use Rattle.occheck_commands.specs.Script.Header.{Alone, Texts};

/// Lines and words of some bytes, by the definitions.
pub fn line_rows()
    ensures ended { cut_lines (codes "ab" ++ 10 ∷ codes "c" ++ 10 ∷ []) ≡ codes "ab" ∷ codes "c" ∷ [] }
    ensures open { cut_lines (codes "ab" ++ 10 ∷ codes "c") ≡ codes "ab" ∷ codes "c" ∷ [] }
    ensures empty { cut_lines (10 ∷ 10 ∷ []) ≡ [] ∷ [] ∷ [] }
    ensures none { cut_lines [] ≡ [] }
    ensures words { words (codes "open a.occ 3") ≡ codes "open" ∷ codes "a.occ" ∷ codes "3" ∷ [] }
    ensures two_blanks { words (codes "a  b") ≡ codes "a" ∷ [] ∷ codes "b" ∷ [] }
    ensures text { text_of (codes "ab" ∷ [] ∷ []) ≡ codes "ab" ++ 10 ∷ 10 ∷ [] }
{}

/// Numbers: leading zeros, the greatest, six digits, a sign, no digit.
pub fn number_rows()
    ensures zeros { number (codes "00007") ≡ Some 7 }
    ensures greatest { number (codes "99999") ≡ Some 99999 }
    ensures six_digits { number (codes "000007") ≡ None }
    ensures signed { number (codes "+1") ≡ None }
    ensures no_digit { number [] ≡ None }
{}

/// First lines of commands: each command; names of any bytes; workers up to 63; blanks in front, between and after; words
/// that are missing, too many, or other than they are.
pub fn header_rows()
    ensures open { header (codes "open a.occ 3") ≡ Some (Texts Opening (codes "a.occ") 3) }
    ensures change { header (codes "change a.txt 00003") ≡ Some (Texts Changing (codes "a.txt") 3) }
    ensures remove { header (codes "remove z.occ") ≡ Some (Alone (Remove (codes "z.occ"))) }
    ensures take { header (codes "take 63") ≡ Some (Alone (Take 63)) }
    ensures finish { header (codes "finish 0") ≡ Some (Alone (Finish 0)) }
    ensures drop { header (codes "drop 00007") ≡ Some (Alone (Drop 7)) }
    ensures settle { header (codes "settle") ≡ Some (Alone Settle) }
    ensures checkpoint { header (codes "checkpoint") ≡ Some (Alone Checkpoint) }
    ensures report { header (codes "report") ≡ Some (Alone Report) }
    ensures any_name { header (codes "remove " ++ 13 ∷ 200 ∷ []) ≡ Some (Alone (Remove (13 ∷ 200 ∷ []))) }
    ensures no_name { header (codes "remove ") ≡ None }
    ensures two_names { header (codes "remove a.occ b.occ") ≡ None }
    ensures worker { header (codes "take 64") ≡ None }
    ensures nobody { header (codes "drop") ≡ None }
    ensures six_digits { header (codes "open a.occ 000003") ≡ None }
    ensures no_number { header (codes "change a.occ") ≡ None }
    ensures blank_after { header (codes "report ") ≡ None }
    ensures blank_in_front { header (codes " report") ≡ None }
    ensures two_blanks { header (codes "open  3") ≡ None }
    ensures blank { header (codes " ") ≡ None }
    ensures carriage_return { header (codes "report" ++ 13 ∷ []) ≡ None }
    ensures capitals { header (codes "REPORT") ≡ None }
    ensures other { header (codes "checkpoints") ≡ None }
{}

/// What scripts say, with the lines of their commands: lines without bytes between commands and in a text; a last line of a
/// text without its LF; a text cut short, alone and after another command; a wrong line.
pub fn script_rows()
    ensures nothing { script_of [] ≡ record { commands = []; fault = None } }
    ensures blank_lines { script_of (10 ∷ codes "report" ++ 10 ∷ 10 ∷ []) ≡ record { commands = (record { line = 2; command = Report }) ∷ []; fault = None } }
    ensures text { script_of (codes "open a.occ 2" ++ 10 ∷ codes "x" ++ 10 ∷ 10 ∷ codes "take 0") ≡ record { commands = (record { line = 1; command = Open (codes "a.occ") (codes "x" ++ 10 ∷ 10 ∷ []) }) ∷ (record { line = 4; command = Take 0 }) ∷ []; fault = None } }
    ensures no_lines { script_of (codes "change a.occ 0" ++ 10 ∷ codes "settle") ≡ record { commands = (record { line = 1; command = Change (codes "a.occ") [] }) ∷ (record { line = 2; command = Settle }) ∷ []; fault = None } }
    ensures last_line { script_of (codes "change a.occ 1" ++ 10 ∷ codes "x") ≡ record { commands = (record { line = 1; command = Change (codes "a.occ") (codes "x" ++ 10 ∷ []) }) ∷ []; fault = None } }
    ensures cut_short { script_of (codes "open a.occ 3" ++ 10 ∷ codes "x" ++ 10 ∷ codes "y" ++ 10 ∷ []) ≡ record { commands = []; fault = Some 1 } }
    ensures too_few { script_of (codes "drop 1" ++ 10 ∷ codes "open a.occ 2" ++ 10 ∷ codes "x") ≡ record { commands = (record { line = 1; command = Drop 1 }) ∷ []; fault = Some 2 } }
    ensures wrong { script_of (codes "finish 0" ++ 10 ∷ 10 ∷ codes "go" ++ 10 ∷ codes "report") ≡ record { commands = (record { line = 1; command = Finish 0 }) ∷ []; fault = Some 3 } }
    ensures commands_in_a_text { script_of (codes "open a.txt 1" ++ 10 ∷ codes "settle" ++ 10 ∷ codes "remove a.occ" ++ 10 ∷ []) ≡ record { commands = (record { line = 1; command = Open (codes "a.txt") (codes "settle" ++ 10 ∷ []) }) ∷ (record { line = 3; command = Remove (codes "a.occ") }) ∷ []; fault = None } }
    ensures blank { script_of (codes " ") ≡ record { commands = []; fault = Some 1 } }
{}
