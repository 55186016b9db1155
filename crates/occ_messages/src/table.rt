//! What is said of each code: who is wrong and what of it, why, and its entry in docs/CODES.md, with examples. This is the one
//! home of these texts; `bench/codes` holds docs/CODES.md against them, and runs the examples.
ghost use Rattle.std.specs.Prelude.{◌≡◌};

use occ_base::Code;

/// What is said of a code.
#[derive(Clone, Copy)]
pub struct CodeEntry {
    /// The code that it is of.
    pub code: Code,
    /// What is wrong.
    pub title: &'static str,
    /// The same, after the name that is reported; nothing where none is.
    pub named: &'static str,
    /// Why it is refused.
    pub why: &'static str,
    /// What the code says, and examples, as docs/CODES.md has them.
    pub body: &'static str,
}

/// The words of an entry, as `CodeEntry` has them.
struct Words {
    title: &'static str,
    named: &'static str,
    why: &'static str,
    body: &'static str,
}

/// What is said of a code.
pub fn entry_of(code: Code) -> CodeEntry
    ensures { result.code ≡ code }
{
    let Words {
        title,
        named,
        why,
        body,
    } = words_of(code);
    CodeEntry {
        code,
        title,
        named,
        why,
        body,
    }
}

/// The words of a code.
fn words_of(code: Code) -> &'static Words {
    match code {
        Code::G1 => &Words {
            title: "the unit of a `#USE` is not there",
            named: "is not there",
            why: "What a unit uses is checked with it, since its PROCs and FUNCTIONs are seen from there. It is looked for beside the file with the `#USE`, then in the folders given by -I. `#USE \"z.lib\"` uses the units that the list `z.lbb` names, and else `z.occ`.",
            body: r#"Reported: `a.occ:1 G1 error tools.occ`
```occam
#USE "tools"
```"#,
        },
        Code::G2 => &Words {
            title: "units use one another in a circle",
            named: "uses this unit in turn, in a circle",
            why: "A unit is checked after those that it uses, and in a circle none comes first.",
            body: r#"Reported: `a.occ:1 G2 error a.occ`
```occam
#USE "a"
```"#,
        },
        Code::G3 => &Words {
            title: "the used unit has an error",
            named: "has an error, so nothing of it is seen",
            why: "What a unit exports is known once it has no error.",
            body: r#"The line has this code until the used unit has no diagnostic of the grade `error`; its exports are not seen meanwhile."#,
        },
        Code::G4 => &Words {
            title: "the file of an `#INCLUDE` is not there",
            named: "is not there",
            why: "Its lines would stand in the place of the directive. It is looked for beside the file that names it, then in the folders given by -I.",
            body: r#"Reported: `a.occ:1 G4 error sizes.inc`
```occam
#INCLUDE "sizes.inc"
```"#,
        },
        Code::G5 => &Words {
            title: "a file includes itself, perhaps by way of others",
            named: "is being included already",
            why: "Its lines would never end.",
            body: r#"Reported: `a.occ:1 G5 error a.occ`
```occam
#INCLUDE "a.occ"
```"#,
        },
        Code::G6 => &Words {
            title: "inclusions are too deep, or make a unit too long",
            named: "is included too deep",
            why: "16 inclusions may stand below one another, and a unit has 65,535 lines at most with all that it includes.",
            body: r#"More than 16 inclusions below one another (the name is the file), or more than 65,535 lines in all (no name)."#,
        },
        Code::G7 => &Words {
            title: "a line of the list of a library names no unit",
            named: "is no list of units",
            why: "`#USE \"z.lib\"` uses the units that the list `z.lbb` names, so each line of the list has to name one.",
            body: r#"The name is the list. A line names one unit; empty lines and lines that begin with `--` are skipped. So a list of two units has the lines `queues` and `stacks`.

Reported: `a.occ:1 G7 error z.lbb`
```z.lbb
queues
two stacks
```
```occam
#USE "z.lib"
```

Instead:
```z.lbb
-- queues and stacks are still to come
```
```occam
#USE "z.lib"
```"#,
        },
        Code::L1 => &Words {
            title: "a byte, a token or a directive that there is not",
            named: "",
            why: "Nothing in occam is written so.",
            body: r#"A name has letters, digits and `.`; there are no numbers with a dot. A directive names a file in quotes, by letters, digits,
`.`, `_` and `-`, without a folder, and what is included ends in `.inc`, `.occ` or `.lbb`. In a character or a string a star
is written `**`: `'*'` has L1.

Reported: `a.occ:2 L1 error -`
```occam
PROC p ()
  SKIP ?? $
:
```

Instead:
```occam
PROC p ()
  SKIP
:
```"#,
        },
        Code::L2 => &Words {
            title: "a line that begins in an odd column",
            named: "",
            why: "Depth says what belongs to what: each level begins two blanks further in.",
            body: r#"Each level begins two blanks further in.

Reported: `a.occ:2 L2 error -`
```occam
PROC p ()
   SKIP
:
```

Instead:
```occam
PROC p ()
  SKIP
:
```"#,
        },
        Code::L3 => &Words {
            title: "the rest of a line is missing, or begins too far left",
            named: "",
            why: "What an operator, a comma or an assignment still wants stands in the next line, at least as far in.",
            body: r#"A line goes on in the next one where it ends in an operator, in `,`, `;`, `:=` or `&`. So it does after IS, FROM, FOR, RETYPES
and RESHAPES. It does not go on after `?`, `!`, `::`, OF, CASE or an opening bracket. The next line that is not blank or a comment begins at
least as far in as the statement, and is no directive. Else it begins a statement of its own.

Reported: `a.occ:4 L3 error -`
```occam
PROC p ()
  INT x:
  SEQ
    x := 1 +
  x := 2
:
```

Instead:
```occam
PROC p ()
  INT x:
  SEQ
    x := 1 +
      1
    x := 2
:
```"#,
        },
        Code::L4 => &Words {
            title: "a string is not closed",
            named: "",
            why: "A string ends on its line, or goes on where a `*` ends the line and another begins the next.",
            body: r#"Reported: `a.occ:1 L4 error -`
```occam
VAL name IS "occam:
```

Instead:
```occam
VAL name IS "occam":
```"#,
        },
        Code::S1 => &Words {
            title: "no line of occam has this form",
            named: "",
            why: "A line is one process, one specification or one part of a construct.",
            body: r#"Mostly a `:` or a bracket is missing, or operators are beside one another without brackets. What is left out of the language
here (reals, PLACE, PORT, PLACED PAR, ASM) has no form either.

Reported: `a.occ:4 S1 error -`
```occam
PROC p ()
  INT x:
  SEQ
    x := 1 + 2 * 3
:
```
Operators have no order among one another: brackets say what is meant.

Instead:
```occam
PROC p ()
  INT x:
  SEQ
    x := 1 + (2 * 3)
:
```"#,
        },
        Code::S2 => &Words {
            title: "a line that may not be here, or lacks what has to be under or after it",
            named: "",
            why: "Depth says what belongs to what, and each line takes certain lines under it and after it.",
            body: r#"Each level begins two blanks further in than the one around it; a tab goes to the next multiple of eight. A line that is too
deep has this code. `INT x` without its `:` has a form, that of a conversion, but may not be where a declaration may.

Reported: `a.occ:3 S2 error -`
```occam
PROC p ()
  SKIP
  SKIP
:
```
Processes that follow one another are under a SEQ.

Instead:
```occam
PROC p ()
  SEQ
    SKIP
    SKIP
:
```

A line that lacks something has this code itself: here the head of a PROC, which has no process under it. So has one without its
`:` after it.

Reported: `a.occ:1 S2 error -`
```occam
PROC p ()
  INT x:
:
```"#,
        },
        Code::S3 => &Words {
            title: "over 64 open brackets or dimensions",
            named: "",
            why: "Brackets may be open 64 deep, and a type has 64 dimensions at most.",
            body: r#""#,
        },
        Code::S4 => &Words {
            title: "over 64 levels",
            named: "",
            why: "Lines may stand 64 levels deep.",
            body: r#""#,
        },
        Code::N1 => &Words {
            title: "the name is not in scope, or there is no such field",
            named: "is not in scope, or is no field",
            why: "A name is known from its specification on, to the end of the process that follows it.",
            body: r#"A PROC or a FUNCTION is not in scope in its own body.

Reported: `a.occ:2 N1 error x`
```occam
PROC p ()
  x := 1
:
```

Instead:
```occam
PROC p ()
  INT x:
  x := 1
:
```"#,
        },
        Code::N2 => &Words {
            title: "the name is of another sort than is needed",
            named: "is of another sort than is needed",
            why: "A PROC is no value, and a protocol is no type of a variable.",
            body: r#"Reported: `a.occ:6 N2 error q`
```occam
PROC q ()
  SKIP
:
PROC p ()
  INT x:
  x := q
:
```

Instead:
```occam
PROC p ()
  INT x:
  x := 1
:
```"#,
        },
        Code::T1 => &Words {
            title: "the operands of an operator do not go together",
            named: "",
            why: "Nothing is converted by itself; a type before a value converts it: `INT b`.",
            body: r#"Nothing is converted by itself.

Reported: `a.occ:4 T1 error -`
```occam
PROC p ()
  INT x:
  BYTE b:
  x := x + b
:
```

Instead:
```occam
PROC p ()
  INT x:
  BYTE b:
  x := x + (INT b)
:
```"#,
        },
        Code::T2 => &Words {
            title: "not the type that is wanted",
            named: "is not of the type that is wanted",
            why: "Nothing is converted by itself; a type before a value converts it: `INT b`.",
            body: r#"Reported: `a.occ:3 T2 error -`
```occam
PROC p ()
  INT x:
  x := TRUE
:
```

Instead:
```occam
PROC p ()
  INT x:
  x := 1
:
```"#,
        },
        Code::T3 => &Words {
            title: "something is changed that may not be",
            named: "may not be changed",
            why: "Values, VAL names and indices of replicators keep their value.",
            body: r#"So it is with a value, a `VAL` name or an index that is given to a formal without VAL.

Reported: `a.occ:3 T3 error n`
```occam
PROC p ()
  VAL n IS 4:
  n := 5
:
```

Instead:
```occam
PROC p ()
  INT n:
  n := 5
:
```"#,
        },
        Code::T4 => &Words {
            title: "not so many as there should be",
            named: "",
            why: "Each target takes one value, and each formal one actual.",
            body: r#"Reported: `a.occ:3 T4 error -`
```occam
PROC p ()
  INT x, y:
  x, y := 1
:
```

Instead:
```occam
PROC p ()
  INT x, y:
  x, y := 1, 2
:
```"#,
        },
        Code::T5 => &Words {
            title: "a size or an option is not constant",
            named: "",
            why: "Arrays are laid out, and options told apart, before the program runs.",
            body: r#"Reported: `a.occ:3 T5 error -`
```occam
PROC p ()
  INT n:
  [n]INT a:
  SKIP
:
```

Instead:
```occam
PROC p ()
  VAL n IS 8:
  [n]INT a:
  SKIP
:
```"#,
        },
        Code::T6 => &Words {
            title: "a constant that cannot be",
            named: "",
            why: "It is too great for its type, divided by zero, shifted too far, or an index outside of its array.",
            body: r#"Too great for its type, divided by zero, a shift too far, or an index outside an array.

Reported: `a.occ:3 T6 error -`
```occam
PROC p ()
  [4]INT a:
  a[4] := 0
:
```

Instead:
```occam
PROC p ()
  [4]INT a:
  a[3] := 0
:
```"#,
        },
        Code::T7 => &Words {
            title: "a condition that is no BOOL, or a selector that is neither an integer nor a BYTE",
            named: "",
            why: "IF, WHILE and guards ask a BOOL, and CASE an integer or a BYTE.",
            body: r#"Reported: `a.occ:3 T7 error -`
```occam
PROC p ()
  INT x:
  WHILE x
    x := x - 1
:
```

Instead:
```occam
PROC p ()
  INT x:
  WHILE x > 0
    x := x - 1
:
```"#,
        },
        Code::T8 => &Words {
            title: "twice the same in one list",
            named: "stands twice in one list",
            why: "Only one of the two could ever be meant.",
            body: r#"Reported: `a.occ:8 T8 error -`
```occam
PROC p ()
  INT x:
  CASE x
    1
      SKIP
    2
      SKIP
    1
      SKIP
:
```

Instead:
```occam
PROC p ()
  INT x:
  CASE x
    1
      SKIP
    2
      SKIP
    ELSE
      SKIP
:
```"#,
        },
        Code::T9 => &Words {
            title: "sizes that do not come out even, or a type that is too large",
            named: "",
            why: "RETYPES and RESHAPES take all bytes of a value, no more and no less.",
            body: r#"Reported: `a.occ:2 T9 error -`
```occam
PROC p ()
  [65536][65536]INT a:
  SKIP
:
```

Instead:
```occam
PROC p ()
  [256][256]INT a:
  SKIP
:
```"#,
        },
        Code::P1 => &Words {
            title: "what is sent or received is not what the protocol wants",
            named: "carries another message than this",
            why: "Both ends of a channel keep to its protocol: so many items, in that order, each of its type.",
            body: r#"Reported: `a.occ:4 P1 error c`
```occam
PROC p ()
  CHAN OF INT c:
  INT x:
  c ! 1; 2
:
```

Instead:
```occam
PROC p ()
  CHAN OF INT c:
  INT x:
  c ! 1
:
```"#,
        },
        Code::P2 => &Words {
            title: "a tag that the protocol does not have",
            named: "is no tag of this protocol",
            why: "A variant protocol has the tags that its CASE lists, and no others.",
            body: r#"Reported: `a.occ:8 P2 error stop`
```occam
PROTOCOL COMMAND
  CASE
    go; INT
    halt
:
PROC p ()
  CHAN OF COMMAND c:
  c ! stop
:
```

Instead:
```occam
PROTOCOL COMMAND
  CASE
    go; INT
    halt
:
PROC p ()
  CHAN OF COMMAND c:
  c ! halt
:
```"#,
        },
        Code::P3 => &Words {
            title: "a variant protocol without its tag or its CASE",
            named: "has a variant protocol, and wants a tag or a `CASE`",
            why: "What follows in the message is known by its tag.",
            body: r#"Reported: `a.occ:9 P3 error c`
```occam
PROTOCOL COMMAND
  CASE
    go; INT
    halt
:
PROC p ()
  CHAN OF COMMAND c:
  INT x:
  c ? x
:
```

Instead:
```occam
PROTOCOL COMMAND
  CASE
    go; INT
    halt
:
PROC p ()
  CHAN OF COMMAND c:
  INT x:
  c ? CASE
    go; x
      SKIP
    halt
      SKIP
:
```"#,
        },
        Code::P4 => &Words {
            title: "no channel, or a timer used as one",
            named: "is no channel, or a timer used as one",
            why: "`!` and `?` are for channels, and of a timer one can only read the time.",
            body: r#"Reported: `a.occ:3 P4 error x`
```occam
PROC p ()
  INT x:
  x ! 1
:
```

Instead:
```occam
PROC p ()
  CHAN OF INT x:
  x ! 1
:
```"#,
        },
        Code::R1 => &Words {
            title: "the base or count of a PAR is not constant, or its count not 0 to 256",
            named: "replicates a PAR whose base or count is not constant, or whose count is not from 0 to 256",
            why: "Its processes are laid out before the program runs.",
            body: r#"Reported: `a.occ:3 R1 error i`
```occam
PROC p (VAL INT n)
  [16]INT a:
  PAR i = 0 FOR n
    a[i] := 0
:
```

Instead:
```occam
PROC p ()
  [16]INT a:
  PAR i = 0 FOR 16
    a[i] := 0
:
```"#,
        },
        Code::R2 => &Words {
            title: "too many copies in all",
            named: "replicates a PAR that makes too many copies in all",
            why: "4,096 processes is the limit.",
            body: r#"The product of the counts of a PAR and of those around it may be at most 4,096.

Reported: `a.occ:5 R2 error k`
```occam
PROC p ()
  [32][32][32]INT a:
  PAR i = 0 FOR 32
    PAR j = 0 FOR 32
      PAR k = 0 FOR 32
        a[i][j][k] := 0
:
```

Instead:
```occam
PROC p ()
  [16][16][16]INT a:
  PAR i = 0 FOR 16
    PAR j = 0 FOR 16
      PAR k = 0 FOR 16
        a[i][j][k] := 0
:
```"#,
        },
        Code::U1 => &Words {
            title: "a variable is changed in one component and used in another",
            named: "is changed in one component of this PAR and used in another",
            why: "Components run at once and in any order, so what one changes no other may use. They share values by channels.",
            body: r#"Parts of an array that only perhaps meet count as meeting, and that is an error: `a[n]` and `a[n + 1]` in two components have
U1. A subscript is not known if it is a variable, or a formal that is VAL. Known are constants, and the indices of replicators
whose base and count are, also in what a call is given: `worker (c[i], a[i])`.

Reported: `a.occ:3 U1 error x`
```occam
PROC p ()
  INT x, y:
  PAR
    x := 1
    y := x
:
```

Instead:
```occam
PROC p ()
  CHAN OF INT c:
  INT x, y:
  PAR
    SEQ
      x := 1
      c ! x
    c ? y
:
```"#,
        },
        Code::U2 => &Words {
            title: "two components input from one channel",
            named: "is input from in two components of this PAR",
            why: "A channel joins two processes: one outputs, and one inputs.",
            body: r#"Reported: `a.occ:4 U2 error c`
```occam
PROC p ()
  CHAN OF INT c:
  INT x, y:
  PAR
    c ? x
    c ? y
    SEQ
      c ! 1
      c ! 2
:
```

Instead:
```occam
PROC p ()
  CHAN OF INT c:
  INT x, y:
  PAR
    SEQ
      c ? x
      c ? y
    SEQ
      c ! 1
      c ! 2
:
```"#,
        },
        Code::U3 => &Words {
            title: "two components output to one channel",
            named: "is output to in two components of this PAR",
            why: "A channel joins two processes: one outputs, and one inputs.",
            body: r#"Reported: `a.occ:4 U3 error c`
```occam
PROC p ()
  CHAN OF INT c:
  INT x, y:
  PAR
    c ! 1
    c ! 2
    SEQ
      c ? x
      c ? y
:
```

Instead:
```occam
PROC p ()
  CHAN OF INT c:
  INT x, y:
  PAR
    SEQ
      c ! 1
      c ! 2
    SEQ
      c ? x
      c ? y
:
```"#,
        },
        Code::A1 => &Words {
            title: "a part is used while an abbreviation is its name",
            named: "is used while an abbreviation is its name",
            why: "A thing has one name at a time, so that a change by one is never missed by the other.",
            body: r#"Reported: `a.occ:5 A1 error a`
```occam
PROC p ()
  [4]INT a:
  x IS a[1]:
  SEQ
    a[1] := 2
    x := 3
:
```

Instead:
```occam
PROC p ()
  [4]INT a:
  x IS a[1]:
  SEQ
    x := 2
    x := 3
:
```

Where the subscript is not known, the two are perhaps one element, which is a check:

Reported: `a.occ:5 A1 check a`
```occam
PROC p (VAL INT i)
  [4]INT a:
  x IS a[i]:
  SEQ
    a[1] := 2
    x := 3
:
```"#,
        },
        Code::A2 => &Words {
            title: "a subscript of an abbreviated element is changed",
            named: "is changed, and is a subscript of an abbreviated element",
            why: "The abbreviation is of one element, so what selects it keeps its value meanwhile.",
            body: r#"Reported: `a.occ:7 A2 error i`
```occam
PROC p ()
  INT i:
  [4]INT a:
  SEQ
    i := 0
    x IS a[i]:
    i := 1
:
```

Instead:
```occam
PROC p ()
  INT i:
  [4]INT a:
  SEQ
    i := 0
    x IS a[i]:
    x := 1
:
```"#,
        },
        Code::A3 => &Words {
            title: "what a VAL abbreviation reads is changed",
            named: "is changed while a VAL abbreviation reads it",
            why: "A VAL abbreviation has one value as long as it is in scope.",
            body: r#"Reported: `a.occ:4 A3 error i`
```occam
PROC p ()
  INT i:
  VAL j IS i + 1:
  i := 1
:
```

Instead:
```occam
PROC p ()
  INT i, k:
  VAL j IS i + 1:
  k := j
:
```"#,
        },
        Code::A4 => &Words {
            title: "two actuals of a call are one, or the body uses what it is given",
            named: "is given to this call twice, or is used by its body too",
            why: "A thing has one name at a time, and formals are names of what they are given.",
            body: r#"Reported: `a.occ:6 A4 error a`
```occam
PROC swap (INT x, y)
  x, y := y, x
:
PROC p ()
  INT a, b:
  swap (a, a)
:
```

Instead:
```occam
PROC swap (INT x, y)
  x, y := y, x
:
PROC p ()
  INT a, b:
  swap (a, b)
:
```"#,
        },
        Code::F1 => &Words {
            title: "a FUNCTION has an effect",
            named: "is changed or communicated with by a FUNCTION",
            why: "A FUNCTION gives values and changes nothing: no assignment to what is outside, no channel, no PAR and no ALT.",
            body: r#"Reported: `a.occ:5 F1 error count`
```occam
PROC p ()
  INT count:
  INT FUNCTION next (VAL INT n)
    VALOF
      count := n
      RESULT n + 1
  :
  SKIP
:
```

Instead:
```occam
PROC p ()
  INT count:
  INT FUNCTION next (VAL INT n)
    VALOF
      SKIP
      RESULT n + 1
  :
  SKIP
:
```"#,
        },
    }
}
