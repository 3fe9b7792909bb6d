// What a token is without what it carries (IEEE 1364-2001, clauses 2.1 to 2.7 and annex B).

ghost use Rattle.std.specs.Prelude.{◌≡◌, ◌↔◌, List, ℕ, Some, None, map, IsTrue};
ghost use Rattle.std.specs.List.{list_any};
ghost use Rattle.std.specs.Str.{bytes_eq};
ghost use Rattle.v_readers.specs.Classes.{
  class_among,
  class_of,
  class_of_mark,
  finish_tasks,
  grammar_class,
  ignored_tasks,
  is_refused_word,
  system_class,
  word_class,
};

use v_tree::{Mark, TokenKind};

/// What a token is: a mark or a word of the grammar, each by itself, or one of the other sorts.
#[derive(Clone, Copy, PartialEq, Eq, Debug)]
pub enum Class {
    /// `===`
    CaseEqual,
    /// `!==`
    CaseNotEqual,
    /// `<<<`
    ArithmeticShiftLeft,
    /// `>>>`
    ArithmeticShiftRight,
    /// `&&`
    LogicalAnd,
    /// `||`
    LogicalOr,
    /// `==`
    Equal,
    /// `!=`
    NotEqual,
    /// `<=`
    LessEqual,
    /// `>=`
    GreaterEqual,
    /// `<<`
    ShiftLeft,
    /// `>>`
    ShiftRight,
    /// `~&`
    Nand,
    /// `~|`
    Nor,
    /// `~^`
    TildeCaret,
    /// `^~`
    CaretTilde,
    /// `+`
    Plus,
    /// `-`
    Minus,
    /// `*`
    Star,
    /// `/`
    Slash,
    /// `%`
    Percent,
    /// `!`
    Bang,
    /// `~`
    Tilde,
    /// `&`
    And,
    /// `|`
    Or,
    /// `^`
    Caret,
    /// `<`
    Less,
    /// `>`
    Greater,
    /// `=`
    Assign,
    /// `?`
    Question,
    /// `:`
    Colon,
    /// `;`
    Semicolon,
    /// `,`
    Comma,
    /// `.`
    Dot,
    /// `(`
    LeftParen,
    /// `)`
    RightParen,
    /// `[`
    LeftBracket,
    /// `]`
    RightBracket,
    /// `{`
    LeftBrace,
    /// `}`
    RightBrace,
    /// `#`
    Hash,
    /// `@`
    At,
    /// `module`
    Module,
    /// `endmodule`
    EndModule,
    /// `parameter`
    Parameter,
    /// `localparam`
    LocalParameter,
    /// `input`
    Input,
    /// `output`
    Output,
    /// `wire`
    Wire,
    /// `reg`
    Reg,
    /// `integer`
    Integer,
    /// `signed`
    Signed,
    /// `assign`
    AssignWord,
    /// `and`
    AndWord,
    /// `nand`
    NandWord,
    /// `or`
    OrWord,
    /// `nor`
    NorWord,
    /// `xor`
    XorWord,
    /// `xnor`
    XnorWord,
    /// `buf`
    BufWord,
    /// `not`
    NotWord,
    /// `initial`
    Initial,
    /// `always`
    Always,
    /// `begin`
    Begin,
    /// `end`
    End,
    /// `if`
    If,
    /// `else`
    Else,
    /// `case`
    Case,
    /// `casez`
    CaseZ,
    /// `casex`
    CaseX,
    /// `endcase`
    EndCase,
    /// `default`
    Default,
    /// `for`
    For,
    /// `while`
    While,
    /// `repeat`
    Repeat,
    /// `forever`
    Forever,
    /// `wait`
    Wait,
    /// `posedge`
    PosEdge,
    /// `negedge`
    NegEdge,
    /// A name that is no word of the language.
    Name,
    Number,
    /// A string.
    Str,
    /// A system task that is read and does nothing.
    IgnoredTask,
    /// `$finish` or `$stop`.
    FinishTask,
    /// Any other system name.
    SystemName,
    /// A word of the language that no text here may have.
    RefusedWord,
}

impl Class {
    ghost use Rattle.v_readers.specs.Classes.{same_class};

    /// Whether the class is this one.
    pub fn is(self, other: Class) -> bool
        ensures { result ≡ same_class self other }
    {
        self == other
    }
}

/// What a token of this kind is.
pub fn class_of(kind: &TokenKind) -> Class
    ensures { result ≡ class_of kind.now }
{
    match kind {
        TokenKind::Word(word) => word_class(word.as_bytes()),
        TokenKind::System(name) => system_class(name.as_bytes()),
        TokenKind::Number(_, _) => Class::Number,
        TokenKind::Mark(mark) => class_of_mark(*mark),
        TokenKind::Str => Class::Str,
    }
}

/// What a mark is.
fn class_of_mark(mark: Mark) -> Class
    ensures { result ≡ class_of_mark mark }
{
    match mark {
        Mark::CaseEqual => Class::CaseEqual,
        Mark::CaseNotEqual => Class::CaseNotEqual,
        Mark::ArithmeticShiftLeft => Class::ArithmeticShiftLeft,
        Mark::ArithmeticShiftRight => Class::ArithmeticShiftRight,
        Mark::LogicalAnd => Class::LogicalAnd,
        Mark::LogicalOr => Class::LogicalOr,
        Mark::Equal => Class::Equal,
        Mark::NotEqual => Class::NotEqual,
        Mark::LessEqual => Class::LessEqual,
        Mark::GreaterEqual => Class::GreaterEqual,
        Mark::ShiftLeft => Class::ShiftLeft,
        Mark::ShiftRight => Class::ShiftRight,
        Mark::Nand => Class::Nand,
        Mark::Nor => Class::Nor,
        Mark::TildeCaret => Class::TildeCaret,
        Mark::CaretTilde => Class::CaretTilde,
        Mark::Plus => Class::Plus,
        Mark::Minus => Class::Minus,
        Mark::Star => Class::Star,
        Mark::Slash => Class::Slash,
        Mark::Percent => Class::Percent,
        Mark::Bang => Class::Bang,
        Mark::Tilde => Class::Tilde,
        Mark::And => Class::And,
        Mark::Or => Class::Or,
        Mark::Caret => Class::Caret,
        Mark::Less => Class::Less,
        Mark::Greater => Class::Greater,
        Mark::Assign => Class::Assign,
        Mark::Question => Class::Question,
        Mark::Colon => Class::Colon,
        Mark::Semicolon => Class::Semicolon,
        Mark::Comma => Class::Comma,
        Mark::Dot => Class::Dot,
        Mark::LeftParen => Class::LeftParen,
        Mark::RightParen => Class::RightParen,
        Mark::LeftBracket => Class::LeftBracket,
        Mark::RightBracket => Class::RightBracket,
        Mark::LeftBrace => Class::LeftBrace,
        Mark::RightBrace => Class::RightBrace,
        Mark::Hash => Class::Hash,
        Mark::At => Class::At,
    }
}

/// What a name or a word is.
#[tactic(auto, unfolding(crate::specs::Classes::word_class))]
fn word_class(word: &[u8]) -> Class
    ensures { result ≡ word_class word.now }
{
    match grammar_class(word) {
        Some(class) => class,
        None if is_refused_word(word) => Class::RefusedWord,
        None => Class::Name,
    }
}

/// What a system name is.
#[tactic(auto, unfolding(crate::specs::Classes::system_class))]
fn system_class(name: &[u8]) -> Class
    ensures { result ≡ system_class name.now }
{
    if is_one_of(
        name,
        &[
            "$display",
            "$write",
            "$monitor",
            "$strobe",
            "$dumpfile",
            "$dumpvars",
        ],
    ) {
        Class::IgnoredTask
    } else if is_one_of(name, &["$finish", "$stop"]) {
        Class::FinishTask
    } else {
        Class::SystemName
    }
}

/// Which of some words the bytes are.
fn class_among(bytes: &[u8], words: &[(&str, Class)]) -> Option<Class>
    ensures { result ≡ class_among (map (λ word. (word.0.now, word.1)) words.now) bytes.now }
{
    for (word, class) in words {
        if bytes == word.as_bytes() {
            return Some(*class);
        }
    }
    None
}

/// Whether the bytes are one of some words.
fn is_one_of(bytes: &[u8], words: &[&str]) -> bool
    ensures { result ≡ list_any (λ word. bytes_eq bytes.now word) (map (λ word. word.now) words.now) }
{
    for word in words {
        if bytes == word.as_bytes() {
            return true;
        }
    }
    false
}

/// Which word of the grammar the bytes are.
#[tactic(auto, unfolding(crate::specs::Classes::grammar_class))]
fn grammar_class(word: &[u8]) -> Option<Class>
    ensures { result ≡ grammar_class word.now }
{
    class_among(
        word,
        &[
            ("module", Class::Module),
            ("endmodule", Class::EndModule),
            ("parameter", Class::Parameter),
            ("localparam", Class::LocalParameter),
            ("input", Class::Input),
            ("output", Class::Output),
            ("wire", Class::Wire),
            ("reg", Class::Reg),
            ("integer", Class::Integer),
            ("signed", Class::Signed),
            ("assign", Class::AssignWord),
            ("and", Class::AndWord),
            ("nand", Class::NandWord),
            ("or", Class::OrWord),
            ("nor", Class::NorWord),
            ("xor", Class::XorWord),
            ("xnor", Class::XnorWord),
            ("buf", Class::BufWord),
            ("not", Class::NotWord),
            ("initial", Class::Initial),
            ("always", Class::Always),
            ("begin", Class::Begin),
            ("end", Class::End),
            ("if", Class::If),
            ("else", Class::Else),
            ("case", Class::Case),
            ("casez", Class::CaseZ),
            ("casex", Class::CaseX),
            ("endcase", Class::EndCase),
            ("default", Class::Default),
            ("for", Class::For),
            ("while", Class::While),
            ("repeat", Class::Repeat),
            ("forever", Class::Forever),
            ("wait", Class::Wait),
            ("posedge", Class::PosEdge),
            ("negedge", Class::NegEdge),
        ],
    )
}

/// Whether a word is one of those that are refused.
#[tactic(auto, unfolding(crate::specs::Classes::is_refused_word))]
fn is_refused_word(word: &[u8]) -> bool
    ensures { result ≡ is_refused_word word.now }
{
    is_one_of(
        word,
        &[
            "automatic",
            "bufif0",
            "bufif1",
            "cell",
            "cmos",
            "config",
            "deassign",
            "defparam",
            "design",
            "disable",
            "edge",
            "endconfig",
            "endfunction",
            "endgenerate",
            "endprimitive",
            "endspecify",
            "endtable",
            "endtask",
            "event",
            "force",
            "fork",
            "function",
            "generate",
            "genvar",
            "highz0",
            "highz1",
            "ifnone",
            "incdir",
            "include",
            "inout",
            "instance",
            "join",
            "large",
            "liblist",
            "library",
            "macromodule",
            "medium",
            "nmos",
            "noshowcancelled",
            "notif0",
            "notif1",
            "pmos",
            "primitive",
            "pull0",
            "pull1",
            "pulldown",
            "pullup",
            "pulsestyle_ondetect",
            "pulsestyle_onevent",
            "rcmos",
            "real",
            "realtime",
            "release",
            "rnmos",
            "rpmos",
            "rtran",
            "rtranif0",
            "rtranif1",
            "scalared",
            "showcancelled",
            "small",
            "specify",
            "specparam",
            "strong0",
            "strong1",
            "supply0",
            "supply1",
            "table",
            "task",
            "time",
            "tran",
            "tranif0",
            "tranif1",
            "tri",
            "tri0",
            "tri1",
            "triand",
            "trior",
            "trireg",
            "unsigned",
            "use",
            "vectored",
            "wand",
            "weak0",
            "weak1",
            "wor",
        ],
    )
}
