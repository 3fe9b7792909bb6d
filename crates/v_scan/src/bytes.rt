// The bytes of a text by what they are for (IEEE 1364-2001, clauses 2.2 to 2.7).

ghost use Rattle.std.specs.Prelude.{◌≡◌, ◌≢◌, ◌≤◌, ◌∷◌, ◌++◌, ℕ, List, IfSome, IfNone, length, drop};
ghost use Rattle.v_scan.specs.Bytes as bytes;
ghost use Rattle.v_scan.specs.Numbers as numbers;
ghost use Rattle.v_scan.specs.Classes.{in_class, IsRest};
ghost use Rattle.v_scan.specs.Reading.{front_while, back_while};

/// The base of a number.
#[derive(Clone, Copy, PartialEq, Eq, Debug)]
pub enum Base {
    Binary,
    Octal,
    Decimal,
    Hexadecimal,
}

/// What bytes of a row are for.
#[derive(Clone, Copy)]
pub enum Class {
    /// Blanks, line feeds too.
    Blank,
    /// What a name goes on with.
    Name,
    /// What a decimal number goes on with.
    Decimal,
    /// What digits of a base go on with.
    Digits(Base),
    /// All up to a line feed.
    Line,
    /// All up to a line feed or a byte over 127.
    Directive,
}

impl Base {
    /// The base that a letter names.
    pub fn of_letter(letter: u8) -> Option<Base>
        ensures { result ≡ numbers.base_of letter }
    {
        match letter {
            b'b' | b'B' => Some(Base::Binary),
            b'o' | b'O' => Some(Base::Octal),
            b'd' | b'D' => Some(Base::Decimal),
            b'h' | b'H' => Some(Base::Hexadecimal),
            _ => None,
        }
    }

    /// Whether a byte is a digit of this base. An unknown digit of a decimal number stands alone and is none.
    pub fn has_digit(self, b: u8) -> bool
        ensures { result ≡ numbers.is_digit_of self b }
    {
        match self {
            Base::Binary => b'0' <= b && b <= b'1' || is_unknown_digit(b),
            Base::Octal => b'0' <= b && b <= b'7' || is_unknown_digit(b),
            Base::Decimal => is_digit(b),
            Base::Hexadecimal => {
                is_digit(b)
                    || b'A' <= b && b <= b'F'
                    || b'a' <= b && b <= b'f'
                    || is_unknown_digit(b)
            }
        }
    }

    /// Whether a byte is an unknown digit of a decimal number.
    pub fn stands_alone(self, b: u8) -> bool
        ensures { result ≡ numbers.stands_alone self b }
    {
        match self {
            Base::Decimal => is_unknown_digit(b),
            Base::Binary | Base::Octal | Base::Hexadecimal => false,
        }
    }

    /// How many bits a digit spells; the digits of a decimal number spell none.
    pub fn bits_per_digit(self) -> u8
        ensures { result ≡ numbers.bits_per_digit self }
    {
        match self {
            Base::Binary => 1,
            Base::Octal => 3,
            Base::Decimal => 0,
            Base::Hexadecimal => 4,
        }
    }
}

impl Class {
    /// Whether a byte is of this class.
    pub fn has(self, b: u8) -> bool
        ensures { result ≡ in_class self b }
    {
        match self {
            Class::Blank => is_blank(b),
            Class::Name => is_letter(b) || is_digit(b) || b == b'$',
            Class::Decimal => is_digit(b) || b == b'_',
            Class::Digits(base) => base.has_digit(b) || b == b'_',
            Class::Line => b != b'\n',
            Class::Directive => b != b'\n' && b <= 127,
        }
    }
}

pub fn is_blank(b: u8) -> bool
    ensures { result ≡ bytes.is_blank b }
{
    b == b' ' || b == b'\t' || b == b'\n' || b == b'\r' || b == 12
}

pub fn is_letter(b: u8) -> bool
    ensures { result ≡ bytes.is_letter b }
{
    b'A' <= b && b <= b'Z' || b'a' <= b && b <= b'z' || b == b'_'
}

pub fn is_digit(b: u8) -> bool
    ensures { result ≡ bytes.is_digit b }
{
    b'0' <= b && b <= b'9'
}

/// Whether a byte is `x`, `z` or `?`.
pub fn is_unknown_digit(b: u8) -> bool
    ensures { result ≡ numbers.is_unknown_digit b }
{
    b == b'x' || b == b'X' || b == b'z' || b == b'Z' || b == b'?'
}

/// The bytes behind those of a class at the front.
pub fn behind(class: Class, text: &[u8]) -> &[u8]
    ensures { result.now ≡ back_while (in_class class) text.now }
{
    let mut rest = text;
    'bytes: while let [b, after @ ..] = rest {
        if !class.has(*b) {
            break;
        }
        rest = after;
    }
    rest
}

/// The bytes of a class at the front, and those behind them.
pub fn split(class: Class, text: &[u8]) -> (&[u8], &[u8])
    ensures front { result.0.now ≡ front_while (in_class class) text.now }
    ensures back { result.1.now ≡ back_while (in_class class) text.now }
{
    let back = behind(class, text);
    (before(text, back), back)
}

/// What stands in a text before a rest of it.
pub fn before<'t>(text: &'t [u8], back: &[u8]) -> &'t [u8]
    requires { IsRest text.now back.now }
    ensures { text.now ≡ result.now ++ back.now }
{
    &text[..text.len() - back.len()]
}

/// The bytes of a text behind the first `len`.
pub fn without(text: &[u8], len: usize) -> &[u8]
    requires { len ≤ length text.now }
    ensures { result.now ≡ drop len text.now }
{
    &text[len..]
}

/// The bytes behind one at the front, if it stands there.
pub fn after_byte(byte: u8, text: &[u8]) -> Option<&[u8]>
    ensures found { IfSome result (λ rest. text.now ≡ byte ∷ rest.now) }
    ensures none { IfNone result ((rest : List ℕ) → text.now ≢ byte ∷ rest) }
{
    match text {
        [b, rest @ ..] => { if *b == byte { Some(rest) } else { None } }
        [] => None,
    }
}
