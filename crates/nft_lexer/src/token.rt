//! Tokens.
ghost use Rattle.std.specs.Prelude.{◌≡◌, ◌-◌, drop, length, take};

/// A punctuator of one or two bytes.
#[derive(Clone, Copy, PartialEq)]
pub enum Punctuator {
    /// `{`
    OpenBrace,
    /// `}`
    CloseBrace,
    /// `(`
    OpenParenthesis,
    /// `)`
    CloseParenthesis,
    /// `,`
    Comma,
    /// `;`
    Semicolon,
    /// `:`
    Colon,
    /// `.`
    Dot,
    /// `/`
    Slash,
    /// `-`
    Minus,
    /// `+`
    Plus,
    /// `=`
    Equals,
    /// `@`
    At,
    /// `&`
    Ampersand,
    /// `|`
    Bar,
    /// `==`
    EqualTo,
    /// `!=`
    NotEqualTo,
    /// `<=`
    AtMost,
    /// `>=`
    AtLeast,
    /// `<`
    Below,
    /// `>`
    Above,
}

/// The kind of a token, with its value.
#[derive(Clone, Copy)]
pub enum TokenKind {
    NewLine,
    Punctuator(Punctuator),
    /// A word: its bytes are the token's text.
    Word,
    /// A number: decimal digits, or `0x` and hexadecimal digits.
    Number(u64),
    /// An IPv4 address in host byte order: the first octet is the most significant.
    Address(u32),
    /// A string: the token's text includes both quotes.
    String,
}

/// A token: its slice of the text, where that begins, and its kind.
#[derive(Clone, Copy)]
pub struct Token<'t> {
    pub text: &'t [u8],
    /// How many bytes of the text come before it.
    pub start: usize,
    pub kind: TokenKind,
}

impl<'t> Token<'t> {
    /// The bytes between the quotes of a string token: all but the first and the last byte.
    pub fn between_quotes(self) -> &'t [u8]
        ensures { result.now ≡ take (length self.entry.text.now - 2) (drop 1 self.entry.text.now) }
    {
        if self.text.len() < 2 {
            return &[];
        }
        &self.text[1..self.text.len() - 1]
    }
}
