ghost use Rattle.std.specs.Prelude.{◌≡◌, Some, None, IsErrOf, OnOk};
ghost use Rattle.geo_text.specs.Machine.{goes_on, typed_on, is_letter, is_number_byte, IsLexeme};
ghost use Rattle.geo_text.specs.Token.{is_white};
ghost use Rattle.geo_text.specs.declared.number.TheConstants.{CAP};

use crate::error::Stop;
use crate::keyword::Keyword;
use crate::number::Number;

/// A token that is being typed.
#[derive(Clone, Copy, Debug, PartialEq, Eq)]
pub(crate) enum Lexeme {
    /// None: white space, a bracket or a comma came last.
    Blank,
    /// A word behind `at` bytes, and how many of its letters came.
    Word {
        at: u64,
        keyword: Keyword,
        typed: u8,
    },
    Number(Number),
}

pub(crate) fn is_white(byte: u8) -> bool
    ensures { result ≡ is_white byte }
{
    matches!(byte, b' ' | b'\t' | b'\n' | b'\r')
}

pub(crate) fn is_letter(byte: u8) -> bool
    ensures { result ≡ is_letter byte }
{
    byte.is_ascii_alphabetic()
}

pub(crate) fn is_number_byte(byte: u8) -> bool
    ensures { result ≡ is_number_byte byte }
{
    byte.is_ascii_digit() || byte == b'+' || byte == b'-' || byte == b'.'
}

impl Lexeme {
    /// Whether the byte goes on with the lexeme, rightly or not.
    pub(crate) fn goes_on(&self, byte: u8) -> bool
        ensures { result ≡ goes_on self.now byte }
    {
        match self {
            Lexeme::Blank => false,
            Lexeme::Word { .. } => is_letter(byte),
            Lexeme::Number(_) => is_number_byte(byte),
        }
    }

    /// Takes a byte that goes on with the lexeme, where it is the next.
    pub(crate) fn type_on(&mut self, byte: u8) -> Result<(), Stop>
        requires { IsLexeme self.old }
        ensures ok { OnOk result (typed_on CAP self.old byte ≡ Some self.new) }
        ensures kept { OnOk result (IsLexeme self.new) }
        ensures refused { IsErrOf result Stop.Refused → typed_on CAP self.old byte ≡ None }
    {
        match self {
            Lexeme::Blank => Err(Stop::Refused),
            Lexeme::Word { keyword, typed, .. } => {
                *typed = keyword.letter_on(*typed, byte).ok_or(Stop::Refused)?;
                Ok(())
            }
            Lexeme::Number(number) => {
                if number.type_on(byte) {
                    Ok(())
                } else {
                    Err(Stop::Refused)
                }
            }
        }
    }
}
