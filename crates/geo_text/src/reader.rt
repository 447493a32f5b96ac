ghost use Rattle.std.specs.Prelude.{◌≡◌, ◌⊎◌, ◌+◌, ◌^◌, ◌<◌, ◌≤◌, ℕ, List, length, Option, IsErrOf, OnOk, IfOk, Some, None};
ghost use Rattle.cov_types.specs.Coverage.{IsFormed};
ghost use Rattle.cov_types.specs.declared.coord.Coord.{Coord};
ghost use Rattle.geo_text.specs.Reading.{Reads};
ghost use Rattle.geo_text.specs.Fault.{IsFault, HasNoFault};
ghost use Rattle.geo_text.specs.declared.error.TextFault.{TextFault};
ghost use Rattle.geo_text.specs.Decimal.{IsScale};
ghost use Rattle.geo_text.specs.Number.{precision_at};
ghost use Rattle.geo_text.specs.Machine.{ending, beginning, read_byte, IsLexeme, answer, Gives, error_of, start};
ghost use Rattle.geo_text.specs.declared.number.TheConstants.{CAP};
ghost use Rattle.geo_text.specs.declared.reader.TheConstants.{LONGEST_INPUT};
ghost use Rattle.geo_text.specs.declared.lexeme.Lexeme.TheVariants.{Blank};

use crate::error::{Stop, TextError, TextFault};
use crate::keyword::keyword_at;
use crate::lexeme::{Lexeme, is_letter, is_number_byte, is_white};
use crate::number::Number;
use crate::parser::Parser;
use cov_types::Coverage;
use std::alloc::Global;

/// How many bytes an input may have.
pub const LONGEST_INPUT: usize = 67_108_864;

/// Ends a lexeme: the parser takes the token that it is.
fn end(lexeme: &Lexeme, parser: &mut Parser) -> Result<(), Stop>
    requires { IsLexeme lexeme.now }
    ensures ok { OnOk result (ending CAP lexeme.now parser.old ≡ Some parser.new) }
    ensures refused { IsErrOf result Stop.Refused → ending CAP lexeme.now parser.old ≡ None }
    ensures rings { OnOk result (parser.new.kept.faults.rings ≡ parser.old.kept.faults.rings) }
{
    match lexeme {
        Lexeme::Blank => Ok(()),
        Lexeme::Word { at, keyword, typed } if keyword.is_complete(*typed) => {
            parser.word(*keyword, *at)
        }
        Lexeme::Number(number) if number.some_digit => {
            parser.number(number.at, number.value(), number.fraction.is_fine())
        }
        _ => Err(Stop::Refused),
    }
}

/// Begins a lexeme with a byte behind `at` bytes, or lets the parser take the token that the byte is.
fn begin(at: u64, parser: &mut Parser, byte: u8, scale: Option<u8>) -> Result<Lexeme, Stop>
    requires scale { IsScale scale }
    requires room { parser.old.kept.faults.rings + 1 < 2 ^ 32 }
    ensures ok { IfOk result (λ lexeme. beginning (precision_at scale) at parser.old byte ≡ Some (lexeme, parser.new)) }
    ensures kept { IfOk result IsLexeme }
    ensures refused { IsErrOf result Stop.Refused → beginning (precision_at scale) at parser.old byte ≡ None }
    ensures rings { OnOk result (parser.new.kept.faults.rings ≤ parser.old.kept.faults.rings + 1) }
{
    if is_white(byte) {
        return Ok(Lexeme::Blank);
    }
    if is_letter(byte) {
        return match keyword_at(parser.place(), byte.to_ascii_uppercase()) {
            Some(keyword) => Ok(Lexeme::Word {
                at,
                keyword,
                typed: 1,
            }),
            None => Err(Stop::Refused),
        };
    }
    if is_number_byte(byte) {
        if !parser.place().takes_number() {
            return Err(Stop::Refused);
        }
        return match Number::begun(at, byte, scale) {
            Some(number) => Ok(Lexeme::Number(number)),
            None => Err(Stop::Refused),
        };
    }
    match byte {
        b'(' => parser.open()?,
        b')' => parser.close()?,
        b',' => parser.comma()?,
        _ => return Err(Stop::Refused),
    }
    Ok(Lexeme::Blank)
}

/// Takes one byte more, behind `at` bytes.
fn read_byte(
    at: u64,
    lexeme: &mut Lexeme,
    parser: &mut Parser,
    byte: u8,
    scale: Option<u8>,
) -> Result<(), Stop>
    requires scale { IsScale scale }
    requires kept { IsLexeme lexeme.old }
    requires room { parser.old.kept.faults.rings + 1 < 2 ^ 32 }
    ensures ok { OnOk result (read_byte (precision_at scale) at lexeme.old parser.old byte ≡ Some (lexeme.new, parser.new)) }
    ensures kept { OnOk result (IsLexeme lexeme.new) }
    ensures refused { IsErrOf result Stop.Refused → read_byte (precision_at scale) at lexeme.old parser.old byte ≡ None }
    ensures rings { OnOk result (parser.new.kept.faults.rings ≤ parser.old.kept.faults.rings + 1) }
{
    if lexeme.goes_on(byte) {
        return lexeme.type_on(byte);
    }
    end(lexeme, parser)?;
    *lexeme = begin(at, parser, byte, scale)?;
    Ok(())
}

/// What a refusal behind `at` bytes means.
fn stopped(stop: Stop, at: u64) -> TextError
    ensures { result ≡ error_of stop at }
{
    match stop {
        Stop::Refused => TextError::Fault(TextFault::Syntax { at }),
        Stop::NoMemory => TextError::NoMemory,
    }
}

fn read_all(alloc: Global, bytes: &[u8], scale: Option<u8>) -> Result<Coverage, TextError>
    requires scale { IsScale scale }
    requires length { length bytes.now ≤ LONGEST_INPUT }
    ensures { Gives result (answer (precision_at scale) 0 Blank start bytes.now) }
{
    let mut parser = Parser::new(alloc);
    let mut lexeme = Lexeme::Blank;
    for (at, byte) in bytes.iter().enumerate() {
        if let Err(stop) = read_byte(at as u64, &mut lexeme, &mut parser, *byte, scale) {
            return Err(stopped(stop, at as u64));
        }
    }
    let at = bytes.len() as u64;
    match end(&lexeme, &mut parser) {
        Ok(()) => parser.finish(at),
        Err(stop) => Err(stopped(stop, at)),
    }
}

/// Reads a well-known text of polygons: each polygon, multipolygon and element of a collection is a member of the
/// coverage, in order. Without a scale the numbers must be whole. At scale `k`, from 0 to 7, each number is read as the
/// whole number nearest to it times `10^k`, halves upwards. Takes time in proportion to the text, and memory in
/// proportion to the points.
pub fn read_text(alloc: Global, bytes: &[u8], scale: Option<u8>) -> Result<Coverage, TextError>
    requires scale { IsScale scale }
    requires length { length bytes.now ≤ LONGEST_INPUT }
    ensures read { IfOk result (λ c. Reads scale bytes.now c) }
    ensures faultless { OnOk result (HasNoFault scale bytes.now) }
    ensures formed { IfOk result IsFormed }
    ensures fault { (fault : TextFault) → IsErrOf result (TextError.Fault fault) → IsFault scale bytes.now fault }
{
    read_all(alloc, bytes, scale)
}

/// Laws of texts: at one scale, and without one, each has at most one reading and at most one fault, and has a fault or
/// is read without one, as a formed coverage. A call does nothing.
pub fn one_answer()
    ensures reading { (scale : Option ℕ) (bytes : List ℕ) (c d : List (List (List (List Coord))))
        → Reads scale bytes c → Reads scale bytes d → c ≡ d }
    ensures fault { (scale : Option ℕ) (bytes : List ℕ) (e f : TextFault)
        → IsFault scale bytes e → IsFault scale bytes f → e ≡ f }
    ensures either { (scale : Option ℕ) (bytes : List ℕ)
        → ((c : List (List (List (List Coord)))) × Reads scale bytes c × HasNoFault scale bytes)
        ⊎ ((fault : TextFault) × IsFault scale bytes fault) }
    ensures formed { (scale : Option ℕ) (bytes : List ℕ) (c : List (List (List (List Coord))))
        → length bytes ≤ LONGEST_INPUT → Reads scale bytes c → HasNoFault scale bytes → IsFormed c }
{}
