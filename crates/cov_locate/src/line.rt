ghost use Prim.Native.Nat.{min};
ghost use Rattle.std.specs.Prelude.{◌≡◌, ◌≤◌, ◌==◌, ◌&&◌, ℕ, Bool, IsTrue, Some, length, nat_lt, not, slice_index};
ghost use Rattle.std.specs.List.{list_all, position_or_len};
ghost use Rattle.cov_locate.specs.Points.{IsLineInRange, digits_of, line_of, two_numbers};
ghost use Rattle.cov_locate.specs.Reading.{IsFirstWord, capped_number, capped_size};
ghost use Rattle.geo_text.specs.Token.{is_digit, is_white, signed};

use cov_types::Coord;

/// What a line of a points file says.
#[derive(Clone, Copy)]
pub enum Line {
    /// White space alone.
    Blank,
    Point(Coord),
    /// Something else than two numbers.
    Syntax,
    /// Two numbers that are not both in range.
    OutOfRange,
}

/// What the line says.
pub fn read_line(line: &[u8]) -> Line
    ensures exact { result ≡ line_of line.now }
    ensures in_range { IsLineInRange result }
{
    let (x, rest) = split_word(line);
    let (y, rest) = split_word(rest);
    let (more, _) = split_word(rest);
    if x.is_empty() {
        return Line::Blank;
    }
    if y.is_empty() || !more.is_empty() {
        return Line::Syntax;
    }
    match (read_number(x), read_number(y)) {
        (Some(x), Some(y)) => point_at(Coord { x, y }),
        _ => Line::Syntax,
    }
}

// The first word of a line, empty where there is none, and the rest.
fn split_word(line: &[u8]) -> (&[u8], &[u8])
    ensures { IsFirstWord line.now result.0.now result.1.now }
{
    let rest = &line[start_of_word(line)..];
    rest.split_at(end_of_word(rest))
}

// Where the first byte stands that is not white; the length where there is none.
fn start_of_word(line: &[u8]) -> usize
    ensures exact { result ≡ position_or_len (λ b. not (is_white b)) line.now }
    ensures within { result ≤ length line.now }
{
    line.iter()
        .position(|b| !is_white(*b))
        .unwrap_or(line.len())
}

// Where the first white byte stands; the length where there is none.
fn end_of_word(bytes: &[u8]) -> usize
    ensures exact { result ≡ position_or_len is_white bytes.now }
    ensures within { result ≤ length bytes.now }
{
    bytes
        .iter()
        .position(|b| is_white(*b))
        .unwrap_or(bytes.len())
}

fn is_white(b: u8) -> bool
    ensures { result ≡ is_white b }
{
    b == b' ' || b == b'\t' || b == b'\n' || b == b'\r'
}

/// One past the greatest size of a number in range.
const CAP: u32 = 268_435_457;

// The number that a word writes, with its size capped; None where it is no number.
fn read_number(word: &[u8]) -> Option<i32>
    ensures { result ≡ capped_number word.now }
{
    let (negative, digits) = split_sign(word);
    if !is_number(digits) {
        return None;
    }
    let size = capped_size(digits) as i32;
    Some(if negative { -size } else { size })
}

// Whether a word begins with a minus, and what stands behind its sign.
fn split_sign(word: &[u8]) -> (bool, &[u8])
    ensures negative { result.0 ≡ (slice_index word.now 0 == 45) }
    ensures digits { result.1.now ≡ digits_of word.now }
{
    if word.is_empty() {
        return (false, word);
    }
    let first = word[0];
    if first == b'+' || first == b'-' {
        (first == b'-', &word[1..])
    } else {
        (false, word)
    }
}

// Whether these are one or more digits.
fn is_number(digits: &[u8]) -> bool
    ensures { result ≡ (nat_lt 0 (length digits.now) && list_all is_digit digits.now) }
{
    !digits.is_empty() && digits.iter().all(|b| b.is_ascii_digit())
}

// The size of the number that digits write, capped.
fn capped_size(digits: &[u8]) -> u32
    requires { IsTrue (list_all is_digit digits.now) }
    ensures { result ≡ capped_size digits.now }
{
    let mut size = 0;
    for digit in digits {
        size = CAP.min(10 * size + u32::from(*digit - b'0'));
    }
    size
}

// What two numbers of a line say, whose sizes may be capped.
fn point_at(p: Coord) -> Line
    ensures exact { (a b : Bool) (m n : ℕ) → p.x ≡ signed a (min CAP m) → p.y ≡ signed b (min CAP n) → result ≡ two_numbers (Some (signed a m)) (Some (signed b n)) }
    ensures in_range { IsLineInRange result }
{
    if p.is_in_range() {
        Line::Point(p)
    } else {
        Line::OutOfRange
    }
}
