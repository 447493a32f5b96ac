ghost use Rattle.std.specs.Prelude.{◌≡◌, ◌≤◌, length};
ghost use Rattle.geo_text.specs.Machine.{letters, is_complete, letter_on, keyword_at};

use crate::place::Place;

/// A word that is being typed. `Zm` stands for `Z` too.
#[derive(Clone, Copy, Debug, PartialEq, Eq)]
pub(crate) enum Keyword {
    Polygon,
    MultiPolygon,
    GeometryCollection,
    Empty,
    M,
    Zm,
}

impl Keyword {
    pub(crate) fn letters(self) -> &'static [u8]
        ensures value { result.now ≡ letters self }
        ensures few { length result.now ≤ 18 }
    {
        match self {
            Keyword::Polygon => b"POLYGON",
            Keyword::MultiPolygon => b"MULTIPOLYGON",
            Keyword::GeometryCollection => b"GEOMETRYCOLLECTION",
            Keyword::Empty => b"EMPTY",
            Keyword::M => b"M",
            Keyword::Zm => b"ZM",
        }
    }

    /// One letter more, if it is the next.
    pub(crate) fn letter_on(self, typed: u8, byte: u8) -> Option<u8>
        ensures { result ≡ letter_on self typed byte }
    {
        let letters = self.letters();
        if usize::from(typed) < letters.len()
            && byte.to_ascii_uppercase() == letters[usize::from(typed)]
        {
            Some(typed + 1)
        } else {
            None
        }
    }

    /// Whether the word may end behind so many letters.
    pub(crate) fn is_complete(self, typed: u8) -> bool
        ensures { result ≡ is_complete self typed }
    {
        match self {
            Keyword::Zm => typed == 1 || typed == 2,
            _ => usize::from(typed) == self.letters().len(),
        }
    }
}

/// The word that an upper case letter begins at a place.
pub(crate) fn keyword_at(place: Place, letter: u8) -> Option<Keyword>
    ensures { result ≡ keyword_at place letter }
{
    match place {
        Place::Outside => match letter {
            b'P' => Some(Keyword::Polygon),
            b'M' => Some(Keyword::MultiPolygon),
            b'G' => Some(Keyword::GeometryCollection),
            _ => None,
        },
        Place::ElementStart => match letter {
            b'P' => Some(Keyword::Polygon),
            b'M' => Some(Keyword::MultiPolygon),
            _ => None,
        },
        Place::Head {
            dimension: false,
            ..
        } => match letter {
            b'E' => Some(Keyword::Empty),
            b'M' => Some(Keyword::M),
            b'Z' => Some(Keyword::Zm),
            _ => None,
        },
        Place::Head {
            dimension: true,
            ..
        }
        | Place::BodyStart => (letter == b'E').then_some(Keyword::Empty),
        _ => None,
    }
}
