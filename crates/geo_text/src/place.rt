/// What a word begins.
#[derive(Clone, Copy, Debug, PartialEq, Eq)]
pub(crate) enum Body {
    Polygon,
    MultiPolygon,
    GeometryCollection,
}

/// Where in the grammar a parser is.
#[derive(Clone, Copy, Debug, PartialEq, Eq)]
pub(crate) enum Place {
    /// Between two geometries, or at an end of the file.
    Outside,
    /// Behind the word of a geometry, and perhaps its dimension word.
    Head { body: Body, dimension: bool },
    /// Where an element of a collection begins.
    ElementStart,
    /// Behind an element of a collection.
    ElementEnd,
    /// Where a polygon body of a multi body begins.
    BodyStart,
    /// Behind a polygon body of a multi body.
    BodyEnd,
    /// Where a ring begins.
    RingStart,
    /// Where a position begins.
    PositionStart,
    /// Behind the first number of a position.
    SecondNumber { x: i32 },
    /// Behind two numbers of a position and so many further ones.
    PositionEnd { further: u8 },
    /// Behind a ring.
    RingEnd,
}

impl Place {
    ghost use Rattle.std.specs.Prelude.{◌≡◌};
    ghost use Rattle.geo_text.specs.Machine.{takes_number};

    /// Whether a number may stand here.
    pub(crate) fn takes_number(self) -> bool
        ensures { result ≡ takes_number self }
    {
        match self {
            Place::PositionStart | Place::SecondNumber { .. } => true,
            Place::PositionEnd { further } => further < 2,
            _ => false,
        }
    }
}
