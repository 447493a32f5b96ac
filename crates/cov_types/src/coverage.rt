use crate::coord::Coord;
use std::alloc::AllocError;
use std::marker::Model;

/// A ring, without the closing repeat of its first point.
#[derive(Debug, Drop)]
pub struct Ring {
    pub points: Vec<Coord>,
}

impl Model for Ring {
    ghost use Rattle.std.specs.Prelude.{List};
    ghost use Rattle.cov_types.specs.declared.coord.Coord.{Coord};

    ghost Value = { List Coord };

    ghost view = { λ r. r.points.items };
}

impl Clone for Ring {
    ghost use Rattle.std.specs.Prelude.{◌≡◌};

    ghost is_clone = { λ a b. b ≡ a };

    fn clone(&self) -> Result<Ring, AllocError> {
        Ok(Ring {
            points: self.points.clone()?,
        })
    }
}

/// A polygon: its shell and then its holes, though the even-odd rule reads all rings alike.
#[derive(Debug, Drop)]
pub struct Poly {
    pub rings: Vec<Ring>,
}

impl Model for Poly {
    ghost use Rattle.std.specs.Prelude.{List};
    ghost use Rattle.cov_types.specs.declared.coord.Coord.{Coord};

    ghost Value = { List (List Coord) };

    ghost view = { λ p. p.rings.items };
}

impl Clone for Poly {
    ghost use Rattle.std.specs.Prelude.{◌≡◌};

    ghost is_clone = { λ a b. b ≡ a };

    fn clone(&self) -> Result<Poly, AllocError> {
        Ok(Poly {
            rings: self.rings.clone()?,
        })
    }
}

/// A member of a coverage: one parcel, of no polygon, one or several.
#[derive(Debug, Drop)]
pub struct Member {
    pub polys: Vec<Poly>,
}

impl Model for Member {
    ghost use Rattle.std.specs.Prelude.{List};
    ghost use Rattle.cov_types.specs.declared.coord.Coord.{Coord};

    ghost Value = { List (List (List Coord)) };

    ghost view = { λ m. m.polys.items };
}

impl Clone for Member {
    ghost use Rattle.std.specs.Prelude.{◌≡◌};

    ghost is_clone = { λ a b. b ≡ a };

    fn clone(&self) -> Result<Member, AllocError> {
        Ok(Member {
            polys: self.polys.clone()?,
        })
    }
}

/// A polygonal coverage: members that may share edges.
#[derive(Debug, Drop)]
pub struct Coverage {
    pub members: Vec<Member>,
}

impl Model for Coverage {
    ghost use Rattle.std.specs.Prelude.{List};
    ghost use Rattle.cov_types.specs.declared.coord.Coord.{Coord};

    ghost Value = { List (List (List (List Coord))) };

    ghost view = { λ c. c.members.items };
}

impl Clone for Coverage {
    ghost use Rattle.std.specs.Prelude.{◌≡◌};

    ghost is_clone = { λ a b. b ≡ a };

    fn clone(&self) -> Result<Coverage, AllocError> {
        Ok(Coverage {
            members: self.members.clone()?,
        })
    }
}
