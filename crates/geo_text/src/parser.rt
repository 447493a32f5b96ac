ghost use Rattle.std.specs.Prelude.{◌≡◌, ◌+◌, ◌^◌, ◌<◌, ◌≤◌, IsErrOf, IsOkUnless, OnOk, Some, None};
ghost use Rattle.geo_text.specs.Token.{Empty};
ghost use Rattle.geo_text.specs.Machine.{step, start, at, symbol_of, name_of, opened, ring_kept, polygon_kept, body_end, element_end, Named, Axes, Numbered, Opening, Closing, Separator, answer_at, Gives};

use crate::error::{Stop, TextError, TextFault};
use crate::faults::Faults;
use crate::keyword::Keyword;
use crate::place::{Body, Place};
use cov_types::{Coord, Coverage, Member, Poly, Ring};
use std::alloc::Global;
use std::marker::Model;
use std::mem;

/// Takes the tokens of a file, one after the other, and keeps what they are read as.
#[derive(Drop)]
pub(crate) struct Parser {
    alloc: Global,
    place: Place,
    in_collection: bool,
    in_multi: bool,
    members: Vec<Member>,
    /// The polygons of the member that is open.
    polys: Vec<Poly>,
    /// The rings of the polygon that is open.
    rings: Vec<Ring>,
    /// The points of the ring that is open, the last too.
    points: Vec<Coord>,
    faults: Faults,
}

impl Model for Parser {
    ghost use Rattle.geo_text.specs.Machine.{ParserState};

    ghost Value = { ParserState };

    ghost view = { λ p. record {
      place = p.place;
      in_collection = p.in_collection;
      in_multi = p.in_multi;
      kept = record {
        members = p.members.items;
        polys = p.polys.items;
        rings = p.rings.items;
        points = p.points.items;
        faults = p.faults;
      };
    } };
}

impl Parser {
    pub(crate) fn new(alloc: Global) -> Parser
        ensures { result ≡ start }
    {
        Parser {
            alloc,
            place: Place::Outside,
            in_collection: false,
            in_multi: false,
            members: Vec::new(alloc),
            polys: Vec::new(alloc),
            rings: Vec::new(alloc),
            points: Vec::new(alloc),
            faults: Faults::new(),
        }
    }

    pub(crate) fn place(&self) -> Place
        ensures { result ≡ self.now.place }
    {
        self.place
    }

    /// Takes a word that came behind `at` bytes.
    pub(crate) fn word(&mut self, keyword: Keyword, at: u64) -> Result<(), Stop>
        ensures ok { OnOk result (step self.old (symbol_of keyword at) ≡ Some self.new) }
        ensures refused { IsErrOf result Stop.Refused → step self.old (symbol_of keyword at) ≡ None }
        ensures rings { OnOk result (self.new.kept.faults.rings ≡ self.old.kept.faults.rings) }
    {
        match keyword {
            Keyword::Polygon => self.head(Body::Polygon),
            Keyword::MultiPolygon => self.head(Body::MultiPolygon),
            Keyword::GeometryCollection => self.head(Body::GeometryCollection),
            Keyword::Empty => self.empty(),
            Keyword::M | Keyword::Zm => self.axes(at),
        }
    }

    fn head(&mut self, body: Body) -> Result<(), Stop>
        ensures ok { OnOk result (step self.old (Named (name_of body)) ≡ Some self.new) }
        ensures refused { IsErrOf result Stop.Refused → step self.old (Named (name_of body)) ≡ None }
        ensures rings { OnOk result (self.new.kept.faults.rings ≡ self.old.kept.faults.rings) }
    {
        match (self.place, body) {
            (Place::Outside, _) | (Place::ElementStart, Body::Polygon | Body::MultiPolygon) => {
                self.place = Place::Head {
                    body,
                    dimension: false,
                };
                Ok(())
            }
            _ => Err(Stop::Refused),
        }
    }

    fn axes(&mut self, at: u64) -> Result<(), Stop>
        ensures ok { OnOk result (step self.old (Axes at) ≡ Some self.new) }
        ensures refused { IsErrOf result Stop.Refused → step self.old (Axes at) ≡ None }
        ensures rings { OnOk result (self.new.kept.faults.rings ≡ self.old.kept.faults.rings) }
    {
        match self.place {
            Place::Head {
                body,
                dimension: false,
            } => {
                self.faults = self.faults.with_extra(at);
                self.place = Place::Head {
                    body,
                    dimension: true,
                };
                Ok(())
            }
            _ => Err(Stop::Refused),
        }
    }

    fn empty(&mut self) -> Result<(), Stop>
        ensures ok { OnOk result (step self.old (Named Empty) ≡ Some self.new) }
        ensures refused { IsErrOf result Stop.Refused → step self.old (Named Empty) ≡ None }
        ensures rings { OnOk result (self.new.kept.faults.rings ≡ self.old.kept.faults.rings) }
    {
        match self.place {
            Place::Head {
                body: Body::Polygon,
                ..
            } => self.end_body(),
            Place::Head {
                body: Body::MultiPolygon,
                ..
            } => self.end_element(),
            Place::Head {
                body: Body::GeometryCollection,
                ..
            } => {
                self.place = Place::Outside;
                Ok(())
            }
            Place::BodyStart => {
                self.place = Place::BodyEnd;
                Ok(())
            }
            _ => Err(Stop::Refused),
        }
    }

    /// Takes a number that came behind `at` bytes.
    pub(crate) fn number(&mut self, at: u64, value: i32, whole: bool) -> Result<(), Stop>
        ensures ok { OnOk result (step self.old (Numbered at value whole) ≡ Some self.new) }
        ensures refused { IsErrOf result Stop.Refused → step self.old (Numbered at value whole) ≡ None }
        ensures rings { OnOk result (self.new.kept.faults.rings ≡ self.old.kept.faults.rings) }
    {
        match self.place {
            Place::PositionStart => self.place = Place::SecondNumber { x: value },
            Place::SecondNumber { x } => {
                self.points.push(Coord { x, y: value })?;
                self.place = Place::PositionEnd { further: 0 };
            }
            Place::PositionEnd { further: 0 } => {
                self.faults = self.faults.with_extra(at);
                self.place = Place::PositionEnd { further: 1 };
            }
            Place::PositionEnd { further: 1 } => self.place = Place::PositionEnd { further: 2 },
            _ => return Err(Stop::Refused),
        }
        self.faults.add_number(at, value, whole);
        Ok(())
    }

    pub(crate) fn open(&mut self) -> Result<(), Stop>
        ensures ok { OnOk result (step self.old Opening ≡ Some self.new) }
        ensures refused { IsErrOf result Stop.Refused → step self.old Opening ≡ None }
        ensures rings { OnOk result (self.new.kept.faults.rings ≡ self.old.kept.faults.rings) }
    {
        match self.place {
            Place::Head { body, .. } => self.open_body(body),
            Place::BodyStart => self.place = Place::RingStart,
            Place::RingStart => self.place = Place::PositionStart,
            _ => return Err(Stop::Refused),
        }
        Ok(())
    }

    pub(crate) fn comma(&mut self) -> Result<(), Stop>
        ensures ok { OnOk result (step self.old Separator ≡ Some self.new) }
        ensures refused { IsErrOf result Stop.Refused → step self.old Separator ≡ None }
        ensures rings { OnOk result (self.new.kept.faults.rings ≡ self.old.kept.faults.rings) }
    {
        match self.place {
            Place::ElementEnd => self.place = Place::ElementStart,
            Place::BodyEnd => self.place = Place::BodyStart,
            Place::PositionEnd { .. } => self.place = Place::PositionStart,
            Place::RingEnd => self.place = Place::RingStart,
            _ => return Err(Stop::Refused),
        }
        Ok(())
    }

    pub(crate) fn close(&mut self) -> Result<(), Stop>
        requires { self.old.kept.faults.rings + 1 < 2 ^ 32 }
        ensures ok { OnOk result (step self.old Closing ≡ Some self.new) }
        ensures refused { IsErrOf result Stop.Refused → step self.old Closing ≡ None }
        ensures rings { OnOk result (self.new.kept.faults.rings ≤ self.old.kept.faults.rings + 1) }
    {
        match self.place {
            Place::ElementEnd => {
                self.in_collection = false;
                self.place = Place::Outside;
                Ok(())
            }
            Place::BodyEnd => self.end_element(),
            Place::PositionEnd { .. } => self.end_ring(),
            Place::RingEnd => self.end_polygon(),
            _ => Err(Stop::Refused),
        }
    }

    fn open_body(&mut self, body: Body)
        ensures { self.new ≡ opened body self.old }
    {
        match body {
            Body::Polygon => self.place = Place::RingStart,
            Body::MultiPolygon => {
                self.in_multi = true;
                self.place = Place::BodyStart;
            }
            Body::GeometryCollection => {
                self.in_collection = true;
                self.place = Place::ElementStart;
            }
        }
    }

    fn end_ring(&mut self) -> Result<(), Stop>
        requires { self.old.kept.faults.rings + 1 < 2 ^ 32 }
        ensures ok { OnOk result (self.new ≡ at Place.RingEnd self.old.in_collection self.old.in_multi (ring_kept self.old.kept)) }
        ensures err { IsOkUnless result Stop.NoMemory }
    {
        let mut points = mem::replace(&mut self.points, Vec::new(self.alloc));
        self.faults = self.faults.with_ring(points.as_slice());
        // The last position is the first again.
        let _ = points.pop();
        self.rings.push(Ring { points })?;
        self.place = Place::RingEnd;
        Ok(())
    }

    fn end_polygon(&mut self) -> Result<(), Stop>
        ensures ok { OnOk result (self.new ≡ body_end self.old.in_collection self.old.in_multi (polygon_kept self.old.kept)) }
        ensures err { IsOkUnless result Stop.NoMemory }
    {
        let rings = mem::replace(&mut self.rings, Vec::new(self.alloc));
        self.polys.push(Poly { rings })?;
        self.end_body()
    }

    fn end_body(&mut self) -> Result<(), Stop>
        ensures ok { OnOk result (self.new ≡ body_end self.old.in_collection self.old.in_multi self.old.kept) }
        ensures err { IsOkUnless result Stop.NoMemory }
    {
        if self.in_multi {
            self.place = Place::BodyEnd;
            return Ok(());
        }
        self.end_element()
    }

    fn end_element(&mut self) -> Result<(), Stop>
        ensures ok { OnOk result (self.new ≡ element_end self.old.in_collection self.old.kept) }
        ensures err { IsOkUnless result Stop.NoMemory }
    {
        let polys = mem::replace(&mut self.polys, Vec::new(self.alloc));
        self.members.push(Member { polys })?;
        self.in_multi = false;
        self.place = if self.in_collection {
            Place::ElementEnd
        } else {
            Place::Outside
        };
        Ok(())
    }

    /// The coverage that was read, or the first fault, at the end of a file of `at` bytes.
    pub(crate) fn finish(self, at: u64) -> Result<Coverage, TextError>
        ensures { Gives result (answer_at at self.place self.kept) }
    {
        match (self.place, self.faults.first()) {
            (Place::Outside, None) => Ok(Coverage {
                members: self.members,
            }),
            (Place::Outside, Some(fault)) => Err(TextError::Fault(fault)),
            _ => Err(TextError::Fault(TextFault::Syntax { at })),
        }
    }
}
