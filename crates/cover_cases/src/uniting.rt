use crate::BEFORE;
use crate::tests::{Case, expect_answers};
use cov_valid::{Kind, Mark};
use cover_cli::Outcome;
use std::test;

#[test]
fn union_writes_one_member_of_what_all_members_hold(rt: HostRuntime) -> Result<(), test::Fail> {
    let cases: [Case; 5] = [
        (
            "of no members the union is empty",
            "",
            Outcome::Done,
            "POLYGON EMPTY\n",
        ),
        (
            "four parcels round a courtyard",
            "POLYGON ((0 0, 20 0, 20 10, 10 10, 0 10, 0 0))\nPOLYGON ((20 0, 30 0, 30 20, 20 20, 20 10, 20 0))\n\
             POLYGON ((30 20, 30 30, 10 30, 10 20, 20 20, 30 20))\nPOLYGON ((0 10, 10 10, 10 20, 10 30, 0 30, 0 10))\n",
            Outcome::Done,
            "POLYGON ((0 0, 20 0, 30 0, 30 20, 30 30, 10 30, 0 30, 0 10, 0 0), (10 10, 10 20, 20 20, 20 10, 10 10))\n",
        ),
        (
            "squares that touch in a vertex are two polygons",
            "POLYGON ((0 0, 10 0, 10 10, 0 10, 0 0))\nPOLYGON ((10 10, 20 10, 20 20, 10 20, 10 10))\n",
            Outcome::Done,
            "MULTIPOLYGON (((0 0, 10 0, 10 10, 0 10, 0 0)), ((10 10, 20 10, 20 20, 10 20, 10 10)))\n",
        ),
        (
            "a square fills the hole of another",
            "POLYGON ((0 0, 20 0, 20 20, 0 20, 0 0), (5 5, 5 15, 15 15, 15 5, 5 5))\n\
             POLYGON ((5 5, 15 5, 15 15, 5 15, 5 5))\n",
            Outcome::Done,
            "POLYGON ((0 0, 20 0, 20 20, 0 20, 0 0))\n",
        ),
        (
            "no point is snapped",
            "POLYGON ((0 0, 10 1, 0 10, 0 0))\nPOLYGON ((5 0, 10 -10, 0 -10, 5 0))\n",
            Outcome::Done,
            "MULTIPOLYGON (((0 -10, 10 -10, 5 0, 0 -10)), ((0 0, 10 1, 0 10, 0 0)))\n",
        ),
    ];
    expect_answers(&rt, rt.alloc(), "union in out", &cases)
}

// The coverage is not valid, by this first segment of it.
fn not_valid(member: u32, place: u64, kind: Kind) -> Outcome {
    Outcome::NotValid {
        mark: Mark {
            member,
            place,
            kind,
        },
    }
}

#[test]
fn union_refuses_what_is_not_valid(rt: HostRuntime) -> Result<(), test::Fail> {
    let cases: [Case; 3] = [
        (
            "a tip touches a side",
            "POLYGON ((0 0, 10 0, 10 10, 0 10, 0 0))\nPOLYGON ((10 5, 20 0, 20 10, 10 5))\n",
            not_valid(0, 1, Kind::Meets),
            BEFORE,
        ),
        (
            "a square lies within another",
            "POLYGON ((0 0, 10 0, 10 10, 0 10, 0 0))\nPOLYGON ((2 2, 4 2, 4 4, 2 4, 2 2))\n",
            not_valid(1, 4, Kind::Inside),
            BEFORE,
        ),
        (
            "a square is drawn twice",
            "POLYGON ((0 0, 10 0, 10 10, 0 10, 0 0))\nPOLYGON ((0 0, 10 0, 10 10, 0 10, 0 0))\n",
            not_valid(0, 0, Kind::SameSide),
            BEFORE,
        ),
    ];
    expect_answers(&rt, rt.alloc(), "union in out", &cases)
}
