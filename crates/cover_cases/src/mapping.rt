use crate::tests::{Case, NO_TEXT, ROOM, expect_files, words_of};
use crate::{BEFORE, shelf_of};
use cover_cli::{Outcome, map_faults};
use std::alloc::Global;
use std::process::Abort;
use std::test;

const NOTHING: &str = "{\"features\":[],\"type\":\"FeatureCollection\"}\n";

const SQUARE: &str = "POLYGON ((0 0, 10 0, 10 10, 0 10, 0 0))\n";

// Six parcels with an overlap and two slivers, in mixed case and several lines.
const PARCELS: &str = "Polygon((0 0, 100 0, 100 100, 0 100, 0 0))\n\
     POLYGON ((100 0, 200 0, 200 100,\n          100 100, 102 50, 100 0))\n\
     polygon ((200 0, 300 0, 300 100, 250 103, 200 100, 200 0))\n\
     POLYGON ((0 100, 100 100, 100 200, 0 200, 0 100))\n\
     MultiPolygon (((100 100, 200 100, 200 200, 100 200, 100 100)))\n\
     POLYGON ((200 100, 300 100, 300 200, 200 200, 201 150, 200 100))\n";

// Two frames with an island in the gap between them.
const ISLAND: &str = "POLYGON ((0 0, 15 0, 15 10, 10 10, 10 20, 15 20, 15 30, 0 30, 0 0))\n\
     POLYGON ((15 0, 30 0, 30 30, 15 30, 15 20, 20 20, 20 10, 15 10, 15 0))\n\
     POLYGON ((11 11, 19 11, 19 19, 11 19, 11 11))\n";

// A triangle, and in it one with a hole, in tenths of a unit.
const HOLED: &str = "POLYGON ((0 0, 3 0, 0 3, 0 0))\n\
     POLYGON ((0.2 0.2, 1.6 0.2, 0.2 1.6, 0.2 0.2), (0.4 0.4, 0.4 0.8, 0.8 0.4, 0.4 0.4))\n";

// Two parcels with a sliver between them.
const SLIVER: &str = "POLYGON ((0 0, 20 0, 18 10, 20 20, 0 20, 0 0))\n\
     POLYGON ((20 0, 40 0, 40 20, 20 20, 20 0))\n";

// The three segments within another member, the overlap and the two slivers.
const PARCELS_MAP: &str = "{\"features\":[\
     {\"geometry\":{\"coordinates\":[[250,103],[300,100]],\"type\":\"LineString\"},\"properties\":{\"kind\":\"inside\",\"member\":2,\"place\":11},\"type\":\"Feature\"},\
     {\"geometry\":{\"coordinates\":[[200,100],[250,103]],\"type\":\"LineString\"},\"properties\":{\"kind\":\"inside\",\"member\":2,\"place\":12},\"type\":\"Feature\"},\
     {\"geometry\":{\"coordinates\":[[200,100],[300,100]],\"type\":\"LineString\"},\"properties\":{\"kind\":\"inside\",\"member\":5,\"place\":22},\"type\":\"Feature\"},\
     {\"geometry\":{\"coordinates\":[[[200,100],[300,100],[250,103],[200,100]]],\"type\":\"Polygon\"},\"properties\":{\"kind\":\"overlap\",\"members\":[2,5],\"area2\":300,\"region\":33},\"type\":\"Feature\"},\
     {\"geometry\":{\"coordinates\":[[[100,0],[102,50],[100,100],[100,0]]],\"type\":\"Polygon\"},\"properties\":{\"kind\":\"gap\",\"area2\":200,\"clearance\":1,\"region\":11,\"members\":[0,1]},\"type\":\"Feature\"},\
     {\"geometry\":{\"coordinates\":[[[200,100],[201,150],[200,200],[200,100]]],\"type\":\"Polygon\"},\"properties\":{\"kind\":\"gap\",\"area2\":100,\"clearance\":0,\"region\":29,\"members\":[4,5]},\"type\":\"Feature\"}\
     ],\"type\":\"FeatureCollection\"}\n";

// Two sides that cross.
const CROSSING_MAP: &str = "{\"features\":[\
     {\"geometry\":{\"coordinates\":[[0,0],[10,10]],\"type\":\"LineString\"},\"properties\":{\"kind\":\"meets\",\"member\":0,\"place\":0},\"type\":\"Feature\"},\
     {\"geometry\":{\"coordinates\":[[0,10],[10,0]],\"type\":\"LineString\"},\"properties\":{\"kind\":\"meets\",\"member\":0,\"place\":2},\"type\":\"Feature\"}\
     ],\"type\":\"FeatureCollection\"}\n";

// A side that is walked there and back.
const BACK_MAP: &str = "{\"features\":[\
     {\"geometry\":{\"coordinates\":[[0,0],[10,0]],\"type\":\"LineString\"},\"properties\":{\"kind\":\"repeated\",\"member\":0,\"place\":0},\"type\":\"Feature\"},\
     {\"geometry\":{\"coordinates\":[[0,0],[10,0]],\"type\":\"LineString\"},\"properties\":{\"kind\":\"repeated\",\"member\":0,\"place\":1},\"type\":\"Feature\"}\
     ],\"type\":\"FeatureCollection\"}\n";

// All sides of two equal squares, and what both hold.
const TWINS_MAP: &str = "{\"features\":[\
     {\"geometry\":{\"coordinates\":[[0,0],[10,0]],\"type\":\"LineString\"},\"properties\":{\"kind\":\"same side\",\"member\":0,\"place\":0},\"type\":\"Feature\"},\
     {\"geometry\":{\"coordinates\":[[10,0],[10,10]],\"type\":\"LineString\"},\"properties\":{\"kind\":\"same side\",\"member\":0,\"place\":1},\"type\":\"Feature\"},\
     {\"geometry\":{\"coordinates\":[[0,10],[10,10]],\"type\":\"LineString\"},\"properties\":{\"kind\":\"same side\",\"member\":0,\"place\":2},\"type\":\"Feature\"},\
     {\"geometry\":{\"coordinates\":[[0,0],[0,10]],\"type\":\"LineString\"},\"properties\":{\"kind\":\"same side\",\"member\":0,\"place\":3},\"type\":\"Feature\"},\
     {\"geometry\":{\"coordinates\":[[0,0],[10,0]],\"type\":\"LineString\"},\"properties\":{\"kind\":\"same side\",\"member\":1,\"place\":4},\"type\":\"Feature\"},\
     {\"geometry\":{\"coordinates\":[[10,0],[10,10]],\"type\":\"LineString\"},\"properties\":{\"kind\":\"same side\",\"member\":1,\"place\":5},\"type\":\"Feature\"},\
     {\"geometry\":{\"coordinates\":[[0,10],[10,10]],\"type\":\"LineString\"},\"properties\":{\"kind\":\"same side\",\"member\":1,\"place\":6},\"type\":\"Feature\"},\
     {\"geometry\":{\"coordinates\":[[0,0],[0,10]],\"type\":\"LineString\"},\"properties\":{\"kind\":\"same side\",\"member\":1,\"place\":7},\"type\":\"Feature\"},\
     {\"geometry\":{\"coordinates\":[[[0,0],[10,0],[10,10],[0,10],[0,0]]],\"type\":\"Polygon\"},\"properties\":{\"kind\":\"overlap\",\"members\":[0,1],\"area2\":200,\"region\":1},\"type\":\"Feature\"}\
     ],\"type\":\"FeatureCollection\"}\n";

// The sides of a square in another, and the square.
const INNER_MAP: &str = "{\"features\":[\
     {\"geometry\":{\"coordinates\":[[2,2],[8,2]],\"type\":\"LineString\"},\"properties\":{\"kind\":\"inside\",\"member\":1,\"place\":4},\"type\":\"Feature\"},\
     {\"geometry\":{\"coordinates\":[[8,2],[8,8]],\"type\":\"LineString\"},\"properties\":{\"kind\":\"inside\",\"member\":1,\"place\":5},\"type\":\"Feature\"},\
     {\"geometry\":{\"coordinates\":[[2,8],[8,8]],\"type\":\"LineString\"},\"properties\":{\"kind\":\"inside\",\"member\":1,\"place\":6},\"type\":\"Feature\"},\
     {\"geometry\":{\"coordinates\":[[2,2],[2,8]],\"type\":\"LineString\"},\"properties\":{\"kind\":\"inside\",\"member\":1,\"place\":7},\"type\":\"Feature\"},\
     {\"geometry\":{\"coordinates\":[[[2,2],[8,2],[8,8],[2,8],[2,2]]],\"type\":\"Polygon\"},\"properties\":{\"kind\":\"overlap\",\"members\":[0,1],\"area2\":72,\"region\":7},\"type\":\"Feature\"}\
     ],\"type\":\"FeatureCollection\"}\n";

// The gap round the island, 36 square units with no grid point inside.
const ISLAND_MAP: &str = "{\"features\":[\
     {\"geometry\":{\"coordinates\":[[[10,10],[15,10],[20,10],[20,20],[15,20],[10,20],[10,10]],[[11,11],[11,19],[19,19],[19,11],[11,11]]],\"type\":\"Polygon\"},\"properties\":{\"kind\":\"gap\",\"area2\":72,\"clearance\":0,\"region\":7,\"members\":[0,1,2]},\"type\":\"Feature\"}\
     ],\"type\":\"FeatureCollection\"}\n";

// At scale 1 the sides within the outer triangle, and the overlap, of 196 less 16.
const HOLED_MAP: &str = "{\"features\":[\
     {\"geometry\":{\"coordinates\":[[0.2,0.2],[1.6,0.2]],\"type\":\"LineString\"},\"properties\":{\"kind\":\"inside\",\"member\":1,\"place\":3},\"type\":\"Feature\"},\
     {\"geometry\":{\"coordinates\":[[0.2,1.6],[1.6,0.2]],\"type\":\"LineString\"},\"properties\":{\"kind\":\"inside\",\"member\":1,\"place\":4},\"type\":\"Feature\"},\
     {\"geometry\":{\"coordinates\":[[0.2,0.2],[0.2,1.6]],\"type\":\"LineString\"},\"properties\":{\"kind\":\"inside\",\"member\":1,\"place\":5},\"type\":\"Feature\"},\
     {\"geometry\":{\"coordinates\":[[0.4,0.4],[0.4,0.8]],\"type\":\"LineString\"},\"properties\":{\"kind\":\"inside\",\"member\":1,\"place\":6},\"type\":\"Feature\"},\
     {\"geometry\":{\"coordinates\":[[0.4,0.8],[0.8,0.4]],\"type\":\"LineString\"},\"properties\":{\"kind\":\"inside\",\"member\":1,\"place\":7},\"type\":\"Feature\"},\
     {\"geometry\":{\"coordinates\":[[0.4,0.4],[0.8,0.4]],\"type\":\"LineString\"},\"properties\":{\"kind\":\"inside\",\"member\":1,\"place\":8},\"type\":\"Feature\"},\
     {\"geometry\":{\"coordinates\":[[[0.2,0.2],[1.6,0.2],[0.2,1.6],[0.2,0.2]],[[0.4,0.4],[0.4,0.8],[0.8,0.4],[0.4,0.4]]],\"type\":\"Polygon\"},\"properties\":{\"kind\":\"overlap\",\"members\":[0,1],\"area2\":180,\"region\":7},\"type\":\"Feature\"}\
     ],\"type\":\"FeatureCollection\"}\n";

// The sliver alone: its grid point furthest inside is 0.98 units from two of its sides.
const SLIVER_MAP: &str = "{\"features\":[\
     {\"geometry\":{\"coordinates\":[[[18,10],[20,0],[20,20],[18,10]]],\"type\":\"Polygon\"},\"properties\":{\"kind\":\"gap\",\"area2\":40,\"clearance\":1,\"region\":6,\"members\":[0,1]},\"type\":\"Feature\"}\
     ],\"type\":\"FeatureCollection\"}\n";

// The segments beside it, where it is narrow, and the sliver.
const NARROW_MAP: &str = "{\"features\":[\
     {\"geometry\":{\"coordinates\":[[18,10],[20,0]],\"type\":\"LineString\"},\"properties\":{\"kind\":\"narrow gap\",\"member\":0,\"place\":1},\"type\":\"Feature\"},\
     {\"geometry\":{\"coordinates\":[[18,10],[20,20]],\"type\":\"LineString\"},\"properties\":{\"kind\":\"narrow gap\",\"member\":0,\"place\":2},\"type\":\"Feature\"},\
     {\"geometry\":{\"coordinates\":[[20,0],[20,20]],\"type\":\"LineString\"},\"properties\":{\"kind\":\"narrow gap\",\"member\":1,\"place\":8},\"type\":\"Feature\"},\
     {\"geometry\":{\"coordinates\":[[[18,10],[20,0],[20,20],[18,10]]],\"type\":\"Polygon\"},\"properties\":{\"kind\":\"gap\",\"area2\":40,\"clearance\":1,\"region\":6,\"members\":[0,1]},\"type\":\"Feature\"}\
     ],\"type\":\"FeatureCollection\"}\n";

// The program answers the words so on each input, which it leaves as it was.
fn expect_maps(
    rt: &impl Abort,
    alloc: Global,
    line: &str,
    cases: &[Case],
) -> Result<(), test::Fail> {
    for (case, input, expected, output) in cases {
        let mut files = shelf_of(alloc, input.as_bytes(), &[], ROOM, ROOM)?;
        let words = words_of(alloc, line)?;
        let came = map_faults(alloc, &words, &mut files);
        assert_eq!(rt; came, *expected, "{case}");
        expect_files(rt, &files, input, output, case);
    }
    Ok(())
}

#[test]
fn six_parcels_have_an_overlap_and_two_gaps(rt: HostRuntime) -> Result<(), test::Fail> {
    let case = (
        "six parcels",
        PARCELS,
        Outcome::Marked { edges: 3 },
        PARCELS_MAP,
    );
    expect_maps(&rt, rt.alloc(), "in out", &[case])
}

#[test]
fn each_kind_of_fault_has_its_word(rt: HostRuntime) -> Result<(), test::Fail> {
    let cases = [
        (
            "sides that cross",
            "POLYGON ((0 0, 10 10, 10 0, 0 10, 0 0))",
            Outcome::Marked { edges: 2 },
            CROSSING_MAP,
        ),
        (
            "a side walked there and back",
            "POLYGON ((0 0, 10 0, 0 0, 0 0))",
            Outcome::Marked { edges: 2 },
            BACK_MAP,
        ),
        (
            "a square twice",
            "POLYGON ((0 0, 10 0, 10 10, 0 10, 0 0))\nPOLYGON ((0 0, 10 0, 10 10, 0 10, 0 0))\n",
            Outcome::Marked { edges: 8 },
            TWINS_MAP,
        ),
        (
            "a square in a square",
            "POLYGON ((0 0, 10 0, 10 10, 0 10, 0 0))\nPOLYGON ((2 2, 8 2, 8 8, 2 8, 2 2))\n",
            Outcome::Marked { edges: 4 },
            INNER_MAP,
        ),
    ];
    expect_maps(&rt, rt.alloc(), "in out", &cases)
}

#[test]
fn holes_are_shown(rt: HostRuntime) -> Result<(), test::Fail> {
    let gap = ("a gap with an island", ISLAND, Outcome::Done, ISLAND_MAP);
    expect_maps(&rt, rt.alloc(), "in out", &[gap])?;
    let overlap = (
        "an overlap with a hole",
        HOLED,
        Outcome::Marked { edges: 6 },
        HOLED_MAP,
    );
    expect_maps(&rt, rt.alloc(), "in out --scale 1", &[overlap])
}

#[test]
fn segments_beside_a_narrow_gap_are_shown(rt: HostRuntime) -> Result<(), test::Fail> {
    let wide = ("as wide as it is", SLIVER, Outcome::Done, SLIVER_MAP);
    expect_maps(&rt, rt.alloc(), "in out --gap 1", &[wide])?;
    let narrow = ("narrow", SLIVER, Outcome::Marked { edges: 3 }, NARROW_MAP);
    expect_maps(&rt, rt.alloc(), "--gap=2 in out", &[narrow])
}

#[test]
fn where_nothing_is_wrong_the_map_is_empty(rt: HostRuntime) -> Result<(), test::Fail> {
    let cases = [
        ("no member", "", Outcome::Done, NOTHING),
        ("one square", SQUARE, Outcome::Done, NOTHING),
    ];
    expect_maps(&rt, rt.alloc(), "in out --gap 5", &cases)
}

#[test]
fn words_and_inputs_are_refused_as_in_validate(rt: HostRuntime) -> Result<(), test::Fail> {
    for (line, expected) in [
        ("in", Outcome::Usage),
        ("validate in out", Outcome::Usage),
        ("in out --gap 1073741825", Outcome::Usage),
        ("missing out", Outcome::ReadFault),
        ("out in", NO_TEXT),
    ] {
        expect_maps(&rt, rt.alloc(), line, &[(line, SQUARE, expected, BEFORE)])?;
    }
    Ok(())
}
