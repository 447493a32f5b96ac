use crate::{BEFORE, shelf_of};
use cov_io::{Call, Fail};
use cov_rules::{Chain, ClearBorder, EvenShare, Hired, LiveRule, NamedRule, Part, Priority};
use cov_types::NoMemory;
use cover_cli::{Outcome, Report, closing, cover_with};
use geo_text::{LONGEST_INPUT, TextFault};
use std::alloc::{AllocError, Global};
use std::process::Abort;
use std::test;

// Two squares that overlap along their sides.
const OVERLAP: &str =
    "POLYGON ((0 0, 10 0, 10 10, 0 10, 0 0))\nPOLYGON ((5 0, 15 0, 15 10, 5 10, 5 0))\n";

const OVERLAP_BY_THE_FIRST: &str = "POLYGON ((0 0, 5 0, 10 0, 10 10, 5 10, 0 10, 0 0))\n\
     POLYGON ((10 0, 15 0, 15 10, 10 10, 10 0))\n";

// A tower that two squares of one member overlap.
const TOWER: &str = "POLYGON ((0 0, 10 0, 10 30, 0 30, 0 0))\n\
     MULTIPOLYGON (((5 0, 15 0, 15 10, 5 10, 5 0)), ((5 20, 15 20, 15 30, 5 30, 5 20)))\n";

// The first overlap is the tower's, the second is not.
const TOWER_SHARED: &str = "POLYGON ((0 0, 5 0, 10 0, 10 10, 10 20, 5 20, 5 30, 0 30, 0 0))\n\
     MULTIPOLYGON (((5 20, 10 20, 15 20, 15 30, 10 30, 5 30, 5 20)), ((10 0, 15 0, 15 10, 10 10, 10 0)))\n";

// Neither overlap is the tower's.
const TOWER_CUT: &str = "POLYGON ((0 0, 5 0, 5 10, 10 10, 10 20, 5 20, 5 30, 0 30, 0 0))\n\
     MULTIPOLYGON (((5 0, 10 0, 15 0, 15 10, 10 10, 5 10, 5 0)), ((5 20, 10 20, 15 20, 15 30, 10 30, 5 30, 5 20)))\n";

// Both are.
const TOWER_WHOLE: &str = "POLYGON ((0 0, 5 0, 10 0, 10 10, 10 20, 10 30, 5 30, 0 30, 0 0))\n\
     MULTIPOLYGON (((10 0, 15 0, 15 10, 10 10, 10 0)), ((10 20, 15 20, 15 30, 10 30, 10 20)))\n";

// Two frames with an island in the gap between them.
const ISLAND: &str = "POLYGON ((0 0, 15 0, 15 10, 10 10, 10 20, 15 20, 15 30, 0 30, 0 0))\n\
     POLYGON ((15 0, 30 0, 30 30, 15 30, 15 20, 20 20, 20 10, 15 10, 15 0))\n\
     POLYGON ((11 11, 19 11, 19 19, 11 19, 11 11))\n";

// The gap is the first frame's.
const ISLAND_BY_THE_FIRST: &str =
    "POLYGON ((0 0, 15 0, 15 10, 20 10, 20 20, 15 20, 15 30, 0 30, 0 0), (11 11, 11 19, 19 19, 19 11, 11 11))\n\
     POLYGON ((15 0, 30 0, 30 30, 15 30, 15 20, 20 20, 20 10, 15 10, 15 0))\n\
     POLYGON ((11 11, 19 11, 19 19, 11 19, 11 11))\n";

// The gap is the island's.
const ISLAND_BY_THE_LAST: &str =
    "POLYGON ((0 0, 15 0, 15 10, 10 10, 10 20, 15 20, 15 30, 0 30, 0 0))\n\
     POLYGON ((15 0, 30 0, 30 30, 15 30, 15 20, 20 20, 20 10, 15 10, 15 0))\n\
     POLYGON ((10 10, 15 10, 20 10, 20 20, 15 20, 10 20, 10 10))\n";

// A chain of a clear border and an even share.
fn border_then_share(alloc: Global) -> Result<Chain, AllocError> {
    let mut parts = Vec::new(alloc);
    parts.push(Part::Clear(ClearBorder::new()))?;
    parts.push(Part::Even(EvenShare::new(alloc)))?;
    Ok(Chain::new(parts))
}

// A case: its words, the input, the calls that are to fail, the answer, the output, the place of the used rule and the closing lines.
#[derive(Clone, Copy)]
struct Case<'a> {
    line: &'a str,
    input: &'a str,
    fails: &'a [Fail],
    outcome: Outcome,
    output: &'a str,
    used: Option<usize>,
    closing: &'a str,
}

// The words of a line.
fn words_of(alloc: Global, line: &str) -> Result<Vec<String>, AllocError> {
    let mut words = Vec::new(alloc);
    for word in line.split_whitespace() {
        words.push(String::from_str(alloc, word)?)?;
    }
    Ok(words)
}

// The report is the one that the case wants, and the rules came back under their names.
fn expect_report(
    rt: &impl Abort,
    alloc: Global,
    case: &Case,
    report: Report,
) -> Result<(), test::Fail> {
    assert_eq!(rt; report.outcome, case.outcome, "{}", case.line);
    assert_eq!(rt; report.used, case.used, "{}", case.line);
    assert_eq!(rt; report.rules.len(), 2);
    assert!(rt; report.rules[0].name.as_str() == "mine");
    assert!(rt; report.rules[1].name.as_str() == "other");
    let lines = closing(alloc, report)?;
    assert!(rt; lines.as_str() == case.closing, "{}: {lines}", case.line);
    Ok(())
}

// Which rule is handed in.
#[derive(Clone, Copy)]
enum Kind {
    Share,
    First(u32),
    Chained,
    Nothing,
}

// The words of the case answer so and leave the output so, with a rule of this kind handed in as `mine` and a clear border as `other`.
fn expect_handed(
    rt: &impl Abort,
    alloc: Global,
    case: &Case,
    kind: Kind,
) -> Result<(), test::Fail> {
    let words = words_of(alloc, case.line)?;
    let mine: Box<dyn LiveRule> = match kind {
        Kind::Share => Box::new(alloc, EvenShare::new(alloc))?,
        Kind::First(member) => Box::new(alloc, Priority::new(vec![in alloc; member]?))?,
        Kind::Chained => Box::new(alloc, border_then_share(alloc)?)?,
        Kind::Nothing => Box::new(alloc, Chain::new(Vec::new(alloc)))?,
    };
    let mut rules = Vec::new(alloc);
    rules.push(NamedRule {
        name: String::from_str(alloc, "mine")?,
        rule: Hired::new(mine),
    })?;
    rules.push(NamedRule {
        name: String::from_str(alloc, "other")?,
        rule: Hired::new(Box::new(alloc, ClearBorder::new())?),
    })?;
    let mut files = shelf_of(alloc, case.input.as_bytes(), case.fails, 64, LONGEST_INPUT)?;
    let report = cover_with(alloc, &words, &mut files, rules);
    assert!(rt;
        files.held("out") == Some(case.output.as_bytes()),
        "out: {}",
        case.line
    );
    expect_report(rt, alloc, case, report)
}

#[test]
fn an_even_share_gives_the_overlaps_in_turn(rt: HostRuntime) -> Result<(), test::Fail> {
    let alloc = rt.alloc();
    let case = Case {
        line: "clean in out --rule mine",
        input: TOWER,
        fails: &[],
        outcome: Outcome::Done,
        output: TOWER_SHARED,
        used: Some(0),
        closing: "done\ntallies 100 100",
    };
    expect_handed(&rt, alloc, &case, Kind::Share)
}

#[test]
fn a_rule_of_the_caller_decides_or_abstains(rt: HostRuntime) -> Result<(), test::Fail> {
    let alloc = rt.alloc();
    let first = Case {
        line: "clean in out --rule mine",
        input: TOWER,
        fails: &[],
        outcome: Outcome::Done,
        output: TOWER_CUT,
        used: Some(0),
        closing: "done\ntallies",
    };
    expect_handed(&rt, alloc, &first, Kind::First(1))?;
    let second = Case {
        output: TOWER_WHOLE,
        ..first
    };
    expect_handed(&rt, alloc, &second, Kind::First(7))
}

#[test]
fn a_chain_asks_for_the_border_and_then_for_the_share(rt: HostRuntime) -> Result<(), test::Fail> {
    let alloc = rt.alloc();
    let tied = Case {
        line: "clean in out --rule mine",
        input: OVERLAP,
        fails: &[],
        outcome: Outcome::Done,
        output: OVERLAP_BY_THE_FIRST,
        used: Some(0),
        closing: "done\ntallies 0 2 100 0",
    };
    expect_handed(&rt, alloc, &tied, Kind::Chained)?;
    let clear = Case {
        input: TOWER,
        output: TOWER_WHOLE,
        closing: "done\ntallies 0 2 0 0",
        ..tied
    };
    expect_handed(&rt, alloc, &clear, Kind::Chained)?;
    let empty = Case {
        closing: "done\ntallies",
        ..tied
    };
    expect_handed(&rt, alloc, &empty, Kind::Nothing)
}

#[test]
fn gaps_go_by_the_rule_where_the_flag_is_there(rt: HostRuntime) -> Result<(), test::Fail> {
    let alloc = rt.alloc();
    for (line, output, used, closing) in [
        (
            "clean in out --rule least-index --gap 1 --gaps-too",
            ISLAND_BY_THE_FIRST,
            None,
            "done",
        ),
        (
            "clean in out --rule longest-border --gap 1 --gaps-too",
            ISLAND_BY_THE_LAST,
            None,
            "done",
        ),
        (
            "clean in out --rule least-index --gap 1",
            ISLAND_BY_THE_LAST,
            None,
            "done",
        ),
        (
            "clean in out --rule mine --gap 1 --gaps-too",
            ISLAND_BY_THE_FIRST,
            Some(0),
            "done\ntallies 72 0 0",
        ),
        (
            "clean in out --rule mine --gap 1",
            ISLAND_BY_THE_LAST,
            Some(0),
            "done\ntallies 0 0 0",
        ),
    ] {
        let case = Case {
            line,
            input: ISLAND,
            fails: &[],
            outcome: Outcome::Done,
            output,
            used,
            closing,
        };
        expect_handed(&rt, alloc, &case, Kind::Share)?;
    }
    Ok(())
}

#[test]
fn rules_come_back_whatever_the_answer(rt: HostRuntime) -> Result<(), test::Fail> {
    let alloc = rt.alloc();
    let read = [Fail {
        call: Call::Read,
        nth: 0,
    }];
    let write = [Fail {
        call: Call::Create,
        nth: 0,
    }];
    for (line, input, fails, outcome, used, closing) in [
        (
            "clean in out --rule none",
            TOWER,
            &read[..0],
            Outcome::Usage,
            None,
            "usage: cover validate|clean|simplify|union|node|regions|sample|locate|overlay",
        ),
        (
            "clean in out --rule mine",
            TOWER,
            &read,
            Outcome::ReadFault,
            Some(0),
            "cannot read",
        ),
        (
            "clean in out --rule other",
            "POLYGON",
            &read[..0],
            Outcome::BadText(TextFault::Syntax { at: 7 }),
            Some(1),
            "text: syntax at 7",
        ),
        (
            "clean in out --rule mine",
            TOWER,
            &write,
            Outcome::WriteFault,
            Some(0),
            "cannot write",
        ),
    ] {
        let case = Case {
            line,
            input,
            fails,
            outcome,
            output: BEFORE,
            used,
            closing,
        };
        expect_handed(&rt, alloc, &case, Kind::Share)?;
    }
    Ok(())
}
