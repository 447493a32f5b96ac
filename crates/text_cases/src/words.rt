use cov_types::NoMemory;
use cover_words::{Inputs, Operation, RuleChoice, RuleName, operation_named};
use std::alloc::Global;
use std::test::Fail;

// The words of a line, cut at its spaces; `_` stands for the empty word.
fn words_of(alloc: Global, line: &str) -> Result<Vec<String>, NoMemory> {
    let mut words = Vec::new(alloc);
    for word in line.split(' ') {
        let text = if word == "_" { "" } else { word };
        words.push(String::from_str(alloc, text)?)?;
    }
    Ok(words)
}

// The words of the line are not accepted.
fn is_refused(alloc: Global, line: &str) -> Result<bool, NoMemory> {
    let words = words_of(alloc, line)?;
    Ok(operation_named(alloc, &words, &[])?.is_none())
}

// The words of the line name the operation.
fn names(alloc: Global, line: &str, wanted: Operation) -> Result<bool, NoMemory> {
    let words = words_of(alloc, line)?;
    Ok(operation_named(alloc, &words, &[])? == Some(wanted))
}

static REFUSED: [&str; 44] = [
    "_",
    "measure a b",
    "clean",
    "clean a b",
    "clean a --rule least-index",
    "clean a b c --rule least-index",
    "clean a b --rule largest",
    "clean a b --rule even-share",
    "clean a b --rule least-index --gaps-too=true",
    "validate a b --gaps-too",
    "clean a b --rule least-index --rule least-index",
    "validate a b --gap",
    "validate a b --gap 1073741825",
    "validate a b --gap 3 --gap 3",
    "validate a b --gap -0",
    "validate a b --gap 3x",
    "validate a b --help",
    "node -h a b",
    "regions -a b",
    "union a b --gap 3",
    "locate a b",
    "locate a b c d",
    "locate a b c --gap 3",
    "overlay a b",
    "overlay a b c d",
    "simplify a b --inner",
    "simplify a b --tolerance 8 --inner=true",
    "clean a.json b --rule least-index --scale 2",
    "clean a b.geojson --rule least-index --scale 2",
    "simplify a b.json --tolerance 8 --scale 2",
    "union a b.json --scale 2",
    "node a.json b --scale 0",
    "regions a.json b --scale 2",
    "node a b --scale 8",
    "node a b --scale 2 --scale 2",
    "locate a b c --scale 2",
    "overlay a b c --scale 2",
    "sample 0 1 a",
    "sample 401 1 a",
    "sample 1 4294967296 a",
    "sample 1 -1 a",
    "sample 1 a",
    "sample 1 1 a b",
    "sample 1 1 a --gap 3",
];

#[test]
fn words_that_are_not_accepted(rt: HostRuntime) -> Result<(), Fail> {
    for line in &REFUSED {
        assert!(rt; is_refused(rt.alloc(), line)?, "{line}");
    }
    let none: [String; 0] = [];
    assert!(rt; operation_named(rt.alloc(), &none, &[])?.is_none());
    Ok(())
}

#[test]
fn options_stand_anywhere(rt: HostRuntime) -> Result<(), Fail> {
    let alloc = rt.alloc();
    let wanted = Operation::Clean {
        rule: RuleChoice::Own(RuleName::LeastIndex),
        gap: 3,
        gaps_too: false,
        scale: None,
        from: "a",
        to: "b",
    };
    assert!(rt; names(alloc, "clean --gap 3 --rule least-index a b", wanted)?);
    assert!(rt; names(alloc, "clean a b --rule least-index --gap=3", wanted)?);
    assert!(rt; names(alloc, "clean a --gap=+003 b --rule=least-index", wanted)?);
    Ok(())
}

#[test]
fn gaps_from_0_to_their_limit(rt: HostRuntime) -> Result<(), Fail> {
    let alloc = rt.alloc();
    let (from, to) = ("a", "b");
    let none = Operation::Validate {
        gap: 0,
        scale: None,
        from,
        to,
    };
    assert!(rt; names(alloc, "validate a b", none)?);
    assert!(rt; names(alloc, "validate a b --gap=-0", none)?);
    let most = Operation::Validate {
        gap: 1_073_741_824,
        scale: None,
        from,
        to,
    };
    assert!(rt; names(alloc, "validate a b --gap 1073741824", most)?);
    Ok(())
}

#[test]
fn names_of_any_text(rt: HostRuntime) -> Result<(), Fail> {
    let alloc = rt.alloc();
    let dashes = Operation::Union {
        scale: None,
        from: "-a",
        to: "--gap",
    };
    assert!(rt; names(alloc, "union -- -a --gap", dashes)?);
    let empty = Operation::Node {
        scale: None,
        from: "",
        to: "-",
    };
    assert!(rt; names(alloc, "node _ -", empty)?);
    let plain = Operation::Regions {
        scale: None,
        from: "a",
        to: "a",
    };
    assert!(rt; names(alloc, "regions a a", plain)?);
    Ok(())
}

#[test]
fn lines_inside_alone(rt: HostRuntime) -> Result<(), Fail> {
    let alloc = rt.alloc();
    let (tolerance, from, to) = (8, "a", "b");
    let all = Operation::Simplify {
        tolerance,
        inner: false,
        scale: None,
        from,
        to,
    };
    assert!(rt; names(alloc, "simplify a b --tolerance 8", all)?);
    let inner = Operation::Simplify {
        tolerance,
        inner: true,
        scale: None,
        from,
        to,
    };
    assert!(rt; names(alloc, "simplify --inner a b --tolerance 8", inner)?);
    Ok(())
}

#[test]
fn scales_of_text(rt: HostRuntime) -> Result<(), Fail> {
    let alloc = rt.alloc();
    let most = Operation::Node {
        scale: Some(7),
        from: "a",
        to: "b.json",
    };
    assert!(rt; names(alloc, "node a --scale 7 b.json", most)?);
    let (gap, from, to) = (0, "a", "b");
    let least = Operation::Validate {
        gap,
        scale: Some(0),
        from,
        to,
    };
    assert!(rt; names(alloc, "validate a b --scale=+00", least)?);
    let clean = Operation::Clean {
        rule: RuleChoice::Own(RuleName::LeastArea),
        gap,
        gaps_too: false,
        scale: Some(2),
        from,
        to,
    };
    assert!(rt; names(alloc, "clean --scale 2 a b --rule least-area", clean)?);
    Ok(())
}

#[test]
fn samples_of_1_to_400_cells_on_a_side(rt: HostRuntime) -> Result<(), Fail> {
    let alloc = rt.alloc();
    let least = Operation::Sample {
        side: 1,
        seed: 0,
        to: "a",
    };
    assert!(rt; names(alloc, "sample 1 0 a", least)?);
    let most = Operation::Sample {
        side: 400,
        seed: 4_294_967_295,
        to: "a",
    };
    assert!(rt; names(alloc, "sample 400 4294967295 a", most)?);
    assert_eq!(rt; most.inputs(), Inputs::Nothing);
    assert_eq!(rt; most.output(), "a");
    Ok(())
}

#[test]
fn files_of_an_operation(rt: HostRuntime) -> Result<(), Fail> {
    let union = Operation::Union {
        scale: None,
        from: "a",
        to: "b",
    };
    assert_eq!(rt; union.inputs(), Inputs::One("a"));
    assert_eq!(rt; union.output(), "b");
    let locate = Operation::Locate {
        from: "a",
        points: "b",
        to: "c",
    };
    assert!(rt; names(rt.alloc(), "locate a b c", locate)?);
    assert_eq!(rt; locate.inputs(), Inputs::Two("a", "b"));
    assert_eq!(rt; locate.output(), "c");
    let overlay = Operation::Overlay {
        first: "a",
        second: "b",
        to: "c",
    };
    assert!(rt; names(rt.alloc(), "overlay a b c", overlay)?);
    assert_eq!(rt; overlay.inputs(), Inputs::Two("a", "b"));
    assert_eq!(rt; overlay.output(), "c");
    Ok(())
}

#[test]
fn rules_that_are_handed_in(rt: HostRuntime) -> Result<(), Fail> {
    let alloc = rt.alloc();
    let names = ["least-index", "mine", "even-share"];
    for (line, rule, gaps_too) in [
        ("clean a b --rule mine", RuleChoice::Handed(1), false),
        (
            "clean a b --gaps-too --rule even-share",
            RuleChoice::Handed(2),
            true,
        ),
        (
            "clean a b --rule least-index --gaps-too",
            RuleChoice::Own(RuleName::LeastIndex),
            true,
        ),
    ] {
        let words = words_of(alloc, line)?;
        let wanted = Operation::Clean {
            rule,
            gap: 0,
            gaps_too,
            scale: None,
            from: "a",
            to: "b",
        };
        assert!(rt;
            operation_named(alloc, &words, &names)? == Some(wanted),
            "{line}"
        );
    }
    let other = words_of(alloc, "clean a b --rule other")?;
    assert!(rt; operation_named(alloc, &other, &names)?.is_none());
    Ok(())
}
