use crate::tests::expect_answers;
use cov_types::NoMemory;
use cover_cli::Outcome;
use std::alloc::Global;
use std::test;

// How many squares stand in a row, each beside the one before.
const JOINED: u32 = 100_000;

// How many squares stand apart.
const SEPARATE: u32 = 300_000;

// The line of a square of one unit, from this x to the next.
fn square(alloc: Global, left: u32) -> Result<String, NoMemory> {
    let right = u64::from(left) + 1;
    Ok(format!(in alloc; "POLYGON (({left} 0, {right} 0, {right} 1, {left} 1, {left} 0))\n")?)
}

// Squares in a row, each beside the one before.
fn joined_squares(alloc: Global) -> Result<String, NoMemory> {
    let mut text = String::new(alloc);
    for left in 0..JOINED {
        text.push_str(&square(alloc, left)?)?;
    }
    Ok(text)
}

// Squares in a row, each a unit apart from the one before.
fn separate_squares(alloc: Global) -> Result<String, NoMemory> {
    let mut text = String::new(alloc);
    for place in 0..SEPARATE {
        text.push_str(&square(alloc, 2 * place)?)?;
    }
    Ok(text)
}

// A list of no segments for each square.
fn no_segments(alloc: Global) -> Result<String, NoMemory> {
    let mut text = String::new(alloc);
    for _ in 0..JOINED {
        text.push_str("MULTILINESTRING EMPTY\n")?;
    }
    Ok(text)
}

// The sides of all joined squares, ascending, each once.
fn all_sides(alloc: Global) -> Result<String, NoMemory> {
    let mut text = String::from_str(alloc, "MULTILINESTRING (")?;
    for left in 0..JOINED {
        let right = left + 1;
        let sides = format!(in alloc;
            "({left} 0, {left} 1), ({left} 0, {right} 0), ({left} 1, {right} 1), "
        )?;
        text.push_str(&sides)?;
    }
    let end = JOINED;
    let last = format!(in alloc; "({end} 0, {end} 1))\n")?;
    text.push_str(&last)?;
    Ok(text)
}

// The sides of all joined squares, and then those of each.
fn sides_of_each(alloc: Global) -> Result<String, NoMemory> {
    let mut text = all_sides(alloc)?;
    for left in 0..JOINED {
        let right = left + 1;
        let sides = format!(in alloc;
            "MULTILINESTRING (({left} 0, {left} 1), ({left} 0, {right} 0), ({left} 1, {right} 1), ({right} 0, {right} 1))\n"
        )?;
        text.push_str(&sides)?;
    }
    Ok(text)
}

// The outer region, and the inside of each separate square. A square's left side is the first of its four.
fn insides(alloc: Global) -> Result<String, NoMemory> {
    let mut text = String::from_str(alloc, "0 outer - - -\n")?;
    for place in 0..SEPARATE {
        let side = 8 * place + 1;
        let row = format!(in alloc; "{side} single {place} 2 -\n")?;
        text.push_str(&row)?;
    }
    Ok(text)
}

#[test]
fn many_squares_in_a_row_have_no_faults(rt: HostRuntime) -> Result<(), test::Fail> {
    let input = joined_squares(rt.alloc())?;
    let output = no_segments(rt.alloc())?;
    let case = (
        "joined squares",
        input.as_str(),
        Outcome::Done,
        output.as_str(),
    );
    expect_answers(&rt, rt.alloc(), "validate in out", &[case])
}

#[test]
fn many_squares_in_a_row_are_noded(rt: HostRuntime) -> Result<(), test::Fail> {
    let input = joined_squares(rt.alloc())?;
    let output = sides_of_each(rt.alloc())?;
    let case = (
        "joined squares",
        input.as_str(),
        Outcome::Done,
        output.as_str(),
    );
    expect_answers(&rt, rt.alloc(), "node in out", &[case])
}

#[test]
fn many_separate_squares_have_a_region_each(rt: HostRuntime) -> Result<(), test::Fail> {
    let input = separate_squares(rt.alloc())?;
    let output = insides(rt.alloc())?;
    let case = (
        "separate squares",
        input.as_str(),
        Outcome::Done,
        output.as_str(),
    );
    expect_answers(&rt, rt.alloc(), "regions in out", &[case])
}
