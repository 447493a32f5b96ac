use crate::tests::{expect_answers, expect_refusal};
use cov_types::NoMemory;
use cover_cli::Outcome;
use geo_text::TextFault;
use std::alloc::Global;
use std::test;

const LINE: &str = "POLYGON ((0 0, 10 0, 10 10, 0 10, 0 0))";

// A piece of text so many times.
fn repeated(alloc: Global, piece: &str, times: usize) -> Result<String, NoMemory> {
    Ok(piece.repeat(alloc, times)?)
}

#[test]
fn a_line_that_is_cut_off_is_refused_at_its_end(rt: HostRuntime) -> Result<(), test::Fail> {
    for end in 1..LINE.len() {
        let Some(input) = LINE.get(..end) else {
            continue;
        };
        let at = end as u64;
        let fault = TextFault::Syntax { at };
        expect_refusal(&rt, rt.alloc(), input.as_bytes(), Outcome::BadText(fault))?;
    }
    Ok(())
}

#[test]
fn texts_that_go_on_and_on_are_answered(rt: HostRuntime) -> Result<(), test::Fail> {
    let open = repeated(rt.alloc(), "(", 1_000_000)?;
    let syntax = Outcome::BadText(TextFault::Syntax { at: 0 });
    expect_refusal(&rt, rt.alloc(), open.as_bytes(), syntax)?;
    expect_refusal(&rt, rt.alloc(), &[255, 254], syntax)?;

    let nines = repeated(rt.alloc(), "9", 1_000)?;
    let large = format!(in rt.alloc(); "POLYGON (({nines} 0, 1 0, 0 1, 0 0))")?;
    let out_of_range = Outcome::BadText(TextFault::OutOfRange { at: 10 });
    expect_refusal(&rt, rt.alloc(), large.as_bytes(), out_of_range)?;

    let zeros = repeated(rt.alloc(), "0", 1_000)?;
    let four = format!(in rt.alloc(); "POLYGON ((0 0, {zeros}4 0, 0 4, 0 0))")?;
    let case = (
        "leading zeros",
        four.as_str(),
        Outcome::Done,
        "MULTILINESTRING EMPTY\n",
    );
    expect_answers(&rt, rt.alloc(), "validate in out", &[case])
}
