ghost use Rattle.std.specs.Prelude.{◌<◌, All};

use crate::{Link, components};
use std::alloc::Global;
use std::process::Abort;
use std::test::Fail;

/// The numbers of so many nodes under these links.
fn expect_components(
    rt: &impl Abort,
    alloc: Global,
    count: usize,
    links: &[Link],
    numbers: &[usize],
) -> Result<(), Fail>
    requires { All (λ l. (l.from < count) × (l.to < count)) links.now }
{
    let answer = components(alloc, count, links)?;
    assert_eq!(rt; answer.as_slice(), numbers);
    Ok(())
}

#[test]
fn no_nodes_have_no_numbers(rt: HostRuntime) -> Result<(), Fail> {
    expect_components(&rt, rt.alloc(), 0, &[], &[])
}

#[test]
fn without_links_each_node_has_its_own_number(rt: HostRuntime) -> Result<(), Fail> {
    expect_components(&rt, rt.alloc(), 3, &[], &[0, 1, 2])
}

#[test]
fn a_chain_written_backwards_has_one_number(rt: HostRuntime) -> Result<(), Fail> {
    let links = [
        Link { from: 3, to: 2 },
        Link { from: 2, to: 1 },
        Link { from: 1, to: 0 },
    ];
    expect_components(&rt, rt.alloc(), 4, &links, &[0, 0, 0, 0])
}

#[test]
fn components_that_interleave_stay_apart(rt: HostRuntime) -> Result<(), Fail> {
    let links = [
        Link { from: 5, to: 1 },
        Link { from: 4, to: 2 },
        Link { from: 1, to: 3 },
        Link { from: 4, to: 0 },
    ];
    expect_components(&rt, rt.alloc(), 6, &links, &[0, 1, 0, 1, 0, 1])
}

#[test]
fn a_ring_with_a_loop_has_one_number(rt: HostRuntime) -> Result<(), Fail> {
    let links = [
        Link { from: 1, to: 2 },
        Link { from: 2, to: 3 },
        Link { from: 3, to: 1 },
        Link { from: 2, to: 2 },
    ];
    expect_components(&rt, rt.alloc(), 5, &links, &[0, 1, 1, 1, 4])
}
