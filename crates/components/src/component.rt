ghost use Rattle.std.specs.Prelude.{◌≡◌, ℕ, ◌<◌, ◌≤◌, All, IfOk, List, length, slice_index};
ghost use Rattle.components.specs.Connected.{IsConnected, AreComponents};
ghost use Rattle.components.specs.Lower.{AreLow, AreConnected, AreKept};
ghost use Rattle.components.specs.declared.link.Link.{Link};

use crate::link::Link;
use cov_types::NoMemory;
use std::alloc::Global;

/// For each of so many nodes the least node that links connect it with.
///
/// Each node has a lower one that it is connected with, or itself, and for each link the two nodes that the ends lead down to are joined.
/// Takes memory in proportion to the nodes, and time in proportion to the nodes and links, but for a factor of at most the logarithm of
/// the nodes.
pub fn components(alloc: Global, count: usize, links: &[Link]) -> Result<Vec<usize>, NoMemory>
    requires within { All (λ l. (l.from < count) × (l.to < count)) links.now }
    ensures { IfOk result (λ least. AreComponents count links.now least.items) }
{
    let mut least: Vec<usize> = (0..count).collect(alloc)?;
    for link in links {
        join(&mut least, link.from, link.to);
    }
    settle(&mut least);
    Ok(least)
}

// Gives two nodes, and so all that lead down to them, the lesser of the nodes that they lead down to.
fn join(lower: &mut [usize], x: usize, y: usize)
    requires low { AreLow lower.old }
    requires x_within { x < length lower.old }
    requires y_within { y < length lower.old }
    ensures low { AreLow lower.new }
    ensures kept { (number : ℕ → ℕ) → AreKept lower.new number → AreKept lower.old number × (number x ≡ number y) }
    ensures connected { (links : List Link) → IsConnected links x y → AreConnected links lower.old → AreConnected links lower.new }
{
    let first = bottom(lower, x);
    let second = bottom(lower, y);
    if first < second {
        lower[second] = first;
    } else {
        lower[first] = second;
    }
}

// The node at the end of the way down from the node. On the way each other node gets the one after its lower one, so that the way is
// half as long the next time.
fn bottom(lower: &mut [usize], node: usize) -> usize
    requires low { AreLow lower.old }
    requires within { node < length lower.old }
    ensures low { AreLow lower.new }
    ensures no_later { result ≤ node }
    ensures bottom { slice_index lower.new result ≡ result }
    ensures others { (x : ℕ) → slice_index lower.old x ≡ x → slice_index lower.new x ≡ x }
    ensures kept { (number : ℕ → ℕ) → AreKept lower.new number → AreKept lower.old number × (number node ≡ number result) }
    ensures connected { (links : List Link) → AreConnected links lower.old → AreConnected links lower.new × IsConnected links node result }
{
    let mut at = node;
    'down: while lower[at] < at {
        let next = lower[lower[at]];
        lower[at] = next;
        at = next;
    }
    at
}

// Gives each node the one at the end of its way down.
fn settle(lower: &mut [usize])
    requires low { AreLow lower.old }
    ensures low { AreLow lower.new }
    ensures kept { AreKept lower.old (λ x. slice_index lower.new x) }
    ensures connected { (links : List Link) → AreConnected links lower.old → AreConnected links lower.new }
{
    'nodes: for node in 0..lower.len() {
        lower[node] = lower[lower[node]];
    }
}
