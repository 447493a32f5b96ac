ghost use Rattle.std.specs.Prelude.{◌≡◌, ◌<◌, ◌≤◌, ℕ, List, [], All, Some, length, slice_get, slice_index_or, replicate, IfOk, OnOk};
ghost use Rattle.owner_label.specs.Members.{IsFrom, IsToggledFrom, members_at};

use crate::toggle::{Span, append_toggled};
use arrangement::OddUse;
use cov_types::NoMemory;
use std::alloc::Global;
use std::marker::Model;

/// Labels by number: which members hold the points of a region, ascending. They stand one behind the other in one list. A contract sees
/// the list of labels.
#[derive(Drop)]
pub struct LabelTable {
    // Where the label of each number stands.
    spans: Vec<Span>,
    members: Vec<u32>,
}

impl Model for LabelTable {
    ghost use Rattle.std.specs.Prelude.{ℕ, List};
    ghost use Rattle.owner_label.specs.Spans.{labels_at, AreSpans};

    ghost Value = { List (List ℕ) };

    ghost view = { λ t. labels_at t.spans.items t.members.items };

    ghost invariant = { λ t. AreSpans t.spans.items t.members.items };
}

impl LabelTable {
    /// So many empty labels. Takes time and memory in proportion to their count.
    pub fn build(alloc: Global, count: usize) -> Result<LabelTable, NoMemory>
        ensures { IfOk result (λ t. t ≡ replicate count []) }
    {
        let spans = vec![in alloc; Span { from: 0, to: 0 }; count]?;
        Ok(LabelTable {
            spans,
            members: Vec::new(alloc),
        })
    }

    /// The label with the number.
    pub fn label(&self, number: usize) -> &[u32]
        requires within { number < length self.now }
        ensures { slice_get self.now number ≡ Some result.now }
    {
        let span = self.spans[number];
        &self.members[span.from..span.to]
    }

    /// Writes the label with the number: that of a neighbour, with the members of these odd pairs toggled. Takes time in proportion to
    /// the two.
    pub fn toggle(
        &mut self,
        number: usize,
        neighbour: usize,
        odd: &[OddUse],
        places: &[usize],
    ) -> Result<(), NoMemory>
        requires number { number < length self.old }
        requires neighbour { neighbour < length self.old }
        requires places { All (λ n. n < length odd.now) places.now }
        requires label { IsFrom 0 (slice_index_or self.old neighbour []) }
        requires members { IsFrom 0 (members_at odd.now places.now) }
        ensures { OnOk result (IsToggledFrom self.old number (slice_index_or self.old neighbour []) (members_at odd.now places.now) self.new) }
    {
        let from = self.members.len();
        append_toggled(&mut self.members, self.spans[neighbour], odd, places)?;
        self.spans[number] = Span {
            from,
            to: self.members.len(),
        };
        Ok(())
    }
}
