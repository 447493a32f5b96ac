ghost use Rattle.std.specs.Prelude.{◌≡◌, ◌<◌, ◌↔◌, [], IfOk, IsTrue, List, length};
ghost use Rattle.cov_types.specs.declared.coord.Coord.{Coord};

use cov_types::NoMemory;
use std::alloc::Global;

/// The places of a point's neighbours in its line. An end of the line has itself on its outer side.
#[derive(Clone, Copy, Debug)]
pub struct Links {
    pub before: usize,
    pub after: usize,
}

impl Links {
    ghost use Rattle.visvalingam.specs.Chains.{AreLinked, AreChanged, IsFirstLinks, IsInnerPlace, unlinked, with_after, with_before};

    /// The links of the points of a line of this length, of which none has gone.
    pub(crate) fn first(alloc: Global, count: usize) -> Result<Vec<Option<Links>>, NoMemory>
        ensures { IfOk result (λ links. (points : List Coord) → length points ≡ count → AreLinked [] points links.items) }
    {
        let mut links = Vec::new(alloc);
        for place in 0..count {
            links.push(Some(Links::of_place(place, count)))?;
        }
        Ok(links)
    }

    // The links at a place of so many.
    fn of_place(place: usize, count: usize) -> Links
        requires { place < count }
        ensures { IsFirstLinks count place result }
    {
        Links {
            before: place.saturating_sub(1),
            after: if place + 1 < count { place + 1 } else { place },
        }
    }

    /// Whether the place is none of the ends of a line of this length.
    pub(crate) fn is_inner(self, place: usize, count: usize) -> bool
        ensures { IsTrue result ↔ IsInnerPlace self place count }
    {
        if self.before < place {
            if place < self.after {
                return self.after < count;
            }
        }
        false
    }

    /// Takes the point at the place out and joins its neighbours at these places.
    pub(crate) fn unlink(links: &mut [Option<Links>], place: usize, before: usize, after: usize)
        requires place { place < length links.old }
        requires before { before < length links.old }
        requires after { after < length links.old }
        ensures { AreChanged (unlinked place before after) links.old links.new }
    {
        links[place] = None;
        Links::set_after(links, before, after);
        Links::set_before(links, after, before);
    }

    fn set_after(links: &mut [Option<Links>], place: usize, after: usize)
        requires { place < length links.old }
        ensures { AreChanged (with_after place after) links.old links.new }
    {
        if let Some(own) = links[place] {
            links[place] = Some(Links {
                before: own.before,
                after,
            });
        }
    }

    fn set_before(links: &mut [Option<Links>], place: usize, before: usize)
        requires { place < length links.old }
        ensures { AreChanged (with_before place before) links.old links.new }
    {
        if let Some(own) = links[place] {
            links[place] = Some(Links {
                before,
                after: own.after,
            });
        }
    }
}
