// The map and the plan of a journal, and whether it is that of others.
ghost use Rattle.std.specs.Prelude.{◌≡◌, ◌<◌, length, slice_index, IfSome, IfNone};
ghost use Rattle.fleet_recovery.specs.Papers.{paper_text, papers_of, papers_in, Differ, AgreeFor};

use journal_frame::HeaderParts;

/// The bytes of a map and of a plan, which the header of a journal names.
#[derive(Clone, Copy, Debug)]
pub struct Papers<'p> {
    pub map: &'p [u8],
    pub plan: &'p [u8],
}

// As one text: the map, one byte 0, the plan.
impl Papers<'_> {
    fn len(&self) -> usize
        ensures { result ≡ length (paper_text (papers_in self.now)) }
    {
        self.map.len() + 1 + self.plan.len()
    }

    /// The byte at a place of the text.
    fn at(&self, place: usize) -> u8
        requires { place < length (paper_text (papers_in self.now)) }
        ensures { result ≡ slice_index (paper_text (papers_in self.now)) place }
    {
        let end = self.map.len();
        if place < end {
            self.map[place]
        } else if place == end {
            0
        } else {
            self.plan[place - end - 1]
        }
    }
}

/// How long two texts are the same.
fn agreement(one: &Papers<'_>, other: &Papers<'_>) -> usize
    ensures { AgreeFor (paper_text (papers_in one.now)) (paper_text (papers_in other.now)) result }
{
    let end = one.len().min(other.len());
    for place in 0..end {
        if one.at(place) != other.at(place) {
            return place;
        }
    }
    end
}

/// How long the map and the plan of a header are the same as these, where one of them differs.
pub fn other_papers(header: &HeaderParts, papers: &Papers<'_>) -> Option<u64>
    ensures same { IfNone result (papers_of header.now ≡ papers_in papers.now) }
    ensures differ { IfSome result (λ at. Differ (papers_of header.now) (papers_in papers.now)) }
    ensures at { IfSome result (AgreeFor (paper_text (papers_of header.now)) (paper_text (papers_in papers.now))) }
{
    let named = Papers {
        map: header.map.as_slice(),
        plan: header.plan.as_slice(),
    };
    if named.map == papers.map && named.plan == papers.plan {
        return None;
    }
    Some(agreement(&named, papers) as u64)
}
