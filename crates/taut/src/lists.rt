// The lists that a line is drawn into, side by side: an entry of each is a segment of the line or an edge of a chain.

ghost use Rattle.std.specs.Prelude.{◌≡◌, ◌<◌, length, set};
ghost use Rattle.taut.specs.Slopes.{Light, edge_of};
ghost use Rattle.taut.specs.Stack.{entries, SameLists};

use super::slopes::Edge;

// For a plain series, which has no weights, the list of divisors may be empty: a divisor is the length then.
#[derive(Drop)]
pub struct Lists<'a> {
    pub lengths: &'a mut [u32],
    pub divisors: &'a mut [u32],
    pub totals: &'a mut [i64],
}

impl Lists<'_> {
    // Entry j.
    pub(crate) fn entry(&self, j: usize) -> Edge
        requires j_bound { j < 65536 }
        requires lengths_reach { j < length self.now.lengths.now }
        requires totals_reach { j < length self.now.totals.now }
        ensures { result ≡ edge_of (entries self.now j) }
    {
        let len = self.lengths[j];
        Edge {
            len,
            n: if j < self.divisors.len() {
                self.divisors[j]
            } else {
                len
            },
            total: self.totals[j],
        }
    }

    // An edge, written as entry j. With no list of divisors its divisor is left out.
    pub(crate) fn write(&mut self, j: usize, x: Edge)
        requires j_bound { j < 65536 }
        requires lengths_room { j < length self.old.lengths.now }
        requires totals_room { j < length self.old.totals.now }
        ensures same { SameLists self.old self.new }
        ensures lengths { self.new.lengths.now ≡ set self.old.lengths.now j x.len }
        ensures divisors { self.new.divisors.now ≡ set self.old.divisors.now j x.n }
        ensures totals { self.new.totals.now ≡ set self.old.totals.now j x.total }
    {
        self.lengths[j] = x.len;
        if j < self.divisors.len() {
            self.divisors[j] = x.n;
        }
        self.totals[j] = x.total;
    }
}
