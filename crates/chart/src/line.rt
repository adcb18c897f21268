// A line that passes the shape check, and what is drawn of it.

ghost use Rattle.std.specs.Prelude.{◌≡◌, ◌<◌, ◌≤◌, ◌-◌, length, take, IfOk};
ghost use Rattle.level.specs.Answer.{answer_of, tested, given};
ghost use Rattle.level.specs.Limits.{Valid};
ghost use Rattle.level.specs.Plot.{nearest_to};
ghost use Rattle.series.specs.Answer.{refill};
ghost use Rattle.checker.specs.Check.{shape_of};
ghost use Rattle.chart.specs.Chart.{marked, segment_at, step, mark_in, mark_at, or_13};
ghost use Rattle.chart.specs.Drawable.{sum, nth, level_before, Drawable, Drawable-prop};
ghost use Rattle.chart.specs.Whole.{parts};

use super::{ChartSegment, Mark};
use level::{Level, Refusal};
use std::cmp::Ordering;

#[derive(Clone, Copy)]
pub struct Line<'a> {
    pub lengths: &'a [u32],
    pub totals: &'a [i64],
    pub ghost drawable: { Drawable lengths.now totals.now } by { Drawable-prop lengths.now totals.now },
}

impl<'a> Line<'a> {
    // 1, 2, 6, 7 and 8 for a line of n minutes, or the line.
    pub(crate) fn new(n: usize, lengths: &'a [u32], totals: &'a [i64]) -> Result<Line<'a>, Refusal>
        ensures answer { tested result ≡ shape_of n lengths.now totals.now }
        ensures lengths { IfOk result (λ l. l.lengths.now ≡ lengths.now) }
        ensures totals { IfOk result (λ l. l.totals.now ≡ totals.now) }
    {
        checker::shape(n, lengths, totals)?;
        Ok(Line { lengths, totals })
    }

    // The segment number `index`, counted from 1, or 13.
    pub(crate) fn segment(self, index: usize) -> Result<ChartSegment, Refusal>
        ensures { answer_of result ≡ or_13 (segment_at 0 self.entry.lengths.now self.entry.totals.now index) }
    {
        if index == 0 || index > self.lengths.len() {
            return Err(Refusal::NotInLine);
        }
        let k = index - 1;
        let before = self.minutes(k);
        let a = self.level(k);
        Ok(ChartSegment {
            first: before + 1,
            last: before + a.length,
            level: plotted(a),
        })
    }

    // The mark of a minute, or 13. One pass over the lengths: the minute sought comes i minutes after the start of segment k, counted from 0.
    pub(crate) fn mark(self, minute: usize) -> Mark
        ensures { marked result ≡ or_13 (mark_at self.entry.lengths.now self.entry.totals.now minute) }
    {
        if minute == 0 {
            return Mark::Refused(Refusal::NotInLine);
        }
        let mut i = minute - 1;
        for k in 0..self.lengths.len() {
            let length = self.lengths[k] as usize;
            if i < length {
                return self.mark_in(k, i);
            }
            i -= length;
        }
        Mark::Refused(Refusal::NotInLine)
    }

    // All segments. One pass over the lengths.
    pub(crate) fn fill(self, firsts: &mut [u32], lasts: &mut [u32], levels: &mut [f64])
        requires firsts_room { length self.lengths.now ≤ length firsts.old }
        requires lasts_room { length self.lengths.now ≤ length lasts.old }
        requires levels_room { length self.lengths.now ≤ length levels.old }
        ensures firsts { firsts.new ≡ refill (parts (λ s. s.first) self.entry.lengths.now self.entry.totals.now) firsts.old }
        ensures lasts { lasts.new ≡ refill (parts (λ s. s.last) self.entry.lengths.now self.entry.totals.now) lasts.old }
        ensures levels { levels.new ≡ refill (parts (λ s. s.level) self.entry.lengths.now self.entry.totals.now) levels.old }
    {
        let mut before = 0;
        for k in 0..self.lengths.len() {
            let a = self.level(k);
            firsts[k] = before + 1;
            before += a.length;
            lasts[k] = before;
            levels[k] = plotted(a);
        }
    }

    // The mark i minutes after the start of segment k, counted from 0: a step at its first minute, where a level comes before it.
    fn mark_in(self, k: usize, i: usize) -> Mark
        requires { k < length self.lengths.now }
        ensures { marked result ≡ given (mark_in (level_before self.entry.lengths.now self.entry.totals.now k)
            (nth self.entry.lengths.now self.entry.totals.now k) i) }
    {
        let b = self.level(k);
        if i == 0 && k > 0 {
            return step(self.level(k - 1), b);
        }
        Mark::Level(plotted(b))
    }

    // The minutes of the first k segments.
    fn minutes(self, k: usize) -> u32
        requires { k ≤ length self.lengths.now }
        ensures { result ≡ sum (take k self.entry.lengths.now) }
    {
        let mut n = 0;
        for &length in &self.lengths[..k] {
            n += length;
        }
        n
    }

    // The level of segment k.
    fn level(self, k: usize) -> Level
        requires { k < length self.lengths.now }
        ensures { result ≡ nth self.entry.lengths.now self.entry.totals.now k }
    {
        Level {
            length: self.lengths[k],
            total: self.totals[k],
        }
    }
}

// The step from a to b. Its kind follows the exact levels.
fn step(a: Level, b: Level) -> Mark
    requires a_valid { Valid a }
    requires b_valid { Valid b }
    ensures { marked result ≡ given (step a b) }
{
    if a.compare(b) == Ok(Ordering::Less) {
        return Mark::Rise(plotted(a), plotted(b));
    }
    Mark::Fall(plotted(a), plotted(b))
}

fn plotted(a: Level) -> f64
    requires { Valid a }
    ensures { result ≡ nearest_to a }
{
    a.plot().unwrap_or(0.0)
}
