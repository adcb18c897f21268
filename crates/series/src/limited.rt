// A series within the limits.

ghost use Rattle.std.specs.Prelude.{◌≡◌, IfOk};
ghost use Rattle.optimality.specs.Series.{Limited};
ghost use Rattle.level.specs.Answer.{tested, given};
ghost use Rattle.series.specs.Limits.{in_limits};
ghost use Rattle.series.specs.LimitedProp.{Limited-prop};

use super::limits;
use level::Refusal;

// A series and its smoothing, within the limits: what it takes to draw a line without a test.
#[derive(Clone, Copy)]
pub struct Series<'a> {
    pub samples: &'a [i32],
    pub smoothing: u64,
    pub ghost limited: { Limited samples.now smoothing } by { Limited-prop samples.now smoothing },
}

impl<'a> Series<'a> {
    // 1, 2, 4 and 3, or the series.
    pub fn new(samples: &'a [i32], smoothing: u64) -> Result<Series<'a>, Refusal>
        ensures answer { tested result ≡ in_limits samples.now smoothing (given tt) }
        ensures samples { IfOk result (λ s. s.samples.now ≡ samples.now) }
        ensures smoothing { IfOk result (λ s. s.smoothing ≡ smoothing) }
    {
        limits(samples, smoothing)?;
        Ok(Series { samples, smoothing })
    }
}
