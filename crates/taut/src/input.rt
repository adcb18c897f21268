// What a line is drawn of.

ghost use Rattle.taut.specs.Input.{frame, Ok};

// The samples with their weights (1 where that list ends), the smoothing, and the duals before the first minute and after the last.
#[derive(Clone, Copy)]
pub struct Input<'a> {
    pub samples: &'a [i32],
    pub weights: &'a [u8],
    pub smoothing: u64,
    pub a: i64,
    pub b: i64,
    ghost ok: { Ok samples.now weights.now (frame smoothing a b) },
}
