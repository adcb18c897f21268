// The two sides of the tube. What holds along its floor holds of its roof, turned over.

ghost use Rattle.std.specs.Prelude.{◌≡◌, Bool, true, false, cond, ◌-ℤ◌, ◌+ℤ◌};
ghost use Rattle.integers.specs.Bounds.{Upto};
ghost use Rattle.taut.specs.Slopes.{Small, under_of};

use super::slopes;
use super::slopes::Knot;

pub(crate) trait Side {
    ghost low: { Bool };

    // Whether the level a is under b, seen from this side.
    fn under(a: Knot, b: Knot) -> bool
        requires a_small { Small a }
        requires b_small { Small b }
        ensures { result ≡ under_of low a b };

    // The height z moved by w from the middle of the tube to this side.
    fn shift(z: i64, w: i64) -> i64
        requires z_upto { Upto 3298534883328 z }
        requires w_upto { Upto 1099511627776 w }
        ensures { result ≡ cond low (z -ℤ w) (z +ℤ w) };

    // The near bound and the far one as the low bound and the high one.
    fn bounds(near: Knot, far: Knot) -> (Knot, Knot)
        ensures { result ≡ (cond low near far, cond low far near) };
}

pub(crate) struct Floor;

pub(crate) struct Roof;

impl Side for Floor {
    ghost low = { true };

    fn under(a: Knot, b: Knot) -> bool {
        slopes::below(a, b)
    }

    fn shift(z: i64, w: i64) -> i64 {
        z - w
    }

    fn bounds(near: Knot, far: Knot) -> (Knot, Knot) {
        (near, far)
    }
}

impl Side for Roof {
    ghost low = { false };

    fn under(a: Knot, b: Knot) -> bool {
        slopes::below(b, a)
    }

    fn shift(z: i64, w: i64) -> i64 {
        z + w
    }

    fn bounds(near: Knot, far: Knot) -> (Knot, Knot) {
        (far, near)
    }
}
