//! Sums over the supports of a ball.
ghost use Rattle.std.specs.Prelude.{◌≤ℤ◌, pos};
ghost use Rattle.bounds_model.specs.BallAnswer.{weight_sum};
ghost use Rattle.kernel_laws.specs.Limits.{ball_limit};
ghost use Rattle.ball_sums.specs.Sums.{AreSums};
ghost use Rattle.min_ball.specs.Balls.{coordinates, listed};

use ball_sums::Sums;
use corral::Support;
use kernel_laws::Kernel;

/// The sums over all supports, as seen from the first.
pub(crate) fn sums_over<K: Kernel>(kernel: &K, support: &Support<'_, K>) -> Sums
    requires { weight_sum (listed support.now) ≤ℤ pos (ball_limit K.DIM) }
    ensures { AreSums K.DIM (coordinates K.place support.now) (listed support.now) result }
{
    let first = support.first(0);
    let mut sums = Sums::none();
    'add: for i in 0..support.len() {
        let to = kernel.diff(first, support.first(i));
        sums = sums.with(kernel, support.weight(i), to);
    }
    sums
}
