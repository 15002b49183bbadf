// Values between two ends.
ghost use Rattle.std.specs.Prelude.{◌≡◌};
ghost use Rattle.probe_point.specs.Probes.{nearest};

use gas_model::Ends;

/// The value between the ends that is nearest to `x`.
pub fn nearest(ends: Ends, x: i128) -> i128
    ensures { result ≡ nearest ends x }
{
    if x < ends.lo {
        ends.lo
    } else if ends.hi < x {
        ends.hi
    } else {
        x
    }
}
