// The law of a resistance within a tolerance.
ghost use Rattle.std.specs.Prelude.{◌≡◌, IsTrue};
ghost use Rattle.base_types.specs.Numbers.{is_flow, is_square};
ghost use Rattle.gas_model.specs.Laws.{is_pipe_within};
ghost use Rattle.gas_model.specs.Curves.{nears_resistance};

use crate::drops::{drop_high, drop_low};
use gas_model::PipeLaw;

// Whether the drop from `u` to `v` keeps the law of a resistance at the flow `q`, where it may be off by `tol`.
pub fn nears_resistance(law: &PipeLaw, tol: i128, q: i128, u: i128, v: i128) -> bool
    requires law { IsTrue (is_pipe_within law.now) }
    requires tol { IsTrue (is_square tol) }
    requires flow { IsTrue (is_flow q) }
    requires from { IsTrue (is_square u) }
    requires to { IsTrue (is_square v) }
    ensures { result ≡ nears_resistance law.now tol q u v }
{
    let den = law.drag.den as i128;
    let drop = u - v;
    drop_low(&law.drag, q) <= den * (drop + tol) && den * (drop - tol) <= drop_high(&law.drag, q)
}
