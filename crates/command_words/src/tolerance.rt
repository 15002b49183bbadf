// How far a law may be off.
ghost use Rattle.std.specs.Prelude.{◌≤◌, ◌<◌, ◌≡◌, IfNone, IfSome};
ghost use Rattle.command_words.specs.Tolerances.{default_tolerance, most_tolerance};

/// How far the law of a pipe or a resistor may be off, in Pa^2: at most 10^16.
#[derive(Clone, Copy, Debug)]
pub struct Tolerance {
    value: u64,
    ghost limit: { value ≤ most_tolerance },
}

// Where nothing is said, in Pa^2.
const DEFAULT: u64 = 100_000_000;

// At most, in Pa^2.
const MOST: u64 = 10_000_000_000_000_000;

impl Tolerance {
    /// Where nothing is said: 10^8 Pa^2.
    pub fn usual() -> Tolerance
        ensures { result.value ≡ default_tolerance }
    {
        Tolerance { value: DEFAULT }
    }

    /// So many Pa^2, if they aren't too many.
    pub fn of(value: u64) -> Option<Tolerance>
        ensures some { IfSome result (λ tol. (tol.value ≡ value) × (value ≤ most_tolerance)) }
        ensures none { IfNone result (most_tolerance < value) }
    {
        if value <= MOST {
            Some(Tolerance { value })
        } else {
            None
        }
    }

    /// In Pa^2.
    pub fn get(self) -> u64
        ensures value { result ≡ self.value }
        ensures limit { result ≤ most_tolerance }
    {
        self.value
    }
}
