// How many boxes may be split.
ghost use Rattle.std.specs.Prelude.{◌≤◌, ◌≡◌, ℕ, IfSome, option_map};
ghost use Rattle.command_words.specs.Budgets.{budget_of, default_budget, most_budget};

/// How many boxes a search may split: 1 to 16,384.
#[derive(Clone, Copy, Debug)]
pub struct Budget {
    value: u64,
    ghost limit: { value ≤ most_budget },
}

// Where nothing is said.
const DEFAULT: u64 = 256;

// At most.
const MOST: u64 = 16_384;

impl Budget {
    /// Where nothing is said: 256.
    pub fn usual() -> Budget
        ensures { result.value ≡ default_budget }
    {
        Budget { value: DEFAULT }
    }

    /// So many, if they are one at least, and not too many.
    pub fn of(value: u64) -> Option<Budget>
        ensures { option_map (λ budget. budget.value) result ≡ budget_of value }
    {
        if 1 <= value && value <= MOST {
            Some(Budget { value })
        } else {
            None
        }
    }

    /// The number.
    pub fn get(self) -> u64
        ensures value { result ≡ self.value }
        ensures limit { result ≤ most_budget }
    {
        self.value
    }
}
