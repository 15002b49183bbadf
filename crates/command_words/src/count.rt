// How many nodes a made problem has.
ghost use Rattle.std.specs.Prelude.{◌≡◌, true, option_map};
ghost use Rattle.make_net.specs.Answer.{is_count};
ghost use Rattle.command_words.specs.Counts.{count_of};

use make_net::is_count;

/// How many nodes a made problem has: 1 to 2,000.
#[derive(Clone, Copy, Debug)]
pub struct Count {
    value: u32,
    ghost limit: { is_count value ≡ true },
}

impl Count {
    /// One node.
    pub fn one() -> Count
        ensures { result.value ≡ 1 }
    {
        Count { value: 1 }
    }

    /// So many, if there is a made problem of so many nodes.
    pub fn of(value: u64) -> Option<Count>
        ensures { option_map (λ count. count.value) result ≡ count_of value }
    {
        match u32::try_from(value) {
            Ok(value) if is_count(value) => Some(Count { value }),
            _ => None,
        }
    }

    /// The number.
    pub fn get(self) -> u32
        ensures value { result ≡ self.value }
        ensures limit { is_count result ≡ true }
    {
        self.value
    }
}
