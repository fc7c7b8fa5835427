// The largest size of the deadlocks that are listed.
ghost use Rattle.std.specs.Prelude.{◌≤◌};
ghost use Rattle.model.specs.Pattern.{largest_pattern};

use model::Question;

// How many events the listed deadlocks have at most: 2 to 16.
#[derive(Clone, Copy, Debug, PartialEq, Eq)]
pub struct Size {
    pub events: usize,
    ghost permitted: { (2 ≤ events) × (events ≤ largest_pattern) },
}

impl TryFrom<u64> for Size {
    type Error = Question;

    ghost use Rattle.std.specs.Prelude.{◌≡◌};
    ghost use Rattle.listing.specs.Size.{asked_size, asked_of};

    ghost try_from_gives = { λ largest r. asked_of r ≡ asked_size largest };

    // The largest size that the argument asks for, 16 where it is 0: question 8.
    fn try_from(largest: u64) -> Result<Size, Question> {
        match largest {
            0 => Ok(Size { events: 16 }),
            2..=16 => Ok(Size {
                events: largest as usize,
            }),
            _ => Err(Question::LargestSize),
        }
    }
}
