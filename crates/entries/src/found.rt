// What a search has found so far.
ghost use Rattle.std.specs.Prelude.{◌≤◌, ◌≡◌};

use model::Entries;

// What a search has found: patterns and the bytes of their entries, of which there is room for some.
#[derive(Clone, Copy, Debug, PartialEq, Eq)]
pub struct Found {
    pub patterns: usize,
    pub bytes: usize,
    pub room: usize,
    ghost roomy: { (patterns ≤ bytes) × (bytes ≤ room) },
}

impl Found {
    // Nothing is found at first.
    pub fn none(room: usize) -> Found
        ensures { (result.patterns ≡ 0) × (result.bytes ≡ 0) × (result.room ≡ room) }
    {
        Found {
            patterns: 0,
            bytes: 0,
            room,
        }
    }
}

impl From<Found> for Entries {
    ghost use Rattle.std.specs.Prelude.{◌≡◌};

    ghost from_gives = { λ f r. (r.patterns ≡ f.patterns) × (r.bytes ≡ f.bytes) };

    // What a listing answers of what was found.
    fn from(found: Found) -> Entries {
        Entries {
            patterns: found.patterns as u64,
            bytes: found.bytes as u64,
        }
    }
}
