// The entries of a listing: each pattern that is found is counted, and written into the rest of the output
// where it fits there.
#![tactic(auto)]

mod found;

ghost use Rattle.std.specs.Prelude.{◌+◌, ◌*◌, ◌<◌, ◌≤◌, ◌≡◌, [], ◌∷◌, length};
ghost use Rattle.std.proofs.lemmas.List.Edits.{sets};
ghost use Rattle.model.specs.Bytes.{encode};
ghost use Rattle.model.specs.Pattern.{largest_pattern};
ghost use Rattle.entries.specs.Taken.{Adds};

pub use found::Found;

// Why a search ends early: the entries of what it has found take more than the room.
#[derive(Clone, Copy, Debug, PartialEq, Eq)]
pub struct Full;

// The entry of a pattern: its size, and then its events, two bytes each.
#[derive(Clone, Copy)]
struct Entry<'a> {
    events: &'a [u16],
    ghost sized: { length events.now ≤ largest_pattern },
}

impl<'a> Entry<'a> {
    // How many bytes it takes.
    fn bytes(&self) -> usize
        ensures { result ≡ 2 * length self.now.events.now + 2 }
    {
        2 * self.events.len() + 2
    }

    // Writes it at the front of the bytes.
    fn write(&self, out: &mut [u8])
        requires { 2 * length self.now.events.now + 2 ≤ length out.old }
        ensures { out.new ≡ sets out.old 0 (encode (length self.now.events.now ∷ self.now.events.now)) }
    {
        recording::put_number(out, 0, self.events.len() as u16);
        for (i, event) in self.events.iter().enumerate() {
            recording::put_number(out, 2 * i + 2, *event);
        }
    }

    // Writes it into the rest of the output, from a position on, where it fits there.
    fn write_rest(&self, out: &mut [u8], at: usize)
        requires { at + (2 * length self.now.events.now + 2) < 18446744073709551616 }
        ensures { at + (2 * length self.now.events.now + 2) ≤ length out.old → out.new
            ≡ sets out.old at (encode (length self.now.events.now ∷ self.now.events.now)) }
    {
        if out.len() < at + self.bytes() {
            return;
        }
        self.write(&mut out[at..]);
    }
}

// Takes a pattern: counts it and writes its entry, unless the entries then exceed the room.
pub fn take_pattern(out: &mut [u8], pattern: &[u16], found: Found) -> Result<Found, Full>
    requires { length pattern.now ≤ largest_pattern }
    ensures { Adds (pattern.now ∷ []) out.old out.new found result }
{
    let entry = Entry { events: pattern };
    let bytes = entry.bytes();
    if found.room - found.bytes < bytes {
        return Err(Full);
    }
    entry.write_rest(out, found.bytes);
    Ok(Found {
        patterns: found.patterns + 1,
        bytes: found.bytes + bytes,
        room: found.room,
    })
}
