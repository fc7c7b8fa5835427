// The archive for C: each export is the entry of hidzvoma that has its name.
#![tactic(auto)]

ghost use Rattle.std.specs.Prelude.{◌≡◌, length};
ghost use Rattle.model.specs.Calls.List.{list_out};
ghost use Rattle.model.specs.Calls.Entries.{list_entry, verdict_entry};

// The listing, with the size as it is given: the bytes written, which are even in number, or a refusal.
#[unsafe(no_mangle)]
pub extern "C" fn hidzvoma_list(recording: &[u8], largest: u64, out: &mut [u8]) -> u64
    ensures number { result ≡ list_entry recording.now largest (length out.old) }
    ensures output { out.new ≡ list_out recording.now largest out.old }
{
    hidzvoma::hidzvoma_list(recording, largest, out)
}

// The verdict of a lent pattern: 2 for deadlock, 0 for not, or a refusal.
#[unsafe(no_mangle)]
pub extern "C" fn hidzvoma_verdict(recording: &[u8], pattern: &[u8]) -> u64
    ensures { result ≡ verdict_entry recording.now pattern.now }
{
    hidzvoma::hidzvoma_verdict(recording, pattern)
}
