// The word that says whether a packet's integrity holds: `yes` or `no`.
ghost use Rattle.std.specs.Prelude.{◌≡◌};
ghost use Rattle.bench_words.specs.Integrity.{integrity_of};

use wire_read::equal;

// By `equal`, since a match on byte strings has nine ways out, each with a proof of its own.
pub fn read(word: &[u8]) -> Option<bool>
    ensures { result ≡ integrity_of word.now }
{
    if equal(word, b"yes") {
        Some(true)
    } else if equal(word, b"no") {
        Some(false)
    } else {
        None
    }
}
