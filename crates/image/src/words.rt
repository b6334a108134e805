//! Little-endian words in a slice of bytes.
ghost use Rattle.std.specs.Prelude.{◌≡◌, ◌+◌, ◌*◌, ◌≤◌, length};
ghost use Rattle.image.specs.Limits.{word_length};
ghost use Rattle.image.specs.Words.{word};

use crate::limits::WORD;

// The word at a place, counted in words. Its bytes are there, so they are copied: as a conversion from a slice, which can fail,
// they would come with an error to rule out.
pub(crate) fn word_at(bytes: &[u8], place: usize) -> u32
    requires { word_length * place + word_length ≤ length bytes.now }
    ensures { result ≡ word bytes.now (word_length * place) }
{
    let at = WORD * place;
    let mut four = [0; WORD];
    four.copy_from_slice(&bytes[at..at + WORD]);
    u32::from_le_bytes(four)
}
