ghost use Rattle.std.specs.Prelude.{◌≡◌, ◌≤◌, ◌<◌, ◌==◌, length, position, take_while, IfSome};
ghost use Rattle.job_schedule.specs.Schedule as schedule;

/// Whether the byte stands between words.
pub fn is_white(byte: u8) -> bool
    ensures { result ≡ schedule.is_white byte }
{
    matches!(byte, b' ' | b'\t' | b'\r' | b'\n')
}

/// The bytes of the word that the text begins with.
pub fn first_word(text: &[u8]) -> &[u8]
    ensures { result.now ≡ take_while schedule.in_word text.now }
{
    for (at, byte) in text.iter().enumerate() {
        if is_white(*byte) {
            return &text[..at];
        }
    }
    text
}

/// The place of the first such byte.
pub fn place_of(byte: u8, text: &[u8]) -> Option<usize>
    ensures place { result ≡ position (λ b. b == byte) text.now }
    ensures within { IfSome result (λ at. at < length text.now) }
{
    text.iter().position(|b| *b == byte)
}
