//! Cutting bytes at a mark, and a line into its words.
ghost use Rattle.std.specs.Prelude.{◌≡◌, ◌==◌, ◌≤◌, ◌∷◌, [], MatchResult, length, bytes_eq};
ghost use Rattle.std.specs.List.{position_or_len, slice_split};
ghost use Rattle.firm_saved.specs.Lines.{pieces_behind, words_behind};
ghost use Rattle.firm_saved.specs.declared.faults.FaultKind.TheVariants as fault;

use crate::faults::FaultKind;

/// The bytes up to the first mark, and those from the mark on.
pub fn cut(bytes: &[u8], mark: u8) -> (&[u8], &[u8])
    ensures pieces { slice_split (λ byte. byte == mark) bytes.now
        ≡ result.0.now ∷ pieces_behind (λ byte. byte == mark) result.1.now }
    ensures within { length result.1.now ≤ length bytes.now }
{
    bytes.split_at(length_to(bytes, mark))
}

fn length_to(bytes: &[u8], mark: u8) -> usize
    ensures place { result ≡ position_or_len (λ byte. byte == mark) bytes.now }
    ensures within { result ≤ length bytes.now }
{
    bytes.iter().take_while(|byte| **byte != mark).count()
}

/// The next word of a rest that begins with a space, and the rest after it. The error says that the rest is empty.
pub fn next_word(behind: &[u8]) -> Result<(&[u8], &[u8]), FaultKind>
    ensures { MatchResult result (λ cut. words_behind behind.now ≡ cut.0.now ∷ words_behind cut.1.now)
        (λ kind. (kind ≡ fault.Row) × (words_behind behind.now ≡ [])) }
{
    match behind {
        [] => Err(FaultKind::Row),
        [_, line @ ..] => Ok(cut(line, b' ')),
    }
}

/// Whether a word is this text.
pub fn is_word(word: &[u8], text: &str) -> bool
    ensures { result ≡ bytes_eq word.now text.now }
{
    word == text.as_bytes()
}
