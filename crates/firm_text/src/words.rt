//! Cutting a line into words.

ghost use Rattle.std.specs.Prelude.{◌≡◌, ◌≢◌, ◌≤◌, ◌∷◌, [], ℕ, List, length, MatchOption};
ghost use Rattle.std.specs.List.{position_or_len, prefix_len};
ghost use Rattle.firm_text.specs.Lines.{words, is_blank};

/// The first word of a line, and the bytes that follow. None only where the line has no word.
pub fn next_word(line: &[u8]) -> Option<(&[u8], &[u8])>
    ensures { MatchOption result (words line.now ≡ [])
        (λ cut. words line.now ≡ cut.0.now ∷ words cut.1.now) }
{
    let (_, line) = line.split_at(length_of_blanks(line));
    if line.is_empty() {
        return None;
    }
    Some(line.split_at(length_to_blank(line)))
}

/// The word of a line that has one.
pub fn only_word(line: &[u8]) -> Option<&[u8]>
    ensures { MatchOption result ((a : List ℕ) → words line.now ≢ a ∷ []) (λ word. words line.now ≡ word.now ∷ []) }
{
    let (word, rest) = next_word(line)?;
    match next_word(rest) {
        None => Some(word),
        Some(_) => None,
    }
}

fn length_to_blank(line: &[u8]) -> usize
    ensures place { result ≡ position_or_len is_blank line.now }
    ensures within { result ≤ length line.now }
{
    line.iter()
        .take_while(|byte| !is_blank_byte(**byte))
        .count()
}

fn length_of_blanks(line: &[u8]) -> usize
    ensures place { result ≡ prefix_len is_blank line.now }
    ensures within { result ≤ length line.now }
{
    line.iter().take_while(|byte| is_blank_byte(**byte)).count()
}

fn is_blank_byte(byte: u8) -> bool
    ensures { result ≡ is_blank byte }
{
    byte == b' ' || byte == b'\t'
}
