//! A sink that keeps nothing.

ghost use Rattle.std.specs.Prelude.{false};

use firm_text::{Failed, Sink};

/// Takes replies, and forgets them. No write to it fails.
#[derive(Drop)]
pub(crate) struct Discard;

impl Sink for Discard {
    ghost write_failed = { λ _. false };

    fn write(&mut self, bytes: &[u8]) -> Result<usize, Failed> {
        Ok(bytes.len())
    }

    fn flush(&mut self) -> Result<(), Failed> {
        Ok(())
    }
}
