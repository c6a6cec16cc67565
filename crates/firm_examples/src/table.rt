use firm_table::{ServeFault, serve_one};
use firm_text::{Bytes, Roster};
use std::alloc::Global;

/// The output of the service for an input of at most a megabyte.
pub fn replies(alloc: Global, roster: &Roster, input: &[u8]) -> Result<Vec<u8>, ServeFault> {
    let mut reader = Bytes::new(input);
    let mut writer = Bytes::new(Vec::new(alloc));
    serve_one(alloc, &mut reader, &mut writer, roster, 1_000_000)?;
    Ok(writer.into_inner())
}
