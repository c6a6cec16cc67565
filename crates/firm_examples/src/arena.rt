use firm_arena::{Arena, Refused};
use std::alloc::{AllocError, Global};

pub fn first_of_two(alloc: Global) -> Result<Option<u32>, AllocError> {
    let mut arena = Arena::new(alloc, 2)?;
    let Ok(first) = arena.put(10) else {
        return Ok(None);
    };
    let taken = arena.take(first);
    // `arena.get(first)` is `None` from here on, whatever is put later.
    Ok(taken)
}
