use firm_text::{Cutter, Line};

/// The first line of an input; `None` if no line feed ends it.
pub fn first_line(input: &[u8]) -> Option<Line> {
    let mut cutter = Cutter::new();
    if cutter.feed(input).ended {
        return Some(cutter.take());
    }
    None
}
