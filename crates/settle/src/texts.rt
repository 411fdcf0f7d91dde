// Text files as numbered lines of words.
use std::alloc::{AllocError, Global};

// A line that is not passed over: its number, from 1, and its words.
#[derive(Drop)]
pub(crate) struct Line<'a> {
    pub(crate) number: usize,
    pub(crate) words: Vec<&'a str>,
}

// Whether a line has no words, or is a note: then they are not collected.
fn is_passed_over(line: &str) -> bool {
    let rest = line.trim_start();
    rest.is_empty() || rest.starts_with('#')
}

// The lines with words, but for notes, which begin with `#`.
pub(crate) fn lines_of<'a>(heap: Global, text: &'a str) -> Result<Vec<Line<'a>>, AllocError> {
    let mut lines = Vec::new(heap);
    for (before, line) in text.lines().enumerate() {
        if !is_passed_over(line) {
            lines.push(Line {
                number: before.saturating_add(1),
                words: line.split_whitespace().collect(heap)?,
            })?;
        }
    }
    Ok(lines)
}
