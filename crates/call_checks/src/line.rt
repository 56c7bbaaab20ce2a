//! The lines of a script, outside its files.

/// A line outside a file.
#[derive(Clone, Copy)]
pub enum Line<'a> {
    /// Nothing, or a comment.
    Comment,
    /// A file begins, and goes on to the next line of one dot.
    File(&'a str),
    /// The same, of a file without the newline at its end.
    Cut(&'a str),
    /// A call of these words.
    Call(&'a str),
    /// A call of these words, whose text goes to this file.
    Filling(&'a str, &'a str),
    /// A line that a call answers.
    Answer(&'a str),
}

impl<'a> Line<'a> {
    /// What a line is.
    pub fn read(line: &'a str) -> Line<'a> {
        if line.is_empty() || line.starts_with("# ") {
            return Line::Comment;
        }
        if let Some(name) = line.strip_prefix("file ") {
            return Line::File(name);
        }
        if let Some(name) = line.strip_prefix("cut ") {
            return Line::Cut(name);
        }
        match line.strip_prefix("$ ") {
            Some(words) => match words.split_once(" > ") {
                Some((words, name)) => Line::Filling(words, name),
                None => Line::Call(words),
            },
            None => Line::Answer(line),
        }
    }
}
