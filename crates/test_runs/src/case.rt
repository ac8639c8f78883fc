//! Paragraphs of the input.

/// A paragraph of the input.
#[derive(Clone, Copy)]
pub struct Case<'a> {
    pub name: &'a str,
    /// Entries of a log, one a line.
    pub entries: &'a str,
    /// The paths of the files to print, with a space between two.
    pub paths: &'a str,
}

impl<'a> Case<'a> {
    /// The parts of a paragraph.
    pub fn new(paragraph: &'a str) -> Case<'a> {
        let (name, lines) = paragraph.split_once('\n').unwrap_or((paragraph, ""));
        let (entries, paths) = lines.split_once("print ").unwrap_or((lines, ""));
        Case {
            name,
            entries,
            paths,
        }
    }

    /// Whether the file of this path is to be printed.
    pub fn prints(&self, path: &str) -> bool {
        self.paths.split(' ').any(|wanted| wanted == path)
    }
}
