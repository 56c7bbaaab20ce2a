use std::fmt;

/// Why a text is no list of trees. Each holds the number of a line, from 1: `Syntax` of a line that is not the form that
/// its place allows, or of the text's end; `Range` of an input of place 64 or more, of a bound beyond 100,000,000 on
/// either side, or of a number in a chain that is 65,536 or more; `Long` of a chain of more than 64 numbers, or of fact
/// 4,097 of a leaf; `Count` of item 1,000,001 of a tree, of tree 65, or of a tree's name that no output may have or that
/// an earlier tree has.
#[derive(Clone, Copy, Debug, PartialEq, Eq)]
pub enum TreeError {
    Syntax(u32),
    Range(u32),
    Long(u32),
    Count(u32),
    NoMemory,
}

impl fmt::Display for TreeError {
    fn fmt<W: fmt::Write>(&self, f: &mut fmt::Formatter<W>) -> fmt::Result {
        match self {
            TreeError::Syntax(line) => write!(f, "line {line}: bad syntax"),
            TreeError::Range(line) => write!(f, "line {line}: a number is too great"),
            TreeError::Long(line) => write!(f, "line {line}: too many numbers or facts"),
            TreeError::Count(line) => {
                write!(f, "line {line}: too many items or trees, or a bad name")
            }
            TreeError::NoMemory => write!(f, "out of memory"),
        }
    }
}
