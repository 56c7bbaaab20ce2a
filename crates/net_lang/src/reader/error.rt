use std::fmt;

/// Why a text is no network. Each holds the number of a line, from 1: `Syntax` of a line that is not the form that
/// its place allows, or of the text's end; `Name` of a name that may not be declared; `Doubled` of a name that is
/// declared already; `Unknown` of a name that is no input and no earlier let; `Count` of too many inputs, outputs or
/// operators; `Span` of an expression whose span is over 1,000,000 cycles.
#[derive(Clone, Copy, Debug, PartialEq, Eq)]
pub enum NetError {
    Syntax(u32),
    Name(u32),
    Span(u32),
    Doubled(u32),
    Unknown(u32),
    Count(u32),
    NoMemory,
}

impl fmt::Display for NetError {
    fn fmt<W: fmt::Write>(&self, f: &mut fmt::Formatter<W>) -> fmt::Result {
        match self {
            NetError::Syntax(line) => write!(f, "line {line}: bad syntax"),
            NetError::Name(line) => write!(f, "line {line}: a name that may not be declared"),
            NetError::Span(line) => write!(f, "line {line}: a span over 1,000,000 cycles"),
            NetError::Doubled(line) => write!(f, "line {line}: a name that is declared already"),
            NetError::Unknown(line) => write!(f, "line {line}: an unknown name"),
            NetError::Count(line) => write!(
                f,
                "line {line}: too many inputs, outputs or operators"
            ),
            NetError::NoMemory => write!(f, "out of memory"),
        }
    }
}
