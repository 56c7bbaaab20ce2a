/// An expression whose names and numbers are the text's.
#[derive(Drop)]
pub enum Written<'a> {
    Never,
    Name(&'a [u8]),
    Min(Box<Written<'a>>, Box<Written<'a>>),
    Max(Box<Written<'a>>, Box<Written<'a>>),
    Lt(Box<Written<'a>>, Box<Written<'a>>),
    Inc(Box<Written<'a>>, &'a [u8]),
}
