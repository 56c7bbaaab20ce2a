/// Which statements may come next: the header; a declaration, or what follows; an assign or always statement, or the
/// end; or none.
#[derive(Clone, Copy, Debug, PartialEq, Eq)]
pub enum Stage {
    Start,
    Declarations,
    Actions,
    Finished,
}
