use crate::written::{Next, Written};

/// `always @(posedge clk) if (rst) reset <= zero; else update <= next;`
#[derive(Drop)]
pub struct Always<'a> {
    pub reset: &'a [u8],
    pub zero: &'a [u8],
    pub update: &'a [u8],
    pub next: Next<'a>,
}

/// A statement as it is written. `Header` holds the module's name and the list of its ports; `Reg` the last bit of the
/// register's range, where it has one, and its name.
#[derive(Drop)]
pub enum Form<'a> {
    Header(&'a [u8], Vec<&'a [u8]>),
    Input(&'a [u8]),
    Output(&'a [u8]),
    Wire(&'a [u8]),
    Reg(Option<&'a [u8]>, &'a [u8]),
    Assign(&'a [u8], Written<'a>),
    Always(Box<Always<'a>>),
    End,
}

/// A statement and the line of its first word, from 1.
#[derive(Drop)]
pub struct Statement<'a> {
    pub form: Form<'a>,
    pub line: u32,
}
