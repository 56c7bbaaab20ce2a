use causality::RowFault;

/// Why a command's files are refused. A fault of one file's text begins with the number of the file among the files of
/// the command, from 1.
#[derive(Clone, Copy, Debug, PartialEq, Eq)]
pub enum Fault {
    /// The text of this file is no network: the rule that it breaks first, and the line, from 1 (E10 to E15).
    Network(u8, net_lang::Rule, u32),
    /// The text of this file is no table: the rule that it breaks first, and the line, from 1 (E30, E31).
    Table(u8, func_table::Rule, u32),
    /// The rows of this file's table are not sound (E32 to E35).
    Rows(u8, RowFault),
    /// The text of this file is no module: the rule that it breaks first, and the line, from 1 (E70 to E74).
    Module(u8, verilog_text::Rule, u32),
    /// The text of this file is no list of trees: the rule that it breaks first, and the line, from 1 (E60 to E63).
    Trees(u8, refutation::Rule, u32),
    /// The names of the networks' inputs differ first at this place, from 1 (E50).
    InputNames(u64),
    /// The names of the networks' outputs differ first at this place, from 1 (E50).
    OutputNames(u64),
    /// The trees are not those of the networks' outputs, in their order (E53).
    TreeNames,
    /// The terms of a network need so many register bits, more than 65,536 (E20).
    TooManyBits(u64),
    /// There are so many inputs, and the number of times is another (E51).
    Inputs(u64),
    /// No output has the requested name (E52).
    NoOutput,
    /// A window up to this number has more than 65,536 lists of times (E40).
    TooWide(u32),
    /// The value at some list of the window is this number, which is more than 255 (E42).
    TooLate(u64),
    /// The window has more than 256 different rows (E41).
    TooManyRows,
}
