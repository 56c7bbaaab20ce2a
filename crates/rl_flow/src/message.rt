//! The line on standard error.
ghost use Rattle.std.specs.Prelude.{◌≡◌, ◌≤◌, ◌+◌, ◌++◌, length, codes};
ghost use Rattle.rl_flow.specs.Message.{begin, numbered, at_line, rule_text, table_rule_text, tree_rule_text, module_rule_text, row_fault_text, fault_text, message_of, line_of};

use crate::refusal::Refusal;
use arrayvec::ArrayString;
use causality::RowFault;
use itoa::Buffer;
use rl_jobs::Fault;
use std::fmt;
use std::marker::Model;

/// A text of at most 96 bytes, seen as their list.
#[derive(Drop)]
pub struct ErrorLine {
    text: ArrayString<96>,
}

impl Model for ErrorLine {
    ghost use Rattle.std.specs.Prelude.{List, ℕ};

    ghost Value = { List ℕ };

    ghost view = { λ m. m.text.bytes };
}

impl ErrorLine {
    /// The program's name, and this text.
    fn new(text: &str) -> ErrorLine
        requires short { length text.now ≤ 11 }
        ensures text { result ≡ begin text.now }
        ensures short { length result ≤ 20 }
    {
        let mut message = ArrayString::new();
        message.push_str("racelog: ");
        message.push_str(text);
        ErrorLine { text: message }
    }

    /// The same, with a label and a number at the end.
    fn with(self, label: &str, number: u64) -> ErrorLine
        requires room { length self + length label.now ≤ 75 }
        ensures text { result ≡ numbered self label.now number }
        ensures short { length result ≤ length self + length label.now + 20 }
    {
        let mut text = self.text;
        let mut buffer = Buffer::new();
        text.push_str(label);
        text.push_str(buffer.format(number));
        ErrorLine { text }
    }

    /// The bytes of the text.
    pub fn as_bytes(&self) -> &[u8]
        ensures { result.now ≡ self.now }
    {
        self.text.as_str().as_bytes()
    }
}

fn rule_text(rule: net_lang::Rule) -> &'static str
    ensures text { result.now ≡ rule_text rule }
    ensures short { length result.now ≤ 3 }
{
    match rule {
        net_lang::Rule::Syntax => "E10",
        net_lang::Rule::Name => "E11",
        net_lang::Rule::Span => "E12",
        net_lang::Rule::Doubled => "E13",
        net_lang::Rule::Unknown => "E14",
        net_lang::Rule::Count => "E15",
    }
}

fn table_rule_text(rule: func_table::Rule) -> &'static str
    ensures text { result.now ≡ table_rule_text rule }
    ensures short { length result.now ≤ 3 }
{
    match rule {
        func_table::Rule::Syntax => "E30",
        func_table::Rule::Count => "E31",
    }
}

fn tree_rule_text(rule: refutation::Rule) -> &'static str
    ensures text { result.now ≡ tree_rule_text rule }
    ensures short { length result.now ≤ 3 }
{
    match rule {
        refutation::Rule::Syntax => "E60",
        refutation::Rule::Range => "E61",
        refutation::Rule::Long => "E62",
        refutation::Rule::Count => "E63",
    }
}

fn module_rule_text(rule: verilog_text::Rule) -> &'static str
    ensures text { result.now ≡ module_rule_text rule }
    ensures short { length result.now ≤ 3 }
{
    match rule {
        verilog_text::Rule::Syntax => "E70",
        verilog_text::Rule::Name => "E71",
        verilog_text::Rule::Order => "E72",
        verilog_text::Rule::Width => "E73",
        verilog_text::Rule::Limit => "E74",
    }
}

/// The message for a rule that a file breaks at a line.
fn at_line(code: &str, file: u8, line: u32) -> ErrorLine
    requires { length code.now ≤ 3 }
    ensures text { result ≡ at_line code.now file line }
    ensures short { length result ≤ 75 }
{
    ErrorLine::new(code)
        .with(" file ", u64::from(file))
        .with(" line ", u64::from(line))
}

/// The message for rows that aren't sound.
fn row_fault_text(file: u8, fault: RowFault) -> ErrorLine
    ensures text { result ≡ row_fault_text file fault }
    ensures short { length result ≤ 95 }
{
    match fault {
        RowFault::NoZero(row) => ErrorLine::new("E32")
            .with(" file ", u64::from(file))
            .with(" row ", u64::from(row)),
        RowFault::Acausal(row, place) => ErrorLine::new("E33")
            .with(" file ", u64::from(file))
            .with(" row ", u64::from(row))
            .with(" place ", u64::from(place)),
        RowFault::Same(row, later) => ErrorLine::new("E34")
            .with(" file ", u64::from(file))
            .with(" rows ", u64::from(row))
            .with(" ", u64::from(later)),
        RowFault::Conflict(row, later) => ErrorLine::new("E35")
            .with(" file ", u64::from(file))
            .with(" rows ", u64::from(row))
            .with(" ", u64::from(later)),
    }
}

/// The message for what the files hold.
fn fault_text(fault: Fault) -> ErrorLine
    ensures text { result ≡ fault_text fault }
    ensures short { length result ≤ 95 }
{
    match fault {
        Fault::Network(file, rule, line) => at_line(rule_text(rule), file, line),
        Fault::Table(file, rule, line) => at_line(table_rule_text(rule), file, line),
        Fault::Rows(file, fault) => row_fault_text(file, fault),
        Fault::Module(file, rule, line) => at_line(module_rule_text(rule), file, line),
        Fault::Trees(file, rule, line) => at_line(tree_rule_text(rule), file, line),
        Fault::InputNames(place) => ErrorLine::new("E50").with(" input ", place),
        Fault::OutputNames(place) => ErrorLine::new("E50").with(" output ", place),
        Fault::TreeNames => ErrorLine::new("E53"),
        Fault::TooManyBits(bits) => ErrorLine::new("E20").with(" ", bits),
        Fault::TooWide(window) => ErrorLine::new("E40").with(" ", u64::from(window)),
        Fault::TooManyRows => ErrorLine::new("E41").with(" ", 256),
        Fault::TooLate(value) => ErrorLine::new("E42").with(" ", value),
        Fault::Inputs(count) => ErrorLine::new("E51").with(" ", count),
        Fault::NoOutput => ErrorLine::new("E52"),
    }
}

/// The message of a refusal, without taking memory.
fn message(refusal: Refusal) -> ErrorLine
    ensures text { result ≡ message_of refusal }
    ensures short { length result ≤ 95 }
{
    match refusal {
        Refusal::Words => ErrorLine::new("usage"),
        Refusal::TooLong(file, limit) => ErrorLine::new("E01")
            .with(" file ", u64::from(file))
            .with(" ", limit),
        Refusal::Refused(fault) => fault_text(fault),
        Refusal::ReadFault(file) => ErrorLine::new("read fault").with(" file ", u64::from(file)),
        Refusal::WriteFault => ErrorLine::new("write fault"),
        Refusal::NoMemory => ErrorLine::new("no memory"),
    }
}

/// The line of a refusal on standard error: its message and a newline. It takes no memory.
pub fn line(refusal: Refusal) -> ErrorLine
    ensures { result ≡ line_of refusal }
{
    let mut text = message(refusal).text;
    text.push_str("\n");
    ErrorLine { text }
}

impl fmt::Display for Refusal {
    ghost use Rattle.std.specs.Prelude.{Some};
    ghost use Rattle.rl_flow.specs.Message.{message_of};

    ghost output = { λ refusal. Some (message_of refusal) };

    fn fmt<W: fmt::Write>(&self, f: &mut fmt::Formatter<W>) -> fmt::Result {
        f.write_str(message(*self).text.as_str())
    }
}
