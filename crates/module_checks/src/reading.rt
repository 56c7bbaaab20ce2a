ghost use Rattle.std.specs.Prelude.{◌≤◌, length};

use itoa::Buffer;
use std::alloc::Global;
use std::process::Abort;
use std::test::Fail;
use verilog_read::{VerilogError, read_module};
use verilog_text::print_module;

const PORTS: &[u8] = b"module race(clk, rst, in_a, in_b, out_y);
  input clk;
  input rst;
  input in_a;
  input in_b;
  output out_y;
";

const BODY: &[u8] = b"  wire w0;
  reg d0;
  reg [2:0] d1;
  assign w0 = in_a & ~d0;
  assign out_y = w0 | d1[2];
  always @(posedge clk) if (rst) d0 <= 1'b0; else d0 <= in_b;
  always @(posedge clk) if (rst) d1 <= 3'b0; else d1 <= {d1[1:0], in_a};
endmodule
";

const FIRST_OF_TWO: &str = "\
module race(clk, rst, in_a, in_b, out_y);
  input clk;
  input rst;
  input in_a;
  input in_b;
  output out_y;
  wire w0;
  assign w0 = in_a | in_b;
  assign out_y = w0;
endmodule
";

const COPY: &str = "\
module race(clk, rst, in_a, out_y);
  input clk;
  input rst;
  input in_a;
  output out_y;
  assign out_y = in_a;
endmodule
";

const LATCH: &str = "\
module race(clk, rst, in_a, in_b, out_y);
  input clk;
  input rst;
  input in_a;
  input in_b;
  output out_y;
  wire w0;
  reg r0;
  assign w0 = r0 | (in_a & ~in_b);
  assign out_y = w0;
  always @(posedge clk) if (rst) r0 <= 1'b0; else r0 <= w0;
endmodule
";

const DELAYS: &str = "\
module race(clk, rst, in_a, out_y, out_z);
  input clk;
  input rst;
  input in_a;
  output out_y;
  output out_z;
  reg [4:0] r0;
  assign out_y = r0[2];
  assign out_z = r0[4];
  always @(posedge clk) if (rst) r0 <= 5'b0; else r0 <= {r0[3:0], in_a};
endmodule
";

const CONSTANTS: &str = "\
module race(clk, rst, in_a, out_y, out_z);
  input clk;
  input rst;
  input in_a;
  output out_y;
  output out_z;
  assign out_y = 1'b0;
  assign out_z = ~(in_a | 1'b1) & ~1'b0;
endmodule
";

const NESTED_IN_OR: &str = "\
module race(clk, rst, in_a, in_b, out_x, out_y, out_z);
  input clk;
  input rst;
  input in_a;
  input in_b;
  output out_x;
  output out_y;
  output out_z;
  assign out_x = (in_a | in_b) | (in_a & in_b);
  assign out_y = (in_a & in_b) | (in_a | in_b);
  assign out_z = ~in_a | ~in_b;
endmodule
";

const NESTED_IN_AND: &str = "\
module race(clk, rst, in_a, in_b, out_x, out_y, out_z);
  input clk;
  input rst;
  input in_a;
  input in_b;
  output out_x;
  output out_y;
  output out_z;
  assign out_x = (in_a | in_b) & (in_a & in_b);
  assign out_y = (in_a & in_b) & (in_a | in_b);
  assign out_z = ~in_a & ~in_b;
endmodule
";

const NESTED_IN_NOT: &str = "\
module race(clk, rst, in_a, in_b, out_x, out_y, out_z);
  input clk;
  input rst;
  input in_a;
  input in_b;
  output out_x;
  output out_y;
  output out_z;
  assign out_x = ~(in_a | in_b);
  assign out_y = ~(in_a & in_b);
  assign out_z = ~~in_a;
endmodule
";

const LONGEST_DELAY: &str = "\
module race(clk, rst, in_a, out_y);
  input clk;
  input rst;
  input in_a;
  output out_y;
  reg [65535:0] r0;
  assign out_y = r0[65535];
  always @(posedge clk) if (rst) r0 <= 65536'b0; else r0 <= {r0[65534:0], in_a};
endmodule
";

/// The text is read, and printed again it is the same.
fn check_read(rt: &impl Abort, alloc: Global, text: &[u8]) -> Result<(), Fail>
    requires { length text.now ≤ 16777216 }
{
    let module = read_module(alloc, text)?;
    let printed = print_module(alloc, &module)?;
    assert_eq!(rt; printed.as_slice(), text);
    Ok(())
}

fn check_refused(rt: &impl Abort, alloc: Global, text: &[u8], error: VerilogError)
    requires { length text.now ≤ 16777216 }
{
    assert_eq!(rt; read_module(alloc, text).err(), Some(error));
}

#[test]
fn modules_are_read_and_printed_again(rt: HostRuntime) -> Result<(), Fail> {
    let alloc = rt.alloc();
    let texts = [
        FIRST_OF_TWO,
        COPY,
        LATCH,
        DELAYS,
        CONSTANTS,
        NESTED_IN_OR,
        NESTED_IN_AND,
        NESTED_IN_NOT,
        LONGEST_DELAY,
    ];
    for text in texts {
        assert!(rt; text.len() <= 10000);
        check_read(&rt, alloc, text.as_bytes())?;
    }
    let mut text = PORTS.to_vec(alloc)?;
    text.extend_from_slice(BODY)?;
    assert!(rt; text.len() <= 10000);
    check_read(&rt, alloc, &text)
}

/// This piece, so many times more.
fn put_pieces(text: &mut Vec<u8>, count: u32, piece: &[u8]) -> Result<(), Fail> {
    for _ in 0..count {
        text.extend_from_slice(piece)?;
    }
    Ok(())
}

/// 64 groups one inside another, each the first of 64 parts of the first of 64 products.
#[test]
fn deep_expressions_are_read(rt: HostRuntime) -> Result<(), Fail> {
    let alloc = rt.alloc();
    let mut parts = Vec::new(alloc);
    put_pieces(&mut parts, 63, b" & in_a")?;
    put_pieces(&mut parts, 63, b" | in_b")?;
    let mut text = PORTS.to_vec(alloc)?;
    text.extend_from_slice(b"assign out_y = ")?;
    put_pieces(&mut text, 64, b"(")?;
    text.extend_from_slice(b"in_a")?;
    text.extend_from_slice(&parts)?;
    parts.insert(0, b')')?;
    put_pieces(&mut text, 64, &parts)?;
    text.extend_from_slice(b";\nendmodule\n")?;
    assert!(rt; text.len() <= 100000);
    let module = read_module(alloc, &text)?;
    assert_eq!(rt; module.assigns().len(), 1);
    Ok(())
}

fn line_ends(text: &[u8]) -> u32 {
    let mut count: u32 = 0;
    for b in text {
        if *b == b'\n' {
            count = count.saturating_add(1);
        }
    }
    count
}

/// No front of a module is one, but for the whole without its last line end. Each front breaks off in its last line.
#[test]
fn fronts_are_refused(rt: HostRuntime) -> Result<(), Fail> {
    let alloc = rt.alloc();
    let text = FIRST_OF_TWO.as_bytes();
    let whole = text.len() - 1;
    assert!(rt; read_module(alloc, &text[..whole]).is_ok());
    for n in 0..whole {
        let front = &text[..n];
        let line = line_ends(front).saturating_add(1);
        check_refused(&rt, alloc, front, VerilogError::Syntax(line));
    }
    Ok(())
}

/// For each number below `count`: the front, the number and the back.
fn put_numbered(text: &mut Vec<u8>, count: u32, front: &[u8], back: &[u8]) -> Result<(), Fail> {
    let mut number = Buffer::new();
    for k in 0..count {
        text.extend_from_slice(front)?;
        text.extend_from_slice(number.format(k).as_bytes())?;
        text.extend_from_slice(back)?;
    }
    Ok(())
}

#[test]
fn wires_end_at_65536(rt: HostRuntime) -> Result<(), Fail> {
    let alloc = rt.alloc();
    let mut text = PORTS.to_vec(alloc)?;
    put_numbered(&mut text, 65536, b"wire w", b";\n")?;
    let mut one_more = text.to_vec(alloc)?;
    put_numbered(&mut text, 65536, b"assign w", b" = in_a;\n")?;
    text.extend_from_slice(b"assign out_y = w65535;\nendmodule\n")?;
    assert!(rt; text.len() <= 10000000);
    let module = read_module(alloc, &text)?;
    assert_eq!(rt; module.wires().len(), 65536);
    assert_eq!(rt; module.assigns().len(), 65537);
    one_more.extend_from_slice(b"wire x;\nendmodule\n")?;
    assert!(rt; one_more.len() <= 10000000);
    check_refused(&rt, alloc, &one_more, VerilogError::Limit(65543));
    Ok(())
}
