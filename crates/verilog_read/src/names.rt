//! The names that a module may have, and the ports of a header.
ghost use Rattle.std.specs.Prelude.{◌≡◌, ◌≤◌, ◌&&◌, codes, map, drop, length, bytes_eq};
ghost use Rattle.std.specs.List.{list_all, list_any, prefix_len};
ghost use Rattle.circuit.specs.Names.{is_port_byte, is_port_name, is_reserved, is_own_byte, is_own_name};
ghost use Rattle.verilog_text.specs.Judging.{is_clock_or_reset, is_input_port, is_output_port, are_ports, is_few, are_few, is_next};

fn is_port_byte(b: u8) -> bool
    ensures { result ≡ is_port_byte b }
{
    b.is_ascii_alphanumeric() || b == b'_'
}

fn is_own_byte(b: u8) -> bool
    ensures { result ≡ is_own_byte b }
{
    is_port_byte(b) || b == b'$'
}

fn are_port_bytes(bytes: &[u8]) -> bool
    ensures { result ≡ list_all is_port_byte bytes.now }
{
    bytes.iter().all(|b| is_port_byte(*b))
}

fn are_own_bytes(bytes: &[u8]) -> bool
    ensures { result ≡ list_all is_own_byte bytes.now }
{
    bytes.iter().all(|b| is_own_byte(*b))
}

/// Whether a port may have this name, without its prefix.
fn is_port_name(name: &[u8]) -> bool
    ensures { result ≡ is_port_name name.now }
{
    let is_word = match name {
        [] => false,
        [first, rest @ ..] => first.is_ascii_alphabetic() && are_port_bytes(rest),
    };
    is_word && name.len() <= 32
}

const RESERVED: [&[u8]; 34] = [
    b"module",
    b"endmodule",
    b"input",
    b"output",
    b"wire",
    b"reg",
    b"assign",
    b"always",
    b"posedge",
    b"if",
    b"else",
    b"and",
    b"or",
    b"not",
    b"nand",
    b"nor",
    b"xor",
    b"xnor",
    b"buf",
    b"begin",
    b"end",
    b"case",
    b"endcase",
    b"for",
    b"while",
    b"initial",
    b"inout",
    b"integer",
    b"parameter",
    b"function",
    b"task",
    b"race",
    b"clk",
    b"rst",
];

fn is_reserved(name: &[u8]) -> bool
    ensures { result ≡ is_reserved name.now }
{
    is_among(name, &RESERVED)
}

/// Whether a wire or a register may have this name.
pub fn is_own_name(name: &[u8]) -> bool
    ensures { result ≡ is_own_name name.now }
{
    let is_word = match name {
        [] => false,
        [first, rest @ ..] => {
            (first.is_ascii_alphabetic() || *first == b'_') && are_own_bytes(rest)
        }
    };
    is_word && name.len() <= 40 && !is_reserved(name)
}

/// Whether it is the name that every module has.
pub fn is_race(name: &[u8]) -> bool
    ensures { result ≡ bytes_eq name.now (codes "race") }
{
    name == b"race".as_slice()
}

/// Whether it is `clk` or `rst`.
pub fn is_clock_or_reset(name: &[u8]) -> bool
    ensures { result ≡ is_clock_or_reset name.now }
{
    name == b"clk".as_slice() || name == b"rst".as_slice()
}

/// Whether it is `in_` and the name of a port.
pub fn is_input_port(name: &[u8]) -> bool
    ensures { result ≡ is_input_port name.now }
{
    match name.strip_prefix(b"in_") {
        Some(rest) => is_port_name(rest),
        None => false,
    }
}

/// Whether it is `out_` and the name of a port.
pub fn is_output_port(name: &[u8]) -> bool
    ensures { result ≡ is_output_port name.now }
{
    match name.strip_prefix(b"out_") {
        Some(rest) => is_port_name(rest),
        None => false,
    }
}

/// How many inputs these ports begin with.
fn inputs_in(ports: &[&[u8]]) -> usize
    ensures count { result ≡ prefix_len (λ p. is_input_port p.now) ports.now }
    ensures within { result ≤ length ports.now }
{
    ports.iter().take_while(|port| is_input_port(port)).count()
}

fn are_outputs(ports: &[&[u8]]) -> bool
    ensures { result ≡ list_all (λ p. is_output_port p.now) ports.now }
{
    ports.iter().all(|port| is_output_port(port))
}

fn are_clock_and_reset(clk: &[u8], rst: &[u8]) -> bool
    ensures { result ≡ (bytes_eq clk.now (codes "clk") && bytes_eq rst.now (codes "rst")) }
{
    clk == b"clk".as_slice() && rst == b"rst".as_slice()
}

/// Whether these are the clock, the reset, inputs and then outputs.
pub fn are_ports(ports: &[&[u8]]) -> bool
    ensures { result ≡ are_ports (map (λ p. p.now) ports.now) }
{
    match ports {
        [clk, rst, others @ ..] => {
            let inputs = inputs_in(others);
            are_clock_and_reset(clk, rst) && are_outputs(&others[inputs..])
        }
        _ => false,
    }
}

fn is_few(count: usize) -> bool
    ensures { result ≡ is_few count }
{
    1 <= count && count <= 64
}

/// Whether there are 1 to 64 inputs and 1 to 64 others after the clock and the reset.
pub fn are_few(ports: &[&[u8]]) -> bool
    ensures { result ≡ are_few (map (λ p. p.now) ports.now) }
{
    match ports {
        [_, _, others @ ..] => {
            let inputs = inputs_in(others);
            is_few(inputs) && is_few(others.len() - inputs)
        }
        _ => false,
    }
}

/// Whether the name is the first of these.
pub fn is_next(name: &[u8], ports: &[&[u8]]) -> bool
    ensures { result ≡ is_next name.now (map (λ p. p.now) ports.now) }
{
    match ports {
        [] => false,
        [first, ..] => name == *first,
    }
}

/// Whether the name is one of these.
pub fn is_among(name: &[u8], ports: &[&[u8]]) -> bool
    ensures { result ≡ list_any (λ p. bytes_eq name.now p.now) ports.now }
{
    ports.iter().any(|port| name == *port)
}

/// The ports without the first.
pub fn drop_first(ports: &mut Vec<&[u8]>)
    ensures { ports.new.items ≡ drop 1 ports.old.items }
{
    if !ports.is_empty() {
        ports.remove(0);
    }
}

/// What is left of a name without so many bytes at its front.
pub fn without_front(name: &[u8], count: usize) -> &[u8]
    ensures { result.now ≡ drop count name.now }
{
    if count <= name.len() {
        &name[count..]
    } else {
        &[]
    }
}
