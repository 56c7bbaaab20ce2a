use net_lang;
use rl_flow::{Refusal, Status, line, run};
use rl_io::{FileShelf, MemShelf, MemSink, StdSink, are_distinct};
use rl_jobs::Fault;
use std::alloc::{AllocError, Global};
use std::fs;
use std::process::Abort;
use std::test::Fail;

const EARLIEST: &[u8] = b"racenet 1\ninput a b\noutput y = min(a, b)\n";

const EARLIEST_MODULE: &[u8] = b"module race(clk, rst, in_a, in_b, out_y);
  input clk;
  input rst;
  input in_a;
  input in_b;
  output out_y;
  wire w0;
  assign w0 = in_a | in_b;
  assign out_y = w0;
endmodule
";

/// How a shelf and a sink behave: the bytes of a fetch and of a put at most, and the calls that fail, from 1.
#[derive(Drop)]
struct Outside<'a> {
    chunk: usize,
    fetch_fails: &'a [u64],
    put_chunk: usize,
    put_fails: &'a [u64],
}

const EASY: Outside<'static> = Outside {
    chunk: 4096,
    fetch_fails: &[],
    put_chunk: 4096,
    put_fails: &[],
};

fn texts(alloc: Global, words: &[&str]) -> Result<Vec<String>, AllocError> {
    let mut texts = Vec::new(alloc);
    for word in words {
        texts.push(String::from_str(alloc, word)?)?;
    }
    Ok(texts)
}

// Runs the words over a shelf that holds one file, "f", and compares the status and what both sinks took.
fn expect(
    rt: &impl Abort,
    alloc: Global,
    file: &[u8],
    words: &[&str],
    outside: &Outside,
    want: (Status, &[u8], &[u8]),
) -> Result<(), Fail> {
    let mut files = Vec::new(alloc);
    files.push((String::from_str(alloc, "f")?, file.to_vec(alloc)?))?;
    let fetch_fails = outside.fetch_fails.to_vec(alloc)?;
    let put_fails = outside.put_fails.to_vec(alloc)?;
    assert!(rt; are_distinct(&files));
    assert!(rt; outside.chunk >= 1 && outside.put_chunk >= 1);
    assert!(rt; fetch_fails.iter().all(|f| *f < u64::MAX));
    let mut shelf = MemShelf::new(files, outside.chunk, fetch_fails);
    let mut out = MemSink::new(alloc, 65536, outside.put_chunk, put_fails)?;
    let mut err = MemSink::new(alloc, 4096, 4096, Vec::new(alloc))?;
    let words = texts(alloc, words)?;
    let status = run(alloc, &words, &mut shelf, &mut out, &mut err);
    assert_eq!(rt; status, want.0);
    assert_eq!(rt; out.written(), want.1);
    assert_eq!(rt; err.written(), want.2);
    Ok(())
}

// What the words write over a shelf that holds one file, "f", where they end with status 0.
pub fn output_of(
    rt: &impl Abort,
    alloc: Global,
    file: &[u8],
    words: &[&str],
) -> Result<Vec<u8>, Fail> {
    let mut files = Vec::new(alloc);
    files.push((String::from_str(alloc, "f")?, file.to_vec(alloc)?))?;
    assert!(rt; are_distinct(&files));
    let mut shelf = MemShelf::new(files, 65536, Vec::new(alloc));
    let mut out = MemSink::new(alloc, 8388608, 65536, Vec::new(alloc))?;
    let mut err = MemSink::new(alloc, 4096, 4096, Vec::new(alloc))?;
    let words = texts(alloc, words)?;
    let status = run(alloc, &words, &mut shelf, &mut out, &mut err);
    assert_eq!(rt; status, Status::Done);
    Ok(out.written().to_vec(alloc)?)
}

// The words are refused with this status and line.
fn expect_refused(
    rt: &impl Abort,
    alloc: Global,
    file: &[u8],
    words: &[&str],
    refusal: (Status, &[u8]),
) -> Result<(), Fail> {
    let (status, line) = refusal;
    expect(
        rt,
        alloc,
        file,
        words,
        &EASY,
        (status, b"".as_slice(), line),
    )
}

// A word of 4,097 bytes, and files that are a byte longer than those of their command may be.
#[test]
fn refuses_what_is_too_long(rt: HostRuntime) -> Result<(), Fail> {
    let alloc = rt.alloc();
    let word = "f".repeat(alloc, 4097)?;
    let usage = (Status::Words, b"racelog: usage\n".as_slice());
    expect_refused(&rt, alloc, EARLIEST, &["compile", word.as_str()], usage)?;
    let network = vec![in alloc; 32u8; 1048577]?;
    let limit = (Status::Refused, b"racelog: E01 file 1 1048576\n".as_slice());
    expect_refused(&rt, alloc, &network, &["compile", "f"], limit)?;
    let module = vec![in alloc; 32u8; 16777217]?;
    let limit = (
        Status::Refused,
        b"racelog: E01 file 1 16777216\n".as_slice(),
    );
    expect_refused(&rt, alloc, &module, &["sim", "f", "1", "0"], limit)
}

#[test]
fn reports_faults_of_reading_and_writing(rt: HostRuntime) -> Result<(), Fail> {
    let alloc = rt.alloc();
    let read_fault = (
        Status::ReadFault,
        b"".as_slice(),
        b"racelog: read fault file 1\n".as_slice(),
    );
    let second_fetch = Outside {
        chunk: 16,
        fetch_fails: &[2],
        put_chunk: 64,
        put_fails: &[],
    };
    expect(
        &rt,
        alloc,
        EARLIEST,
        &["compile", "f"],
        &second_fetch,
        read_fault,
    )?;
    expect(&rt, alloc, EARLIEST, &["compile", "g"], &EASY, read_fault)?;
    let third_put = Outside {
        chunk: 16,
        fetch_fails: &[],
        put_chunk: 64,
        put_fails: &[3],
    };
    let write_fault = (
        Status::WriteFault,
        &EARLIEST_MODULE[..128],
        b"racelog: write fault\n".as_slice(),
    );
    expect(
        &rt,
        alloc,
        EARLIEST,
        &["compile", "f"],
        &third_put,
        write_fault,
    )?;
    let first_put = Outside {
        chunk: 16,
        fetch_fails: &[],
        put_chunk: 64,
        put_fails: &[1],
    };
    let nothing = (
        Status::WriteFault,
        b"".as_slice(),
        b"racelog: write fault\n".as_slice(),
    );
    expect(&rt, alloc, EARLIEST, &["compile", "f"], &first_put, nothing)
}

#[test]
fn refusals_are_displayed_without_a_newline(rt: HostRuntime) -> Result<(), Fail> {
    let refusal = Refusal::Refused(Fault::Network(3, net_lang::Rule::Span, 17));
    let text = format!(in rt.alloc(); "{refusal}")?;
    assert_eq!(rt; text.as_str(), "racelog: E12 file 3 line 17");
    assert_eq!(rt;
        line(refusal).as_bytes(),
        b"racelog: E12 file 3 line 17\n".as_slice()
    );
    Ok(())
}

// A standard error that fails at once changes no status.
#[test]
fn a_failing_error_stream_changes_no_status(rt: HostRuntime) -> Result<(), Fail> {
    let alloc = rt.alloc();
    let mut files = Vec::new(alloc);
    files.push((String::from_str(alloc, "f")?, b"racenet 2\n".to_vec(alloc)?))?;
    assert!(rt; are_distinct(&files));
    let mut shelf = MemShelf::new(files, 4096, Vec::new(alloc));
    let mut out = MemSink::new(alloc, 4096, 4096, Vec::new(alloc))?;
    let mut err = MemSink::new(alloc, 0, 4096, Vec::new(alloc))?;
    let words = texts(alloc, &["compile", "f"])?;
    let refused = run(alloc, &words, &mut shelf, &mut out, &mut err);
    let words = texts(alloc, &["compile"])?;
    let no_words = run(alloc, &words, &mut shelf, &mut out, &mut err);
    assert_eq!(rt; (refused, no_words), (Status::Refused, Status::Words));
    assert!(rt; out.written().is_empty() && err.written().is_empty());
    Ok(())
}

#[test]
fn runs_over_the_system(rt: HostRuntime) -> Result<(), Fail> {
    let alloc = rt.alloc();
    fs::write(&rt, "earliest.net", EARLIEST)?;
    let mut shelf = FileShelf::new(&rt);
    let mut out = StdSink::out(&rt);
    let mut err = StdSink::err(&rt);
    let words = texts(alloc, &["compile", "earliest.net"])?;
    let status = run(alloc, &words, &mut shelf, &mut out, &mut err);
    assert_eq!(rt; status, Status::Done);
    fs::remove_file(&rt, "earliest.net")?;
    let words = texts(alloc, &["compile", "missing.net"])?;
    let status = run(alloc, &words, &mut shelf, &mut out, &mut err);
    assert_eq!(rt; status, Status::ReadFault);
    assert_eq!(rt; status.code(), 4);
    Ok(())
}
