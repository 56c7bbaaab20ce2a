ghost use Rattle.std.specs.Prelude.{◌≤◌, length};

use net_lang::{NetError, read_network};
use net_model::print_network;
use std::alloc::Global;
use std::process::Abort;
use std::test::Fail;

/// The text is read, and printed again it is the same.
fn check_read(rt: &impl Abort, alloc: Global, text: &[u8]) -> Result<(), Fail>
    requires { length text.now ≤ 1048576 }
{
    let network = read_network(alloc, text)?;
    let printed = print_network(alloc, &network)?;
    assert_eq!(rt; printed.as_slice(), text);
    Ok(())
}

#[test]
fn networks_are_read(rt: HostRuntime) -> Result<(), Fail> {
    let alloc = rt.alloc();
    check_read(&rt, alloc, b"racenet 1\ninput a b\noutput y = min(a, b)\n")?;
    check_read(
        &rt,
        alloc,
        b"racenet 1\ninput a b\nlet _p = lt(a, inc(b, 1000000))\noutput y = max(_p, never)\noutput z = min(_p, a)\n",
    )
}

#[test]
fn comments_and_spaces_are_passed_over(rt: HostRuntime) -> Result<(), Fail> {
    let alloc = rt.alloc();
    let text = b"# a race\n\nracenet 1\t# one\ninput a\ninput b\r\n\noutput y=min ( a,b )";
    let network = read_network(alloc, text)?;
    let printed = print_network(alloc, &network)?;
    assert_eq!(rt;
        printed.as_slice(),
        b"racenet 1\ninput a b\noutput y = min(a, b)\n".as_slice()
    );
    Ok(())
}

// An output with 2 ^ depth - 1 operators, all in one expression, delayed by so many cycles.
fn tree(alloc: Global, name: &[u8], leaf: &[u8], depth: u32, by: &[u8]) -> Result<Vec<u8>, Fail> {
    let mut body = leaf.to_vec(alloc)?;
    for _ in 0..depth {
        let mut next = b"min(".to_vec(alloc)?;
        next.extend_from_slice(&body)?;
        next.extend_from_slice(b",")?;
        next.extend_from_slice(&body)?;
        next.extend_from_slice(b")")?;
        body = next;
    }
    let mut text = b"racenet 1\ninput a\noutput ".to_vec(alloc)?;
    text.extend_from_slice(name)?;
    text.extend_from_slice(b" = inc(")?;
    text.extend_from_slice(&body)?;
    text.extend_from_slice(b", ")?;
    text.extend_from_slice(by)?;
    text.extend_from_slice(b")\n")?;
    Ok(text)
}

// The reader's error on a text that a test has built.
fn error_of(rt: &impl Abort, alloc: Global, text: &[u8]) -> Option<NetError> {
    assert!(rt; text.len() <= 1048576);
    read_network(alloc, text).err()
}

#[test]
fn too_many_operators_come_before_the_span_alone(rt: HostRuntime) -> Result<(), Fail> {
    let alloc = rt.alloc();
    let few = tree(alloc, b"y", b"a", 14, b"1")?;
    let many = tree(alloc, b"y", b"a", 15, b"1")?;
    let many_and_late = tree(alloc, b"y", b"a", 15, b"1000001")?;
    let many_and_unknown = tree(alloc, b"y", b"b", 15, b"1")?;
    let many_and_doubled = tree(alloc, b"a", b"a", 15, b"1")?;
    let many_and_name = tree(alloc, b"_y", b"a", 15, b"1")?;
    assert_eq!(rt; error_of(&rt, alloc, &few), None);
    assert_eq!(rt; error_of(&rt, alloc, &many), Some(NetError::Count(3)));
    assert_eq!(rt;
        error_of(&rt, alloc, &many_and_late),
        Some(NetError::Count(3))
    );
    assert_eq!(rt;
        error_of(&rt, alloc, &many_and_unknown),
        Some(NetError::Unknown(3))
    );
    assert_eq!(rt;
        error_of(&rt, alloc, &many_and_doubled),
        Some(NetError::Doubled(3))
    );
    assert_eq!(rt;
        error_of(&rt, alloc, &many_and_name),
        Some(NetError::Name(3))
    );
    Ok(())
}
