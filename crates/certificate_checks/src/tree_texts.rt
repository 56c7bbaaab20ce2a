//! Trees read and printed, and the error of each rule with its line.
ghost use Rattle.std.specs.Prelude.{◌≤◌, length};

use refutation::{TreeError, print_tree, read_tree, what_is_spelled_are_trees};
use std::alloc::Global;
use std::process::Abort;
use std::test::Fail;

/// The text is read, and printed it is `printed`.
fn check_printed(rt: &impl Abort, alloc: Global, text: &[u8], printed: &[u8]) -> Result<(), Fail>
    requires { length text.now ≤ 67108864 }
{
    what_is_spelled_are_trees();
    let trees = read_tree(alloc, text)?;
    let again = print_tree(alloc, &trees)?;
    assert_eq!(rt; again.as_slice(), printed);
    Ok(())
}

/// A tree whose items are written so many times, with these lines before and after, has this error; none where there is
/// none.
fn check_many(
    rt: &impl Abort,
    alloc: Global,
    before: &[u8],
    line: &[u8],
    count: u32,
    after: &[u8],
    error: Option<TreeError>,
) -> Result<(), Fail> {
    let mut text = Vec::from_slice(alloc, before)?;
    for _ in 0..count {
        text.extend_from_slice(line)?;
    }
    text.extend_from_slice(after)?;
    assert!(rt; text.len() <= 67108864);
    assert_eq!(rt; read_tree(alloc, &text).err(), error);
    Ok(())
}

#[test]
fn trees_are_read_and_printed(rt: HostRuntime) -> Result<(), Fail> {
    let alloc = rt.alloc();
    let example =
        b"racetree 1\ntree y\nsplit 0 1 0\nsplit 1 0 0\nleaf\nfact 0 1 0 : 0\nfact 1 0 0 : 1\nleaf\nfact 0 1 -1 : 1\nleaf\nfact 1 0 -1 : 0\nend\n";
    check_printed(&rt, alloc, example, example)?;
    let two =
        b"racetree 1\ntree y\nsplit 63 0 -100000000\nclosed 65535 0\nopen\nend\ntree z\nleaf\nfact 0 0 100000000 :\nclosed\nend\n";
    check_printed(&rt, alloc, two, two)?;
    check_printed(
        &rt,
        alloc,
        b"# a tree\nracetree\t1\n\ntree tree # y\r\nsplit 1 2 - 3\nleaf\nfact 0 1 -0:0 1 2 3 4\n\nleaf\nend # no newline",
        b"racetree 1\ntree tree\nsplit 1 2 -3\nleaf\nfact 0 1 0 : 0 1 2 3 4\nleaf\nend\n",
    )
}

#[test]
fn lengths_are_judged(rt: HostRuntime) -> Result<(), Fail> {
    let alloc = rt.alloc();
    let (long, count) = (TreeError::Long, TreeError::Count);
    let tree = b"racetree 1\ntree y\n";
    let leaf = b"racetree 1\ntree y\nleaf\n";
    check_many(&rt, alloc, leaf, b"fact 0 0 0 :\n", 4096, b"end\n", None)?;
    check_many(
        &rt,
        alloc,
        leaf,
        b"fact 0 0 0 :\n",
        4097,
        b"end\n",
        Some(long(4100)),
    )?;
    check_many(&rt, alloc, tree, b"leaf\n", 1000000, b"end\n", None)?;
    check_many(
        &rt,
        alloc,
        tree,
        b"leaf\n",
        1000001,
        b"end\n",
        Some(count(1000003)),
    )?;
    check_many(
        &rt,
        alloc,
        tree,
        b"open\n",
        1000001,
        b"end\n",
        Some(count(1000003)),
    )
}
