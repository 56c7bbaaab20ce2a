use rl_text::Name;
use rl_time::{Time, put_time, read_time};
use std::test::Fail;

#[test]
fn texts_of_times_are_read_and_written(rt: HostRuntime) -> Result<(), Fail> {
    let rows = [
        ("0", Time::At(0)),
        ("7", Time::At(7)),
        ("1000000000000", Time::At(1000000000000)),
        ("18446744073709551615", Time::At(18446744073709551615)),
        ("never", Time::Never),
    ];
    for (text, time) in rows {
        assert_eq!(rt; read_time(text.as_bytes()), Some(time), "at {text}");
        let mut written = Vec::new(rt.alloc());
        put_time(&mut written, time)?;
        assert_eq!(rt; written.as_slice(), text.as_bytes(), "at {text}");
    }
    Ok(())
}

#[test]
fn other_texts_are_not_read(rt: HostRuntime) {
    let texts = [
        "",
        "00",
        "07",
        "+7",
        "-7",
        " 7",
        "7 ",
        "7a",
        "0x7",
        "Never",
        "never ",
        "never7",
        "18446744073709551616",
        "99999999999999999999999",
    ];
    for text in texts {
        assert_eq!(rt; read_time(text.as_bytes()), None, "at {text}");
    }
}

#[test]
fn operators_on_numbers_ties_and_never(rt: HostRuntime) -> Result<(), Fail> {
    let never = Time::Never;
    let (three, five) = (Time::At(3), Time::At(5));
    assert_eq!(rt; three.earlier(five), three);
    assert_eq!(rt; never.earlier(five), five);
    assert_eq!(rt; three.later(five), five);
    assert_eq!(rt; three.later(never), never);
    assert_eq!(rt; three.before(five), three);
    assert_eq!(rt; five.before(five), never);
    assert_eq!(rt; five.before(never), five);
    assert_eq!(rt; never.before(five), never);
    assert_eq!(rt; three.delayed(2), five);
    assert_eq!(rt; never.delayed(2), never);
    Ok(())
}

#[test]
fn a_name_has_its_bytes(rt: HostRuntime) -> Result<(), Fail> {
    let name = Name::new(rt.alloc(), b"in_a1")?;
    assert_eq!(rt; name.bytes(), b"in_a1".as_slice());
    Ok(())
}
