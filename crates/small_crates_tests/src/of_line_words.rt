use line_words::{
    Words, behind, first_number, first_signed, number_and, read_dotted, read_number, read_signed,
};
use std::process::Abort;
use std::test::Fail;

fn is_word(word: Option<&[u8]>, text: &str) -> bool {
    match word {
        Some(bytes) => bytes == text.as_bytes(),
        None => false,
    }
}

#[test]
fn reads_numbers(rt: HostRuntime) -> Result<(), Fail> {
    assert_eq!(rt;
        read_number(b"18446744073709551615"),
        Some(18446744073709551615)
    );
    assert_eq!(rt; read_number(b"0"), Some(0));
    assert_eq!(rt; read_number(b"00"), None);
    assert_eq!(rt; read_number(b"+5"), None);
    assert_eq!(rt; read_number(b"18446744073709551616"), None);
    Ok(())
}

#[test]
fn reads_numbers_about_twenty_digits(rt: HostRuntime) -> Result<(), Fail> {
    assert_eq!(rt;
        read_number(b"9999999999999999999"),
        Some(9999999999999999999)
    );
    assert_eq!(rt;
        read_number(b"10000000000000000000"),
        Some(10000000000000000000)
    );
    assert_eq!(rt; read_number(b"99999999999999999999"), None);
    assert_eq!(rt; read_number(b"100000000000000000000"), None);
    assert_eq!(rt; read_number(b"1000000000000000000x"), None);
    assert_eq!(rt; read_number(b"12x"), None);
    assert_eq!(rt; read_number(b""), None);
    Ok(())
}

#[test]
fn reads_signed_numbers(rt: HostRuntime) -> Result<(), Fail> {
    assert_eq!(rt; read_signed(b"-20"), Some(-20));
    assert_eq!(rt; read_signed(b"20"), Some(20));
    assert_eq!(rt; read_signed(b"-0"), None);
    assert_eq!(rt;
        read_signed(b"-9223372036854775808"),
        Some(-9223372036854775808)
    );
    assert_eq!(rt; read_signed(b"9223372036854775808"), None);
    Ok(())
}

#[test]
fn cuts_a_line(rt: HostRuntime) -> Result<(), Fail> {
    let mut words = Words::new(b"0 read ");
    assert!(rt; is_word(words.next(), "0"));
    assert!(rt; is_word(words.next(), "read"));
    assert!(rt; !words.is_empty());
    assert!(rt; is_word(words.next(), ""));
    assert!(rt; words.is_empty());
    assert!(rt; words.next().is_none());
    Ok(())
}

#[test]
fn takes_numbers(rt: HostRuntime) -> Result<(), Fail> {
    let mut words = Words::new(b"0 18446744073709551615 7 08  5x 9");
    assert_eq!(rt; words.next_number(), Some(0));
    assert_eq!(rt; words.next_number(), Some(18446744073709551615));
    assert_eq!(rt; words.next_number(), Some(7));
    assert_eq!(rt; words.next_number(), None);
    assert_eq!(rt; words.next_number(), None);
    assert_eq!(rt; words.next_number(), None);
    assert_eq!(rt; words.next_number(), Some(9));
    assert!(rt; words.is_empty());
    assert_eq!(rt; words.next_number(), None);
    Ok(())
}

#[test]
fn takes_signed_numbers(rt: HostRuntime) -> Result<(), Fail> {
    let mut words = Words::new(b"-20 20 -9223372036854775808 9223372036854775808 -0 - 0");
    assert_eq!(rt; words.next_signed(), Some(-20));
    assert_eq!(rt; words.next_signed(), Some(20));
    assert_eq!(rt; words.next_signed(), Some(-9223372036854775808));
    assert_eq!(rt; words.next_signed(), None);
    assert_eq!(rt; words.next_signed(), None);
    assert_eq!(rt; words.next_signed(), None);
    assert_eq!(rt; words.next_signed(), Some(0));
    assert_eq!(rt; words.next_signed(), None);
    Ok(())
}

#[test]
fn takes_dotted_numbers(rt: HostRuntime) -> Result<(), Fail> {
    let mut words = Words::new(b"0.1 10000000000000000000.2 1. .1 1 2.3.4 5.06 7.8");
    assert_eq!(rt; words.next_dotted(), Some((0, 1)));
    assert_eq!(rt; words.next_dotted(), Some((10000000000000000000, 2)));
    assert_eq!(rt; words.next_dotted(), None);
    assert_eq!(rt; words.next_dotted(), None);
    assert_eq!(rt; words.next_dotted(), None);
    assert_eq!(rt; words.next_dotted(), None);
    assert_eq!(rt; words.next_dotted(), None);
    assert_eq!(rt; words.next_dotted(), Some((7, 8)));
    assert_eq!(rt; words.next_dotted(), None);
    assert_eq!(rt;
        read_dotted(b"10000000000000000000.2"),
        Some((10000000000000000000, 2))
    );
    assert_eq!(rt; read_dotted(b"2.3 "), None);
    Ok(())
}

#[test]
fn takes_texts(rt: HostRuntime) -> Result<(), Fail> {
    let mut words = Words::new(b"0 read stock still down");
    assert!(rt; !words.take_text("1"));
    assert!(rt; words.take_text("0"));
    assert!(rt; !words.take_text("rea"));
    assert!(rt; !words.take_text("reads"));
    assert!(rt; words.take_text("read"));
    assert!(rt; is_word(words.next(), "stock"));
    assert!(rt; words.take_text("still down"));
    assert!(rt; words.is_empty());
    assert!(rt; !words.take_text(""));
    Ok(())
}

/// Whether this number was read, with this behind it.
fn is_read(read: Option<(u64, &[u8])>, number: u64, rest: &str) -> bool {
    match read {
        Some((found, behind)) => found == number && behind == rest.as_bytes(),
        None => false,
    }
}

#[test]
fn reads_numbers_in_front(rt: HostRuntime) -> Result<(), Fail> {
    assert!(rt;
        is_read(
            first_number(b"9999999999999999999 x"),
            9999999999999999999,
            " x"
        )
    );
    assert!(rt;
        is_read(
            first_number(b"1000000000000000000"),
            1000000000000000000,
            ""
        )
    );
    assert!(rt; is_read(first_number(b"7"), 7, ""));
    assert!(rt; is_read(first_number(b"01"), 0, "1"));
    assert!(rt; first_number(b"x1").is_none());
    assert!(rt; first_number(b"").is_none());
    assert!(rt; is_read(number_and(b"5.6", b'.'), 5, "6"));
    assert!(rt; is_read(number_and(b"123 x", b' '), 123, "x"));
    assert!(rt; is_read(number_and(b"0 ", b' '), 0, ""));
    assert!(rt; number_and(b"12x", b' ').is_none());
    assert!(rt; number_and(b"12", b' ').is_none());
    Ok(())
}

/// Whether this number with a sign was read, with this behind it.
fn is_signed(read: Option<(i64, &[u8])>, number: i64, rest: &str) -> bool {
    match read {
        Some((found, behind)) => found == number && behind == rest.as_bytes(),
        None => false,
    }
}

#[test]
fn reads_signed_numbers_in_front(rt: HostRuntime) -> Result<(), Fail> {
    assert!(rt;
        is_signed(
            first_signed(b"-9223372036854775808 x"),
            -9223372036854775808,
            " x"
        )
    );
    assert!(rt;
        is_signed(
            first_signed(b"9223372036854775807"),
            9223372036854775807,
            ""
        )
    );
    assert!(rt; is_signed(first_signed(b"-1 "), -1, " "));
    assert!(rt; is_signed(first_signed(b"0"), 0, ""));
    assert!(rt; first_signed(b"-0").is_none());
    assert!(rt; first_signed(b"-").is_none());
    assert!(rt; first_signed(b"9223372036854775808").is_none());
    Ok(())
}

#[test]
fn tells_what_follows_a_text(rt: HostRuntime) -> Result<(), Fail> {
    assert!(rt; is_word(behind(b"read stock", "read "), "stock"));
    assert!(rt; is_word(behind(b"read", "read"), ""));
    assert!(rt; behind(b"rea", "read").is_none());
    assert!(rt; behind(b"reap", "read").is_none());
    Ok(())
}
