//! Words and numbers. Their contracts say what is a word, and what stands for which number.
use crate::same::same;
use std::test::Fail;
use text_io::words::{count_of, integer, number, small_number, words};

#[test]
fn words_and_numbers_are_read(rt: HostRuntime) -> Result<(), Fail> {
    let cut = words(rt.alloc(), b"  a\tb c\n")?;
    assert!(rt; cut.as_slice() == [b"a\tb".as_slice(), b"c".as_slice()].as_slice());
    let most = Some(18_446_744_073_709_551_615);
    same(&rt, number(b"018446744073709551615"), most, "a number");
    same(&rt, small_number(b"4294967296"), None, "a small number");
    same(&rt, count_of(32, b"032"), Some(32), "a count");
    let least = Some(-9_223_372_036_854_775_808);
    same(&rt, integer(b"-9223372036854775808"), least, "an integer");
    Ok(())
}
