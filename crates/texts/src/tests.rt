// Texts at their edges: nothing, comments alone, words that are no numbers, numbers beyond a word.
// And lines as they are written.
use crate::error::TextError;
use crate::whole::{read_into, read_numbers};
use crate::written::{write_line, write_lines};
use refusals::Refusal;
use std::test::Fail;

// How many numbers a text holds, where four are room enough.
fn count(text: &[u8]) -> Result<usize, TextError> {
    let mut room = [0; 4];
    read_into(text, &mut room)
}

// The first number of a text, or 0.
fn first(text: &[u8]) -> Result<u32, TextError> {
    let mut room = [0; 4];
    read_into(text, &mut room)?;
    Ok(room[0])
}

#[test]
fn texts_and_their_gaps(rt: HostRuntime) {
    let texts: [(&[u8], usize); 6] = [
        (b"", 0),
        (b" \n\r\n ", 0),
        (b"#", 0),
        (b"# 1 two\n#3\n", 0),
        (b"7 8\n# nine\n10", 3),
        (b"1\r\n2\r\n", 2),
    ];
    for (text, numbers) in texts {
        assert_eq!(rt; count(text), Ok(numbers));
    }
    assert_eq!(rt; count(b"1 2 3 4 5"), Err(TextError::TooMany));
}

#[test]
fn words_that_are_no_numbers(rt: HostRuntime) {
    let texts: [&[u8]; 6] = [
        b"12a",
        b"-1",
        b"1\t2",
        b"1 #2",
        b" # spaced",
        b"1 2 3 4 5 six",
    ];
    for text in texts {
        assert_eq!(rt; count(text), Err(TextError::NoNumber));
    }
    let refusal = TextError::NoNumber.refusal();
    assert_eq!(rt; refusal.map(Refusal::number), Some(5));
}

#[test]
fn numbers_at_the_edge(rt: HostRuntime) {
    let texts: [(&[u8], u32); 5] = [
        (b"007", 7),
        (b"4294967295", 4294967295),
        (b"4294967296", 4294967295),
        (
            b"1000000000000000000000000000000000000000000000000000000000000000000000000000000000000000000000000000",
            4294967295,
        ),
        (
            b"0000000000000000000000000000000000000000000000000000000000000000000000000000000000000000000000000042",
            42,
        ),
    ];
    for (text, number) in texts {
        assert_eq!(rt; first(text), Ok(number));
    }
}

#[test]
fn lines_and_back(rt: HostRuntime) -> Result<(), Fail> {
    let heap = rt.alloc();
    let numbers = [
        0, 1, 20, 300, 4294967295, 5, 6, 7, 8, 9, 10, 11, 12, 13, 14, 15, 16,
    ];
    let line = write_line(heap, &numbers[0..5])?;
    assert_eq!(rt; line.as_str(), "0 1 20 300 4294967295");
    let lines = write_lines(heap, &numbers)?;
    assert_eq!(rt;
        lines.as_str(),
        "0 1 20 300 4294967295 5 6 7 8 9 10 11 12 13 14 15\n16\n"
    );
    let again = read_numbers(heap, lines.as_bytes())?;
    assert_eq!(rt; again.as_slice(), &numbers[0..17]);
    Ok(())
}
