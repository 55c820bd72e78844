//! Tests of crn_token.

use crn_token::{Line, Token, token_lines};
use std::alloc::Global;
use std::fmt::Write;
use std::test::Fail;

// The tokens of a line, each with where it begins and ends in the text.
fn shown(alloc: Global, line: &Line) -> Result<String, Fail> {
    let mut text = String::new(alloc);
    for token in &line.tokens {
        match token {
            Token::Word(span) => write!(
                text,
                "word at {}, {}..{}\n",
                span.line, span.start, span.end
            )?,
            Token::Number(number, span) => {
                write!(
                    text,
                    "{number} at {}, {}..{}\n",
                    span.line, span.start, span.end
                )?
            }
            Token::Symbol(sign, span) => {
                write!(
                    text,
                    "{sign:?} at {}, {}..{}\n",
                    span.line, span.start, span.end
                )?
            }
        }
    }
    Ok(text)
}

#[test]
fn cuts_a_text(rt: HostRuntime) -> Result<(), Fail> {
    let text = b"# least of two\r\n\r\nvalue\tmin(x1,2/3) # end\n - >=->:+)\n#\n2x1";
    let lines = token_lines(rt.alloc(), text)?;
    assert!(rt; lines.count == 6);
    assert!(rt; lines.lines.len() == 3);
    for (index, number, wanted) in [
        (
            0,
            3,
            "word at 3, 18..23
word at 3, 24..27
LeftParen at 3, 27..28
word at 3, 28..29
1 at 3, 29..30
Comma at 3, 30..31
2 at 3, 31..32
Slash at 3, 32..33
3 at 3, 33..34
RightParen at 3, 34..35
",
        ),
        (
            1,
            4,
            "Minus at 4, 43..44
AtLeast at 4, 45..47
Arrow at 4, 47..49
Colon at 4, 49..50
Plus at 4, 50..51
RightParen at 4, 51..52
",
        ),
        (
            2,
            6,
            "2 at 6, 55..56
word at 6, 56..57
1 at 6, 57..58
",
        ),
    ] {
        let line = &lines.lines[index];
        assert!(rt; line.number == number && !line.bad);
        assert!(rt; shown(rt.alloc(), line)?.as_str() == wanted);
    }
    Ok(())
}

#[test]
fn reads_numbers(rt: HostRuntime) -> Result<(), Fail> {
    for (text, wanted) in [
        ("0", "0 at 1, 0..1\n"),
        ("00", ""),
        ("03", ""),
        ("9223372036854775807", "9223372036854775807 at 1, 0..19\n"),
        ("9223372036854775808", ""),
        ("18446744073709551621", ""),
        ("99999999999999999999999999", ""),
    ] {
        let lines = token_lines(rt.alloc(), text.as_bytes())?;
        assert!(rt; lines.lines.len() == 1, "{text}");
        let line = &lines.lines[0];
        assert!(rt; line.bad == wanted.is_empty(), "{text}");
        assert!(rt; shown(rt.alloc(), line)?.as_str() == wanted, "{text}");
    }
    Ok(())
}

#[test]
fn a_bad_line_keeps_no_token(rt: HostRuntime) -> Result<(), Fail> {
    for text in ["a ; b\nc", "->=\nc", "x > y\nc", "input 03/2 1/2\nc"] {
        let lines = token_lines(rt.alloc(), text.as_bytes())?;
        assert!(rt; lines.lines.len() == 2, "{text}");
        assert!(rt;
            lines.lines[0].bad && lines.lines[0].tokens.is_empty(),
            "{text}"
        );
        assert!(rt; !lines.lines[1].bad, "{text}");
    }
    Ok(())
}

#[test]
fn reads_every_byte(rt: HostRuntime) -> Result<(), Fail> {
    let mut text = Vec::new(rt.alloc());
    for byte in 0..=255u8 {
        text.push(byte)?;
        text.push(b'\n')?;
    }
    let lines = token_lines(rt.alloc(), text.as_slice())?;
    assert!(rt; lines.count == 257);
    let mut bad = 0usize;
    for line in &lines.lines {
        if line.bad {
            bad = bad.saturating_add(1);
        }
    }
    // 62 letters and digits and 7 symbols are tokens; 3 blanks, a comment and a line feed leave nothing.
    assert!(rt; bad == 182);
    assert!(rt; lines.lines.len() == 251);
    Ok(())
}

#[test]
fn an_empty_text_has_no_line(rt: HostRuntime) -> Result<(), Fail> {
    let lines = token_lines(rt.alloc(), b"")?;
    assert!(rt; lines.count == 0);
    assert!(rt; lines.lines.is_empty());
    Ok(())
}
