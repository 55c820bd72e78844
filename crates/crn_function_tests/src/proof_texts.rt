//! Tests of crn_cert_text.

use crn_cert_text::{CheckError, check_text, make_proof, print_proved, read_proved, verify};
use crn_formula::FunctionKind;
use crn_function_text::read_function;
use crn_pieces::check_pieces;
use crn_token::Counted;
use std::alloc::{AllocError, Global};
use std::test::Fail;

const ABSOLUTE_VALUE: &str = "function pieces
variables 1
piece x1
when x1 >= 0
piece -x1
when -x1 >= 0
";

const ITS_PROOF: &str = "pair 1 2 0 1 1
pair 2 1 1 0 1
split
close 1 1
";

// A function with one piece, which holds everywhere.
const ONE_PIECE: &str = "function pieces
variables 1
piece x1
";

const GREATEST_OF_THREE: &str = "function pieces
variables 3
piece x1
when x1 - x2 >= 0
when x1 - x3 >= 0
piece x2
when -x1 + x2 >= 0
when x2 - x3 >= 0
piece x3
when -x1 + x3 >= 0
when -x2 + x3 >= 0
";

// The text that is printed of a function whose pieces cover its domain and agree on it, with the proof that is made.
fn proved(alloc: Global, text: &str) -> Result<Vec<u8>, Fail> {
    let function = read_function(alloc, text.as_bytes())?;
    if !matches!(function.kind(), FunctionKind::Pieces(_)) {
        return Err(Fail::new("it is given by pieces"));
    }
    let checked = check_pieces(alloc, function)?;
    let proof = make_proof(alloc, &checked)?;
    Ok(print_proved(alloc, &checked, &proof)?)
}

// What is answered to the lines of a function and of a proof.
fn told(
    alloc: Global,
    function: &str,
    proof: &str,
) -> Result<Result<usize, CheckError>, AllocError> {
    let text = [function, proof].concat(alloc)?;
    Ok(check_text(alloc, text.as_bytes()))
}

#[test]
fn made_and_printed(rt: HostRuntime) -> Result<(), Fail> {
    let alloc = rt.alloc();
    let text = proved(alloc, ABSOLUTE_VALUE)?;
    let want = [ABSOLUTE_VALUE, ITS_PROOF].concat(alloc)?;
    assert!(rt; text.as_slice() == want.as_bytes());
    assert!(rt; check_text(alloc, text.as_slice()) == Ok(4));
    let text = proved(alloc, ONE_PIECE)?;
    assert!(rt; text.as_slice() == ONE_PIECE.as_bytes());
    assert!(rt; check_text(alloc, text.as_slice()) == Ok(0));
    Ok(())
}

#[test]
fn three_columns(rt: HostRuntime) -> Result<(), Fail> {
    let alloc = rt.alloc();
    let text = proved(alloc, GREATEST_OF_THREE)?;
    assert!(rt; check_text(alloc, text.as_slice()).is_ok());
    Ok(())
}

#[test]
fn read_and_verified(rt: HostRuntime) -> Result<(), Fail> {
    let alloc = rt.alloc();
    let text = [ABSOLUTE_VALUE, ITS_PROOF].concat(alloc)?;
    let read = read_proved(alloc, text.as_bytes())?;
    assert!(rt; read.proof.numbers.as_slice() == [7, 8, 9, 10].as_slice());
    assert!(rt; read.end == 11);
    if !matches!(read.function.kind(), FunctionKind::Pieces(_)) {
        return Err(Fail::new("it is given by pieces"));
    }
    assert!(rt; verify(alloc, &read.function, &read.proof) == Ok(()));
    Ok(())
}

// Each line of the proof left out, written twice, or before the one above it.
#[test]
fn lines_dropped_doubled_and_moved(rt: HostRuntime) -> Result<(), Fail> {
    for (proof, line) in [
        ("pair 2 1 1 0 1\nsplit\nclose 1 1\n", 7),
        ("pair 1 2 0 1 1\nsplit\nclose 1 1\n", 8),
        ("pair 1 2 0 1 1\npair 2 1 1 0 1\nclose 1 1\n", 9),
        ("pair 1 2 0 1 1\npair 2 1 1 0 1\nsplit\n", 10),
        ("", 7),
        (
            "pair 1 2 0 1 1\npair 1 2 0 1 1\npair 2 1 1 0 1\nsplit\nclose 1 1\n",
            8,
        ),
        (
            "pair 1 2 0 1 1\npair 2 1 1 0 1\npair 2 1 1 0 1\nsplit\nclose 1 1\n",
            9,
        ),
        (
            "pair 1 2 0 1 1\npair 2 1 1 0 1\nsplit\nsplit\nclose 1 1\n",
            10,
        ),
        (
            "pair 1 2 0 1 1\npair 2 1 1 0 1\nsplit\nclose 1 1\nclose 1 1\n",
            11,
        ),
        ("pair 2 1 1 0 1\npair 1 2 0 1 1\nsplit\nclose 1 1\n", 7),
        ("pair 1 2 0 1 1\nsplit\npair 2 1 1 0 1\nclose 1 1\n", 8),
        ("pair 1 2 0 1 1\npair 2 1 1 0 1\nclose 1 1\nsplit\n", 9),
    ] {
        let answer = told(rt.alloc(), ABSOLUTE_VALUE, proof)?;
        assert!(rt; answer == Err(CheckError::NotProved { line }), "{proof}");
    }
    Ok(())
}

// A line of the proof changed.
#[test]
fn lines_changed(rt: HostRuntime) -> Result<(), Fail> {
    for (proof, line) in [
        ("pair 1 2 1 1 1\npair 2 1 1 0 1\nsplit\nclose 1 1\n", 7),
        ("pair 1 2 0 1\npair 2 1 1 0 1\nsplit\nclose 1 1\n", 7),
        ("pair 2 1 0 1 1\npair 2 1 1 0 1\nsplit\nclose 1 1\n", 7),
        ("close 1 1\npair 2 1 1 0 1\nsplit\nclose 1 1\n", 7),
        ("pair 1 2 0 1 1\npair 2 1 0 1 1\nsplit\nclose 1 1\n", 8),
        ("pair 1 2 0 1 1\npair 1 2 1 0 1\nsplit\nclose 1 1\n", 8),
        ("pair 1 2 0 1 1\npair 2 1 1 0 1\nclose 1\nclose 1 1\n", 9),
        ("pair 1 2 0 1 1\npair 2 1 1 0 1\nclose 0\nclose 1 1\n", 9),
        ("pair 1 2 0 1 1\npair 2 1 1 0 1\nsplit\nclose 1 0\n", 10),
        ("pair 1 2 0 1 1\npair 2 1 1 0 1\nsplit\nclose 0 0\n", 10),
        ("pair 1 2 0 1 1\npair 2 1 1 0 1\nsplit\nclose 1\n", 10),
        ("pair 1 2 0 1 1\npair 2 1 1 0 1\nsplit\nsplit\n", 10),
        (
            "pair 1 2 0 1 1\npair 2 1 1 0 1\nsplit\nclose 576460752303423489 576460752303423489\n",
            10,
        ),
    ] {
        let answer = told(rt.alloc(), ABSOLUTE_VALUE, proof)?;
        assert!(rt; answer == Err(CheckError::NotProved { line }), "{proof}");
    }
    Ok(())
}

#[test]
fn other_certificates(rt: HostRuntime) -> Result<(), Fail> {
    for (function, proof, count) in [
        (
            ABSOLUTE_VALUE,
            "# twice as much\npair 1 2 0 2 2\n\npair 2 1 3 0 3\nsplit\nclose 5 5",
            4,
        ),
        (
            ABSOLUTE_VALUE,
            "pair 1 2 0 1 1\npair 2 1 1 0 1\nsplit\nclose 576460752303423488 576460752303423488\n",
            4,
        ),
        (ONE_PIECE, "", 0),
    ] {
        let answer = told(rt.alloc(), function, proof)?;
        assert!(rt; answer == Ok(count), "{proof}");
    }
    Ok(())
}

#[test]
fn other_refusals(rt: HostRuntime) -> Result<(), Fail> {
    for (function, proof, error) in [
        (
            ABSOLUTE_VALUE,
            "pair 0 2 0 1 1\n",
            CheckError::Malformed { line: 7 },
        ),
        (
            ABSOLUTE_VALUE,
            "split\npair 1 2\n",
            CheckError::Malformed { line: 8 },
        ),
        (
            ABSOLUTE_VALUE,
            "split 1\n",
            CheckError::Malformed { line: 7 },
        ),
        (ABSOLUTE_VALUE, "close\n", CheckError::Malformed { line: 7 }),
        (
            ABSOLUTE_VALUE,
            "close -1\n",
            CheckError::Malformed { line: 7 },
        ),
        (
            ABSOLUTE_VALUE,
            "piece x1\nopen\n",
            CheckError::Malformed { line: 8 },
        ),
        (ONE_PIECE, "close 1\n", CheckError::NotProved { line: 4 }),
        (
            "function formula\nvariables 1\nvalue x1\n",
            "",
            CheckError::WrongKind,
        ),
        (
            "function pieces\nvariables 9\n",
            "",
            CheckError::Limit {
                what: Counted::Variables,
                count: 9,
            },
        ),
    ] {
        let answer = told(rt.alloc(), function, proof)?;
        assert!(rt; answer == Err(error), "{function}{proof}");
    }
    Ok(())
}
