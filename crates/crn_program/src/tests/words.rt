//! `bulk`: the reports of jobs that are drawn, and words that are no command.
use super::answers;
use crate::status::Status;
use std::test::Fail;

#[test]
fn reports(rt: HostRuntime) -> Result<(), Fail> {
    for (size, report) in [
        (
            "1",
            "bulk 1
species 12 reactions 4
segments 4
completion 4
plus 57
minus 249
value -192
",
        ),
        (
            "2",
            "bulk 2
species 18 reactions 12
segments 0
completion 12
plus 97
minus 175
value -78
",
        ),
        (
            "3",
            "bulk 3
species 28 reactions 20
segments 2
completion 20
plus 256
minus 118
value 138
",
        ),
        (
            "10",
            "bulk 10
species 72 reactions 67
segments 14
completion 67
plus 925
minus 763
value 162
",
        ),
        (
            "1000",
            "bulk 1000
species 7034 reactions 6518
segments 888
completion 6518
plus 78584
minus 77555
value 1029
",
        ),
    ] {
        answers(&rt, rt.alloc(), &["bulk", size], "", Status::Done, report)?;
    }
    Ok(())
}

#[test]
fn other_words(rt: HostRuntime) -> Result<(), Fail> {
    for words in [
        [].as_slice(),
        &["Complete"],
        &[""],
        &["--help"],
        &["complete", ""],
        &["Compile"],
        &["compile", "1"],
        &["complete-Gated"],
        &["compile-gated", ""],
        &["bulk"],
        &["bulk", "0"],
        &["bulk", "01"],
        &["bulk", "+1"],
        &["bulk", "1001"],
        &["bulk", "4294967297"],
        &["bulk", "1", "1"],
        &["complete", "complete"],
    ] {
        answers(
            &rt,
            rt.alloc(),
            words,
            "",
            Status::Usage,
            "refused: usage\n",
        )?;
    }
    Ok(())
}
