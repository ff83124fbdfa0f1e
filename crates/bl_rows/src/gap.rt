//! The text of an answer within the gap.

use bl_mps::read;
use bl_report::answer_text;
use bl_tree::Answer;
use std::test::Fail;

/// 2X + 3Y at least 50, where X and Y are at most 10.
const COVER: &[u8] = b"NAME
ROWS
 N  COST
 G  R1
COLUMNS
    M  'MARKER'  'INTORG'
    X  COST  2  R1  2
    Y  COST  3  R1  3
    M  'MARKER'  'INTEND'
RHS
    RHS  R1  50
BOUNDS
 UP BND X 10
 UP BND Y 10
ENDATA
";

#[test]
fn an_answer_within_the_gap_is_told(rt: HostRuntime) -> Result<(), Fail> {
    let alloc = rt.alloc();
    let Ok(problem) = read(alloc, COVER) else {
        return Err(Fail::new("the model is refused"));
    };
    let point = [10, 10];
    let answer = Answer::Within {
        value: 50,
        bound: 47,
        point: point.as_slice(),
    };
    let text = answer_text(alloc, &problem, &answer, true)?;
    let want = b"status within\nbound 47\nobjective 50\ncol X 10\ncol Y 10\nend\n";
    assert!(rt; text.as_slice() == want.as_slice());
    Ok(())
}
