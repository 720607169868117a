// The marks of apart, given as another crate gives them.
use apart::marks::{Pen, touch_all, touch_row};
use apart::net::Net;
use matrix::limits::MAX_ROWS;
use matrix::lists::Matrix;
use symmetric::is_matrix;

// Two children of one parent.
const FIRST: Pen = Pen { low: 0, mine: 1 };

const SECOND: Pen = Pen { low: 0, mine: 2 };

#[test]
fn rows_of_a_list_are_touched(rt: HostRuntime) {
    let mut marks = [0u32; MAX_ROWS];
    assert!(rt; touch_all(&mut marks, &[4, 2, 7], FIRST));
    assert_eq!(rt; &marks[..8], [0, 0, 1, 0, 1, 0, 0, 1].as_slice());
    assert!(rt;
        !touch_all(&mut marks, &[3, 7, 5], SECOND),
        "row 7 has the first child's mark"
    );
}

#[test]
fn a_row_and_those_adjacent_to_it_are_touched(rt: HostRuntime) {
    let m = Matrix {
        n: 4,
        starts: &[0, 2, 5, 8, 10],
        columns: &[0, 1, 0, 1, 2, 1, 2, 3, 2, 3],
        values: &[2, -1, -1, 2, -1, -1, 2, -1, -1, 2],
    };
    assert!(rt; is_matrix(&m));
    let net = Net { m };
    let mut marks = [0u32; MAX_ROWS];
    assert!(rt; touch_row(&net, &mut marks, 2, FIRST));
    assert_eq!(rt; &marks[..4], [0, 1, 1, 1].as_slice());
    assert!(rt;
        !touch_row(&net, &mut marks, 0, SECOND),
        "row 1, adjacent to 0, has the first child's mark"
    );
}
