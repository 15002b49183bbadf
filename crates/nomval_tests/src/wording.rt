// Words that aren't plain.
use crate::desks::{ends, problem_desk};
use std::test::Fail;

#[test]
fn other_words_are_refused_where_they_leave_the_form(rt: HostRuntime) -> Result<(), Fail> {
    let alloc = rt.alloc();
    let cases: [(&[&str], &str); 20] = [
        (&[], "usage word 0\n"),
        (&["solve"], "usage word 1\n"),
        (&["flat", "n", "s", "none", "r"], "usage word 5\n"),
        (&["check", "n", "s", "-c", "r", "t"], "usage word 3\n"),
        (&["solve-flat", "-p", "o"], "usage word 1\n"),
        (&["solve-flat", "p"], "usage word 2\n"),
        (&["replay-flat", "p", ""], "usage word 2\n"),
        (&["check-flat", "p", "t", "--tol", "0"], "usage word 3\n"),
        (&["solve-flat", "p", "o", "--tol"], "usage word 4\n"),
        (&["solve-flat", "p", "o", "--tol=0"], "usage word 3\n"),
        (&["solve-flat", "p", "o", "--tol", "00"], "usage word 4\n"),
        (
            &["solve-flat", "p", "o", "--tol", "10000000000000001"],
            "usage word 4\n",
        ),
        (
            &["replay-flat", "p", "s", "--tol", "0", "--tol", "0"],
            "usage word 5\n",
        ),
        (&["replay-flat", "p", "s", "--boxes", "1"], "usage word 3\n"),
        (&["solve-flat", "p", "o", "--boxes"], "usage word 4\n"),
        (&["solve-flat", "p", "o", "--boxes", "0"], "usage word 4\n"),
        (
            &["solve-flat", "p", "o", "--boxes", "16385"],
            "usage word 4\n",
        ),
        (
            &["solve-flat", "p", "o", "--boxes", "1", "--boxes", "1"],
            "usage word 5\n",
        ),
        (
            &["solve-flat", "p", "o", "--boxes", "1", "--tol", "x"],
            "usage word 6\n",
        ),
        (
            &[
                "solve", "n", "s", "none", "r", "o", "--tol", "0", "--boxes", "1", "p",
            ],
            "usage word 10\n",
        ),
    ];
    for (words, said) in cases {
        let mut desk = problem_desk(alloc, "")?;
        assert!(rt; ends(alloc, &mut desk, words, 64, said));
    }
    Ok(())
}
