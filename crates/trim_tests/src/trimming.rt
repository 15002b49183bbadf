// A flow of 4 would need a drop of 16 Pa^2, and at most 9 are there: what its refutations need.
use flat_text::read_flat;
use std::test::Fail;
use tree_trim::{TrimFault, trim};

const DROP_OF_NINE: &str =
    "gasflat 1\nnode a 5 5 4 4\nnode b 4 9 -4 -4\npipe p a b -10 10 1 1 1\nend\n";

#[test]
fn a_step_that_is_not_needed_goes(rt: HostRuntime) -> Result<(), Fail> {
    let p = read_flat(rt.alloc(), DROP_OF_NINE.as_bytes())?;
    for (tree, trimmed) in [
        (
            "gastree 2\nlo q0 64 balance 0\nhi q0 64 balance 0\nclose pipe 0\nend\n",
            "gastree 2\nlo q0 64 balance 0\nclose pipe 0\nend\n",
        ),
        (
            "gastree 1\nlo q0 4 balance 0\nhi q0 4 balance 0\nclose pipe 0\nend\n",
            "gastree 1\nlo q0 4 balance 0\nclose pipe 0\nend\n",
        ),
    ] {
        let text = trim(rt.alloc(), &p, tree.as_bytes())?;
        assert_eq!(rt; text.as_slice(), trimmed.as_bytes());
    }
    Ok(())
}

#[test]
fn a_text_that_leaves_a_box_open_is_refused(rt: HostRuntime) -> Result<(), Fail> {
    let p = read_flat(rt.alloc(), DROP_OF_NINE.as_bytes())?;
    let open = "gastree 2\nlo q0 64 balance 0\nhi q0 64 balance 0\nopen\nend\n";
    let fault = trim(rt.alloc(), &p, open.as_bytes()).err();
    assert_eq!(rt; fault, Some(TrimFault::LeftOpen { line: 4 }));
    Ok(())
}
