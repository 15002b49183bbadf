// What `replay-flat` says of settings.
use crate::desks::{desk_of_two, ends};
use gas_model::NoMemory;
use std::alloc::Global;
use std::test::Fail;

// Whether the setting ends so on the problem of these lines, with this tolerance.
fn replays(
    alloc: Global,
    lines: &str,
    setting: &str,
    tol: &str,
    exit: u8,
    said: &str,
) -> Result<bool, NoMemory> {
    let mut desk = desk_of_two(alloc, lines, setting.as_bytes())?;
    let words = ["replay-flat", "p", "s", "--tol", tol];
    Ok(ends(alloc, &mut desk, &words, exit, said))
}

#[test]
fn a_setting_is_replayed(rt: HostRuntime) -> Result<(), Fail> {
    let alloc = rt.alloc();
    // A flow of 3 from a at 5 Pa leaves 25 - 9 = 16 at b.
    let three = "node a 5 5 3 3\nnode b 0 9 -3 -3\npipe p a b -10 10 1 1 1\n";
    for (setting, exit, said) in [
        (
            "{\"arcs\":[[\"p\",\"open\",3]],\"decisions\":[],\"nodes\":[[\"a\",25],[\"b\",16]]}",
            0,
            "kept\n",
        ),
        // 4 l/h aren't what a brings in, which comes before the drop.
        (
            "{\"arcs\":[[\"p\",\"open\",4]],\"decisions\":[],\"nodes\":[[\"a\",25],[\"b\",16]]}",
            3,
            "broken balance a\n",
        ),
        // The squares drop by 8 in place of 9.
        (
            "{\"arcs\":[[\"p\",\"open\",3]],\"decisions\":[],\"nodes\":[[\"a\",25],[\"b\",17]]}",
            3,
            "broken law p\n",
        ),
        (
            "{\"arcs\":[[\"p\",\"open\",11]],\"decisions\":[],\"nodes\":[[\"a\",25],[\"b\",16]]}",
            3,
            "broken flow p\n",
        ),
        (
            "{\"arcs\":[[\"p\",\"open\",3]],\"decisions\":[],\"nodes\":[[\"a\",24],[\"b\",16]]}",
            3,
            "broken pressure a\n",
        ),
        (
            "{\"arcs\":[[\"p\",\"open\",10000000000000]],\"decisions\":[],\"nodes\":[[\"a\",25],[\"b\",16]]}",
            65,
            "bad setting wide number arcs\n",
        ),
        (
            "{\"arcs\":[[\"p\",\"closed\",3]],\"decisions\":[],\"nodes\":[[\"a\",25],[\"b\",16]]}",
            65,
            "bad setting not setting arcs\n",
        ),
        ("[", 65, "bad setting not json\n"),
    ] {
        assert!(rt; replays(alloc, three, setting, "0", exit, said)?);
    }
    Ok(())
}

// Each kind of arc in a state in which it carries the flow, with numbers worked by hand.
#[test]
fn each_kind_of_arc_carries_its_flow(rt: HostRuntime) -> Result<(), Fail> {
    let alloc = rt.alloc();
    for (lines, setting, tol) in [
        // 25 - 9 = 16 lies between 1 * 9 and 2 * 9, in a resistor and in a pipe.
        (
            "node a 5 5 3 3\nnode b 3 3 -3 -3\ndrag p a b -10 10 1 2 1\n",
            "{\"arcs\":[[\"p\",\"open\",3]],\"decisions\":[],\"nodes\":[[\"a\",25],[\"b\",9]]}",
            "0",
        ),
        (
            "node a 5 5 3 3\nnode b 3 3 -3 -3\npipe p a b -10 10 1 2 1\n",
            "{\"arcs\":[[\"p\",\"open\",3]],\"decisions\":[],\"nodes\":[[\"a\",25],[\"b\",9]]}",
            "0",
        ),
        // The drop of 1 is off by 1 at the flow 0.
        (
            "node a 5 5 1 1\nnode b 4 5 -1 -1\npipe p a b -10 10 1 1 1\npipe r a b -10 10 1 1 1\n",
            "{\"arcs\":[[\"p\",\"open\",1],[\"r\",\"open\",0]],\"decisions\":[],\"nodes\":[[\"a\",25],[\"b\",24]]}",
            "1",
        ),
        (
            "node a 0 9 3 3\nnode b 0 9 -3 -3\nvalve v a b -10 10\ngroup g\ndecision d\nset v closed\ndecision e\nset v open\n",
            "{\"arcs\":[[\"v\",\"open\",3]],\"decisions\":[[\"g\",\"e\"]],\"nodes\":[[\"a\",40],[\"b\",40]]}",
            "0",
        ),
        // 4 * 36 is 9 * 16.
        (
            "node a 4 4 1 1\nnode b 6 6 -1 -1\nstation c a b 0 10 0 100000000 3 2 100000000\n",
            "{\"arcs\":[[\"c\",\"active\",1]],\"decisions\":[],\"nodes\":[[\"a\",16],[\"b\",36]]}",
            "0",
        ),
        // 36 - 16 - 4 = 16, and 16^2 is 4 * 4 * 16.
        (
            "node a 4 4 1 1\nnode b 6 6 -1 -1\nstation c a b 0 10 0 100000000 1048576 1 2\n",
            "{\"arcs\":[[\"c\",\"active\",1]],\"decisions\":[],\"nodes\":[[\"a\",16],[\"b\",36]]}",
            "0",
        ),
        (
            "node a 5 5 0 0\nnode b 0 9 0 0\nloss r a b -10 10 2 2\n",
            "{\"arcs\":[[\"r\",\"open\",0]],\"decisions\":[],\"nodes\":[[\"a\",25],[\"b\",25]]}",
            "0",
        ),
        // From 5 Pa a loss of 2 Pa leaves 3 Pa.
        (
            "node a 5 5 1 1\nnode b 0 9 -1 -1\nloss r a b -10 10 2 2\n",
            "{\"arcs\":[[\"r\",\"open\",1]],\"decisions\":[],\"nodes\":[[\"a\",25],[\"b\",9]]}",
            "0",
        ),
        // A control valve that takes 2 to 3 Pa leaves 3 of 5 Pa, and a short pipe nothing.
        (
            "node a 5 5 1 1\nnode b 0 9 0 0\nnode c 0 9 -1 -1\ncontrol k a b 0 10 0 100000000 2 3\nshort t b c -10 10\n",
            "{\"arcs\":[[\"k\",\"active\",1],[\"t\",\"open\",1]],\"decisions\":[],\"nodes\":[[\"a\",25],[\"b\",9],[\"c\",9]]}",
            "0",
        ),
    ] {
        assert!(rt; replays(alloc, lines, setting, tol, 0, "kept\n")?);
    }
    Ok(())
}

// A station that a group turns on compresses what the pipes before and after it drop, at the default tolerance.
#[test]
fn a_small_network_is_replayed(rt: HostRuntime) -> Result<(), Fail> {
    let alloc = rt.alloc();
    let lines =
        "node source_1 4000000 6000000 100000000 100000000\nnode innode_1 3000000 6000000 0 0\nnode innode_2 3000000 8000000 0 0\nnode sink_1 4500000 8000000 -100000000 -100000000\npipe pipe_1 source_1 innode_1 -1000000000 1000000000 390 410 1000000\nstation compressorStation_1 innode_1 innode_2 0 1000000000 3000000 8000000 3 2 3000000\npipe pipe_2 innode_2 sink_1 -1000000000 1000000000 390 410 1000000\ngroup group_1\ndecision on\nset compressorStation_1 active\ndecision off\nset compressorStation_1 closed\n";
    let setting =
        "{\"arcs\":[[\"pipe_1\",\"open\",100000000],[\"compressorStation_1\",\"active\",100000000],[\"pipe_2\",\"open\",100000000]],\"decisions\":[[\"group_1\",\"on\"]],\"nodes\":[[\"source_1\",26000000000000],[\"innode_1\",22000000000000],[\"innode_2\",44075000000000],[\"sink_1\",40075000000000]]}";
    let mut desk = desk_of_two(alloc, lines, setting.as_bytes())?;
    assert!(rt; ends(alloc, &mut desk, &["replay-flat", "p", "s"], 0, "kept\n"));
    // The decision that turns the station off doesn't leave it active.
    let off =
        "{\"arcs\":[[\"pipe_1\",\"open\",100000000],[\"compressorStation_1\",\"active\",100000000],[\"pipe_2\",\"open\",100000000]],\"decisions\":[[\"group_1\",\"off\"]],\"nodes\":[[\"source_1\",26000000000000],[\"innode_1\",22000000000000],[\"innode_2\",44075000000000],[\"sink_1\",40075000000000]]}";
    assert!(rt;
        replays(
            alloc,
            lines,
            off,
            "0",
            3,
            "broken choice compressorStation_1\n"
        )?
    );
    Ok(())
}
