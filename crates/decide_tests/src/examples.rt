// Small problems, worked by hand.

// Three pipes in a loop, whose flows no halving finds.
pub const LOOP: &str = "gasflat 1\n\
    node a 4000000 6000000 150000000 150000000\n\
    node b 4000000 6000000 -100000000 -100000000\n\
    node c 4000000 6000000 -50000000 -50000000\n\
    pipe ab a b -1000000000 1000000000 390 410 1000000\n\
    pipe bc b c -1000000000 1000000000 390 410 1000000\n\
    pipe ac a c -1000000000 1000000000 390 410 1000000\n\
    end\n";

// A station whose flow goes against its way, so that it must be in bypass for the nodes behind it.
pub const BYPASS: &str = "gasflat 1\n\
    node a 3000000 6000000 -100000000 -100000000\n\
    node b 3000000 6000000 0 0\n\
    node c 3000000 6000000 100000000 100000000\n\
    station s a b -1000000000 1000000000 0 100000000 3 2 2000000\n\
    pipe p b c -1000000000 1000000000 390 410 1000000\n\
    end\n";

// A control valve whose set point lies between the lower bound before it and the upper bound behind it.
pub const CONTROL: &str = "gasflat 1\n\
    node a 7000000 8000000 100000000 100000000\n\
    node b 3000000 5000000 0 0\n\
    node c 4500000 5000000 -100000000 -100000000\n\
    control k a b 0 1000000000 0 100000000 0 4000000\n\
    pipe p b c -1000000000 1000000000 390 410 1000000\n\
    end\n";

// A group whose first decision strands a sink.
pub const STRANDS: &str = "gasflat 1\n\
    node a 4000000 6000000 100000000 100000000\n\
    node b 3000000 6000000 -60000000 -60000000\n\
    node c 3000000 6000000 -40000000 -40000000\n\
    valve v a b -1000000000 1000000000\n\
    valve w a c -1000000000 1000000000\n\
    pipe p b c 0 0 390 410 1000000\n\
    group g\n\
    decision first\n\
    set v open\n\
    set w closed\n\
    decision second\n\
    set v open\n\
    set w open\n\
    end\n";

// Two sources with room.
pub const ROOM: &str = "gasflat 1\n\
    node a 4000000 6000000 0 200000000\n\
    node b 4000000 6000000 0 200000000\n\
    node c 4000000 6000000 -100000000 -100000000\n\
    pipe ac a c -1000000000 1000000000 390 410 1000000\n\
    pipe bc b c -1000000000 1000000000 390 410 1000000\n\
    pipe ab a b -1000000000 1000000000 390 410 1000000\n\
    end\n";

// Two nodes joined by nothing, with supplies that can't meet.
pub const APART: &str = "gasflat 1\n\
    node a 4000000 6000000 1 1\n\
    node b 4000000 6000000 -1 -1\n\
    end\n";

// Two equal pipes share a flow of 1, one half each, which no whole numbers do exactly.
pub const HALVES: &str = "gasflat 1\n\
    node a 5 5 1 1\n\
    node b 4 5 -1 -1\n\
    pipe p a b -10 10 1 1 1\n\
    pipe r a b -10 10 1 1 1\n\
    end\n";

// Seven groups that may be as they like, and a last one of which no decision serves the sink: open, its valve joins
// pressures that differ, and closed it cuts the sink off.
pub const LAST_GROUP: &str = "gasflat 1\n\
    node a 1 5 1 1\n\
    node b 1 5 0 0\n\
    node c 10 12 -1 -1\n\
    valve v1 a b -10 10\n\
    valve v2 a b -10 10\n\
    valve v3 a b -10 10\n\
    valve v4 a b -10 10\n\
    valve v5 a b -10 10\n\
    valve v6 a b -10 10\n\
    valve v7 a b -10 10\n\
    valve w b c -10 10\n\
    group g1\n\
    decision first\n\
    set v1 open\n\
    decision second\n\
    set v1 closed\n\
    group g2\n\
    decision first\n\
    set v2 open\n\
    decision second\n\
    set v2 closed\n\
    group g3\n\
    decision first\n\
    set v3 open\n\
    decision second\n\
    set v3 closed\n\
    group g4\n\
    decision first\n\
    set v4 open\n\
    decision second\n\
    set v4 closed\n\
    group g5\n\
    decision first\n\
    set v5 open\n\
    decision second\n\
    set v5 closed\n\
    group g6\n\
    decision first\n\
    set v6 open\n\
    decision second\n\
    set v6 closed\n\
    group g7\n\
    decision first\n\
    set v7 open\n\
    decision second\n\
    set v7 closed\n\
    group h\n\
    decision first\n\
    set w open\n\
    decision second\n\
    set w closed\n\
    end\n";
