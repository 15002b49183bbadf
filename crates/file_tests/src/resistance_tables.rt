use res_table::{ResFault, ResRow, ResWord, read_res};
use std::test::Fail;

fn numbers(row: &ResRow) -> (ResWord, i64, i64, i64) {
    (row.word, row.a, row.b, row.c)
}

#[test]
fn rows_stand_in_order_without_a_header(rt: HostRuntime) -> Result<(), Fail> {
    let text =
        b"\xEF\xBB\xBFpipe,pipe_1,390,410,1000000\r\n\r\nresistor,\"r,1\",1,1,274877906944\nstation,s,3,2,0";
    let table = read_res(rt.alloc(), text.as_slice())?;
    let [pipe, resistor, station] = table.rows.as_slice() else {
        return Err("three rows")?;
    };
    assert_eq!(rt; numbers(pipe), (ResWord::Pipe, 390, 410, 1000000));
    assert_eq!(rt; pipe.id.as_str(), "pipe_1");
    assert_eq!(rt; numbers(resistor), (ResWord::Resistor, 1, 1, 274877906944));
    assert_eq!(rt; resistor.id.as_str(), "r,1");
    assert_eq!(rt; numbers(station), (ResWord::Station, 3, 2, 0));
    Ok(())
}

// Each table has memory enough, and its fault is that of a record: no other error of the reader of records comes.
#[test]
fn the_first_bad_record_is_named(rt: HostRuntime) {
    let tables: [(&[u8], u64); 15] = [
        (b"pipe,pipe_1,2,1,1", 1),
        (b"\npipe,p,1,1,1\n\npipe,p,1,1\npipe\n", 2),
        (b"pipe,p,1,1,1,1", 1),
        (b"pipes,p,1,1,1", 1),
        (b"pipe,,1,1,1", 1),
        (b"pipe,\xFF,1,1,1", 1),
        (b"pipe,a b,1,1,1", 1),
        (b"pipe,p,01,1,1", 1),
        (b"pipe,p,-1,1,1", 1),
        (b"pipe,p,1, 1,1", 1),
        (b"pipe,p,0,1,1", 1),
        (b"pipe,p,1,274877906945,1", 1),
        (b"pipe,p,1,18446744073709551617,1", 1),
        (b"station,s,1048577,1,0", 1),
        (b"station,s,1,1,400000001", 1),
    ];
    for (table, row) in tables {
        assert_eq!(rt;
            read_res(rt.alloc(), table).err(),
            Some(ResFault::BadRow { row })
        );
    }
}
