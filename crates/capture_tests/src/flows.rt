use flow_base::{
    CountSink, Failed, MemSink, MemSource, Sink, Source, Status, StdSink, StdSource, SureSource,
    write_all,
};
use std::test::Fail;

#[test]
fn a_source_gives_pieces_and_fails_where_told(rt: HostRuntime) -> Result<(), Fail> {
    let mut source = MemSource::new(rt.alloc(), b"abcdefgh", 3, &[1, 4])?;
    let mut sure = SureSource::new(rt.alloc(), b"abcdefgh")?;
    let rows = [
        (Ok(3), b'a', 5),
        (Err(Failed), b'a', 3),
        (Ok(3), b'd', 0),
        (Ok(2), b'g', 0),
        (Err(Failed), b'g', 0),
        (Ok(0), b'g', 0),
    ];
    let mut buf = [b'.'; 5];
    for (want, first, sure_count) in rows {
        assert!(rt; source.read(&mut buf) == want);
        assert!(rt; buf[0] == first);
        let mut other = [b'.'; 5];
        assert!(rt; sure.read(&mut other) == Ok(sure_count));
    }
    assert!(rt; source.calls() == 6);
    Ok(())
}

#[test]
fn a_sink_fails_at_full_room_and_where_told(rt: HostRuntime) -> Result<(), Fail> {
    let rows: [(u32, &[u32], &[u8], bool); 6] = [
        (8, &[], b"abcdefgh", true),
        (7, &[], b"abcdefg", false),
        (0, &[], b"", false),
        (8, &[0], b"", false),
        (8, &[2], b"abcdef", false),
        (8, &[3], b"abcdefgh", true),
    ];
    for (room, failing, held, whole) in rows {
        let mut sink = MemSink::in_pieces(rt.alloc(), room, 3, failing)?;
        assert!(rt; write_all(&mut sink, b"abcdefgh").is_ok() == whole);
        assert!(rt; sink.held() == held);
    }
    let mut sink = MemSink::new(rt.alloc(), 5, &[2])?;
    assert!(rt; sink.write(b"abc") == Ok(3));
    assert!(rt; sink.write(b"defgh") == Ok(2));
    assert!(rt; write_all(&mut sink, b"").is_ok() == true);
    assert!(rt; sink.write(b"fgh") == Err(Failed));
    assert!(rt; sink.held() == b"abcde".as_slice());
    Ok(())
}

#[test]
fn the_adapters_pass_bytes_on(rt: HostRuntime) -> Result<(), Fail> {
    let mut source = StdSource::new(b"abc".as_slice());
    let mut buf = [b'.'; 2];
    assert!(rt; source.read(&mut buf) == Ok(2));
    assert!(rt; buf == *b"ab");
    assert!(rt; source.read(&mut buf) == Ok(1));
    assert!(rt; source.read(&mut buf) == Ok(0));
    let mut room = [b'.'; 4];
    let mut sink = StdSink::new(room.as_mut_slice());
    assert!(rt; write_all(&mut sink, b"abc").is_ok() == true);
    assert!(rt; write_all(&mut sink, b"de").is_ok() == false);
    drop(sink);
    assert!(rt; room == *b"abcd");
    Ok(())
}

#[test]
fn bytes_are_counted(rt: HostRuntime) {
    let mut sink = CountSink::new();
    assert!(rt; write_all(&mut sink, b"abc").is_ok() == true);
    assert!(rt; write_all(&mut sink, b"de").is_ok() == true);
    assert!(rt; sink.bytes() == 5);
}

#[test]
fn a_status_has_its_number(rt: HostRuntime) {
    let all = [
        Status::Done,
        Status::Usage,
        Status::ReadFault,
        Status::WriteFault,
        Status::BadCapture,
        Status::TooMany,
        Status::NoMemory,
        Status::Differs,
    ];
    for (number, status) in all.iter().enumerate() {
        assert!(rt; usize::from(status.code()) == number);
    }
}
