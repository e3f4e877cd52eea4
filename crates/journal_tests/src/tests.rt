use hash_rows::{Answer, Mode, Share, Sketch};
use journal_read::{
    is_end, is_head, read_answer, read_key, read_missed, read_options, read_run, read_worker,
};
use packet_key::FlowKey;
use std::test::Fail;

#[test]
fn the_first_and_the_last_line_are_words(rt: HostRuntime) {
    for (line, head, end) in [
        (b"octosketch journal 1\n".as_slice(), true, false),
        (b"end\n", false, true),
        (b"octosketch journal 2\n", false, false),
        (b"octosketch journal 1", false, false),
        (b"end", false, false),
        (b"end \n", false, false),
        (b"", false, false),
    ] {
        assert!(rt; (is_head(line), is_end(line)) == (head, end));
    }
}

#[test]
fn workers_and_runs_have_plain_numbers(rt: HostRuntime) {
    for (line, said) in [
        (b"worker 0 pushes 2 refused 4\n".as_slice(), Some((0, 2, 4))),
        (
            b"worker 18446744073709551615 pushes 0 refused 10\n",
            Some((u64::MAX, 0, 10)),
        ),
        (b"worker 18446744073709551616 pushes 0 refused 10\n", None),
        (b"worker 0 pushes 02 refused 4\n", None),
        (b"worker 0 pushes 2 refused \n", None),
        (b"worker 0 pushes +2 refused 4\n", None),
        (b"worker 0 pushes 2 refused 4", None),
        (b"worker 0 pushes 2 refused 4 \n", None),
        (b"worker 0  pushes 2 refused 4\n", None),
        (b"refused 0 1-3\n", None),
        (b"", None),
    ] {
        let read = read_worker(line);
        assert!(rt; read.map(|w| (w.worker, w.pushes, w.refused)) == said);
    }
    for (line, said) in [
        (b"refused 0 1-3\n".as_slice(), Some((0, 1, 3))),
        (b"refused 15 5-5\n", Some((15, 5, 5))),
        (b"refused 0 5\n", None),
        (b"refused 0 1-3-4\n", None),
        (b"refused 0 -1-3\n", None),
        (b"refused 0 1-3", None),
    ] {
        let read = read_run(line);
        assert!(rt; read.map(|r| (r.worker, r.first, r.last)) == said);
    }
}

#[test]
fn keys_and_the_missed_are_spelt_as_they_are_written(rt: HostRuntime) {
    let key = FlowKey::V4 {
        src: 0x0A000001,
        dst: 0x0A000002,
        sport: 1234,
        dport: 443,
        proto: 6,
    };
    for (line, live) in [
        (b"live 10.0.0.1:1234>10.0.0.2:443/6\n".as_slice(), Some(key)),
        (b"live 10.0.0.1:1234>10.0.0.2:443/06\n", None),
        (b"live 10.0.0.1:1234>10.0.0.2:443/6", None),
        (b"watched 10.0.0.1:1234>10.0.0.2:443/6\n", None),
        (b"live \xff\n", None),
        (b"live", None),
        (b"", None),
    ] {
        assert!(rt; read_key(line, b"live") == live);
    }
    for (line, missed) in [
        (b"missed 0\n".as_slice(), Some(0)),
        (b"missed 18446744073709551615\n", Some(u64::MAX)),
        (b"missed 18446744073709551616\n", None),
        (b"missed -1\n", None),
        (b"missed\n", None),
    ] {
        assert!(rt; read_missed(line) == missed);
    }
}

#[test]
fn the_options_are_lawful(rt: HostRuntime) -> Result<(), Fail> {
    let line =
        b"options sketch count-min rows 1 columns 1 amount packets share turn workers 1 threshold 1 lane 1 batch 32 round 4 full leave mode rounds readers 1 asks 3 heavy 64 least 5\n";
    let read = read_options(rt.alloc(), line)?;
    let said = read.as_ref().map(|o| {
        (
            (o.sketch, o.share, o.mode),
            (o.batch, o.round, o.asks),
            (o.heavy, o.least, o.watch.room()),
        )
    });
    assert!(rt;
        said == Some((
            (Sketch::CountMin, Share::Turn, Mode::Rounds),
            (32, 4, 3),
            (64, 5, 16)
        ))
    );
    Ok(())
}

#[test]
fn other_options_are_none(rt: HostRuntime) -> Result<(), Fail> {
    for line in [
        b"options sketch count-min rows 9 columns 1 amount packets share turn workers 1 threshold 1 lane 1 batch 32 round 4 full leave mode rounds readers 1 asks 3 heavy 64 least 5\n".as_slice(),
        b"options sketch loglog rows 1 columns 100 amount packets share turn workers 1 threshold 1 lane 1 batch 32 round 4 full leave mode rounds readers 1 asks 3 heavy 64 least 5\n",
        b"options sketch count-min rows 1 columns 1 amount packets share turn workers 1 threshold 1 lane 1 batch 32 round 4 full leave mode rounds readers 1 asks 3 heavy 64 least -5\n",
        b"options sketch count-mix rows 1 columns 1 amount packets share turn workers 1 threshold 1 lane 1 batch 32 round 4 full leave mode rounds readers 1 asks 3 heavy 64 least 5\n",
        b"options\n",
        b"",
    ] {
        assert!(rt; read_options(rt.alloc(), line)?.is_none());
    }
    Ok(())
}

#[test]
fn answers_are_those_that_are_asked_for(rt: HostRuntime) -> Result<(), Fail> {
    for (line, yes) in [
        (b"answer 0 1 folded 2 front 2 0 shown -5\n".as_slice(), true),
        (
            b"answer 0 1 folded 2 front 2 0 shown -9223372036854775808\n",
            true,
        ),
        (
            b"answer 0 1 folded 2 front 2 0 shown 9223372036854775808\n",
            false,
        ),
        (b"answer 1 1 folded 2 front 2 0 shown 5\n", false),
        (b"answer 0 2 folded 2 front 2 0 shown 5\n", false),
        (b"answer 0 1 folded 2 front 2 shown 5\n", false),
        (b"answer 0 1 folded 2 front 2 0 0 shown 5\n", false),
        (b"answer 0 1 folded 2 front 2 0 shown 5 6\n", false),
        (b"answer 0 1 folded 2 front 2 0 shown\n", false),
        (b"answer 0 1 folded 2 front 2 0 shown -0\n", false),
        (b"", false),
    ] {
        let mut answer = Answer::new(rt.alloc(), 0, 1, 2, 1)?;
        assert!(rt; read_answer(line, &mut answer) == yes);
    }
    Ok(())
}
