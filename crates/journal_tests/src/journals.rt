use flow_base::{Ahead, MemSource, Source};
use hash_rows::Bits;
use journal_whole::{JournalStop, read_journal};
use octo_text::Journal;
use std::alloc::Global;
use std::test::Fail;

// The journal of six packets of one flow, whose lane of one message was full four times.
const LINES: [&[u8]; 12] = [
    b"octosketch journal 1\n",
    b"options sketch count-min rows 1 columns 1 amount packets share turn workers 1 threshold 1 lane 1 batch 32 round 4 full leave mode rounds readers 1 asks 3 heavy 64 least 5\n",
    b"watched 10.0.0.1:1234>10.0.0.2:443/6\n",
    b"worker 0 pushes 2 refused 4\n",
    b"refused 0 1-3\n",
    b"refused 0 5-5\n",
    b"answer 0 0 folded 1 front 1 shown 1\n",
    b"answer 0 1 folded 2 front 2 shown 5\n",
    b"answer 0 2 folded 2 front 2 shown 5\n",
    b"live 10.0.0.1:1234>10.0.0.2:443/6\n",
    b"missed 0\n",
    b"end\n",
];

// The lines before the one with this number, from 1, and then this text.
fn text_with(alloc: Global, line: u32, text: &[u8]) -> Result<Vec<u8>, Fail> {
    let mut bytes = Vec::new(alloc);
    for before in LINES.iter().take((line as usize).saturating_sub(1)) {
        bytes.extend_from_slice(before)?;
    }
    bytes.extend_from_slice(text)?;
    Ok(bytes)
}

// Reads a journal of the bytes, given in such pieces, and says how many bytes stand behind it.
fn read(
    alloc: Global,
    bytes: &[u8],
    piece: u32,
    failing: &[u32],
) -> Result<(Result<Journal, JournalStop>, usize), Fail> {
    let mut source = MemSource::new(alloc, bytes, piece.max(1), failing)?;
    let mut ahead = Ahead::new(&mut source);
    let read = read_journal(alloc, &mut ahead);
    let mut rest = [0; 64];
    let mut left: usize = 0;
    for _ in 0..4 {
        left = left.saturating_add(ahead.read(&mut rest).unwrap_or(0));
    }
    Ok((read, left))
}

fn stop_of(read: Result<Journal, JournalStop>) -> Option<JournalStop> {
    match read {
        Ok(_) => None,
        Err(stop) => Some(stop),
    }
}

// The first set bit, and the first from the fourth on.
fn places(bits: &Bits) -> Option<(u32, u32)> {
    if bits.len() < 4 {
        None
    } else {
        Some((bits.next(0), bits.next(4)))
    }
}

#[test]
fn a_journal_is_read_up_to_its_end(rt: HostRuntime) -> Result<(), Fail> {
    let text = text_with(rt.alloc(), 13, b"abc")?;
    for piece in [1, 7, 4096] {
        let (read, left) = read(rt.alloc(), &text, piece, &[])?;
        let Ok(journal) = read else {
            return Err(Fail::from("no journal"));
        };
        assert!(rt; left == 3);
        assert!(rt; journal.options.round == 4);
        assert!(rt; journal.options.watch.len() == 1);
        assert!(rt; journal.lists.pushes.as_slice() == [2].as_slice());
        assert!(rt;
            (
                journal.lists.answers.len(),
                journal.lists.live.len(),
                journal.lists.missed
            ) == (3, 1, 0)
        );
        for bits in journal.lists.refused.as_slice() {
            assert!(rt; (bits.len(), bits.count()) == (1 << 27, 4));
            assert!(rt; places(bits) == Some((1, 5)));
        }
        for answer in journal.lists.answers.as_slice().iter().skip(1) {
            assert!(rt;
                (
                    answer.front.as_slice(),
                    answer.upto.as_slice(),
                    answer.shown.as_slice()
                ) == ([2].as_slice(), [0].as_slice(), [5].as_slice())
            );
        }
    }
    Ok(())
}

#[test]
fn the_first_bad_line_is_told(rt: HostRuntime) -> Result<(), Fail> {
    for (line, text) in [
        (1, b"".as_slice()),
        (1, b"octosketch journal 2\n"),
        (2, b"watched 10.0.0.1:1234>10.0.0.2:443/6\n"),
        (3, b"watched 10.0.0.1:1234>10.0.0.2:443/06\n"),
        (3, b"refused 0 1-3\n"),
        (4, b"watched 10.0.0.1:1234>10.0.0.2:443/6\n"),
        (4, b"worker 1 pushes 2 refused 4\n"),
        (4, b"worker 0 pushes 134217729 refused 4\n"),
        (4, b"worker 0 pushes 2 refused 134217729\n"),
        (5, b"worker 1 pushes 0 refused 0\n"),
        (5, b"refused 1 1-3\n"),
        (5, b"refused 0 3-1\n"),
        (5, b"refused 0 1-5\n"),
        (5, b"refused 0 134217726-134217728\n"),
        (6, b"refused 0 4-4\n"),
        (6, b"answer 0 0 folded 1 front 1 shown 1\n"),
        (7, b"refused 0 7-7\n"),
        (7, b"answer 0 1 folded 1 front 1 shown 1\n"),
        (7, b"answer 0 0 folded 1 front 134217729 shown 1\n"),
        (7, b"missed 0\n"),
        (10, b"answer 0 3 folded 2 front 2 shown 5\n"),
        (10, b"end\n"),
        (11, b"missed -0\n"),
        (12, b"live 10.0.0.1:1234>10.0.0.2:443/6\n"),
        (12, b"end \n"),
        (12, b"end"),
    ] {
        let text = text_with(rt.alloc(), line, text)?;
        let (read, _) = read(rt.alloc(), &text, 100, &[])?;
        assert!(rt; stop_of(read) == Some(JournalStop::BadJournal { line }));
    }
    Ok(())
}

#[test]
fn what_stands_first_decides(rt: HostRuntime) -> Result<(), Fail> {
    let long = [b'x'; 1024];
    let text = text_with(rt.alloc(), 3, &long)?;
    for (failing, stop) in [
        (0, JournalStop::ReadFault),
        (12, JournalStop::ReadFault),
        (13, JournalStop::BadJournal { line: 3 }),
    ] {
        let (read, _) = read(rt.alloc(), &text, 100, &[failing])?;
        assert!(rt; stop_of(read) == Some(stop));
    }
    Ok(())
}

#[test]
fn a_run_may_have_all_updates(rt: HostRuntime) -> Result<(), Fail> {
    let mut text = text_with(rt.alloc(), 4, b"worker 0 pushes 0 refused 134217728\n")?;
    for line in [
        b"refused 0 0-134217727\n".as_slice(),
        b"answer 0 0 folded 0 front 0 shown 0\n",
        b"answer 0 1 folded 0 front 0 shown 0\n",
        b"answer 0 2 folded 9 front 0 shown -9223372036854775808\n",
        b"missed 18446744073709551615\n",
        b"end\n",
    ] {
        text.extend_from_slice(line)?;
    }
    let (read, _) = read(rt.alloc(), &text, 4096, &[])?;
    let Ok(journal) = read else {
        return Err(Fail::from("no journal"));
    };
    for bits in journal.lists.refused.as_slice() {
        assert!(rt; bits.count() == 1 << 27);
    }
    assert!(rt; (journal.lists.live.len(), journal.lists.missed) == (0, u64::MAX));
    Ok(())
}
