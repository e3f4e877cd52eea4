use hash_rows::{Amount, Full, Mode, Options, Shape, Share, Sketch};
use packet_key::parse_key;
use std::alloc::Global;
use std::test::Fail;
use words::{Command, WordStop, read_words};

fn read(alloc: Global, words: &[&str]) -> Result<Option<Command>, Fail> {
    let mut owned = Vec::new(alloc);
    for word in words {
        owned.push(String::from_str(alloc, word)?)?;
    }
    match read_words(alloc, owned.as_slice()) {
        Ok(command) => Ok(Some(command)),
        Err(WordStop::Usage) => Ok(None),
        Err(WordStop::NoMemory) => Err(Fail::from("no memory")),
    }
}

fn run(alloc: Global, words: &[&str]) -> Result<Options, Fail> {
    match read(alloc, words)? {
        Some(Command::Run(options)) => Ok(options),
        _ => Err(Fail::from("no run")),
    }
}

#[test]
fn refuses_what_the_grammar_lacks(rt: HostRuntime) -> Result<(), Fail> {
    let refused: [&[&str]; 51] = [
        &[],
        &["walk"],
        &["run", "--threshold", "0"],
        &["run", "--workers", "17"],
        &["run", "--rows", "04"],
        &["run", "--rows", "+4"],
        &["run", "--rows", "2", "--rows", "2"],
        &["run", "--speed", "1"],
        &["run", "--"],
        &["run", "-"],
        &["run", "--share", "-"],
        &["run", "--help"],
        &["run", "--row", "2"],
        &["run", "--rows="],
        &["run", "--rows"],
        &["run", "--rows==2"],
        &["run", "--journal="],
        &["run", "--journal=x"],
        &["run", "--journal", "x"],
        &["run", "--journal", "--journal"],
        &["run", "--mode", "thread"],
        &["run", "--mode="],
        &["run", "--records", "1"],
        &["load", "--records", "1"],
        &["run", "--sketch", "loglog", "--rows", "2"],
        &["run", "--sketch", "loglog", "--columns", "100"],
        &["run", "--sketch", "loglog", "--amount", "packets"],
        &["run", "--watch", "10.0.0.1:80>10.0.0.2:443/6,"],
        &["run", "--watch", "10.0.0.0/8"],
        &["prefix", "--watch", "10.0.0.1:80>10.0.0.2:443/6"],
        &["prefix", "--watch", "10.0.0.1/8"],
        &["prefix", "--watch", "10.0.0.0/9"],
        &["prefix", "--watch", "10.0.0.0/8,10.0.0.0/8"],
        &["prefix", "--sketch", "count-min"],
        &["prefix", "--mode", "rounds"],
        &["prefix", "--journal"],
        &["prefix", "--start", "1"],
        &["epochs"],
        &["epochs", "--packets", "255"],
        &["epochs", "--packets", "16777217"],
        &["epochs", "--packets=256", "--change=0"],
        &["epochs", "--packets=256", "--sketch=count-sketch"],
        &["epochs", "--packets=256", "--readers=1"],
        &["epochs", "--packets=256", "--asks=1"],
        &["epochs", "--packets=256", "--journal"],
        &["epochs", "--packets=256", "--watch=10.0.0.0/8"],
        &["run", "--packets=256"],
        &["audit", "--rows", "2"],
        &["audit", "audit"],
        &["audit", ""],
        &["run", "--change=1024"],
    ];
    for words in refused {
        assert!(rt; read(rt.alloc(), words)?.is_none());
    }
    Ok(())
}

// Whether the words of a line, which spaces part, are in the grammar.
fn is_read(alloc: Global, line: &str) -> Result<bool, Fail> {
    let mut words = Vec::new(alloc);
    for word in line.split(' ') {
        if !word.is_empty() {
            words.push(word)?;
        }
    }
    Ok(read(alloc, words.as_slice())?.is_some())
}

/// Numbers: the words before one, its name, and the least and the greatest that are allowed.
const NUMBERS: [(&str, &str, u64, u64); 15] = [
    ("run", "rows", 1, 8),
    ("run", "columns", 1, 65536),
    ("run", "threshold", 1, 1099511627776),
    ("run", "lane", 1, 4096),
    ("run", "batch", 1, 1024),
    ("run", "round", 1, 65536),
    ("run", "workers", 1, 16),
    ("prefix", "readers", 0, 4),
    ("prefix", "asks", 0, 1024),
    ("prefix", "heavy", 1, 1024),
    ("prefix", "least", 1, 1099511627776),
    ("load --start 0", "records", 0, 1048576),
    ("load --records 0", "start", 0, 4294967295),
    ("epochs", "packets", 256, 16777216),
    ("epochs --packets 256", "change", 1, 1099511627776),
];

#[test]
fn numbers_lie_in_their_ranges(rt: HostRuntime) -> Result<(), Fail> {
    let alloc = rt.alloc();
    for (front, name, least, greatest) in NUMBERS {
        for number in [
            0,
            1,
            least.saturating_sub(1),
            least,
            greatest,
            greatest.saturating_add(1),
            4294967296,
            u64::MAX,
        ] {
            let line = format!(in alloc; "{front} --{name} {number}")?;
            let lawful = least <= number && number <= greatest;
            assert!(rt; is_read(alloc, line.as_str())? == lawful, "{line}");
        }
        // 2^64, 2^64 and the least, and more digits than any number needs.
        for number in [
            "18446744073709551616",
            "18446744073709551617",
            "1000000000000000000000000000001",
        ] {
            let line = format!(in alloc; "{front} --{name} {number}")?;
            assert!(rt; !is_read(alloc, line.as_str())?, "{line}");
        }
    }
    Ok(())
}

#[test]
fn sixteen_keys_are_watched_at_most(rt: HostRuntime) -> Result<(), Fail> {
    let alloc = rt.alloc();
    let mut line = String::from_str(alloc, "run --watch ")?;
    for port in 1..=17u32 {
        let key = format!(in alloc; "10.0.0.1:{port}>10.0.0.2:443/6")?;
        line.push_str(key.as_str())?;
        assert!(rt; is_read(alloc, line.as_str())? == (port <= 16), "{port}");
        line.push_str(",")?;
    }
    Ok(())
}

#[test]
fn a_front_of_words_is_read_where_it_is_whole(rt: HostRuntime) -> Result<(), Fail> {
    let alloc = rt.alloc();
    let line = "run --columns=16 --journal --watch 10.0.0.1:1234>10.0.0.2:443/17";
    // `run` has 3 bytes, `--columns=1` ends at 15, `--columns=16` at 16, `--journal` at 26, a space may
    // follow, and the two numbers of protocols end at 63 and 64.
    let whole = [3, 4, 15, 16, 17, 26, 27, 63, 64];
    for len in 0..=line.len() {
        if let Some(front) = line.get(..len) {
            assert!(rt; is_read(alloc, front)? == whole.contains(&len), "{front}");
        }
    }
    Ok(())
}

#[test]
fn options_have_defaults(rt: HostRuntime) -> Result<(), Fail> {
    let plain = run(rt.alloc(), &["run"])?;
    assert!(rt; plain.sketch == Sketch::CountMin);
    assert!(rt;
        plain.shape
            == Shape {
                rows: 4,
                columns: 2048
            }
    );
    assert!(rt; plain.amount == Amount::Packets);
    assert!(rt; plain.share == Share::Turn);
    assert!(rt; (plain.workers, plain.threshold) == (4, 16));
    assert!(rt; (plain.lane, plain.batch, plain.round) == (64, 32, 64));
    assert!(rt; plain.full == Full::Leave);
    assert!(rt; plain.mode == Mode::Rounds);
    assert!(rt; (plain.readers, plain.asks, plain.watch.len()) == (0, 0, 0));
    assert!(rt; (plain.heavy, plain.least) == (64, 1024));
    assert!(rt; !plain.journal);
    let registers = run(rt.alloc(), &["run", "--sketch", "loglog"])?;
    assert!(rt;
        registers.shape
            == Shape {
                rows: 1,
                columns: 2048
            }
    );
    assert!(rt; registers.threshold == 1);
    Ok(())
}

#[test]
fn values_stand_behind_a_space_or_a_sign(rt: HostRuntime) -> Result<(), Fail> {
    let spaced = run(rt.alloc(), &["run", "--rows", "2", "--share", "key"])?;
    let joined = run(rt.alloc(), &["run", "--share=key", "--rows=2"])?;
    assert!(rt; (spaced.shape.rows, joined.shape.rows) == (2, 2));
    assert!(rt; (spaced.share, joined.share) == (Share::Key, Share::Key));
    Ok(())
}

#[test]
fn a_mode_is_chosen(rt: HostRuntime) -> Result<(), Fail> {
    for (words, mode) in [
        (["run", "--mode=rounds"], Mode::Rounds),
        (["run", "--mode=threads"], Mode::Threads),
    ] {
        assert!(rt; run(rt.alloc(), &words)?.mode == mode);
    }
    let words = [
        "load",
        "--records=1",
        "--start=0",
        "--sketch=loglog",
        "--mode",
        "threads",
    ];
    match read(rt.alloc(), &words)? {
        Some(Command::Load { options, .. }) => assert!(rt; options.mode == Mode::Threads),
        _ => return Err(Fail::from("no load")),
    }
    Ok(())
}

#[test]
fn a_flag_stands_anywhere(rt: HostRuntime) -> Result<(), Fail> {
    for words in [
        ["run", "--journal", "--rows", "2"],
        ["run", "--rows", "2", "--journal"],
    ] {
        let options = run(rt.alloc(), &words)?;
        assert!(rt; options.journal);
        assert!(rt; options.shape.rows == 2);
    }
    let registers = run(rt.alloc(), &["run", "--sketch", "loglog", "--journal"])?;
    assert!(rt; registers.journal);
    Ok(())
}

#[test]
fn loads_a_generated_capture(rt: HostRuntime) -> Result<(), Fail> {
    let words = [
        "load",
        "--start",
        "4294967295",
        "--amount=bytes",
        "--records",
        "1048576",
    ];
    match read(rt.alloc(), &words)? {
        Some(
            Command::Load {
                records,
                start,
                options,
            },
        ) => {
            assert!(rt; (records, start) == (1048576, 4294967295));
            assert!(rt; options.amount == Amount::Bytes);
            Ok(())
        }
        _ => Err(Fail::from("no load")),
    }
}

#[test]
fn watches_keys(rt: HostRuntime) -> Result<(), Fail> {
    let first = "10.0.0.1:80>10.0.0.2:443/6";
    let second = "[2001:db8:0:0:0:0:0:1]:53>[2001:db8:0:0:0:0:0:2]:1234/17";
    let list =
        "10.0.0.1:80>10.0.0.2:443/6,[2001:db8:0:0:0:0:0:1]:53>[2001:db8:0:0:0:0:0:2]:1234/17";
    let options = run(rt.alloc(), &["run", "--watch", list])?;
    let keys = options.watch.as_slice();
    assert!(rt; keys.len() == 2);
    assert!(rt; Some(keys[0]) == parse_key(first));
    assert!(rt; Some(keys[1]) == parse_key(second));
    Ok(())
}

#[test]
fn watches_networks(rt: HostRuntime) -> Result<(), Fail> {
    let words = ["prefix", "--asks=3", "--watch", "10.0.0.1/32,10.0.0.0/8"];
    let Some(Command::Prefix { options, watch }) = read(rt.alloc(), &words)? else {
        return Err(Fail::from("no prefix"));
    };
    assert!(rt; (options.sketch, options.mode) == (Sketch::CountMin, Mode::Rounds));
    assert!(rt; (options.asks, options.watch.len(), options.journal) == (3, 0, false));
    let networks = watch.as_slice();
    assert!(rt; networks.len() == 2);
    assert!(rt; (networks[0].bits, networks[0].length) == (0x0a000001, 32));
    assert!(rt; (networks[1].bits, networks[1].length) == (0x0a000000, 8));
    Ok(())
}

#[test]
fn counts_in_epochs(rt: HostRuntime) -> Result<(), Fail> {
    let lines: [(&[&str], u32, u64, Mode); 3] = [
        (&["epochs", "--packets", "256"], 256, 1024, Mode::Rounds),
        (
            &["epochs", "--mode=threads", "--packets=16777216"],
            16777216,
            1024,
            Mode::Threads,
        ),
        (
            &["epochs", "--change", "1099511627776", "--packets=300"],
            300,
            1099511627776,
            Mode::Rounds,
        ),
    ];
    for (words, size, least, mode) in lines {
        let Some(
            Command::Epochs {
                packets,
                change,
                options,
            },
        ) = read(rt.alloc(), words)?
        else {
            return Err(Fail::from("no epochs"));
        };
        assert!(rt; (packets, change, options.mode) == (size, least, mode));
        assert!(rt; (options.sketch, options.readers) == (Sketch::CountSketch, 0));
    }
    Ok(())
}

#[test]
fn an_audit_is_one_word(rt: HostRuntime) -> Result<(), Fail> {
    assert!(rt; matches!(read(rt.alloc(), &["audit"])?, Some(Command::Audit)));
    Ok(())
}
