// Reports of source networks of worked captures.

use crate::runs::{SMOOTH, run, run_cases};
use crate::texts::whole_text;
use flow_base::Status;
use std::alloc::Global;
use std::test::Fail;

pub const NETWORKS: &str = "== in one cell all networks reach what is in it, and the first are hits
prefix --rows 1 --columns 1 --heavy 2 --least 1
LH tcp
0
octosketch prefix 1
sketch count-min rows 1 columns 1 amount packets
records 1
keyed 1
other 0
skipped short 0 notip 0 badip 0 tags 0
cut 0
total 1
level 8
heavy 2 more 1
prefix 0.0.0.0/8 1
prefix 1.0.0.0/8 1
level 16
heavy 2 more 1
prefix 0.0.0.0/16 1
prefix 0.1.0.0/16 1
level 24
heavy 2 more 1
prefix 0.0.0.0/24 1
prefix 0.0.1.0/24 1
level 32
heavy 2 more 1
prefix 0.0.0.0/32 1
prefix 0.0.0.1/32 1
end
== and none reaches more
prefix --rows 1 --columns 1 --heavy 2 --least 2
LH tcp
0
octosketch prefix 1, sketch count-min rows 1 columns 1 amount packets
records 1, keyed 1, other 0, notip 0, cut 0, total 1
level 8, heavy 0 more 0
level 16, heavy 0 more 0
level 24, heavy 0 more 0
level 32, heavy 0 more 0, end
== watched networks are told with their length
prefix --watch 10.0.0.1/32,10.0.0.0/8
LH 3*tcp
0
octosketch prefix 1, sketch count-min rows 4 columns 2048 amount packets
records 3, keyed 3, other 0, notip 0, cut 0, total 3
level 8, watch 10.0.0.0/8 3, heavy 0 more 0
level 16, heavy 0 more 0
level 24, heavy 0 more 0
level 32, watch 10.0.0.1/32 3, heavy 0 more 0, end
== IPv6 packets are keyed and in no network, and equal to least is enough
prefix --amount bytes --least 108
LH ipv6 2*tcp 9*00
0
octosketch prefix 1, sketch count-min rows 4 columns 2048 amount bytes
records 3, keyed 3, other 1, notip 0, cut 9, total 108
level 8, heavy 1 more 0, prefix 10.0.0.0/8 108
level 16, heavy 1 more 0, prefix 10.0.0.0/16 108
level 24, heavy 1 more 0, prefix 10.0.0.0/24 108
level 32, heavy 1 more 0, prefix 10.0.0.1/32 108, end
== readers ask of each length its watched networks
prefix --workers 1 --threshold 1 --round 2 --rows 1 --readers 1 --asks 2 --watch 10.0.0.0/8,11.0.0.0/8
LH 3*tcp ipv6
0
octosketch prefix 1, sketch count-min rows 1 columns 2048 amount packets
records 4, keyed 4, other 1, notip 0, cut 0, total 3
level 8, answer 0 0 folded 2 shown 2 0, answer 0 1 folded 3 shown 3 0
watch 10.0.0.0/8 3, watch 11.0.0.0/8 0, heavy 0 more 0
level 16, answer 0 0 folded 2 shown, answer 0 1 folded 3 shown, heavy 0 more 0
level 24, answer 0 0 folded 2 shown, answer 0 1 folded 3 shown, heavy 0 more 0
level 32, answer 0 0 folded 2 shown, answer 0 1 folded 3 shown, heavy 0 more 0, end
== in one cell a reader asks before anything was told
prefix --rows 1 --columns 1 --heavy 2 --least 1 --readers 1 --asks 1
LH tcp
0
octosketch prefix 1, sketch count-min rows 1 columns 1 amount packets
records 1, keyed 1, other 0, notip 0, cut 0, total 1
level 8, answer 0 0 folded 0 shown, heavy 2 more 1, prefix 0.0.0.0/8 1, prefix 1.0.0.0/8 1
level 16, answer 0 0 folded 0 shown, heavy 2 more 1, prefix 0.0.0.0/16 1, prefix 0.1.0.0/16 1
level 24, answer 0 0 folded 0 shown, heavy 2 more 1, prefix 0.0.0.0/24 1, prefix 0.0.1.0/24 1
level 32, answer 0 0 folded 0 shown, heavy 2 more 1, prefix 0.0.0.0/32 1, prefix 0.0.0.1/32 1, end
== no network reaches more than its packets, and an IPv6 packet is in none
prefix --rows 1 --columns 1 --heavy 2 --least 2 --readers 1 --asks 1
LH tcp ipv6
0
octosketch prefix 1, sketch count-min rows 1 columns 1 amount packets
records 2, keyed 2, other 1, notip 0, cut 0, total 1
level 8, answer 0 0 folded 0 shown, heavy 0 more 0
level 16, answer 0 0 folded 0 shown, heavy 0 more 0
level 24, answer 0 0 folded 0 shown, heavy 0 more 0
level 32, answer 0 0 folded 0 shown, heavy 0 more 0, end
== a reader asks watched networks before anything was told
prefix --readers 1 --asks 1 --watch 10.0.0.0/8,10.0.0.1/32
LH 3*tcp
0
octosketch prefix 1, sketch count-min rows 4 columns 2048 amount packets
records 3, keyed 3, other 0, notip 0, cut 0, total 3
level 8, answer 0 0 folded 0 shown 0, watch 10.0.0.0/8 3, heavy 0 more 0
level 16, answer 0 0 folded 0 shown, heavy 0 more 0
level 24, answer 0 0 folded 0 shown, heavy 0 more 0
level 32, answer 0 0 folded 0 shown 0, watch 10.0.0.1/32 3, heavy 0 more 0, end
== networks of a bad capture
prefix
LH/23
4 octo: bad capture 1 length 23
== a network whose last bits are not 0
prefix --watch 10.0.0.1/8
LH
1 octo: usage
";

#[test]
fn networks_of_worked_captures(rt: HostRuntime) -> Result<(), Fail> {
    assert!(rt; run_cases(&rt, rt.alloc(), NETWORKS)? == 10);
    Ok(())
}

// A capture of one packet from each of 300 networks of 16 bits, 10.0.0.0/16 to 11.43.0.0/16.
fn from_many_networks(alloc: Global) -> Result<String, Fail> {
    let mut line = String::from_str(alloc, "LH")?;
    for n in 0..300u32 {
        let source = format!(in alloc; " tcp/42 {:02x}{:02x}0001 24*00", 10 + n / 256, n % 256)?;
        line.push_str(source.as_str())?;
    }
    Ok(line)
}

#[test]
fn as_many_hits_as_there_is_room_for(rt: HostRuntime) -> Result<(), Fail> {
    let alloc = rt.alloc();
    let bytes = from_many_networks(alloc)?;
    for (words, lines) in [
        (
            "prefix --rows 8 --least 1 --heavy 200",
            "level 16, heavy 200 more 1, prefix 10.0.0.0/16 1, prefix 10.1.0.0/16 1",
        ),
        (
            "prefix --rows 8 --least 1 --heavy 200",
            "prefix 10.199.0.0/24 1, level 32, heavy 200 more 0, prefix 10.0.0.1/32 1",
        ),
        (
            "prefix --rows 8 --least 1 --heavy 300",
            "level 16, heavy 300 more 0, prefix 10.0.0.0/16 1, prefix 10.1.0.0/16 1",
        ),
        (
            "prefix --rows 8 --least 1 --heavy 300",
            "prefix 11.43.0.0/24 1, level 32, heavy 300 more 0, prefix 10.0.0.1/32 1",
        ),
        (
            "prefix --rows 8 --least 44 --heavy 1",
            "level 8, heavy 1 more 1, prefix 10.0.0.0/8 256, level 16, heavy 0 more 0",
        ),
    ] {
        let end = run(&rt, alloc, words, bytes.as_str(), SMOOTH)?;
        assert!(rt; end.status == Status::Done, "{words}");
        let part = whole_text(alloc, lines)?;
        assert!(rt;
            str::from_utf8(end.out.held())?.contains(part.as_str()),
            "{words}"
        );
    }
    Ok(())
}
