// Reports of worked captures.

use crate::runs::run_cases;
use std::test::Fail;

pub const REPORTS: &str = "== an empty capture
run
LH
0
octosketch report 1
sketch count-min rows 4 columns 2048 amount packets
records 0
keyed 0
skipped short 0 notip 0 badip 0 tags 0
cut 0
total 0
row 0 used 0
row 1 used 0
row 2 used 0
row 3 used 0
heavy 0
end
== one packet
run --workers 1 --threshold 1 --least 1 --watch 10.0.0.1:1234>10.0.0.2:443/6
LH tcp
0
octosketch report 1
sketch count-min rows 4 columns 2048 amount packets
records 1
keyed 1
skipped short 0 notip 0 badip 0 tags 0
cut 0
total 1
row 0 used 1
row 1 used 1
row 2 used 1
row 3 used 1
watch 10.0.0.1:1234>10.0.0.2:443/6 1
heavy 1
flow 10.0.0.1:1234>10.0.0.2:443/6 1
end
== a cut record
run
LH tcp 9*00
0
octosketch report 1, sketch count-min rows 4 columns 2048 amount packets
records 1, keyed 1, notip 0, cut 9, total 1
row 0 used 1, row 1 used 1, row 2 used 1, row 3 used 1
heavy 0, end
== three packets in big-endian order
run
BH 3*big-tcp
0
octosketch report 1, sketch count-min rows 4 columns 2048 amount packets
records 3, keyed 3, notip 0, cut 0, total 3
row 0 used 1, row 1 used 1, row 2 used 1, row 3 used 1
heavy 0, end
== three packets, by another push rule
run --threshold 3 --lane 1 --batch 1 --round 7
LH 3*tcp
0
octosketch report 1, sketch count-min rows 4 columns 2048 amount packets
records 3, keyed 3, notip 0, cut 0, total 3
row 0 used 1, row 1 used 1, row 2 used 1, row 3 used 1
heavy 0, end
== equal estimates stand by key
run --rows 2 --columns 1 --amount bytes --least 1 --watch 10.0.0.1:1234>10.0.0.2:443/6
LH tcp arp tagged fragment icmp
0
octosketch report 1
sketch count-min rows 2 columns 1 amount bytes
records 5
keyed 4
skipped short 0 notip 1 badip 0 tags 0
cut 0
total 188
row 0 used 1
row 1 used 1
watch 10.0.0.1:1234>10.0.0.2:443/6 188
heavy 4
flow 10.0.0.1:0>10.0.0.2:0/1 188
flow 10.0.0.1:0>10.0.0.2:0/17 188
flow 10.0.0.1:53>10.0.0.2:1234/17 188
flow 10.0.0.1:1234>10.0.0.2:443/6 188
end
== IPv6 stands behind IPv4
run --rows 1 --columns 1 --least 1
LH ipv6 tcp
0
octosketch report 1, sketch count-min rows 1 columns 1 amount packets
records 2, keyed 2, notip 0, cut 0, total 2
row 0 used 1
heavy 2, flow 10.0.0.1:1234>10.0.0.2:443/6 2
flow [2001:db8:0:0:0:0:0:1]:53>[2001:db8:0:0:0:0:0:2]:1234/17 2, end
== the first flows alone are listed
run --rows 1 --columns 1 --least 7 --heavy 2
LH tcp tagged fragment arp icmp ipv6 tcp icmp
0
octosketch report 1, sketch count-min rows 1 columns 1 amount packets
records 8, keyed 7, notip 1, cut 0, total 7
row 0 used 1
heavy 5, flow 10.0.0.1:0>10.0.0.2:0/1 7, flow 10.0.0.1:0>10.0.0.2:0/17 7, end
== the original length is 0
run --amount bytes --watch 10.0.0.1:1234>10.0.0.2:443/6
LH tcp-of-none
0
octosketch report 1, sketch count-min rows 4 columns 2048 amount bytes
records 1, keyed 1, notip 0, cut 0, total 0
row 0 used 0, row 1 used 0, row 2 used 0, row 3 used 0
watch 10.0.0.1:1234>10.0.0.2:443/6 0, heavy 0, end
== the original length is the greatest
run --amount bytes --watch 10.0.0.1:1234>10.0.0.2:443/6
LH tcp-of-most
0
octosketch report 1, sketch count-min rows 4 columns 2048 amount bytes
records 1, keyed 1, notip 0, cut 0, total 4294967295
row 0 used 1, row 1 used 1, row 2 used 1, row 3 used 1
watch 10.0.0.1:1234>10.0.0.2:443/6 4294967295, heavy 1, flow 10.0.0.1:1234>10.0.0.2:443/6 4294967295
end
== two generated flows are heavy
load --records 2 --start 0 --amount bytes --rows 1 --columns 1 --least 1387

0
octosketch report 1, sketch count-min rows 1 columns 1 amount bytes
records 2, keyed 2, notip 0, cut 0, total 1387
row 0 used 1
heavy 2, flow 10.0.0.100:1124>10.0.1.1:443/6 1387, flow 10.0.0.141:1165>10.0.1.1:443/17 1387, end
== none is heavy one above
load --records 2 --start 0 --amount bytes --rows 1 --columns 1 --least 1388

0
octosketch report 1, sketch count-min rows 1 columns 1 amount bytes
records 2, keyed 2, notip 0, cut 0, total 1387
row 0 used 1
heavy 0, end
== one generated flow is watched
load --records 1 --start 0 --amount bytes --watch 10.0.0.141:1165>10.0.1.1:443/17

0
octosketch report 1, sketch count-min rows 4 columns 2048 amount bytes
records 1, keyed 1, notip 0, cut 0, total 1093
row 0 used 1, row 1 used 1, row 2 used 1, row 3 used 1
watch 10.0.0.141:1165>10.0.1.1:443/17 1093, heavy 1, flow 10.0.0.141:1165>10.0.1.1:443/17 1093, end
== a lone key in a Count Sketch
run --sketch count-sketch --rows 1 --columns 1 --watch 10.0.0.1:1234>10.0.0.2:443/6
LH 5*tcp
0
octosketch report 1, sketch count-sketch rows 1 columns 1 amount packets
records 5, keyed 5, notip 0, cut 0, total 5
row 0 used 1
watch 10.0.0.1:1234>10.0.0.2:443/6 5, heavy 0, end
== registers of no packet
run --sketch loglog --columns 128
LH
0
octosketch report 1, sketch loglog rows 1 columns 128 amount packets
records 0, keyed 0, notip 0, cut 0, total 0
row 0 used 0
distinct 0, end
== registers of one key
run --sketch loglog --columns 128
LH 3*tcp
0
octosketch report 1, sketch loglog rows 1 columns 128 amount packets
records 3, keyed 3, notip 0, cut 0, total 3
row 0 used 1
distinct 1, end
== registers of a generated key
load --records 1 --start 0 --sketch loglog --columns 128

0
octosketch report 1, sketch loglog rows 1 columns 128 amount packets
records 1, keyed 1, notip 0, cut 0, total 1
row 0 used 1
distinct 1, end
== registers of no generated packet
load --records 0 --start 0 --sketch loglog --columns 128

0
octosketch report 1, sketch loglog rows 1 columns 128 amount packets
records 0, keyed 0, notip 0, cut 0, total 0
row 0 used 0
distinct 0, end
== the longest record, of zeros
run
LH 0000000000000000 00000400 00000400 262144*00
0
octosketch report 1, sketch count-min rows 4 columns 2048 amount packets
records 1, keyed 0, notip 1, cut 0, total 0
row 0 used 0, row 1 used 0, row 2 used 0, row 3 used 0
heavy 0, end
== the link type has 16 bits
run
LH/20 01000100
0
octosketch report 1, sketch count-min rows 4 columns 2048 amount packets
records 0, keyed 0, notip 0, cut 0, total 0
row 0 used 0, row 1 used 0, row 2 used 0, row 3 used 0
heavy 0, end
";

#[test]
fn captures_are_reported(rt: HostRuntime) -> Result<(), Fail> {
    assert!(rt; run_cases(&rt, rt.alloc(), REPORTS)? == 20);
    Ok(())
}
