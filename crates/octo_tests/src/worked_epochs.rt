// Epochs of worked captures, counted in both modes.

use crate::runs::run_cases_with;
use std::test::Fail;

pub const EPOCHS: &str = "== a flow changes by as much as is told
epochs --packets 256 --rows 1 --columns 1 --least 100 --change 212
LH 300*tcp
0
octosketch epochs 1
sketch count-sketch rows 1 columns 1 amount packets
records 300
keyed 300
skipped short 0 notip 0 badip 0 tags 0
cut 0
epoch 0 packets 256 total 256
row 0 used 1
heavy 1
flow 10.0.0.1:1234>10.0.0.2:443/6 256
epoch 1 packets 44 total 44
row 0 used 1
heavy 0
changed 1
change 10.0.0.1:1234>10.0.0.2:443/6 256 44
whole packets 300 total 300
row 0 used 1
end
== no flow changes by one more
epochs --packets 256 --rows 1 --columns 1 --least 100 --change 213
LH 300*tcp
0
octosketch epochs 1, sketch count-sketch rows 1 columns 1 amount packets
records 300, keyed 300, notip 0, cut 0
epoch 0 packets 256 total 256, row 0 used 1, heavy 1, flow 10.0.0.1:1234>10.0.0.2:443/6 256
epoch 1 packets 44 total 44, row 0 used 1, heavy 0, changed 0
whole packets 300 total 300, row 0 used 1, end
== a capture without packets has no epoch
epochs --packets 256
LH
0
octosketch epochs 1, sketch count-sketch rows 4 columns 2048 amount packets
records 0, keyed 0, notip 0, cut 0
whole packets 0 total 0, row 0 used 0, row 1 used 0, row 2 used 0, row 3 used 0, end
== rows stand twice
epochs --packets 256 --rows 1 --columns 1 --least 100 --rows 4 --columns 2048
LH
1 octo: usage
== epochs of a header that isn't whole
epochs --packets 256 --rows 1 --columns 1 --least 100 --change 212
LH/23
4 octo: bad capture 1 length 23
";

#[test]
fn epochs_of_worked_captures(rt: HostRuntime) -> Result<(), Fail> {
    for mode in ["", "--mode rounds", "--mode threads"] {
        assert!(rt; run_cases_with(&rt, rt.alloc(), EPOCHS, mode)? == 5);
    }
    Ok(())
}
