// Journals of worked captures.

use crate::runs::run_cases;
use std::test::Fail;

pub const JOURNALS: &str = "== a full lane leaves updates refused
run --rows 1 --columns 1 --workers 1 --threshold 1 --lane 1 --round 4 --readers 1 --asks 3 --least 5 --watch 10.0.0.1:1234>10.0.0.2:443/6 --journal
LH 6*tcp
0
octosketch report 1
sketch count-min rows 1 columns 1 amount packets
records 6
keyed 6
skipped short 0 notip 0 badip 0 tags 0
cut 0
total 6
row 0 used 1
watch 10.0.0.1:1234>10.0.0.2:443/6 6
heavy 1
flow 10.0.0.1:1234>10.0.0.2:443/6 6
end
octosketch journal 1
options sketch count-min rows 1 columns 1 amount packets share turn workers 1 threshold 1 lane 1 batch 32 round 4 full leave mode rounds readers 1 asks 3 heavy 64 least 5
watched 10.0.0.1:1234>10.0.0.2:443/6
worker 0 pushes 2 refused 4
refused 0 1-3
refused 0 5-5
answer 0 0 folded 1 front 1 shown 1
answer 0 1 folded 2 front 2 shown 5
answer 0 2 folded 2 front 2 shown 5
live 10.0.0.1:1234>10.0.0.2:443/6
missed 0
end
== a push that waits is never refused
run --full wait --rows 1 --columns 1 --workers 1 --threshold 1 --lane 1 --round 4 --readers 1 --asks 3 --least 5 --watch 10.0.0.1:1234>10.0.0.2:443/6 --journal
LH 6*tcp
0
octosketch report 1, sketch count-min rows 1 columns 1 amount packets
records 6, keyed 6, notip 0, cut 0, total 6
row 0 used 1
watch 10.0.0.1:1234>10.0.0.2:443/6 6, heavy 1, flow 10.0.0.1:1234>10.0.0.2:443/6 6, end
octosketch journal 1
options sketch count-min rows 1 columns 1 amount packets share turn workers 1 threshold 1 lane 1 batch 32 round 4 full wait mode rounds readers 1 asks 3 heavy 64 least 5
watched 10.0.0.1:1234>10.0.0.2:443/6
worker 0 pushes 6 refused 0
answer 0 0 folded 1 front 1 shown 1
answer 0 1 folded 2 front 2 shown 2
answer 0 2 folded 3 front 3 shown 3
live 10.0.0.1:1234>10.0.0.2:443/6, missed 0, end
== a front stands between two rows
run --rows 2 --columns 1 --workers 1 --threshold 1 --lane 2 --batch 1 --round 1 --readers 1 --asks 3 --least 1 --watch 10.0.0.1:1234>10.0.0.2:443/6 --journal
LH tcp
0
octosketch report 1, sketch count-min rows 2 columns 1 amount packets
records 1, keyed 1, notip 0, cut 0, total 1
row 0 used 1, row 1 used 1
watch 10.0.0.1:1234>10.0.0.2:443/6 1, heavy 1, flow 10.0.0.1:1234>10.0.0.2:443/6 1, end
octosketch journal 1
options sketch count-min rows 2 columns 1 amount packets share turn workers 1 threshold 1 lane 2 batch 1 round 1 full leave mode rounds readers 1 asks 3 heavy 64 least 1
watched 10.0.0.1:1234>10.0.0.2:443/6
worker 0 pushes 2 refused 0
answer 0 0 folded 1 front 1 shown 0
answer 0 1 folded 2 front 2 shown 1
answer 0 2 folded 2 front 2 shown 1
live 10.0.0.1:1234>10.0.0.2:443/6, missed 0, end
== defaults leave residues of ten
run --readers 1 --asks 4 --watch 10.0.0.1:1234>10.0.0.2:443/6 --journal
LH 1000*tcp
0
octosketch report 1, sketch count-min rows 4 columns 2048 amount packets
records 1000, keyed 1000, notip 0, cut 0, total 1000
row 0 used 1, row 1 used 1, row 2 used 1, row 3 used 1
watch 10.0.0.1:1234>10.0.0.2:443/6 1000, heavy 0, end
octosketch journal 1
options sketch count-min rows 4 columns 2048 amount packets share turn workers 4 threshold 16 lane 64 batch 32 round 64 full leave mode rounds readers 1 asks 4 heavy 64 least 1024
watched 10.0.0.1:1234>10.0.0.2:443/6
worker 0 pushes 60 refused 0, worker 1 pushes 60 refused 0
worker 2 pushes 60 refused 0, worker 3 pushes 60 refused 0
answer 0 0 folded 64 front 16 16 16 16 shown 256
answer 0 1 folded 128 front 32 32 32 32 shown 512
answer 0 2 folded 192 front 48 48 48 48 shown 768
answer 0 3 folded 240 front 60 60 60 60 shown 960
missed 0, end
== idle workers push nothing
run --workers 16 --rows 1 --columns 1 --threshold 1 --readers 1 --asks 1 --watch 10.0.0.1:1234>10.0.0.2:443/6 --journal
LH 3*tcp
0
octosketch report 1, sketch count-min rows 1 columns 1 amount packets
records 3, keyed 3, notip 0, cut 0, total 3
row 0 used 1
watch 10.0.0.1:1234>10.0.0.2:443/6 3, heavy 0, end
octosketch journal 1
options sketch count-min rows 1 columns 1 amount packets share turn workers 16 threshold 1 lane 64 batch 32 round 64 full leave mode rounds readers 1 asks 1 heavy 64 least 1024
watched 10.0.0.1:1234>10.0.0.2:443/6
worker 0 pushes 1 refused 0, worker 1 pushes 1 refused 0, worker 2 pushes 1 refused 0, worker 3 pushes 0 refused 0
worker 4 pushes 0 refused 0, worker 5 pushes 0 refused 0, worker 6 pushes 0 refused 0, worker 7 pushes 0 refused 0
worker 8 pushes 0 refused 0, worker 9 pushes 0 refused 0, worker 10 pushes 0 refused 0, worker 11 pushes 0 refused 0
worker 12 pushes 0 refused 0, worker 13 pushes 0 refused 0, worker 14 pushes 0 refused 0, worker 15 pushes 0 refused 0
answer 0 0 folded 3 front 1 1 1 0 0 0 0 0 0 0 0 0 0 0 0 0 shown 3
missed 0, end
== a Count Sketch finds its live key
run --sketch count-sketch --rows 1 --columns 1 --workers 1 --threshold 1 --least 5 --journal
LH 6*tcp
0
octosketch report 1, sketch count-sketch rows 1 columns 1 amount packets
records 6, keyed 6, notip 0, cut 0, total 6
row 0 used 1
heavy 1, flow 10.0.0.1:1234>10.0.0.2:443/6 6, end
octosketch journal 1
options sketch count-sketch rows 1 columns 1 amount packets share turn workers 1 threshold 1 lane 64 batch 32 round 64 full leave mode rounds readers 0 asks 0 heavy 64 least 5
worker 0 pushes 6 refused 0
live 10.0.0.1:1234>10.0.0.2:443/6, missed 0, end
== registers answer how many keys there are
run --sketch loglog --columns 128 --workers 1 --readers 1 --asks 1 --journal
LH 3*tcp
0
octosketch report 1, sketch loglog rows 1 columns 128 amount packets
records 3, keyed 3, notip 0, cut 0, total 3
row 0 used 1
distinct 1, end
octosketch journal 1
options sketch loglog rows 1 columns 128 amount packets share turn workers 1 threshold 1 lane 64 batch 32 round 64 full leave mode rounds readers 1 asks 1 heavy 64 least 1024
worker 0 pushes 1 refused 0
answer 0 0 folded 1 front 1 shown 1
missed 0, end
";

#[test]
fn runs_in_rounds_have_their_journals(rt: HostRuntime) -> Result<(), Fail> {
    assert!(rt; run_cases(&rt, rt.alloc(), JOURNALS)? == 7);
    Ok(())
}
