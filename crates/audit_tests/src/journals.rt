// Journals that are judged.

use crate::judging::judge_each;
use std::test::Fail;

/// A line with bars has what is said of a journal, a letter for each packet, the options that aren't
/// those of `OPTIONS`, and the lines of the journal, joined by commas.
const THREADS: &str = "
- lawful
lawful|AAAAAA|lane 1, readers 1, asks 3|watched 10.0.0.1:1234>10.0.0.2:443/6, worker 0 pushes 2 refused 4, refused 0 1-3, refused 0 5-5, answer 0 0 folded 1 front 1 shown 1, answer 0 1 folded 2 front 2 shown 5, answer 0 2 folded 2 front 2 shown 5, live 10.0.0.1:1234>10.0.0.2:443/6, missed 0
lawful|AAAAAA|lane 1|worker 0 pushes 3 refused 3, refused 0 2-4, live 10.0.0.1:1234>10.0.0.2:443/6, missed 0
lawful||lane 1|worker 0 pushes 0 refused 0, missed 0
lawful|AAAAAA|sketch count-sketch, lane 64, round 64|worker 0 pushes 6 refused 0, live 10.0.0.1:1234>10.0.0.2:443/6, missed 0
lawful|AAAAAA|sketch loglog, columns 128, lane 64, round 64|worker 0 pushes 1 refused 0, missed 0
lawful|AAAAAA|workers 2, lane 64, round 64, readers 2, asks 2|watched 10.0.0.1:1234>10.0.0.2:443/6, worker 0 pushes 3 refused 0, worker 1 pushes 3 refused 0, answer 0 0 folded 3 front 2 1 shown 3, answer 0 1 folded 6 front 3 3 shown 6, answer 1 0 folded 0 front 0 0 shown 0, answer 1 1 folded 4 front 2 2 shown 4, live 10.0.0.1:1234>10.0.0.2:443/6, missed 0
lawful|ABA|lane 64, round 64, heavy 1, least 2|worker 0 pushes 3 refused 0, live 10.0.0.1:1236>10.0.0.2:443/6, missed 1
- the line of a worker or of a refused update fails
line 3 kept 6 lawful 5|AAAAAA||worker 0 pushes 6 refused 1, refused 0 2-2, missed 0
line 3 kept 1 lawful 0|AAAAAA|full wait|worker 0 pushes 5 refused 1, refused 0 2-2, missed 0
line 4 kept 6 lawful 6|AAAAAA||worker 0 pushes 6 refused 1, refused 0 6-6, missed 0
line 4 kept 1 lawful 2|AAAAAA|threshold 2|worker 0 pushes 3 refused 1, refused 0 0-0, missed 0
line 4 kept 2 lawful 4|AAAAAA||worker 0 pushes 5 refused 1, refused 0 2-2, missed 0
- the line of an answer fails
line 5 kept 2 lawful 3|AAAAAA|readers 1, asks 2|watched 10.0.0.1:1234>10.0.0.2:443/6, worker 0 pushes 6 refused 0, answer 0 0 folded 2 front 3 shown 3, answer 0 1 folded 6 front 6 shown 6, live 10.0.0.1:1234>10.0.0.2:443/6, missed 0
line 6 kept 7 lawful 6|AAAAAA|readers 1, asks 2|watched 10.0.0.1:1234>10.0.0.2:443/6, worker 0 pushes 6 refused 0, answer 0 0 folded 3 front 3 shown 3, answer 0 1 folded 7 front 7 shown 6, live 10.0.0.1:1234>10.0.0.2:443/6, missed 0
line 6 kept 2 lawful 3|AAAAAA|readers 1, asks 2|watched 10.0.0.1:1234>10.0.0.2:443/6, worker 0 pushes 6 refused 0, answer 0 0 folded 3 front 3 shown 3, answer 0 1 folded 2 front 2 shown 2, live 10.0.0.1:1234>10.0.0.2:443/6, missed 0
line 7 kept 1 lawful 2|AAAAAA|workers 2, readers 2, asks 1|watched 10.0.0.1:1234>10.0.0.2:443/6, worker 0 pushes 3 refused 0, worker 1 pushes 3 refused 0, answer 0 0 folded 3 front 2 1 shown 3, answer 1 0 folded 3 front 1 2 shown 3, live 10.0.0.1:1234>10.0.0.2:443/6, missed 0
line 10 kept 1 lawful 2|AAAAAA|workers 2, readers 2, asks 3|watched 10.0.0.1:1234>10.0.0.2:443/6, worker 0 pushes 3 refused 0, worker 1 pushes 3 refused 0, answer 0 0 folded 1 front 1 0 shown 1, answer 0 1 folded 3 front 2 1 shown 3, answer 0 2 folded 6 front 3 3 shown 6, answer 1 0 folded 0 front 0 0 shown 0, answer 1 1 folded 3 front 1 2 shown 3, answer 1 2 folded 6 front 3 3 shown 6, live 10.0.0.1:1234>10.0.0.2:443/6, missed 0
line 8 kept 6 lawful 5|AAAAAA|lane 1, readers 1, asks 3|watched 10.0.0.1:1234>10.0.0.2:443/6, worker 0 pushes 2 refused 4, refused 0 1-3, refused 0 5-5, answer 0 0 folded 1 front 1 shown 1, answer 0 1 folded 2 front 2 shown 6, answer 0 2 folded 2 front 2 shown 5, live 10.0.0.1:1234>10.0.0.2:443/6, missed 0
- the line of a live key fails
line 4 kept 10.0.0.1:9>10.0.0.2:9/6 lawful none|AAAAAA||worker 0 pushes 6 refused 0, live 10.0.0.1:9>10.0.0.2:9/6, missed 0
line 4 kept 10.0.0.1:1234>10.0.0.2:443/6 lawful none|AAAAAA|sketch loglog, columns 128|worker 0 pushes 1 refused 0, live 10.0.0.1:1234>10.0.0.2:443/6, missed 0
line 5 kept 10.0.0.1:1234>10.0.0.2:443/6 lawful 4|AAAAAA||worker 0 pushes 6 refused 0, live 10.0.0.1:1234>10.0.0.2:443/6, live 10.0.0.1:1234>10.0.0.2:443/6, missed 0
line 5 kept 2 lawful 1|ABA|heavy 1, least 2|worker 0 pushes 3 refused 0, live 10.0.0.1:1236>10.0.0.2:443/6, live 10.0.0.1:1234>10.0.0.2:443/6, missed 0
line 4 kept 4 lawful 5|AAAA||worker 0 pushes 4 refused 0, live 10.0.0.1:1234>10.0.0.2:443/6, missed 0
line 4 kept 10.0.0.1:1234>10.0.0.2:443/6 lawful 10.0.0.1:1236>10.0.0.2:443/6|AB|least 2|worker 0 pushes 2 refused 0, live 10.0.0.1:1234>10.0.0.2:443/6, missed 0
line 5 kept 10.0.0.1:1234>10.0.0.2:443/6 lawful none|AB|least 2|worker 0 pushes 2 refused 0, live 10.0.0.1:1236>10.0.0.2:443/6, live 10.0.0.1:1234>10.0.0.2:443/6, missed 0
- the line of the missed fails
line 5 kept 1 lawful 0|AAAAAA||worker 0 pushes 6 refused 0, live 10.0.0.1:1234>10.0.0.2:443/6, missed 1
line 4 kept 1 lawful 0|AAAAAA|sketch loglog, columns 128|worker 0 pushes 1 refused 0, missed 1
line 5 kept 3 lawful 2|ABA|heavy 1, least 2|worker 0 pushes 3 refused 0, live 10.0.0.1:1236>10.0.0.2:443/6, missed 3
line 5 kept 0 lawful 1|ABA|heavy 1, least 2|worker 0 pushes 3 refused 0, live 10.0.0.1:1236>10.0.0.2:443/6, missed 0
line 5 kept 1 lawful 0|AAAAAB|columns 2, heavy 1|worker 0 pushes 6 refused 0, live 10.0.0.1:1234>10.0.0.2:443/6, missed 1
line 4 kept 0 lawful 1|AAAAAA|sketch count-sketch|worker 0 pushes 6 refused 0, missed 0
line 5 kept 2 lawful 1|ABA|heavy 1, least 2|worker 0 pushes 3 refused 0, live 10.0.0.1:1236>10.0.0.2:443/6, missed 2
";

/// Here the first line that differs is told.
const ROUNDS: &str = "
lawful|AAAAAA|lane 1, mode rounds, readers 1, asks 3|watched 10.0.0.1:1234>10.0.0.2:443/6, worker 0 pushes 2 refused 4, refused 0 1-3, refused 0 5-5, answer 0 0 folded 1 front 1 shown 1, answer 0 1 folded 2 front 2 shown 5, answer 0 2 folded 2 front 2 shown 5, live 10.0.0.1:1234>10.0.0.2:443/6, missed 0
line 8 kept 6 lawful 5|AAAAAA|lane 1, mode rounds, readers 1, asks 3|watched 10.0.0.1:1234>10.0.0.2:443/6, worker 0 pushes 2 refused 4, refused 0 1-3, refused 0 5-5, answer 0 0 folded 1 front 1 shown 1, answer 0 1 folded 2 front 2 shown 6, answer 0 2 folded 2 front 2 shown 5, live 10.0.0.1:1234>10.0.0.2:443/6, missed 0
line 4 kept 3 lawful 2|AAAAAA|lane 1, mode rounds, readers 1, asks 3|watched 10.0.0.1:1234>10.0.0.2:443/6, worker 0 pushes 3 refused 3, refused 0 1-3, answer 0 0 folded 1 front 1 shown 1, answer 0 1 folded 2 front 2 shown 5, answer 0 2 folded 2 front 2 shown 5, live 10.0.0.1:1234>10.0.0.2:443/6, missed 0
line 10 kept missed lawful live|AAAAAA|lane 1, mode rounds, readers 1, asks 3|watched 10.0.0.1:1234>10.0.0.2:443/6, worker 0 pushes 2 refused 4, refused 0 1-3, refused 0 5-5, answer 0 0 folded 1 front 1 shown 1, answer 0 1 folded 2 front 2 shown 5, answer 0 2 folded 2 front 2 shown 5, missed 0
";

#[test]
fn journals_of_threads_are_judged(rt: HostRuntime) -> Result<(), Fail> {
    assert!(rt; judge_each(&rt, rt.alloc(), THREADS)? == 32);
    Ok(())
}

#[test]
fn journals_of_rounds_are_judged(rt: HostRuntime) -> Result<(), Fail> {
    assert!(rt; judge_each(&rt, rt.alloc(), ROUNDS)? == 4);
    Ok(())
}
