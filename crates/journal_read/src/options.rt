ghost use Rattle.std.specs.Prelude.{◌≡◌, ◌≢◌, ◌++◌, ℕ, List, MatchOption, IfOk, IfSome, true, false};
ghost use Rattle.hash_rows.specs.declared.options.Options.{Options};
ghost use Rattle.hash_rows.specs.Lawful.{IsLawful};
ghost use Rattle.octo_text.specs.Lines.{sketch_words};
ghost use Rattle.octo_text.specs.JournalText.{share_words, lane_words, query_words, options_line};
ghost use Rattle.journal_read.specs.Numbers.{begins_digit};
ghost use Rattle.journal_read.specs.Terms.{told_options, IsSketchOf, IsShareOf, AreLanesOf, AreQueriesOf};

use crate::choices::{amount_behind, full_behind, mode_behind, share_behind, sketch_behind};
use crate::lawful::is_lawful;
use crate::numbers::{number_behind, signed_behind, skip, small_behind};
use flow_base::NoMemory;
use hash_rows::{Amount, Full, Mode, Options, Shape, Share, Sketch};
use listed::Listed;
use octo_text::options_line;
use std::alloc::Global;

// The groups of words of the line, in its order.

#[derive(Clone, Copy)]
struct SketchWords {
    sketch: Sketch,
    shape: Shape,
    amount: Amount,
}

#[derive(Clone, Copy)]
struct ShareWords {
    share: Share,
    workers: u32,
    threshold: u64,
}

#[derive(Clone, Copy)]
struct LaneWords {
    lane: u32,
    batch: u32,
    round: u32,
    full: Full,
}

#[derive(Clone, Copy)]
struct QueryWords {
    mode: Mode,
    readers: u32,
    asks: u32,
    heavy: u32,
    least: i64,
}

fn sketch_in(text: &[u8]) -> (SketchWords, &[u8])
    ensures { (o : Options) (rest : List ℕ) → IsLawful o → text.now ≡ sketch_words o.sketch o.shape o.amount ++ rest
        → IsSketchOf o result.0 × (result.1.now ≡ rest) }
{
    let (sketch, rest) = sketch_behind(text, b"sketch ");
    let (rows, rest) = small_behind(rest, b" rows ");
    let (columns, rest) = small_behind(rest, b" columns ");
    let (amount, rest) = amount_behind(rest, b" amount ");
    let shape = Shape { rows, columns };
    (
        SketchWords {
            sketch,
            shape,
            amount,
        },
        rest,
    )
}

fn share_in(text: &[u8]) -> (ShareWords, &[u8])
    ensures { (o : Options) (rest : List ℕ) → IsLawful o → begins_digit rest ≡ false → text.now ≡ share_words o ++ rest
        → IsShareOf o result.0 × (result.1.now ≡ rest) }
{
    let (share, rest) = share_behind(text, b" share ");
    let (workers, rest) = small_behind(rest, b" workers ");
    let (threshold, rest) = number_behind(rest, b" threshold ");
    (
        ShareWords {
            share,
            workers,
            threshold,
        },
        rest,
    )
}

fn lanes_in(text: &[u8]) -> (LaneWords, &[u8])
    ensures { (o : Options) (rest : List ℕ) → IsLawful o → text.now ≡ lane_words o ++ rest
        → AreLanesOf o result.0 × (result.1.now ≡ rest) }
{
    let (lane, rest) = small_behind(text, b" lane ");
    let (batch, rest) = small_behind(rest, b" batch ");
    let (round, rest) = small_behind(rest, b" round ");
    let (full, rest) = full_behind(rest, b" full ");
    (
        LaneWords {
            lane,
            batch,
            round,
            full,
        },
        rest,
    )
}

fn queries_in(text: &[u8]) -> QueryWords
    ensures { (o : Options) (rest : List ℕ) → IsLawful o → begins_digit rest ≡ false → text.now ≡ query_words o ++ rest
        → AreQueriesOf o result }
{
    let (mode, rest) = mode_behind(text, b" mode ");
    let (readers, rest) = small_behind(rest, b" readers ");
    let (asks, rest) = small_behind(rest, b" asks ");
    let (heavy, rest) = small_behind(rest, b" heavy ");
    let (least, _) = signed_behind(rest, b" least ");
    QueryWords {
        mode,
        readers,
        asks,
        heavy,
        least,
    }
}

fn options_in(alloc: Global, line: &[u8]) -> Result<Options, NoMemory>
    ensures told { IfOk result (λ said. told_options said ≡ said) }
    ensures said { IfOk result (λ said. (o : Options) → IsLawful o → line.now ≡ options_line o → said ≡ told_options o) }
{
    let watch = Listed::new(alloc, 16)?;
    let (sketch, rest) = sketch_in(skip(line, 8));
    let (share, rest) = share_in(rest);
    let (lanes, rest) = lanes_in(rest);
    let queries = queries_in(rest);
    Ok(Options {
        sketch: sketch.sketch,
        shape: sketch.shape,
        amount: sketch.amount,
        share: share.share,
        workers: share.workers,
        threshold: share.threshold,
        lane: lanes.lane,
        batch: lanes.batch,
        round: lanes.round,
        full: lanes.full,
        mode: queries.mode,
        readers: queries.readers,
        asks: queries.asks,
        watch,
        heavy: queries.heavy,
        least: queries.least,
        journal: true,
    })
}

fn is_options(line: &[u8], said: &Options) -> bool
    ensures yes { result ≡ true → line.now ≡ options_line said.now }
    ensures no { result ≡ false → line.now ≢ options_line said.now }
{
    let mut text = options_line(said);
    text.text(b"\n");
    text.as_slice() == line
}

/// The options that the line says, exactly where it is the line of lawful options. They have no
/// watched key yet, and room for 16.
pub fn read_options(alloc: Global, line: &[u8]) -> Result<Option<Options>, NoMemory>
    ensures some { IfOk result (λ read. IfSome read (λ said. IsLawful said × (told_options said ≡ said))) }
    ensures line { IfOk result (λ read. MatchOption read
        ((o : Options) → IsLawful o → line.now ≢ options_line o)
        (λ said. line.now ≡ options_line said)) }
{
    let said = options_in(alloc, line)?;
    if is_lawful(&said) && is_options(line, &said) {
        Ok(Some(said))
    } else {
        Ok(None)
    }
}
