//! Makes a published pair.
ghost use Rattle.std.specs.Prelude.{◌≡◌, ◌<◌, ◌≤◌, [], length, IfOk, All};
ghost use Rattle.hash_rows.specs.Shapes.{IsShape};
ghost use Rattle.live_view.specs.Views.{layout_for};

use crate::history::HistoryWriter;
use crate::published::Published;
use crate::view::View;
use crate::writer::ViewWriter;
use flow_base::NoMemory;
use hash_rows::{Kind, Shape};
use left_right::writer::Writer;
use listed::Listed;
use live_state::Layout;
use std::alloc::Global;
use std::sync::Wait;

/// The views of a published pair.
pub type Views<K> = Listed<View<K>>;

/// A writer and so many views.
pub fn make_views<K: Kind, R: Wait>(
    rt: &R,
    alloc: Global,
    readers: u32,
    shape: Shape,
    workers: u32,
    heavy: u32,
    least: i64,
) -> Result<(ViewWriter<K>, Views<K>), NoMemory>
    requires readers { readers < 65536 }
    requires shape { IsShape shape }
    requires heavy { (1 ≤ heavy) × (heavy ≤ 1024) }
    ensures writer { IfOk result (λ t. (t.0.published ≡ []) × (t.0.pending ≡ []) × (t.0.layout ≡ layout_for shape workers heavy least)) }
    ensures count { IfOk result (λ t. length t.1.items ≡ readers) }
    ensures views { IfOk result (λ t. All (λ v. (v.book ≡ t.0.book) × (v.layout ≡ t.0.layout) × (v.known ≡ []) × (v.told ≡ [])) t.1.items) }
{
    let mut views = Listed::new(alloc, readers)?;
    let layout = Layout {
        shape,
        workers,
        heavy,
        least,
    };
    let history_writer = HistoryWriter::open();
    let first = Published::new(alloc, &layout, history_writer.prefix.again())?;
    let second = Published::new(alloc, &layout, history_writer.prefix.again())?;
    let Ok(writer) = Writer::new(alloc, first, second, readers as usize + 1) else {
        return Err(NoMemory);
    };
    let mut writer = ViewWriter::over(rt, writer, layout, history_writer);
    for _ in 0..readers {
        let view = writer.view(rt);
        views.push(view);
    }
    Ok((writer, views))
}
